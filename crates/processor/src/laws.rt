ghost use Rattle.std.specs.Prelude.{◌≡◌, ℕ, ◌≤◌, ℤ, List, ◌++◌, Option, Some};
ghost use Rattle.lt_isa.specs.Prelude.{Observed, State, Parts, IsInRange, IsShaped, FitsObject, final, start_state, Goes, Stops, step, Reaches, Stamped, final_from, trace_from};
ghost use Rattle.banks.specs.Prelude.{accesses_from, in_bank};
ghost use Rattle.processor.specs.Ends.{EndsAs};
ghost use Rattle.processor.specs.Joining.{RunsJoin};
ghost use Rattle.processor.specs.ListWatching.{paths_in};
ghost use Rattle.processor.specs.ObliviousBanks.{ComeBy, ShowsOn, oram_of};
ghost use Rattle.processor.specs.PathsTold.{ArePathsOf, paths_of};
ghost use Rattle.processor.specs.Watching.{events_in, run_shown, with_paths};

use crate::ends::End;
use banks::{Bank, Leaves};

/// Does nothing; its clause is a law of runs: if a run up to a cycle was spent, it and a run from there on together
/// show what one run shows, make its accesses, end as it ends, and leave the state that it leaves. So two consecutive
/// calls of [`run`](crate::Machine::run) report to a watcher what one call reports.
pub fn runs_join()
    ensures { (o : Parts)
        → IsInRange o
        → (s : State)
        → IsShaped o s
        → (n m : ℕ)
        → n ≤ m
        → EndsAs (trace_from o s n) End.Spent
        → RunsJoin o s n m }
{}

/// Does nothing; its clauses are the laws of the states of a run: each has the sizes of its object, and holds words.
/// This is true at the start on inputs that fit the object, after every step, and of the state that a run leaves. So
/// the laws of runs, as [`runs_join`] and those of `lt_isa` and of `banks`, apply to every state of a run from the
/// start.
pub fn shaped_laws()
    ensures starts { (o : Parts) (inputs : List (List ℤ)) → FitsObject o inputs → IsShaped o (start_state o inputs) }
    ensures goes_on { (o : Parts)
        → IsInRange o
        → (s : State)
        → IsShaped o s
        → (event : Option Observed) (next : State)
        → step o s ≡ Goes event next
        → IsShaped o next }
    ensures stops { (o : Parts)
        → IsInRange o
        → (s : State)
        → IsShaped o s
        → (last : State)
        → step o s ≡ Stops last
        → IsShaped o last }
    ensures reached { (o : Parts)
        → IsInRange o
        → (s : State)
        → IsShaped o s
        → (events : List Stamped) (t : State)
        → Reaches o s events t
        → IsShaped o t }
    ensures left { (o : Parts) → IsInRange o → (s : State) → IsShaped o s → (n : ℕ) → IsShaped o (final_from o s n) }
    ensures run { (o : Parts)
        → IsInRange o
        → (inputs : List (List ℤ))
        → FitsObject o inputs
        → (n : ℕ)
        → IsShaped o (final o inputs n) }
{}

/// Does nothing; its clause is a law of what [`run`](crate::Machine::run) reports: for any paths of the oblivious
/// banks, the events among the reports are those of the trace.
pub fn events_told()
    ensures { (events : List Stamped) → (paths : ℕ → List Leaves) → events_in (with_paths events paths) ≡ events }
{}

/// Does nothing; its clauses are laws of the paths of oblivious banks that [`run`](crate::Machine::run) reports. The
/// paths that are reported for a bank are those that it shows for the accesses made to it, each after its access and
/// with its stamp. And if a run up to a cycle was spent, it and a run from there on, over banks that continue to show
/// their paths, together report what one run reports, paths included.
pub fn paths_told<B: Bank>()
    ensures paths { (b : ℕ)
        → 2 ≤ b
        → (o : Parts) (s : State) (orams : List B) (n : ℕ) (bank : B)
        → oram_of orams b ≡ Some bank
        → ArePathsOf b (trace_from o s n) (B.shows bank (in_bank b (accesses_from o s n)))
        (paths_of b (paths_in 0 (run_shown B.shows o s orams n))) }
    ensures runs_join { (o : Parts)
        → IsInRange o
        → (s : State)
        → IsShaped o s
        → (n m : ℕ)
        → n ≤ m
        → EndsAs (trace_from o s n) End.Spent
        → (before now : List B)
        → ComeBy (ShowsOn B.shows) before (accesses_from o s n) now
        → run_shown B.shows o s before m
        ≡ run_shown B.shows o s before n ++ run_shown B.shows o (final_from o s n) now m }
{}
