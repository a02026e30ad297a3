ghost use Rattle.std.specs.Prelude.{◌≡◌, ◌↔◌, ℕ, ◌+◌, ◌*◌, ◌<◌, ◌≤◌, false, ℤ, pos, List, length, All, IsTrue};
ghost use Rattle.gr_word.specs.Prelude.{IsWord};
ghost use Rattle.lt_isa.specs.Machine.{State};
ghost use Rattle.lt_isa.specs.Object.{Parts, block_words, blocks_of, usual_profile};
ghost use Rattle.lt_isa.specs.Outputs.{bank_word_numbered, outputs};
ghost use Rattle.lt_isa.specs.Ranges.{IsInRange, ProfileFits};
ghost use Rattle.lt_isa.specs.Runs.{AreFinals, AreTraces};
ghost use Rattle.lt_isa.specs.Samples.{OneSecret, one_word};
ghost use Rattle.lt_isa.specs.Shape.{IsShaped};
ghost use Rattle.lt_isa.specs.Start.{Agree, FitsObject, covers, start_state};
ghost use Rattle.lt_isa.specs.Step.{step_start};
ghost use Rattle.lt_isa.specs.Trace.{Stamped, final_from, trace_from};
ghost use Rattle.lt_isa.specs.Windows.{IsAccessStart, HasUnitPeriod, access_start, has_unit_period, most_wait};
ghost use Rattle.lt_isa.specs.declared.profiles.Profile.{Profile};

/// Does nothing; its clauses are the laws of runs. The traces and the final states of runs satisfy the relations that
/// define them, and nothing else does. At the start the variables have the words of the inputs, and every other word is
/// 0. Inputs may agree and still differ, for example those of an object whose only variable is a secret scalar.
#[tactic(auto, using(crate::proofs::Sentences::are_traces, crate::proofs::Sentences::are_finals, crate::proofs::Sentences::no_other_traces, crate::proofs::Sentences::no_other_finals, crate::proofs::Sentences::secrets_differ, crate::proofs::StartOutputs::starts_with_inputs, crate::proofs::StartOutputs::starts_with_zeros))]
pub fn run_laws()
    ensures traces { (o : Parts) → IsInRange o → AreTraces o (trace_from o) }
    ensures no_other_traces { (o : Parts)
        → IsInRange o
        → (events : State → ℕ → List Stamped)
        → AreTraces o events
        → (s : State)
        → IsShaped o s
        → (n : ℕ)
        → events s n ≡ trace_from o s n }
    ensures finals { (o : Parts) → IsInRange o → AreFinals o (final_from o) }
    ensures no_other_finals { (o : Parts)
        → IsInRange o
        → (left : State → ℕ → State)
        → AreFinals o left
        → (s : State)
        → IsShaped o s
        → (n : ℕ)
        → left s n ≡ final_from o s n }
    ensures starts_with_inputs { (o : Parts)
        → IsInRange o
        → (inputs : List (List ℤ))
        → FitsObject o inputs
        → outputs o (start_state o inputs) ≡ inputs }
    ensures starts_with_zeros { (o : Parts) (inputs : List (List ℤ)) (b i : ℕ)
        → b < length o.banks
        → i < blocks_of o b * block_words o
        → All (λ s. covers (block_words o) s b i ≡ false) o.symbols
        → bank_word_numbered (block_words o) (start_state o inputs) b i ≡ pos 0 }
    ensures secrets_differ { (o : Parts)
        → OneSecret o → (x y : ℤ) → IsWord x → IsWord y → Agree o (one_word x) (one_word y) }
{}

/// Does nothing; its clauses are the laws of windows. An access starts at the first cycle at which the window is open,
/// from the cycle on at which the machine reaches the access. Only the profile and the machine's cycle determine that
/// start. An access waits at most as many cycles as the window is closed in a period, and not at all if the period is
/// one cycle. So a step starts no earlier than the machine's cycle, and no later than that wait after it.
pub fn window_laws()
    ensures starts { (p : Profile) → ProfileFits p → (cycle : ℕ) → IsAccessStart p cycle (access_start p cycle) }
    ensures no_other_starts { (p : Profile)
        → ProfileFits p
        → (cycle start : ℕ)
        → IsAccessStart p cycle start
        → start ≡ access_start p cycle }
    ensures waits { (p : Profile) → ProfileFits p → (cycle : ℕ) → access_start p cycle ≤ cycle + most_wait p }
    ensures unit_period { (p : Profile) → ProfileFits p → IsTrue (has_unit_period p) ↔ HasUnitPeriod p }
    ensures no_wait { (p : Profile) → HasUnitPeriod p → (cycle : ℕ) → access_start p cycle ≡ cycle }
    ensures usual { (block_log : ℕ) → HasUnitPeriod (usual_profile block_log) }
    ensures steps_not_before { (o : Parts) (s : State) → s.cycle ≤ step_start o s }
    ensures steps_wait { (o : Parts) → IsInRange o → (s : State) → step_start o s ≤ s.cycle + most_wait o.profile }
{}
