ghost use Rattle.std.specs.Prelude.{◌≡◌, ◌≤◌, IfSome};
ghost use Rattle.source_meaning.specs.Kept.{KeepsFit};
ghost use Rattle.source_meaning.specs.Placed.{placed_of, placed_check, action_of, actions_of_all, value_at, holds_at, act, act_all, with_turns, left_with};
ghost use Rattle.src_tree.specs.Prelude.{loop};

use crate::placed::{Check, Step, Term};
use crate::stores::{element, scalar, set_element, set_scalar};
use gr_word::{Inputs, apply, holds};

fn value(store: &Inputs, term: &Term) -> i64
    ensures { result ≡ value_at store.now (placed_of term.now) }
{
    match term {
        Term::Constant(word) => *word,
        Term::Scalar(k) => scalar(store, *k),
        Term::Element(k, index) => element(store, *k, value(store, index)),
        Term::Operation(op, left, right) => {
            let left = value(store, left);
            let right = value(store, right);
            apply(*op, left, right)
        }
    }
}

fn passes(store: &Inputs, check: &Check) -> bool
    ensures { result ≡ holds_at (placed_check check.now) store.now }
{
    let left = value(store, &check.left);
    let right = value(store, &check.right);
    holds(check.cmp, left, right)
}

// Executes one statement. Returns the iterations that are left, or `None` if a loop needed one more.
#[cycle(running)]
#[tactic(auto, using(crate::proofs::Keeping::keeps_same, crate::proofs::Keeping::keeps_then))]
pub(crate) fn run_step(store: &mut Inputs, turns: u64, step: &Step) -> Option<u64>
    ensures left { with_turns store.new result ≡ act (action_of step.now) (left_with store.old turns) }
    ensures fewer { IfSome result (λ more. more ≤ turns) }
    ensures kept { KeepsFit store.old store.new }
{
    match step {
        Step::SetScalar(k, term) => {
            let word = value(store, term);
            set_scalar(store, *k, word);
            Some(turns)
        }
        Step::SetElement(k, index, term) => {
            let index = value(store, index);
            let word = value(store, term);
            set_element(store, *k, index, word);
            Some(turns)
        }
        Step::Choice(check, first, second) => {
            if passes(store, check) {
                run_steps(store, turns, first.as_slice())
            } else {
                run_steps(store, turns, second.as_slice())
            }
        }
        Step::Loop(check, body) => run_loop(store, turns, check, body.as_slice()),
    }
}

#[cycle(running)]
#[tactic(auto, using(crate::proofs::Keeping::keeps_same, crate::proofs::Keeping::keeps_then))]
fn run_loop(store: &mut Inputs, turns: u64, check: &Check, body: &[Step]) -> Option<u64>
    ensures left { with_turns store.new result
        ≡ loop (holds_at (placed_check check.now)) (act_all (actions_of_all body.now)) (left_with store.old turns) }
    ensures fewer { IfSome result (λ more. more ≤ turns) }
    ensures kept { KeepsFit store.old store.new }
{
    let mut turns = turns;
    while passes(store, check) {
        if turns == 0 {
            return None;
        }
        match run_steps(store, turns - 1, body) {
            None => return None,
            Some(rest) => turns = rest,
        }
    }
    Some(turns)
}

// Executes statements in order.
#[cycle(running)]
#[tactic(auto, using(crate::proofs::Keeping::keeps_same, crate::proofs::Keeping::keeps_then))]
fn run_steps(store: &mut Inputs, turns: u64, steps: &[Step]) -> Option<u64>
    ensures left { with_turns store.new result ≡ act_all (actions_of_all steps.now) (left_with store.old turns) }
    ensures fewer { IfSome result (λ more. more ≤ turns) }
    ensures kept { KeepsFit store.old store.new }
{
    let mut turns = turns;
    for step in steps {
        match run_step(store, turns, step) {
            None => return None,
            Some(more) => turns = more,
        }
    }
    Some(turns)
}
