ghost use Rattle.std.specs.Prelude.{IfErr, IfOk, List, ℤ};
ghost use Rattle.lt_isa.specs.Prelude.{Parts, IsInRange, FitsObject};
ghost use Rattle.call_replies.specs.Prelude.{said};
ghost use Rattle.call_steps.specs.Outside.{stage};
ghost use Rattle.call_steps.specs.Reached.{HasReached, HasStopped, with_given};
ghost use Rattle.call_steps.specs.Work.{Work};

use crate::reading::{find_accepted, find_inputs};
use call_replies::replies::Reply;
use gr_outside::Shelf;
use gr_word::Inputs;
use lt_checker::Accepted;
use std::alloc::Global;

/// An accepted object, and inputs that fit it.
#[derive(Drop)]
pub struct Given {
    pub accepted: Accepted,
    pub inputs: Inputs,
}

/// The accepted object of one file and the inputs of another, or the reply if there are none.
pub fn find_given<'a, F: Shelf>(
    alloc: Global,
    object: &'a str,
    input: &'a str,
    shelf: &mut F,
) -> Result<Given, Reply<'a>>
    ensures found { IfOk result (λ given. (next : Parts → List (List ℤ) → Work) → HasReached
        (stage (F.seen shelf.old) (F.log shelf.old)) (stage (F.seen shelf.new) (F.log shelf.new))
        (with_given object.now input.now next) (next given.accepted given.inputs)) }
    ensures in_range { IfOk result (λ given. IsInRange given.accepted) }
    ensures fits { IfOk result (λ given. FitsObject given.accepted given.inputs) }
    ensures stopped { IfErr result (λ reply. (next : Parts → List (List ℤ) → Work) → HasStopped
        (stage (F.seen shelf.old) (F.log shelf.old)) (stage (F.seen shelf.new) (F.log shelf.new))
        (with_given object.now input.now next) (said reply)) }
{
    let accepted = find_accepted(alloc, object, shelf)?;
    let inputs = find_inputs(alloc, &accepted, input, shelf)?;
    Ok(Given { accepted, inputs })
}
