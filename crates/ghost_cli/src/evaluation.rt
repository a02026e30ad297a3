ghost use Rattle.std.specs.Prelude.{◌≡◌, IfOk};
ghost use Rattle.gr_word.specs.Prelude.{FitsWants};
ghost use Rattle.src_tree.specs.Prelude.{source_of};
ghost use Rattle.flow_types.specs.Prelude.{declared_wants};
ghost use Rattle.ghost_cli.specs.Evaluated.{LeavesText};

use flow_types::Typed;
use gr_base::Memory;
use gr_word::{Inputs, Want};
use run_data::output_text;
use source_meaning::{Outcome, eval};
use std::alloc::Global;

/// Evaluates a program on inputs that fit it.
pub(crate) fn evaluate_to_end(
    alloc: Global,
    program: &Typed,
    wants: &[Want],
    inputs: Inputs,
    turns: u32,
) -> Result<Left, Memory>
    requires wants { wants.now ≡ declared_wants program.now.decls.items }
    requires fits { FitsWants wants.now inputs }
    ensures { IfOk result (λ left. LeavesText (source_of program.now) inputs turns left) }
{
    match eval(alloc, program, inputs, u64::from(turns))? {
        Outcome::Done(values) => Ok(Left::Done(output_text(alloc, wants, &values)?)),
        Outcome::Spent => Ok(Left::Spent),
    }
}

/// How an evaluation ended: it was done and left the values of this text, or the loops took more turns than there were.
#[derive(Drop)]
pub enum Left {
    Done(Vec<u8>),
    Spent,
}
