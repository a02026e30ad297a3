ghost use Rattle.std.specs.Prelude.{◌≡◌, IfOk};
ghost use Rattle.gr_word.specs.Prelude.{FitsWants};
ghost use Rattle.src_tree.specs.Prelude.{source_of, meaning};
ghost use Rattle.flow_types.specs.Prelude.{declared_wants};
ghost use Rattle.source_meaning.specs.Outcomes.{left_of, LeftFits};

use crate::executing::execute_block;
use flow_types::Typed;
use gr_base::Memory;
use gr_word::Inputs;
use std::alloc::Global;

/// How an evaluation ends.
#[derive(Drop)]
pub enum Outcome {
    /// The program has finished with these values of its variables, in the order of declaration.
    Done(Inputs),
    /// Its loops need more iterations than there were.
    Spent,
}

/// Evaluates a program on the values of its variables. All its loops together may execute `turns` iterations. The
/// result is exactly the program's meaning. A loop is copied when it is reached, with numbers of variables instead of
/// names; nothing else needs memory.
pub fn eval(alloc: Global, t: &Typed, s: Inputs, turns: u64) -> Result<Outcome, Memory>
    requires { FitsWants (declared_wants t.now.decls.items) s }
    ensures left { IfOk result (λ outcome. left_of outcome ≡ meaning (source_of t.now) s turns) }
    ensures fits { IfOk result (λ outcome. LeftFits (declared_wants t.now.decls.items) outcome) }
{
    let program = t.program();
    let decls = program.decls.as_slice();
    let body = program.body.as_slice();
    let mut store = s;
    match execute_block(alloc, decls, &mut store, turns, body)? {
        Some(_) => Ok(Outcome::Done(store)),
        None => Ok(Outcome::Spent),
    }
}
