ghost use Rattle.std.specs.Prelude.{◌≡◌, ◌+◌, ◌<◌, IfOk, OnSome, option_map, vec_items};
ghost use Rattle.src_tree.specs.Prelude.{expr_tree};
ghost use Rattle.strength_reduction.specs.Prelude.{code_of};
ghost use Rattle.block_cache_gen.specs.Codes.{is_product, may_step, steps_at};
ghost use Rattle.block_cache_gen.specs.TreeWords.{HasWords};

use crate::emitter::Emitter;
use gr_base::Memory;
use gr_word::Op;
use lt_isa::Instr;
use src_tree::Expr;
use strength_reduction::code_by_number;

/// Whether an operation is a product, a quotient or a remainder.
pub(crate) fn is_product(op: Op) -> bool
    ensures { result ≡ is_product op }
{
    match op {
        Op::Mul | Op::Div | Op::Rem | Op::Remu => true,
        Op::Add | Op::Sub | Op::And | Op::Or | Op::Xor | Op::Shl | Op::Shr => false,
    }
}

/// Whether steps may replace an operation with this right side.
pub(crate) fn may_step<'a>(emitter: &Emitter<'a, '_, '_>, op: Op, right: &'a Expr) -> bool
    ensures { result ≡ may_step emitter.now op (expr_tree right.now) }
{
    match right {
        Expr::Num(_) => emitter.reduces() && is_product(op),
        Expr::Var(_) => false,
        Expr::Item(_, _) => false,
        Expr::Bin(_, _, _) => false,
    }
}

/// The code of the steps that replace an operation with this right side, if there are any. The only error is running
/// out of memory.
pub(crate) fn steps_code<'a>(
    emitter: &Emitter<'a, '_, '_>,
    op: Op,
    right: &'a Expr,
    to: u8,
) -> Result<Option<Vec<Instr>>, Memory>
    requires registers { to + 2 < 28 }
    ensures code { IfOk result (λ found. option_map vec_items found
        ≡ option_map (code_of to) (steps_at emitter.now op (expr_tree right.now))) }
    ensures words { IfOk result (λ found. OnSome found (HasWords (expr_tree right.now))) }
{
    match right {
        Expr::Num(value) => {
            if emitter.reduces() && is_product(op) {
                code_by_number(emitter.alloc(), op, *value, to)
            } else {
                Ok(None)
            }
        }
        Expr::Var(_) => Ok(None),
        Expr::Item(_, _) => Ok(None),
        Expr::Bin(_, _, _) => Ok(None),
    }
}
