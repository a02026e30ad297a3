ghost use Rattle.std.specs.Prelude.{◌≡◌, ◌+◌, ◌*◌, ◌≤◌, OnOk, OnSome, length, option_map, vec_items};
ghost use Rattle.src_tree.specs.Prelude.{context_of, height_of, tree_weight, expr_tree, TypedTree};
ghost use Rattle.lt_isa.specs.Prelude.{most_instructions};
ghost use Rattle.block_cache_gen.specs.Emitted.{EmitsAccess, EmitsExpr, EmitsOperand, EmitsOperation, CodeGrows};
ghost use Rattle.strength_reduction.specs.Prelude.{code_of};
ghost use Rattle.block_cache_gen.specs.Codes.{steps_at};
ghost use Rattle.block_cache_gen.specs.Homes.{room_of};
ghost use Rattle.block_cache_gen.specs.TreeWords.{HasWords};
ghost use Rattle.block_cache_gen.specs.Variables.{home_in};

use crate::accesses::{Access, fixed_index, put_fixed_access, put_found_access, put_scalar};
use crate::elements::put_element;
use crate::emitter::{Emitter, label_of};
use crate::frames::{CodeBuf, Mode, PutResult};
use crate::operands::{index_operand, left_operand, operand, operand_mask, operand_register};
use crate::steps::steps_code;
use crate::variables::Variable;
use gr_word::Op;
use lt_isa::Instr;
use src_tree::Expr;

/// Appends what leaves the value of an expression in register `to`. The mask says which registers may be secret in its
/// notes. The only error is running out of memory.
#[cycle(expressions)]
pub(crate) fn put_expr<'a>(
    emitter: &Emitter<'a, '_, '_>,
    out: &mut CodeBuf,
    e: &'a Expr,
    to: u8,
    mode: Mode,
    mask: u32,
) -> PutResult
    requires typed { TypedTree (context_of emitter.now.decls) (expr_tree e.now) }
    requires registers { to + height_of (expr_tree e.now) ≤ room_of emitter.now }
    requires room { length out.old.code.items + 120 * tree_weight (expr_tree e.now) ≤ most_instructions }
    ensures emitted { OnOk result (EmitsExpr emitter.now mode mask to (expr_tree e.now) out.old out.new) }
    ensures words { OnOk result (HasWords (expr_tree e.now)) }
    ensures grows { CodeGrows out.old out.new }
{
    match e {
        Expr::Num(value) => out.put(&[Instr::Li {
            rd: to,
            value: *value,
        }]),
        Expr::Var(name) => put_scalar(out, emitter.variable(name.bytes()), to),
        Expr::Item(name, index) => {
            let array = emitter.variable(name.bytes());
            let access = Access {
                array,
                to,
                mode,
                mask,
            };
            put_access(emitter, out, access, index)?;
            put_element(emitter, out, array, index, to)
        }
        Expr::Bin(op, left, right) => {
            let steps = steps_code(emitter, *op, right, to)?;
            let held = left_operand(emitter, *op, left, right, steps.is_some());
            put_operand(emitter, out, left, held, to, mode, mask)?;
            let mask = operand_mask(held, label_of(emitter, left), mask, to);
            let from = operand_register(held, to);
            put_operation(emitter, out, *op, right, steps, from, to, mode, mask)
        }
    }
}

/// Appends what leaves an operand in its register: nothing if a register holds it for the whole run. The only error is
/// running out of memory.
#[cycle(expressions)]
pub(crate) fn put_operand<'a>(
    emitter: &Emitter<'a, '_, '_>,
    out: &mut CodeBuf,
    e: &'a Expr,
    held: Option<u8>,
    to: u8,
    mode: Mode,
    mask: u32,
) -> PutResult
    requires typed { TypedTree (context_of emitter.now.decls) (expr_tree e.now) }
    requires known { OnSome held (HasWords (expr_tree e.now)) }
    requires registers { to + height_of (expr_tree e.now) ≤ room_of emitter.now }
    requires room { length out.old.code.items + 120 * tree_weight (expr_tree e.now) ≤ most_instructions }
    ensures emitted { OnOk result (EmitsOperand emitter.now mode mask to held (expr_tree e.now) out.old out.new) }
    ensures words { OnOk result (HasWords (expr_tree e.now)) }
    ensures grows { CodeGrows out.old out.new }
{
    match held {
        Some(_) => out.put(&[]),
        None => put_expr(emitter, out, e, to, mode, mask),
    }
}

/// Appends what makes of the left side of an operation, in register `left`, the result in register `to`: the steps that
/// replace the operation, or the code of the right side and the operation. The only error is running out of memory.
#[cycle(expressions)]
pub(crate) fn put_operation<'a>(
    emitter: &Emitter<'a, '_, '_>,
    out: &mut CodeBuf,
    op: Op,
    right: &'a Expr,
    steps: Option<Vec<Instr>>,
    left: u8,
    to: u8,
    mode: Mode,
    mask: u32,
) -> PutResult
    requires typed { TypedTree (context_of emitter.now.decls) (expr_tree right.now) }
    requires steps { option_map vec_items steps ≡ option_map (code_of to) (steps_at emitter.now op (expr_tree right.now)) }
    requires known { OnSome steps (HasWords (expr_tree right.now)) }
    requires registers { to + (height_of (expr_tree right.now) + 1) ≤ room_of emitter.now }
    requires room { length out.old.code.items + 120 * (1 + tree_weight (expr_tree right.now)) ≤ most_instructions }
    ensures emitted { OnOk result
        (EmitsOperation emitter.now mode mask to left op (expr_tree right.now) out.old out.new) }
    ensures words { OnOk result (HasWords (expr_tree right.now)) }
    ensures grows { CodeGrows out.old out.new }
{
    match steps {
        Some(code) => out.put(&code),
        None => {
            let held = operand(emitter, right);
            put_operand(emitter, out, right, held, to + 1, mode, mask)?;
            out.put(&[Instr::Alu {
                op,
                rd: to,
                ra: left,
                rb: operand_register(held, to + 1),
            }])
        }
    }
}

/// Appends code that leaves the number of an element's word in register `to`, and the element's block in the array's
/// slot. The only error is running out of memory.
#[cycle(expressions)]
pub(crate) fn put_access<'a>(
    emitter: &Emitter<'a, '_, '_>,
    out: &mut CodeBuf,
    access: Access,
    index: &'a Expr,
) -> PutResult
    requires length { 1 ≤ access.array.place.length }
    requires typed { TypedTree (context_of emitter.now.decls) (expr_tree index.now) }
    requires registers { access.to ≤ 25 }
    requires height { access.to + height_of (expr_tree index.now) ≤ room_of emitter.now }
    requires room { length out.old.code.items + 120 * (1 + tree_weight (expr_tree index.now)) ≤ most_instructions }
    ensures emitted { OnOk result (EmitsAccess emitter.now access.mode (home_in access.array) access.mask access.to
        (expr_tree index.now) out.old out.new) }
    ensures words { OnOk result (HasWords (expr_tree index.now)) }
    ensures grows { CodeGrows out.old out.new }
{
    let Access { array, to, .. } = access;
    match fixed_index(array, index) {
        Some(number) => put_fixed_access(emitter, out, access, number),
        None => {
            let held = index_operand(emitter, access.mode, array, index);
            put_operand(emitter, out, index, held, to, access.mode, access.mask)?;
            let from = operand_register(held, to);
            put_found_access(emitter, out, access, index, from)
        }
    }
}
