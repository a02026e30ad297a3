ghost use Rattle.std.specs.Prelude.{◌≡◌, ◌<◌, ◌+◌, true, IfSome, OnSome, is_some, option_map, vec_items};
ghost use Rattle.src_tree.specs.Prelude.{context_of, expr_tree, Operation, TypedTree};
ghost use Rattle.strength_reduction.specs.Prelude.{code_of};
ghost use Rattle.block_cache_gen.specs.declared.operands.StraightOperation.{StraightOperation};
ghost use Rattle.block_cache_gen.specs.Codes.{is_in_place, numbering, index_operand, left_operand, operand, operand_register, steps_at, is_straight, keeps_label, straight};
ghost use Rattle.block_cache_gen.specs.Notes.{operand_mask};
ghost use Rattle.block_cache_gen.specs.TreeWords.{HasWords};
ghost use Rattle.block_cache_gen.specs.Variables.{home_in};

use crate::accesses::{has_offset, marked_by, numbering};
use crate::emitter::{Emitter, label_of};
use crate::frames::Mode;
use crate::indexes::Numbering;
use crate::steps::may_step;
use crate::variables::Variable;
use gr_word::{Label, Name, Op};
use lt_isa::Instr;
use src_tree::{Expr, higher};

/// The register that holds the value of an expression for the whole run; `None` if no register does.
pub(crate) fn operand<'a>(emitter: &Emitter<'a, '_, '_>, e: &'a Expr) -> Option<u8>
    requires { TypedTree (context_of emitter.now.decls) (expr_tree e.now) }
    ensures register { result ≡ operand emitter.now (expr_tree e.now) }
    ensures words { OnSome result (HasWords (expr_tree e.now)) }
{
    match e {
        Expr::Num(value) => emitter.number_held(*value),
        Expr::Var(name) => emitter.variable(name.bytes()).held,
        Expr::Item(_, _) => None,
        Expr::Bin(_, _, _) => None,
    }
}

/// The same of the left side of an operation; `None` if steps replace the operation, which begin with the left side in
/// their own register.
pub(crate) fn left_operand<'a>(
    emitter: &Emitter<'a, '_, '_>,
    op: Op,
    left: &'a Expr,
    right: &'a Expr,
    has_steps: bool,
) -> Option<u8>
    requires typed { TypedTree (context_of emitter.now.decls) (expr_tree left.now) }
    requires steps { has_steps ≡ is_some (steps_at emitter.now op (expr_tree right.now)) }
    ensures register { result ≡ left_operand emitter.now op (expr_tree left.now) (expr_tree right.now) }
    ensures words { OnSome result (HasWords (expr_tree left.now)) }
{
    if has_steps {
        None
    } else {
        operand(emitter, left)
    }
}

// Whether an index must be in its own register.
fn is_in_place(array: Variable, numbering: Numbering) -> bool
    ensures { result ≡ is_in_place (home_in array) numbering }
{
    match numbering {
        Numbering::Compared => true,
        Numbering::Reduced => false,
        Numbering::Within => !has_offset(array),
    }
}

/// The same of the index of an element; `None` unless it is reduced or added to the number of the array's first word,
/// since otherwise it must be in its own register.
pub(crate) fn index_operand<'a>(
    emitter: &Emitter<'a, '_, '_>,
    mode: Mode,
    array: Variable,
    index: &'a Expr,
) -> Option<u8>
    requires { TypedTree (context_of emitter.now.decls) (expr_tree index.now) }
    ensures register { result ≡ index_operand emitter.now
        (numbering emitter.now mode (home_in array) (expr_tree index.now)) (home_in array) (expr_tree index.now) }
    ensures words { OnSome result (HasWords (expr_tree index.now)) }
{
    if is_in_place(array, numbering(emitter, mode, array, index)) {
        None
    } else {
        operand(emitter, index)
    }
}

/// The register of an operand: the one that holds it for the whole run, otherwise the one that its code leaves it in.
pub(crate) fn operand_register(held: Option<u8>, to: u8) -> u8
    ensures { result ≡ operand_register held to }
{
    match held {
        Some(register) => register,
        None => to,
    }
}

// Whether a result that isn't copied has the label of a scalar.
fn keeps_label(own: Label, value: Label) -> bool
    ensures { result ≡ keeps_label own value }
{
    match own {
        Label::Public => true,
        Label::Secret => match value {
            Label::Public => false,
            Label::Secret => true,
        },
    }
}

// Whether the last instruction of an operation may leave the result in the register that holds a scalar.
fn is_straight<'a>(
    emitter: &Emitter<'a, '_, '_>,
    name: &'a Name,
    op: Op,
    left: &'a Expr,
    right: &'a Expr,
) -> bool
    ensures { result ≡ is_straight emitter.now name.now op (expr_tree left.now) (expr_tree right.now) }
{
    emitter.reduces()
        && (!may_step(emitter, op, right)
            && keeps_label(
                emitter.label_at(name.bytes()),
                higher(label_of(emitter, left), label_of(emitter, right)),
            ))
}

/// An operation whose code leaves the result in the register that holds a scalar.
#[derive(Clone, Copy)]
pub(crate) struct StraightOperation<'a> {
    pub(crate) register: u8,
    pub(crate) op: Op,
    pub(crate) left: &'a Expr,
    pub(crate) right: &'a Expr,
}

/// The operation of a value whose code may leave the result in the register that holds a scalar; `None` if the value is
/// left in another register, and copied or stored.
pub(crate) fn straight<'a>(
    emitter: &Emitter<'a, '_, '_>,
    name: &'a Name,
    value: &'a Expr,
) -> Option<StraightOperation<'a>>
    requires { is_some (context_of emitter.now.decls name.now) ≡ true }
    ensures register { option_map (λ (s : StraightOperation). s.register) result
        ≡ straight emitter.now name.now (expr_tree value.now) }
    ensures operation { IfSome result (λ (s : StraightOperation). expr_tree value.now
        ≡ Operation s.op (expr_tree s.left.now) (expr_tree s.right.now)) }
{
    match value {
        Expr::Num(_) => None,
        Expr::Var(_) => None,
        Expr::Item(_, _) => None,
        Expr::Bin(op, left, right) => {
            if !is_straight(emitter, name, *op, left, right) {
                return None;
            }
            let register = emitter.variable(name.bytes()).held?;
            Some(StraightOperation {
                register,
                op: *op,
                left,
                right,
            })
        }
    }
}

/// The mask after an operand of a label, as [`marked_by`] states it of an expression.
pub(crate) fn operand_mask(held: Option<u8>, label: Label, mask: u32, register: u8) -> u32
    requires { register < 32 }
    ensures { result ≡ operand_mask held label mask register }
{
    match held {
        Some(_) => mask,
        None => marked_by(label, mask, register),
    }
}
