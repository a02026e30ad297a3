ghost use Rattle.std.specs.Prelude.{◌≡◌, ◌+◌, ◌*◌, ◌≤◌, OnOk, length};
ghost use Rattle.gr_word.specs.declared.variables.Label.{Label};
ghost use Rattle.src_tree.specs.Prelude.{context_of, height_of, LowStatement, statement_weight, test_weight, tree_weight, statement_of, test_of, expr_tree, Operation, SetVariable, SetElement, TypedStatement, TypedTest, TypedTree};
ghost use Rattle.lt_isa.specs.Prelude.{most_instructions};
ghost use Rattle.block_cache_gen.specs.Assignments.{IsAssignment};
ghost use Rattle.block_cache_gen.specs.Codes.{store_code, stored_code, target, write_code};
ghost use Rattle.block_cache_gen.specs.Emitted.{Appended, EmitsGuard, EmitsSet, EmitsStraight, CodeGrows, no_notes};
ghost use Rattle.block_cache_gen.specs.Homes.{room_of};
ghost use Rattle.block_cache_gen.specs.Variables.{home_in};
ghost use Rattle.block_cache_gen.specs.TreeWords.{HasWords, SetHasWords, TestHasWords};

use crate::accesses::{Access, marked_by, put_copy};
use crate::elements::{put_store, put_stored};
use crate::emitter::{Emitter, label_of};
use crate::expressions::{put_access, put_expr, put_operand};
use crate::frames::{CodeBuf, Mode, PutResult};
use crate::operands::{StraightOperation, operand, operand_mask, operand_register, straight};
use crate::variables::Variable;
use gr_word::{Name, Op};
use lt_isa::Instr;
use src_tree::{Expr, Guard, Stmt};

/// Appends code that leaves the two sides of a guard in a register and the next. It serves `branch_padding` and
/// `code_gen`: its clause names the code, and [`emit_guard`](crate::emit_guard) states what that code does.
pub fn put_guard<'a>(
    emitter: &Emitter<'a, '_, '_>,
    out: &mut CodeBuf,
    g: &'a Guard,
    to: u8,
    mode: Mode,
) -> PutResult
    requires typed { TypedTest (context_of emitter.now.decls) (test_of g.now) }
    requires left { to + height_of (expr_tree g.now.left) ≤ room_of emitter.now }
    requires right { to + 1 + height_of (expr_tree g.now.right) ≤ room_of emitter.now }
    requires room { length out.old.code.items + 120 * test_weight (test_of g.now) ≤ most_instructions }
    ensures emitted { OnOk result (EmitsGuard emitter.now mode to (test_of g.now) out.old out.new) }
    ensures words { OnOk result (TestHasWords (test_of g.now)) }
    ensures grows { CodeGrows out.old out.new }
{
    let base = emitter.base_mask();
    put_expr(emitter, out, &g.left, to, mode, base)?;
    let mask = marked_by(label_of(emitter, &g.left), base, to);
    put_expr(emitter, out, &g.right, to + 1, mode, mask)
}

// The register of an instruction whose result is for one that holds a scalar: register 0 in mirrored code.
fn target(mode: Mode, register: u8) -> u8
    ensures { result ≡ target mode register }
{
    match mode {
        Mode::Public => register,
        Mode::Real => register,
        Mode::Mirrored => 0,
    }
}

// Appends the write of the value in a register to a scalar, `once` as in [`put_store`].
fn put_write(out: &mut CodeBuf, once: bool, scalar: Variable, value: u8, mode: Mode) -> PutResult
    ensures appended { OnOk result (Appended out.old out.new
        (write_code once scalar.held scalar.label mode (home_in scalar) value) no_notes) }
    ensures grows { CodeGrows out.old out.new }
{
    if let Some(register) = scalar.held {
        return put_copy(out, scalar.label, target(mode, register), value);
    }
    out.put(&[Instr::Li {
        rd: 1,
        value: i64::from(scalar.place.word),
    }])?;
    put_store(out, once, scalar.slot, value, mode)
}

// Appends the code of an operation that leaves its result in a register.
fn put_straight<'a>(
    emitter: &Emitter<'a, '_, '_>,
    out: &mut CodeBuf,
    op: Op,
    left: &'a Expr,
    right: &'a Expr,
    to: u8,
    mode: Mode,
) -> PutResult
    requires typed { TypedTree (context_of emitter.now.decls)
        (Operation op (expr_tree left.now) (expr_tree right.now)) }
    requires low { height_of (Operation op (expr_tree left.now) (expr_tree right.now)) ≤ room_of emitter.now }
    requires room { length out.old.code.items
        + 120 * tree_weight (Operation op (expr_tree left.now) (expr_tree right.now)) ≤ most_instructions }
    ensures emitted { OnOk result (EmitsStraight emitter.now mode to
        (Operation op (expr_tree left.now) (expr_tree right.now)) out.old out.new) }
    ensures words { OnOk result (HasWords (Operation op (expr_tree left.now) (expr_tree right.now))) }
    ensures grows { CodeGrows out.old out.new }
{
    let base = emitter.base_mask();
    let first = operand(emitter, left);
    put_operand(emitter, out, left, first, 0, mode, base)?;
    let mask = operand_mask(first, label_of(emitter, left), base, 0);
    let second = operand(emitter, right);
    put_operand(emitter, out, right, second, 1, mode, mask)?;
    out.put(&[Instr::Alu {
        op,
        rd: to,
        ra: operand_register(first, 0),
        rb: operand_register(second, 1),
    }])
}

/// Appends the code of an assignment to a variable. It serves `branch_padding` and `code_gen`: its clause names the
/// code, and [`emit_set`](crate::emit_set) states what that code does.
pub fn put_set_variable<'a>(
    emitter: &Emitter<'a, '_, '_>,
    out: &mut CodeBuf,
    name: &'a Name,
    value: &'a Expr,
    mode: Mode,
) -> PutResult
    requires typed { (code : Label)
        × TypedStatement (context_of emitter.now.decls) code (SetVariable name.now (expr_tree value.now)) }
    requires low { LowStatement (SetVariable name.now (expr_tree value.now)) }
    requires room { length out.old.code.items + 120 * (1 + tree_weight (expr_tree value.now)) ≤ most_instructions }
    ensures emitted { OnOk result
        (EmitsSet emitter.now mode (SetVariable name.now (expr_tree value.now)) out.old out.new) }
    ensures words { OnOk result (HasWords (expr_tree value.now)) }
    ensures grows { CodeGrows out.old out.new }
{
    if let Some(
        StraightOperation {
            register,
            op,
            left,
            right,
        },
    ) = straight(emitter, name, value)
    {
        return put_straight(emitter, out, op, left, right, target(mode, register), mode);
    }
    let scalar = emitter.variable(name.bytes());
    let base = emitter.base_mask();
    let held = operand(emitter, value);
    put_operand(emitter, out, value, held, 0, mode, base)?;
    let value = operand_register(held, 0);
    put_write(out, emitter.reduces(), scalar, value, mode)
}

/// Appends the code of an assignment to an element. The block is stored at once. It serves `branch_padding` and
/// `code_gen`: its clause names the code, and [`emit_set`](crate::emit_set) states what that code does.
pub fn put_set_element<'a>(
    emitter: &Emitter<'a, '_, '_>,
    out: &mut CodeBuf,
    name: &'a Name,
    index: &'a Expr,
    value: &'a Expr,
    mode: Mode,
) -> PutResult
    requires typed { (code : Label) × TypedStatement (context_of emitter.now.decls) code
        (SetElement name.now (expr_tree index.now) (expr_tree value.now)) }
    requires low { LowStatement (SetElement name.now (expr_tree index.now) (expr_tree value.now)) }
    requires room { length out.old.code.items
        + 120 * (1 + (tree_weight (expr_tree index.now) + tree_weight (expr_tree value.now))) ≤ most_instructions }
    ensures emitted { OnOk result
        (EmitsSet emitter.now mode (SetElement name.now (expr_tree index.now) (expr_tree value.now)) out.old out.new) }
    ensures words { OnOk result (SetHasWords (SetElement name.now (expr_tree index.now) (expr_tree value.now))) }
    ensures grows { CodeGrows out.old out.new }
{
    let array = emitter.variable(name.bytes());
    let base = emitter.base_mask();
    let held = operand(emitter, value);
    put_operand(emitter, out, value, held, 0, mode, base)?;
    let mask = operand_mask(held, label_of(emitter, value), base, 0);
    let access = Access {
        array,
        to: 1,
        mode,
        mask,
    };
    put_access(emitter, out, access, index)?;
    put_stored(emitter, out, array, index, operand_register(held, 0), mode)
}

/// Appends the code of an assignment, to a variable or to an element. The only error is running out of memory.
pub(crate) fn put_set<'a>(
    emitter: &Emitter<'a, '_, '_>,
    out: &mut CodeBuf,
    s: &'a Stmt,
    mode: Mode,
) -> PutResult
    requires assignment { IsAssignment (statement_of s.now) }
    requires typed { (code : Label) × TypedStatement (context_of emitter.now.decls) code (statement_of s.now) }
    requires low { LowStatement (statement_of s.now) }
    requires room { length out.old.code.items
        + 120 * statement_weight (context_of emitter.now.decls) Label.Public (statement_of s.now) ≤ most_instructions }
    ensures emitted { OnOk result (EmitsSet emitter.now mode (statement_of s.now) out.old out.new) }
    ensures words { OnOk result (SetHasWords (statement_of s.now)) }
    ensures grows { CodeGrows out.old out.new }
{
    match s {
        Stmt::Set(name, value) => put_set_variable(emitter, out, name, value, mode),
        Stmt::Put(name, index, value) => put_set_element(emitter, out, name, index, value, mode),
        Stmt::If(_, _, _) => unreachable!(),
        Stmt::While(_, _) => unreachable!(),
    }
}
