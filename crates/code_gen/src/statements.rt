ghost use Rattle.std.specs.Prelude.{◌≡◌, ◌+◌, ◌*◌, ◌<◌, ◌≤◌, IfOk, OnOk, length};
ghost use Rattle.gr_word.specs.declared.variables.Label.TheVariants.{Public};
ghost use Rattle.src_tree.specs.Prelude.{context_of, height_of, label_of_test, LowBlock, block_weight, test_weight, block_of_all, statement_of, test_of, expr_tree, Loop, SetElement, SetVariable, TypedBlock, TypedTest};
ghost use Rattle.lt_isa.specs.Prelude.{most_instructions};
ghost use Rattle.block_cache_gen.specs.Prelude.{BlockHasWords, TestHasWords};
ghost use Rattle.branch_padding.specs.Prelude.{choice_of};
ghost use Rattle.code_gen.specs.Emitted.{ClosesLoop, EmitsBlock, MayFollow, Puts};
ghost use Rattle.code_gen.specs.Statements.{block_ends_noted, ends_noted};

use crate::jumps::{backward, put_head_note, put_head_note_unless, set_branch_unless};
use crate::known::{known_behind, known_inside, learn};
use block_cache_gen::{
    CodeBuf, Emitter, Mode, label_of, put_guard, put_set_element, put_set_variable,
};
use branch_padding::put_secret_if;
use gr_base::Memory;
use gr_word::{Label, Name};
use lt_isa::Instr;
use scalar_ranges::{Range, copied};
use src_tree::{Expr, Guard, Stmt, higher};

// The label of a guard.
fn label_of_guard<'a>(emitter: &Emitter<'a, '_, '_>, guard: &'a Guard) -> Label
    ensures { result ≡ label_of_test (context_of emitter.now.decls) (test_of guard.now) }
{
    let left = label_of(emitter, &guard.left);
    let right = label_of(emitter, &guard.right);
    higher(left, right)
}

// An assignment to a variable.
fn put_variable<'a>(
    emitter: &Emitter<'a, '_, '_>,
    out: &mut CodeBuf,
    name: &'a Name,
    value: &'a Expr,
) -> Result<(), Memory>
    requires { MayFollow emitter.now (SetVariable name.now (expr_tree value.now)) out.old }
    ensures { OnOk result (Puts emitter.now (SetVariable name.now (expr_tree value.now)) out.old out.new) }
{
    put_set_variable(emitter, out, name, value, Mode::Public)
}

// An assignment to an element.
fn put_element<'a>(
    emitter: &Emitter<'a, '_, '_>,
    out: &mut CodeBuf,
    name: &'a Name,
    index: &'a Expr,
    value: &'a Expr,
) -> Result<(), Memory>
    requires { MayFollow emitter.now (SetElement name.now (expr_tree index.now) (expr_tree value.now)) out.old }
    ensures { OnOk result
        (Puts emitter.now (SetElement name.now (expr_tree index.now) (expr_tree value.now)) out.old out.new) }
{
    put_set_element(emitter, out, name, index, value, Mode::Public)
}

// Ends a loop after its body: sets the target of the jump to the guard, and appends the guard, made for what is known
// there, with a branch back to the body.
fn close_loop<'a>(
    emitter: &Emitter<'a, '_, '_>,
    known: &[Option<Range>],
    out: &mut CodeBuf,
    guard: &'a Guard,
    start: u32,
    noted: bool,
) -> Result<(), Memory>
    requires typed { TypedTest (context_of emitter.now.decls) (test_of guard.now) }
    requires left { height_of (expr_tree guard.now.left) ≤ 16 }
    requires right { height_of (expr_tree guard.now.right) ≤ 16 }
    requires before { start < length out.old.code.items }
    requires room { length out.old.code.items + 120 * test_weight (test_of guard.now) ≤ most_instructions }
    ensures closed { OnOk result (ClosesLoop emitter.now known.now (test_of guard.now) start noted out.old out.new) }
    ensures short { OnOk result
        (length out.new.code.items ≤ length out.old.code.items + 120 * test_weight (test_of guard.now)) }
    ensures words { OnOk result (TestHasWords (test_of guard.now)) }
{
    out.set_jump(start);
    let is_bare = out.next_place() == start + 1;
    put_head_note_unless(emitter, out, noted || is_bare)?;
    put_guard(&emitter.at(known), out, guard, 0, Mode::Public)?;
    let offset = backward(out.next_place() - (start + 1));
    out.put(&[Instr::Br {
        cmp: guard.cmp,
        ra: 0,
        rb: 1,
        offset,
    }])
}

// A statement of public code, made for what is known before it. Returns whether there is a note just after it.
#[cycle(statements)]
fn put_statement<'a>(
    emitter: &Emitter<'a, '_, '_>,
    out: &mut CodeBuf,
    s: &'a Stmt,
) -> Result<bool, Memory>
    requires { MayFollow emitter.now (statement_of s.now) out.old }
    ensures put { OnOk result (Puts emitter.now (statement_of s.now) out.old out.new) }
    ensures noted { IfOk result (λ noted. noted ≡ ends_noted emitter.now.decls (statement_of s.now)) }
{
    match s {
        Stmt::Set(name, value) => {
            put_variable(emitter, out, name, value)?;
            Ok(false)
        }
        Stmt::Put(name, index, value) => {
            put_element(emitter, out, name, index, value)?;
            Ok(false)
        }
        Stmt::If(guard, first, second) => {
            put_if(emitter, out, guard, first.as_slice(), second.as_slice())
        }
        Stmt::While(guard, body) => {
            put_loop(emitter, out, guard, body.as_slice())?;
            Ok(false)
        }
    }
}

// A choice, by the label of its guard. Returns whether there is a note just after it.
#[cycle(statements)]
fn put_if<'a>(
    emitter: &Emitter<'a, '_, '_>,
    out: &mut CodeBuf,
    guard: &'a Guard,
    first: &'a [Stmt],
    second: &'a [Stmt],
) -> Result<bool, Memory>
    requires { MayFollow emitter.now (choice_of guard.now first.now second.now) out.old }
    ensures put { OnOk result (Puts emitter.now (choice_of guard.now first.now second.now) out.old out.new) }
    ensures noted { IfOk result (λ noted. noted ≡ ends_noted emitter.now.decls (choice_of guard.now first.now second.now)) }
{
    match label_of_guard(emitter, guard) {
        Label::Secret => {
            put_secret_if(emitter, out, guard, first, second)?;
            Ok(false)
        }
        Label::Public => {
            put_choice(emitter, out, guard, first, second)?;
            Ok(true)
        }
    }
}

// A choice with a public guard: the branch leads over the first block, and a jump leads over the second.
#[cycle(statements)]
fn put_choice<'a>(
    emitter: &Emitter<'a, '_, '_>,
    out: &mut CodeBuf,
    guard: &'a Guard,
    first: &'a [Stmt],
    second: &'a [Stmt],
) -> Result<(), Memory>
    requires public { label_of_test (context_of emitter.now.decls) (test_of guard.now) ≡ Public }
    requires fits { MayFollow emitter.now (choice_of guard.now first.now second.now) out.old }
    ensures { OnOk result (Puts emitter.now (choice_of guard.now first.now second.now) out.old out.new) }
{
    put_guard(emitter, out, guard, 0, Mode::Public)?;
    let branch = out.next_place();
    out.put(&[Instr::Jmp { offset: 0 }])?;
    let noted = put_block(emitter, out, first)?;
    if second.is_empty() {
        set_branch_unless(out, branch, guard.cmp);
        return put_head_note_unless(emitter, out, noted);
    }
    let jump = out.next_place();
    out.put(&[Instr::Jmp { offset: 0 }])?;
    set_branch_unless(out, branch, guard.cmp);
    put_head_note(emitter, out)?;
    let noted_at_end = put_block(emitter, out, second)?;
    out.set_jump(jump);
    put_head_note_unless(emitter, out, noted_at_end)
}

// A loop: a jump leads to the guard, which follows the body. The body is made for what is known in it, and the guard for
// what is known before the loop and after the body.
#[cycle(statements)]
fn put_loop<'a>(
    emitter: &Emitter<'a, '_, '_>,
    out: &mut CodeBuf,
    guard: &'a Guard,
    body: &'a [Stmt],
) -> Result<(), Memory>
    requires { MayFollow emitter.now (Loop (test_of guard.now) (block_of_all body.now)) out.old }
    ensures { OnOk result (Puts emitter.now (Loop (test_of guard.now) (block_of_all body.now)) out.old out.new) }
{
    let inner = known_inside(emitter, guard, body)?;
    let behind = known_behind(emitter, body)?;
    let start = out.next_place();
    out.put(&[Instr::Jmp { offset: 0 }])?;
    put_head_note(emitter, out)?;
    let noted = put_block(&emitter.at(inner.as_slice()), out, body)?;
    close_loop(emitter, behind.as_slice(), out, guard, start, noted)
}

/// Appends the code and the notes of statements in their order, each made for what is known at its place, and returns
/// whether there is a note just after them. The only error is running out of memory.
#[cycle(statements)]
pub(crate) fn put_block<'a>(
    emitter: &Emitter<'a, '_, '_>,
    out: &mut CodeBuf,
    statements: &'a [Stmt],
) -> Result<bool, Memory>
    requires typed { TypedBlock (context_of emitter.now.decls) Public (block_of_all statements.now) }
    requires low { LowBlock (block_of_all statements.now) }
    requires room { length out.old.code.items
        + 120 * block_weight (context_of emitter.now.decls) Public (block_of_all statements.now) ≤ most_instructions }
    ensures emitted { OnOk result (EmitsBlock emitter.now (block_of_all statements.now) out.old out.new) }
    ensures noted { IfOk result (λ noted. noted ≡ block_ends_noted emitter.now.decls (block_of_all statements.now)) }
    ensures short { OnOk result (length out.new.code.items ≤ length out.old.code.items
        + 120 * block_weight (context_of emitter.now.decls) Public (block_of_all statements.now)) }
    ensures words { OnOk result (BlockHasWords (block_of_all statements.now)) }
{
    let mut known = copied(emitter.alloc(), emitter.known())?;
    let mut noted = false;
    for statement in statements {
        noted = put_statement(&emitter.at(known.as_slice()), out, statement)?;
        learn(emitter, &mut known, statement);
    }
    Ok(noted)
}
