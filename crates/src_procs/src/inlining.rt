ghost use Rattle.std.specs.Prelude.{◌≡◌, ◌++◌, ◌∷◌, [], IfErr, IfOk, OnOk, None, length, map};
ghost use Rattle.gr_base.specs.Prelude.{found_under};
ghost use Rattle.src_tree.specs.Prelude.{source_of};
ghost use Rattle.procs_tree.specs.declared.errors.InlineError.{InlineError};
ghost use Rattle.src_procs.specs.Expanding.{expanded, first_block, held_start, with_made};
ghost use Rattle.procs_tree.specs.CallCauses.{ExplainsInlining, IsFirstCallFault};
ghost use Rattle.procs_tree.specs.Inlined.{added, inlined_body, inlined_file};
ghost use Rattle.procs_tree.specs.Measured.{HasSizes};
ghost use Rattle.procs_tree.specs.Numbered.{AreNumbered};
ghost use Rattle.procs_tree.specs.Promise.{ArePlain, KeepsMeaning};
ghost use Rattle.procs_pruning.specs.Pruned.{AreReady};
ghost use Rattle.procs_tree.specs.InlineFaults.{IsFoundFault, inline_fault};
ghost use Rattle.procs_tree.specs.Seen.{bare_file, block_of_all, file_of, procedure_of};
ghost use Rattle.procs_pruning.specs.LiveSeen.{live_block};
ghost use Rattle.src_procs.specs.Views.{blocks_of, own_held, source_made, statements_seen};

use crate::binding::new_name;
use crate::expanding::{Held, Made, waits_for};
use crate::own_statements::expand_own;
use crate::scopes::{Naming, Scope};
use crate::stepping::{expand, scoped};
use gr_base::Memory;
use gr_word::Label;
use procs_pruning::{Live, Procedures, live_bodies, live_statements};
use procs_tree::{InlineError, JudgedProcs, Numbers, PStmt, Proc, ProcFile, judge};
use src_tree::{Decl, Program, Stmt};
use std::alloc::Global;

fn added(alloc: Global, n: usize, label: Label) -> Result<Decl, Memory>
    ensures { IfOk result (λ d. d ∷ [] ≡ added n (label ∷ [])) }
{
    Ok(Decl {
        name: new_name(alloc, n as u64)?,
        label,
        length: None,
    })
}

// Declarations, followed by those of the new variables.
fn with_added(alloc: Global, decls: Vec<Decl>, labels: &[Label]) -> Result<Vec<Decl>, Memory>
    ensures { IfOk result (λ all. all.items ≡ decls.items ++ added 0 labels.now) }
{
    let mut all = decls;
    for (i, label) in labels.iter().enumerate() {
        all.push(added(alloc, i, *label)?)?;
    }
    Ok(all)
}

// What is made of no statement.
fn begun(alloc: Global, procs: &[Proc]) -> Result<Made, Memory>
    ensures { IfOk result (λ m. own_held procs.now m ≡ held_start (map procedure_of procs.now)) }
{
    let mut open_blocks = Vec::new(alloc);
    open_blocks.push(Vec::new(alloc))?;
    Ok(Made {
        open_blocks,
        labels: Vec::new(alloc),
    })
}

// What is made of a file's own statements, if it is known what is left of its procedures.
fn expanded_with<'b, 'a>(
    alloc: Global,
    file: Procedures<'b, 'a>,
    sizes: &[u64],
    body: Vec<PStmt>,
) -> Result<Made, Memory>
    requires file { AreReady file }
    requires sizes { HasSizes (map procedure_of file.procs.now) sizes.now }
    ensures { IfOk result (λ m. own_held file.entry.procs.now m
        ≡ with_made (held_start (map procedure_of file.entry.procs.now))
        (inlined_body (bare_file file.entry.procs.now body.items))) }
{
    let mut made = begun(alloc, file.procs)?;
    expand_own(alloc, file, sizes, body, &mut made)?;
    Ok(made)
}

// What is made of a file's own statements, with no call left.
fn expanded<'a>(
    alloc: Global,
    procs: &'a [Proc],
    numbers: &Numbers<'a>,
    sizes: &[u64],
    body: Vec<PStmt>,
) -> Result<Made, Memory>
    requires numbers { AreNumbered (map procedure_of procs.now) (found_under numbers.now) }
    requires sizes { HasSizes (map procedure_of procs.now) sizes.now }
    ensures { IfOk result (λ m. own_held procs.now m
        ≡ with_made (held_start (map procedure_of procs.now)) (inlined_body (bare_file procs.now body.items))) }
{
    let bodies = live_bodies(alloc, procs, numbers, sizes)?;
    let file = Procedures {
        procs,
        numbers,
        bodies: bodies.as_slice(),
    };
    expanded_with(alloc, file, sizes, body)
}

// The statements of the innermost block that is open.
fn innermost(alloc: Global, mut open_blocks: Vec<Vec<Stmt>>) -> Vec<Stmt>
    ensures { statements_seen result ≡ first_block (blocks_of open_blocks.items) }
{
    match open_blocks.pop() {
        None => Vec::new(alloc),
        Some(here) => here,
    }
}

// The program with these declarations, and with what was made.
fn finish(alloc: Global, decls: Vec<Decl>, made: Made) -> Result<Program, Memory>
    ensures { IfOk result (λ p. source_of p ≡ source_made decls.items made) }
{
    let Made {
        open_blocks,
        labels,
    } = made;
    let decls = with_added(alloc, decls, labels.as_slice())?;
    let body = innermost(alloc, open_blocks);
    Ok(Program { decls, body })
}

// A declaration once more.
fn copy(alloc: Global, decl: &Decl) -> Result<Decl, Memory>
    ensures { IfOk result (λ d. d ≡ decl.now) }
{
    Ok(Decl {
        name: decl.name.copy(alloc)?,
        label: decl.label,
        length: decl.length,
    })
}

// Declarations once more.
fn copied(alloc: Global, decls: &[Decl]) -> Result<Vec<Decl>, Memory>
    ensures { IfOk result (λ all. all.items ≡ decls.now) }
{
    let mut all = Vec::new(alloc);
    for decl in decls {
        all.push(copy(alloc, decl)?)?;
    }
    Ok(all)
}

// What is made of statements of the file, in the file's own scope.
fn expanded_live<'b, 'a>(
    alloc: Global,
    file: Procedures<'b, 'a>,
    live: &'b [Live<'a>],
    made: Made,
) -> Result<Made, Memory>
    requires { AreReady file }
    ensures { IfOk result (λ m. own_held file.entry.procs.now m
        ≡ expanded (live_block live.now) (own_held file.entry.procs.now made)) }
{
    let mut waiting = Vec::new(alloc);
    waits_for(&mut waiting, live)?;
    let mut held = Held {
        scopes: Vec::new(alloc),
        made,
    };
    let own = Scope {
        callable: file.procs.len(),
        names: Naming::Own,
    };
    scoped(file.procs, &mut held, own)?;
    expand(alloc, file, &mut waiting, &mut held)?;
    let Held { scopes, made } = held;
    drop(scopes);
    Ok(made)
}

// What is made of a file's own statements, with no call left. They are copied.
fn expanded_copy<'a>(
    alloc: Global,
    procs: &'a [Proc],
    numbers: &Numbers<'a>,
    sizes: &[u64],
    body: &'a [PStmt],
) -> Result<Made, Memory>
    requires numbers { AreNumbered (map procedure_of procs.now) (found_under numbers.now) }
    requires sizes { HasSizes (map procedure_of procs.now) sizes.now }
    ensures { IfOk result (λ m. own_held procs.now m
        ≡ with_made (held_start (map procedure_of procs.now)) (inlined_body (bare_file procs.now body.now))) }
{
    let bodies = live_bodies(alloc, procs, numbers, sizes)?;
    let live = live_statements(alloc, procs, numbers, sizes, procs.len(), body)?;
    let file = Procedures {
        procs,
        numbers,
        bodies: bodies.as_slice(),
    };
    let nothing = begun(alloc, procs)?;
    let made = expanded_live(alloc, file, live.as_slice(), nothing)?;
    Ok(made)
}

/// The program of a file with procedures, in which each call is replaced, outermost first, by an assignment of each
/// scalar argument, an assignment of 0 to each local, and the procedure's statements. The scalar parameters and locals
/// of the calls become new variables `__0`, `__1` and so on, in the order of the calls in the program, declared after
/// the file's own. No declared name of the file may begin with `__`, as in a file that was parsed.
///
/// The program does with the file's own variables what the file means, for every store and any starting values of its
/// new variables. The errors come in the order of [`InlineError`]'s variants, those of procedures procedure by
/// procedure, then those of calls call by call, and the first is returned. `Memory` says nothing about the file.
///
/// The file's expressions are copied into the program. [`inline_owned`] makes the same program of a file that isn't needed
/// afterwards, with less memory.
pub fn inline(alloc: Global, f: &ProcFile) -> Result<Program, InlineError>
    requires plain { ArePlain f.now.decls.items }
    ensures inlined { IfOk result (λ p. source_of p ≡ inlined_file (file_of f.now)) }
    ensures faultless { OnOk result ((e : InlineError) → IsFirstCallFault (file_of f.now) e → ⊥) }
    ensures meaning { IfOk result (λ p. KeepsMeaning (file_of f.now) (source_of p)) }
    ensures refused { IfErr result (λ e. ExplainsInlining e (file_of f.now)) }
{
    let procs = f.procs.as_slice();
    let body = f.body.as_slice();
    let JudgedProcs { numbers, sizes } = judge(alloc, procs, body)?;
    let made = expanded_copy(alloc, procs, &numbers, sizes.as_slice(), body)?;
    let decls = copied(alloc, f.decls.as_slice())?;
    let program = finish(alloc, decls, made)?;
    Ok(program)
}

/// The program of a file with procedures, as [`inline`] makes it, of a file that isn't needed afterwards.
///
/// The expressions of the file's own statements, and the arguments of its own calls, are moved into the program. Those of
/// procedures are copied at each call.
pub fn inline_owned(alloc: Global, f: ProcFile) -> Result<Program, InlineError>
    requires plain { ArePlain f.decls.items }
    ensures inlined { IfOk result (λ p. source_of p ≡ inlined_file (file_of f)) }
    ensures faultless { OnOk result ((e : InlineError) → IsFirstCallFault (file_of f) e → ⊥) }
    ensures meaning { IfOk result (λ p. KeepsMeaning (file_of f) (source_of p)) }
    ensures refused { IfErr result (λ e. ExplainsInlining e (file_of f)) }
{
    let ProcFile { decls, procs, body } = f;
    let procs = procs.as_slice();
    let JudgedProcs { numbers, sizes } = judge(alloc, procs, body.as_slice())?;
    let made = expanded(alloc, procs, &numbers, sizes.as_slice(), body)?;
    let program = finish(alloc, decls, made)?;
    Ok(program)
}
