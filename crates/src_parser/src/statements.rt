ghost use Rattle.std.specs.Prelude.{◌≡◌, ◌+◌, ◌++◌, ◌∷◌, [], IfOk, length, map, nat_lt, option_map};
ghost use Rattle.src_tree.specs.Prelude.{test_of};
ghost use Rattle.src_parser.specs.Grammar.{limits};
ghost use Rattle.src_parser.specs.Parts.{Done, Target};
ghost use Rattle.src_parser.specs.Seen.{advance_of, among, form_of, made_of, outer_of, outers_of, part_of, pause_of, phase_of};
ghost use Rattle.src_parser.specs.Statements.{between_statements, block_opened, chosen, complete_of, depth_in, does, is_complete, elsing, entering, leaving, otherwise, with_part, Among, Ready};
ghost use Rattle.src_parser.specs.Tokenwise.{Goes, with_braces};

use crate::languages::Language;
use crate::parts::{Form, Lead, Made, Part, PartAdvance, read_part};
use crate::putting::{push, put, take_list};
use crate::states::{Advance, Blocks, MAX_BRACES, Outer, Pause, Phase};
use gr_base::Memory;
use gr_word::Name;
use src_lexer::Kind;
use src_tree::Guard;
use std::alloc::Global;
use std::mem;

/// Adds a statement; the next one may begin.
pub fn add<L: Language>(
    blocks: &mut Blocks<L::Stmt>,
    phase: &mut Phase<L::Stmt>,
    statement: L::Stmt,
) -> Result<Advance, Memory>
    ensures { IfOk result (λ t. advance_of t (among L.seen blocks.new (phase_of L.seen phase.new))
        ≡ Goes (Among (outers_of L.seen blocks.old.outer.items)
        (map L.seen blocks.old.here.items ++ L.seen statement ∷ []) Ready)) }
{
    push(&mut blocks.here, statement)?;
    put(phase, Phase::Between(Pause::Ready));
    Ok(Advance::Goes)
}

// Ends a block, and adds its statement to those before it.
fn end_block<L: Language>(
    blocks: &mut Blocks<L::Stmt>,
    phase: &mut Phase<L::Stmt>,
    outer: Outer<L::Stmt>,
) -> Result<Advance, Memory>
    ensures { IfOk result (λ t. advance_of t (among L.seen blocks.new (phase_of L.seen phase.new))
        ≡ leaving L.makers (outer_of L.seen outer ∷ outers_of L.seen blocks.old.outer.items)
        (map L.seen blocks.old.here.items)) }
{
    match outer {
        Outer::InFirst(guard, before) => {
            let first = take_list(&mut blocks.here, before);
            put(phase, Phase::Between(Pause::MayElse(guard, first)));
            Ok(Advance::Goes)
        }
        Outer::InSecond(guard, first, before) => {
            let second = take_list(&mut blocks.here, before);
            add::<L>(blocks, phase, L::choice(guard, first, second))
        }
        Outer::InLoop(guard, before) => {
            let body = take_list(&mut blocks.here, before);
            add::<L>(blocks, phase, L::repetition(guard, body))
        }
    }
}

// Reads a closing brace.
fn leave<L: Language>(
    blocks: &mut Blocks<L::Stmt>,
    phase: &mut Phase<L::Stmt>,
) -> Result<Advance, Memory>
    ensures { IfOk result (λ t. advance_of t (among L.seen blocks.new (phase_of L.seen phase.new))
        ≡ leaving L.makers (outers_of L.seen blocks.old.outer.items) (map L.seen blocks.old.here.items)) }
{
    match blocks.outer.pop() {
        None => Ok(Advance::Wrong),
        Some(outer) => end_block::<L>(blocks, phase, outer),
    }
}

// An assignment after its name.
fn target(alloc: Global, name: &Name) -> Result<Part, Memory>
    ensures { IfOk result (λ p. part_of p ≡ Target name.now) }
{
    Ok(Part::Before(Lead::Target(name.copy(alloc)?)))
}

/// Reads a token between statements.
pub fn begin<L: Language>(
    alloc: Global,
    blocks: &mut Blocks<L::Stmt>,
    phase: &mut Phase<L::Stmt>,
    kind: &Kind,
) -> Result<Advance, Memory>
    ensures { IfOk result (λ t. advance_of t (among L.seen blocks.new (phase_of L.seen phase.new))
        ≡ between_statements L.makers (outers_of L.seen blocks.old.outer.items)
        (map L.seen blocks.old.here.items) kind.now) }
{
    match kind {
        Kind::Word(name) => {
            let part = target(alloc, name)?;
            put(phase, Phase::InPart(part));
            Ok(Advance::Goes)
        }
        Kind::If => {
            put(
                phase,
                Phase::InPart(Part::Before(Lead::Guarding(Form::Choice))),
            );
            Ok(Advance::Goes)
        }
        Kind::While => {
            put(
                phase,
                Phase::InPart(Part::Before(Lead::Guarding(Form::Loop))),
            );
            Ok(Advance::Goes)
        }
        Kind::RBrace => leave::<L>(blocks, phase),
        _ => Ok(Advance::Wrong),
    }
}

// Adds a choice that has no second block.
fn choose<L: Language>(
    alloc: Global,
    blocks: &mut Blocks<L::Stmt>,
    guard: Guard,
    first: Vec<L::Stmt>,
) -> Result<(), Memory>
    ensures outer { IfOk result (λ _. blocks.new.outer ≡ blocks.old.outer) }
    ensures here { IfOk result (λ _. map L.seen blocks.new.here.items
        ≡ chosen L.makers (map L.seen blocks.old.here.items) (test_of guard) (map L.seen first.items)) }
{
    push(&mut blocks.here, L::choice(guard, first, Vec::new(alloc)))?;
    Ok(())
}

// Ends a choice that has no second block, and reads the token after it.
fn end_choice<L: Language>(
    alloc: Global,
    blocks: &mut Blocks<L::Stmt>,
    phase: &mut Phase<L::Stmt>,
    guard: Guard,
    first: Vec<L::Stmt>,
    kind: &Kind,
) -> Result<Advance, Memory>
    ensures { IfOk result (λ t. advance_of t (among L.seen blocks.new (phase_of L.seen phase.new))
        ≡ between_statements L.makers (outers_of L.seen blocks.old.outer.items)
        (chosen L.makers (map L.seen blocks.old.here.items) (test_of guard) (map L.seen first.items)) kind.now) }
{
    choose::<L>(alloc, blocks, guard, first)?;
    begin::<L>(alloc, blocks, phase, kind)
}

// Reads a token after the first block of a choice.
fn may_else<L: Language>(
    alloc: Global,
    blocks: &mut Blocks<L::Stmt>,
    phase: &mut Phase<L::Stmt>,
    guard: Guard,
    first: Vec<L::Stmt>,
    kind: &Kind,
) -> Result<Advance, Memory>
    ensures { IfOk result (λ t. advance_of t (among L.seen blocks.new (phase_of L.seen phase.new))
        ≡ elsing L.makers (outers_of L.seen blocks.old.outer.items) (map L.seen blocks.old.here.items)
        (test_of guard) (map L.seen first.items) kind.now) }
{
    match kind {
        Kind::Else => {
            put(phase, Phase::Between(Pause::Otherwise(guard, first)));
            Ok(Advance::Goes)
        }
        _ => end_choice::<L>(alloc, blocks, phase, guard, first, kind),
    }
}

// Adds a part that is complete.
fn settle<L: Language>(
    blocks: &mut Blocks<L::Stmt>,
    phase: &mut Phase<L::Stmt>,
    made: Made,
) -> Result<Advance, Memory>
    ensures { IfOk result (λ t. advance_of t (among L.seen blocks.new (phase_of L.seen phase.new))
        ≡ Goes (with_part L.makers (outers_of L.seen blocks.old.outer.items)
        (map L.seen blocks.old.here.items) (Done (made_of made)))) }
{
    match made {
        Made::Variable(name, value) => add::<L>(blocks, phase, L::variable_set(name, value)),
        Made::Element(name, index, value) => add::<L>(
            blocks,
            phase,
            L::element_set(name, index, value),
        ),
        Made::Guard(form, guard) => {
            put(phase, Phase::Between(Pause::Guarded(form, guard)));
            Ok(Advance::Goes)
        }
    }
}

// Whether one more brace may be open, with those outside the statements.
fn has_room<S>(outside: usize, outer: &[Outer<S>]) -> bool
    ensures { result ≡ nat_lt (outside + length outer.now) 32 }
{
    outside < MAX_BRACES && outer.len() < MAX_BRACES - outside
}

// Opens a block. `next` has the statements before it.
fn open_block<L: Language>(
    alloc: Global,
    blocks: &mut Blocks<L::Stmt>,
    phase: &mut Phase<L::Stmt>,
    next: Outer<L::Stmt>,
) -> Result<(), Memory>
    ensures { IfOk result (λ _. among L.seen blocks.new (phase_of L.seen phase.new)
        ≡ Among (outer_of L.seen next ∷ outers_of L.seen blocks.old.outer.items) [] Ready) }
{
    push(&mut blocks.outer, next)?;
    blocks.here = Vec::new(alloc);
    put(phase, Phase::Between(Pause::Ready));
    Ok(())
}

// Opens a block, if one more may be open. `next` has the statements before it.
fn nest<L: Language>(
    alloc: Global,
    outside: usize,
    blocks: &mut Blocks<L::Stmt>,
    phase: &mut Phase<L::Stmt>,
    next: Outer<L::Stmt>,
) -> Result<Advance, Memory>
    ensures { IfOk result (λ t. advance_of t (among L.seen blocks.new (phase_of L.seen phase.new))
        ≡ with_braces (nat_lt (depth_in outside (outers_of L.seen blocks.old.outer.items)) 32)
        (Among (outer_of L.seen next ∷ outers_of L.seen blocks.old.outer.items) [] Ready)) }
{
    if !has_room(outside, blocks.outer.as_slice()) {
        drop(next);
        return Ok(Advance::TooMuch);
    }
    open_block::<L>(alloc, blocks, phase, next)?;
    Ok(Advance::Goes)
}

// The block after a guard, with the statements before its statement.
fn guarded<L: Language>(form: Form, guard: Guard, before: Vec<L::Stmt>) -> Outer<L::Stmt>
    ensures { outer_of L.seen result ≡ block_opened (form_of form) (test_of guard) (map L.seen before.items) }
{
    match form {
        Form::Choice => Outer::InFirst(guard, before),
        Form::Loop => Outer::InLoop(guard, before),
    }
}

// Opens the block after a guard.
fn enter<L: Language>(
    alloc: Global,
    outside: usize,
    blocks: &mut Blocks<L::Stmt>,
    phase: &mut Phase<L::Stmt>,
    form: Form,
    guard: Guard,
    kind: &Kind,
) -> Result<Advance, Memory>
    ensures { IfOk result (λ t. advance_of t (among L.seen blocks.new (phase_of L.seen phase.new))
        ≡ entering limits outside (outers_of L.seen blocks.old.outer.items)
        (map L.seen blocks.old.here.items) (form_of form) (test_of guard) kind.now) }
{
    match kind {
        Kind::LBrace => {
            let before = mem::replace(&mut blocks.here, Vec::new(alloc));
            nest::<L>(
                alloc,
                outside,
                blocks,
                phase,
                guarded::<L>(form, guard, before),
            )
        }
        _ => {
            drop(guard);
            Ok(Advance::Wrong)
        }
    }
}

// Opens the block after `else`.
fn other<L: Language>(
    alloc: Global,
    outside: usize,
    blocks: &mut Blocks<L::Stmt>,
    phase: &mut Phase<L::Stmt>,
    guard: Guard,
    first: Vec<L::Stmt>,
    kind: &Kind,
) -> Result<Advance, Memory>
    ensures { IfOk result (λ t. advance_of t (among L.seen blocks.new (phase_of L.seen phase.new))
        ≡ otherwise limits outside (outers_of L.seen blocks.old.outer.items)
        (map L.seen blocks.old.here.items) (test_of guard) (map L.seen first.items) kind.now) }
{
    match kind {
        Kind::LBrace => {
            let before = mem::replace(&mut blocks.here, Vec::new(alloc));
            nest::<L>(
                alloc,
                outside,
                blocks,
                phase,
                Outer::InSecond(guard, first, before),
            )
        }
        _ => {
            drop(guard);
            Ok(Advance::Wrong)
        }
    }
}

// Reads a token between two parts.
fn go_on<L: Language>(
    alloc: Global,
    outside: usize,
    blocks: &mut Blocks<L::Stmt>,
    phase: &mut Phase<L::Stmt>,
    pause: Pause<L::Stmt>,
    kind: &Kind,
) -> Result<Advance, Memory>
    ensures { IfOk result (λ t. advance_of t (among L.seen blocks.new (phase_of L.seen phase.new))
        ≡ does L.makers limits outside (outers_of L.seen blocks.old.outer.items) (map L.seen blocks.old.here.items)
        (pause_of L.seen pause) kind.now) }
{
    match pause {
        Pause::Ready => begin::<L>(alloc, blocks, phase, kind),
        Pause::MayElse(guard, first) => { may_else::<L>(alloc, blocks, phase, guard, first, kind) }
        Pause::Guarded(form, guard) => {
            enter::<L>(alloc, outside, blocks, phase, form, guard, kind)
        }
        Pause::Otherwise(guard, first) => {
            other::<L>(alloc, outside, blocks, phase, guard, first, kind)
        }
    }
}

/// Reads the next token of statements, inside `outside` open braces. `Memory` says nothing about the tokens.
pub fn perform<L: Language>(
    alloc: Global,
    outside: usize,
    blocks: &mut Blocks<L::Stmt>,
    phase: &mut Phase<L::Stmt>,
    kind: &Kind,
) -> Result<Advance, Memory>
    ensures { IfOk result (λ t. advance_of t (among L.seen blocks.new (phase_of L.seen phase.new))
        ≡ does L.makers limits outside (outers_of L.seen blocks.old.outer.items) (map L.seen blocks.old.here.items)
        (phase_of L.seen phase.old) kind.now) }
{
    match phase {
        Phase::InPart(part) => match read_part(alloc, part, kind)? {
            PartAdvance::Moves => Ok(Advance::Goes),
            PartAdvance::Ends(made) => settle::<L>(blocks, phase, made),
            PartAdvance::Wrong => Ok(Advance::Wrong),
            PartAdvance::TooMuch => Ok(Advance::TooMuch),
        },
        Phase::Between(pause) => {
            let pause = mem::replace(pause, Pause::Ready);
            go_on::<L>(alloc, outside, blocks, phase, pause, kind)
        }
    }
}

/// Whether the statements are complete.
pub fn is_complete<L: Language>(blocks: &Blocks<L::Stmt>, phase: &Phase<L::Stmt>) -> bool
    ensures { result ≡ is_complete (among L.seen blocks.now (phase_of L.seen phase.now)) }
{
    if !blocks.outer.is_empty() {
        return false;
    }
    match phase {
        Phase::Between(pause) => match pause {
            Pause::Ready => true,
            Pause::MayElse(_, _) => true,
            Pause::Guarded(_, _) => false,
            Pause::Otherwise(_, _) => false,
        },
        Phase::InPart(_) => false,
    }
}

// The statements, if no block is open.
fn whole<L: Language>(blocks: Blocks<L::Stmt>) -> Option<Vec<L::Stmt>>
    ensures { option_map (λ v. map L.seen v.items) result ≡ complete_of L.makers (among L.seen blocks Ready) }
{
    let Blocks { outer, here } = blocks;
    if !outer.is_empty() {
        return None;
    }
    Some(here)
}

// The statements, if they are complete between two parts.
fn paused<L: Language>(
    alloc: Global,
    mut blocks: Blocks<L::Stmt>,
    pause: Pause<L::Stmt>,
) -> Result<Option<Vec<L::Stmt>>, Memory>
    ensures { IfOk result (λ o. option_map (λ v. map L.seen v.items) o
        ≡ complete_of L.makers (among L.seen blocks (pause_of L.seen pause))) }
{
    match pause {
        Pause::Ready => Ok(whole::<L>(blocks)),
        Pause::MayElse(guard, first) => {
            choose::<L>(alloc, &mut blocks, guard, first)?;
            Ok(whole::<L>(blocks))
        }
        Pause::Guarded(_form, guard) => {
            drop(guard);
            Ok(None)
        }
        Pause::Otherwise(guard, _first) => {
            drop(guard);
            Ok(None)
        }
    }
}

/// The statements, if they are complete.
pub fn complete<L: Language>(
    alloc: Global,
    blocks: Blocks<L::Stmt>,
    phase: Phase<L::Stmt>,
) -> Result<Option<Vec<L::Stmt>>, Memory>
    ensures { IfOk result (λ o. option_map (λ v. map L.seen v.items) o
        ≡ complete_of L.makers (among L.seen blocks (phase_of L.seen phase))) }
{
    match phase {
        Phase::Between(pause) => paused::<L>(alloc, blocks, pause),
        Phase::InPart(part) => {
            drop(part);
            Ok(None)
        }
    }
}
