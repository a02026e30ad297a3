ghost use Rattle.std.specs.Prelude.{◌≡◌, ◌+◌, ◌*◌, ◌≤◌, IfOk, length};
ghost use Rattle.src_tree.specs.Prelude.{context_of, LowBlock, LowStatement, block_weight, statement_weight, block_of_all, statement_of, TypedBlock, TypedStatement};
ghost use Rattle.lt_isa.specs.Prelude.{operation_cost, most_instructions};
ghost use Rattle.branch_padding.specs.Cycles.{added, cycles_of, cycles_of_all, quiet_cost, quiet_cycles, region_cycles, slack_between, slack_by, slack_of};
ghost use Rattle.gr_word.specs.declared.variables.Label.TheVariants as label;

use block_cache_gen::{CodeBuf, Emitter, Mode, put_guard, put_set_element, put_set_variable};
use gr_base::Memory;
use gr_word::Op;
use lt_isa::{Instr, Profile};
use src_tree::Stmt;

/// How many cycles each path of a quiet branch idles: the path on which the branch isn't taken, and the other. Only the
/// shorter one does.
#[derive(Clone, Copy)]
pub struct Slack {
    pub untaken: u8,
    pub taken: u8,
}

const MOST_SLACK: u64 = 50;

fn operation_cycles(profile: &Profile, op: Op) -> u8
    ensures { result ≡ operation_cost profile.now op }
{
    match op {
        Op::Mul | Op::Div | Op::Rem | Op::Remu => profile.mul,
        Op::Add | Op::Sub | Op::And | Op::Or | Op::Xor | Op::Shl | Op::Shr => profile.alu,
    }
}

// The cycles of an instruction that shows no event in an arm and continues to the next one.
fn quiet_cost(profile: &Profile, instruction: &Instr) -> Option<u32>
    ensures { result ≡ quiet_cost profile.now instruction.now }
{
    match *instruction {
        Instr::Nop | Instr::Li { .. } => Some(1),
        Instr::Alu { op, .. } => Some(u32::from(operation_cycles(profile, op))),
        Instr::Ldw { .. } | Instr::Stw { .. } => Some(u32::from(profile.word)),
        Instr::Halt | Instr::Ldb { .. } | Instr::Stb { .. } | Instr::Idb { .. } => None,
        Instr::Jmp { .. } | Instr::Br { .. } => None,
    }
}

// Two numbers of cycles together.
fn added(one: Option<u32>, other: Option<u32>) -> Option<u32>
    ensures { result ≡ added one other }
{
    match one {
        None => None,
        Some(m) => match other {
            None => None,
            Some(n) => m.checked_add(n),
        },
    }
}

// The cycles of instructions in sequence.
fn quiet_cycles(profile: &Profile, code: &[Instr]) -> Option<u32>
    ensures { result ≡ quiet_cycles profile.now code.now }
{
    let mut from = code.len();
    let mut cycles = Some(0);
    while from > 0 {
        from -= 1;
        cycles = added(quiet_cost(profile, &code[from]), cycles);
    }
    cycles
}

// How long each path of a branch idles if its blocks take these cycles.
fn slack_by(first: u32, second: u32) -> Option<Slack>
    ensures { result ≡ slack_by first second }
{
    let first = u64::from(first);
    let second = 1 + u64::from(second);
    let untaken = first.saturating_sub(second);
    let taken = second.saturating_sub(first);
    if untaken <= MOST_SLACK && taken <= MOST_SLACK {
        return Some(Slack {
            untaken: untaken as u8,
            taken: taken as u8,
        });
    }
    None
}

fn slack_between(fast: bool, first: Option<u32>, second: Option<u32>) -> Option<Slack>
    ensures { result ≡ slack_between fast first second }
{
    if !fast {
        return None;
    }
    match first {
        None => None,
        Some(one) => match second {
            None => None,
            Some(two) => slack_by(one, two),
        },
    }
}

// The cycles of a quiet region.
fn region_cycles(taken: u8, slack: Option<Slack>, first: Option<u32>) -> Option<u32>
    ensures { result ≡ region_cycles taken slack first }
{
    match slack {
        None => None,
        Some(slack) => added(Some(u32::from(taken) + u32::from(slack.taken)), first),
    }
}

// The cycles of a statement of secret code that shows no event. Assignments and guards are made for it, and dropped.
#[cycle(cycles)]
fn statement_cycles<'a>(emitter: &Emitter<'a, '_, '_>, s: &'a Stmt) -> Result<Option<u32>, Memory>
    requires typed { TypedStatement (context_of emitter.now.decls) label.Secret (statement_of s.now) }
    requires low { LowStatement (statement_of s.now) }
    requires room { 120 * statement_weight (context_of emitter.now.decls) label.Secret (statement_of s.now)
        ≤ most_instructions }
    ensures { IfOk result (λ cycles. cycles ≡ cycles_of emitter.now (statement_of s.now)) }
{
    let mut out = CodeBuf::new(emitter.alloc());
    match s {
        Stmt::Set(name, value) => {
            put_set_variable(emitter, &mut out, name, value, Mode::Real)?;
            Ok(quiet_cycles(emitter.profile(), out.code.as_slice()))
        }
        Stmt::Put(name, index, value) => {
            put_set_element(emitter, &mut out, name, index, value, Mode::Real)?;
            Ok(quiet_cycles(emitter.profile(), out.code.as_slice()))
        }
        Stmt::If(guard, first, second) => {
            put_guard(emitter, &mut out, guard, 0, Mode::Real)?;
            let before = quiet_cycles(emitter.profile(), out.code.as_slice());
            let first = block_cycles(emitter, first.as_slice())?;
            let second = block_cycles(emitter, second.as_slice())?;
            let slack = slack_between(emitter.reduces(), first, second);
            Ok(added(before, region_cycles(emitter.taken(), slack, first)))
        }
        Stmt::While(_, _) => Ok(None),
    }
}

// The cycles of a block of them.
#[cycle(cycles)]
fn block_cycles<'a>(emitter: &Emitter<'a, '_, '_>, block: &'a [Stmt]) -> Result<Option<u32>, Memory>
    requires typed { TypedBlock (context_of emitter.now.decls) label.Secret (block_of_all block.now) }
    requires low { LowBlock (block_of_all block.now) }
    requires room { 120 * block_weight (context_of emitter.now.decls) label.Secret (block_of_all block.now)
        ≤ most_instructions }
    ensures { IfOk result (λ cycles. cycles ≡ cycles_of_all emitter.now (block_of_all block.now)) }
{
    let mut from = block.len();
    let mut cycles = Some(0);
    while from > 0 {
        from -= 1;
        cycles = added(statement_cycles(emitter, &block[from])?, cycles);
    }
    Ok(cycles)
}

/// How long each path of the branch of two blocks idles; `None` if it isn't quiet.
pub(crate) fn slack_of<'a>(
    emitter: &Emitter<'a, '_, '_>,
    first: &'a [Stmt],
    second: &'a [Stmt],
) -> Result<Option<Slack>, Memory>
    requires first_typed { TypedBlock (context_of emitter.now.decls) label.Secret (block_of_all first.now) }
    requires second_typed { TypedBlock (context_of emitter.now.decls) label.Secret (block_of_all second.now) }
    requires first_low { LowBlock (block_of_all first.now) }
    requires second_low { LowBlock (block_of_all second.now) }
    requires first_room { 120 * block_weight (context_of emitter.now.decls) label.Secret (block_of_all first.now)
        ≤ most_instructions }
    requires second_room { 120 * block_weight (context_of emitter.now.decls) label.Secret (block_of_all second.now)
        ≤ most_instructions }
    ensures { IfOk result (λ slack. slack ≡ slack_of emitter.now (block_of_all first.now) (block_of_all second.now)) }
{
    if !emitter.reduces() {
        return Ok(None);
    }
    let first = block_cycles(emitter, first)?;
    let second = block_cycles(emitter, second)?;
    Ok(slack_between(true, first, second))
}
