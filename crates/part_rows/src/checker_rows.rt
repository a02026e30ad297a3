ghost use Rattle.std.specs.Prelude.{◌≤◌};

use gr_word::Cmp;
use lt_checker::{CheckError, check};
use lt_isa::Instr::{Br, Halt, Jmp, Ldb, Ldw, Li, Nop};
use lt_isa::{BankSpec, Instr, Object, Profile};
use std::alloc::Global;
use std::hash::{FoldHasher, Hasher};
use std::test::Fail;
use std::time::Instant;

// Each number of cycles differs from the usual one; a jump takes as long as it may.
const UNUSUAL: Profile = Profile {
    block_log: 3,
    alu: 3,
    mul: 50,
    word: 5,
    taken: 32,
    period: 1,
    opens: 0,
    closes: 1,
};

// The bit that marks the word of a constant in the table of values.
const CONST_MARK: u64 = 1 << 62;

const START: Instr = Li { rd: 1, value: 0 };

const LOAD: Instr = Ldb {
    slot: 1,
    bank: 1,
    reg: 1,
};

const READ: Instr = Ldw {
    rd: 2,
    slot: 1,
    off: 1,
};

fn branch(offset: i32) -> Instr {
    Br {
        cmp: Cmp::Eq,
        ra: 2,
        rb: 1,
        offset,
    }
}

// An object with this code, and four blocks of plain and of encrypted memory.
fn object_of(alloc: Global, code: Vec<Instr>) -> Result<Object, Fail> {
    let bank = BankSpec {
        blocks: 4,
        latency: 11,
    };
    let banks = [bank, bank].to_vec(alloc)?;
    match Object::try_new(UNUSUAL, banks, Vec::new(alloc), Vec::new(alloc), code) {
        Ok(object) => Ok(object),
        Err(_) => Err(Fail::from("out of range")),
    }
}

// Appends a branch on a secret at place 3, with these arms.
fn put_branch(
    code: &mut Vec<Instr>,
    taken: i32,
    first: &[Instr],
    second: &[Instr],
) -> Result<(), Fail> {
    code.extend_from_slice(&[START, LOAD, READ, branch(taken)])?;
    code.extend_from_slice(first)?;
    code.push(Jmp { offset: taken })?;
    code.extend_from_slice(second)?;
    code.push(Halt)?;
    Ok(())
}

// The object of a branch on a secret at place 3, with these arms.
fn branching(alloc: Global, taken: i32, first: &[Instr], second: &[Instr]) -> Result<Object, Fail> {
    let mut code = Vec::new(alloc);
    put_branch(&mut code, taken, first, second)?;
    object_of(alloc, code)
}

// The place and the number of the reason where a branch on a secret at place 3 with these arms is refused, and two
// zeros if it is accepted.
fn refusal(
    alloc: Global,
    taken: i32,
    first: &[Instr],
    second: &[Instr],
) -> Result<(u32, u8), Fail> {
    match check(alloc, branching(alloc, taken, first, second)?) {
        Ok(_) => Ok((0, 0)),
        Err(fault) => reason_of(&fault),
    }
}

fn reason_of(fault: &CheckError) -> Result<(u32, u8), Fail> {
    match fault {
        CheckError::Refused { pc, reason, .. } => Ok((*pc, reason.number())),
        CheckError::Memory { .. } => Err(Fail::from("no memory")),
    }
}

// So many constants whose hashes have no bit of a mask, where each is hashed by itself.
fn constants(alloc: Global, count: usize, mask: u64) -> Result<Vec<Instr>, Fail> {
    let mut code = Vec::new(alloc);
    for value in 0..i64::MAX {
        if code.len() >= count {
            break;
        }
        let mut alone = FoldHasher::default();
        alone.write_u64(value.cast_unsigned() ^ CONST_MARK);
        if alone.finish() & mask == 0 {
            code.push(Li { rd: 5, value })?;
        }
    }
    Ok(code)
}

// The microseconds of the check of a branch with this many constants in one arm, chosen by a mask.
fn time_of(rt: &HostRuntime, count: u32, mask: u64) -> Result<u128, Fail>
    requires { count ≤ 65536 }
{
    let chosen = constants(rt.alloc(), count as usize, mask)?;
    let as_long = vec![in rt.alloc(); Nop; count as usize + 1]?;
    let start = Instant::now(rt)?;
    let refused = refusal(rt.alloc(), count as i32 + 2, &chosen, &as_long)?;
    if refused != (0, 0) {
        return Err(Fail::from("refused"));
    }
    Ok(start.elapsed(rt)?.as_micros())
}

// Constants that are chosen to meet, all in a few buckets of a table that hashes each by itself, take no longer than
// others: ten times as long at most, so that the test holds on a busy machine too. Where they meet, the check of theirs
// takes the square of their number.
#[test]
fn constants_that_are_chosen_to_meet_do_not(rt: HostRuntime) -> Result<(), Fail> {
    let usual = time_of(&rt, 8_192, 0)?;
    let chosen = time_of(&rt, 16_384, 0x3FF)?;
    assert!(rt; chosen / (2 * 10) <= usual);
    Ok(())
}
