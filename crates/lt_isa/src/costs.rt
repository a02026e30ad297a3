ghost use Rattle.std.specs.Prelude.{◌≡◌, ◌+◌, ◌-◌, ◌^◌, ◌<◌, ◌≤◌, if◌then◌else◌, length, nat_lt};
ghost use Rattle.lt_isa.specs.Costs.{cost_of, operation_cost};
ghost use Rattle.lt_isa.specs.Object.{latency_of};
ghost use Rattle.lt_isa.specs.Ranges.{ProfileFits};
ghost use Rattle.lt_isa.specs.Step.{start_of};
ghost use Rattle.lt_isa.specs.Windows.{access_start};

use crate::instructions::Instr;
use crate::objects::Object;
use crate::profiles::Profile;
use gr_word::Op;

/// The cycles that an instruction takes. `taken` matters only for a branch. `bank` matters only for a load or a store
/// of a block: it is the bank that the instruction accesses.
pub fn latency(object: &Object, instruction: &Instr, taken: bool, bank: u8) -> u32
    requires { bank < length object.now.banks }
    ensures { result ≡ cost_of object.now instruction.now taken bank }
{
    let profile = object.profile();
    match *instruction {
        Instr::Nop | Instr::Halt | Instr::Li { .. } | Instr::Idb { .. } => 1,
        Instr::Alu { op, .. } => u32::from(operation_cost(profile, op)),
        Instr::Ldb { .. } | Instr::Stb { .. } => object.banks()[bank as usize].latency,
        Instr::Ldw { .. } | Instr::Stw { .. } => u32::from(profile.word),
        Instr::Jmp { .. } => u32::from(profile.taken),
        Instr::Br { .. } => { if taken { u32::from(profile.taken) } else { 1 } }
    }
}

fn operation_cost(profile: &Profile, op: Op) -> u8
    ensures { result ≡ operation_cost profile.now op }
{
    match op {
        Op::Mul | Op::Div | Op::Rem | Op::Remu => profile.mul,
        Op::Add | Op::Sub | Op::And | Op::Or | Op::Xor | Op::Shl | Op::Shr => profile.alu,
    }
}

/// The cycle at which an instruction starts if the machine reaches it at `cycle`. A load or a store of a block waits
/// for the window; every other instruction starts at once.
pub fn start_of(object: &Object, instruction: &Instr, cycle: u64) -> u64
    requires { cycle < 2 ^ 63 }
    ensures start { result ≡ start_of object.now.profile instruction.now cycle }
{
    match instruction {
        Instr::Ldb { .. } | Instr::Stb { .. } => access_start(object, cycle),
        _ => cycle,
    }
}

/// The cycle at which a load or a store of a block starts if the machine reaches it at `cycle`: the first cycle from
/// there on at which the object's window is open.
#[tactic(auto, unfolding(crate::specs::Windows::access_start))]
pub fn access_start(object: &Object, cycle: u64) -> u64
    requires { cycle < 2 ^ 63 }
    ensures start { result ≡ access_start object.now.profile cycle }
    ensures most { result ≤ cycle + 1000000 }
{
    let profile = object.profile();
    let into = cycle % u64::from(profile.period);
    cycle + u64::from(wait_from(profile, into as u32))
}

// How long an access waits if the machine reaches it `into` cycles after the start of a period.
fn wait_from(profile: &Profile, into: u32) -> u32
    requires in_range { ProfileFits profile.now }
    requires of_period { into < profile.now.period }
    ensures wait { result
        ≡ (if nat_lt into profile.now.closes
        then profile.now.opens - into
        else (profile.now.opens + profile.now.period) - into) }
    ensures most { result ≤ 1000000 }
{
    if into < profile.closes {
        profile.opens.saturating_sub(into)
    } else {
        profile.opens + profile.period - into
    }
}
