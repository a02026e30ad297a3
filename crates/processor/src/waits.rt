ghost use Rattle.std.specs.Prelude.{◌≡◌, ◌≤◌, ◌+◌, ◌<◌, ◌^◌};
ghost use Rattle.lt_isa.specs.Prelude.{start_of, access_start};

use lt_isa::{Instr, Object};

/// The cycle at which an instruction starts that the machine reaches at a cycle. If memory is always open, there is no
/// wait, and no remainder is computed.
pub(crate) fn start_at(object: &Object, instruction: &Instr, cycle: u64) -> u64
    requires { cycle < 2 ^ 63 }
    ensures { result ≡ start_of object.now.profile instruction.now cycle }
{
    if object.profile().has_unit_period() {
        return cycle;
    }
    lt_isa::start_of(object, instruction, cycle)
}

/// The cycle at which an access starts that the machine reaches at a cycle.
pub(crate) fn access_at(object: &Object, cycle: u64) -> u64
    requires { cycle < 2 ^ 63 }
    ensures start { result ≡ access_start object.now.profile cycle }
    ensures most { result ≤ cycle + 1000000 }
{
    if object.profile().has_unit_period() {
        return cycle;
    }
    lt_isa::access_start(object, cycle)
}
