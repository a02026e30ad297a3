ghost use Rattle.std.specs.Prelude.{◌≡◌, ◌≤◌, max};
ghost use Rattle.bus_arbiter.specs.Refusals.{meets};
ghost use Rattle.bus_arbiter.specs.Shares.{ShareFits, end_of, longest_of, share_of};

use lt_isa::Object;

/// What a core needs of a bus: the window of its object, and how long a transfer may last that starts in it.
#[derive(Clone, Copy, Debug, PartialEq, Eq)]
pub struct Share {
    /// Cycles of a period.
    pub period: u32,
    /// The cycle of a period from which on transfers may start.
    pub opens: u32,
    /// The cycle of a period from which on none may start.
    pub closes: u32,
    /// The most cycles that a transfer lasts.
    pub longest: u32,
}

impl Share {
    /// What a core with this object needs.
    pub fn of_object(object: &Object) -> Share
        ensures share { result ≡ share_of object.now }
        ensures fits { ShareFits result }
    {
        let profile = object.profile();
        Share {
            period: profile.period,
            opens: profile.opens,
            closes: profile.closes,
            longest: longest(object),
        }
    }
}

/// The cycle of a period after the last one in which a transfer of this share may be on the bus.
pub(crate) fn end(share: &Share) -> u32
    requires { ShareFits share.now }
    ensures { result ≡ end_of share.now }
{
    share.closes - 1 + share.longest
}

/// Whether transfers of both shares may be on the bus in one cycle of a period.
pub(crate) fn meet(one: &Share, other: &Share) -> bool
    requires one { ShareFits one.now }
    requires other { ShareFits other.now }
    ensures { result ≡ meets one.now other.now }
{
    one.opens < end(other) && other.opens < end(one)
}

// The most cycles that a transfer of an object lasts.
fn longest(object: &Object) -> u32
    ensures longest { result ≡ longest_of object.now }
    ensures some { 1 ≤ result }
    ensures most { result ≤ 1000000 }
{
    let mut longest = 0;
    for bank in object.banks() {
        longest = greater(longest, bank.latency);
    }
    longest
}

fn greater(one: u32, other: u32) -> u32
    ensures { result ≡ max one other }
{
    if one < other {
        return other;
    }
    one
}
