ghost use Rattle.std.specs.Prelude.{◌≡◌};
ghost use Rattle.lt_assembler.specs.Marks.{mixed, mark_of};

use crate::draft::CodePlace;
use std::collections::BTreeMap;

/// A label's name as the key of a map. Keys are compared first by a number that is computed from the name's bytes,
/// which differs between most names, so few names are compared byte by byte. Equal numbers only cost time.
#[derive(Clone, Copy, PartialEq, Eq, PartialOrd, Ord)]
pub struct LabelKey<'a> {
    mark: u64,
    name: &'a [u8],
    ghost marked: { mark ≡ mark_of name.now },
}

/// Labels and their places.
pub type Labels<'a> = BTreeMap<LabelKey<'a>, CodePlace>;

/// The mark of some bytes, with one more byte.
#[tactic(auto, unfolding(crate::specs::Marks::mixed))]
fn mixed(mark: u64, byte: u8) -> u64
    ensures { result ≡ mixed mark byte }
{
    mark.wrapping_mul(31).wrapping_add(u64::from(byte))
}

fn mark_of(name: &[u8]) -> u64
    ensures { result ≡ mark_of name.now }
{
    let mut mark = 0;
    for byte in name {
        mark = mixed(mark, *byte);
    }
    mark
}

/// The key of a name.
pub fn key_of(name: &[u8]) -> LabelKey<'_>
    ensures { result.name.now ≡ name.now }
{
    LabelKey {
        mark: mark_of(name),
        name,
    }
}
