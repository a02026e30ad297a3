ghost use Rattle.std.specs.Prelude.{◌≡◌, option_map, is_none, IfOk, IfErr, OnOk};
ghost use Rattle.lt_assembler.specs.Drafts.{place_of, with_label};
ghost use Rattle.lt_assembler.specs.Seen.{by_name};

use crate::draft::CodePlace;
use crate::faults::Fault;
use crate::label_keys::{Labels, key_of};

/// The place of a label.
pub fn place_of<'a>(labels: &Labels<'a>, name: &'a [u8]) -> Option<CodePlace>
    ensures { option_map (λ p. p.number) result ≡ place_of (by_name labels.now.entries) name.now }
{
    labels.get(&key_of(name)).copied()
}

/// Adds a label with its place, and returns whether the label is new.
pub fn add_label<'a>(
    labels: &mut Labels<'a>,
    name: &'a [u8],
    place: CodePlace,
) -> Result<bool, Fault>
    ensures memory { IfErr result (λ e. e ≡ Fault.Memory) }
    ensures new { IfOk result (λ new. new ≡ is_none (place_of (by_name labels.old.entries) name.now)) }
    ensures added { OnOk result
        (by_name labels.new.entries ≡ with_label name.now place.number (by_name labels.old.entries)) }
{
    let before = labels.insert(key_of(name), place)?;
    Ok(before.is_none())
}
