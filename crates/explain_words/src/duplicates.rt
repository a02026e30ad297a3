//! Names that inputs have twice.

use crate::members::Walk;
use fault_texts::{WarningCount, Words, piece, spot_at};
use gr_base::Memory;
use std::alloc::Global;
use std::collections::BTreeMap;

/// Warns of names that inputs have twice.
pub(crate) fn warn_of_inputs(alloc: Global, name: &str, text: &[u8], out: &mut Words) {
    let put = warned(alloc, name, text, out);
    out.starve_on(put);
}

fn warned(alloc: Global, name: &str, text: &[u8], out: &mut Words) -> Result<(), Memory> {
    let mut count = WarningCount::NONE;
    let mut known: BTreeMap<&[u8], usize> = BTreeMap::new(alloc);
    let mut walk = Walk::START;
    // the last string of the outermost object, which is a name if a colon follows
    let mut start = 0usize;
    let mut end = 0usize;
    for (at, byte) in text.iter().enumerate() {
        let before = walk;
        walk = walk.after(*byte);
        if walk.depth != 1 {
            continue;
        }
        if walk.in_string && !before.in_string {
            start = at.saturating_add(1);
        } else if before.in_string && !walk.in_string {
            end = at;
        } else if *byte == b':' && !walk.in_string {
            let member = piece(text, start, end.saturating_sub(start));
            if known.get(&member).is_some() && count.next() {
                put_twice(name, text, start.saturating_sub(1), member, out);
            }
            if known.insert(member, start).is_err() {
                return Err(Memory);
            }
        }
    }
    count.close(out);
    Ok(())
}

fn put_twice(name: &str, text: &[u8], at: usize, member: &[u8], out: &mut Words) {
    out.put_warning(name, spot_at(text, at));
    out.quote(member);
    out.line(" is given twice: the last value is used");
}
