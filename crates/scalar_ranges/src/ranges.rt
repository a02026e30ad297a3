ghost use Rattle.std.specs.Prelude.{◌≡◌, IfOk};
ghost use Rattle.scalar_ranges.specs.Known.{range_from, nothing_known};

use gr_base::Memory;
use std::alloc::Global;

/// A range of numbers, which includes the least and the most.
#[derive(Clone, Copy, Debug, PartialEq, Eq)]
pub struct Range {
    pub least: u64,
    pub most: u64,
}

/// The range with these ends; `None` if it has no number in it, or if its most isn't a word.
pub(crate) fn range_from(least: u128, most: u128) -> Option<Range>
    ensures { result ≡ range_from least most }
{
    if least <= most && most < 9_223_372_036_854_775_808 {
        return Some(Range {
            least: least as u64,
            most: most as u64,
        });
    }
    None
}

/// What is known of variables before a program runs: nothing. The only error is that memory ran out.
pub fn nothing_known(alloc: Global, count: usize) -> Result<Vec<Option<Range>>, Memory>
    ensures { IfOk result (λ known. known.items ≡ nothing_known count) }
{
    let mut known = Vec::new(alloc);
    for _ in 0..count {
        known.push(None)?;
    }
    Ok(known)
}
