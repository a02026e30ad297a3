ghost use Rattle.std.specs.Prelude.{◌≡◌, ◌++◌, ◌∷◌, [], IfOk};

use gr_base::Memory;
use std::mem;

/// Replaces a value, and drops the old one here. Only this function does: in an assignment to a place of a large type,
/// everything that dropping may reach is proved in line, at each such place again.
#[inline(always)]
pub fn put<T: Drop>(place: &mut T, value: T)
    ensures { place.new ≡ value }
{
    *place = value;
}

/// Takes a list out of its place, puts another one there, and frees the memory that the first one has no items in.
pub fn take_list<T>(place: &mut Vec<T>, next: Vec<T>) -> Vec<T>
    ensures items { result.items ≡ place.old.items }
    ensures next { place.new ≡ next }
{
    let mut list = mem::replace(place, next);
    list.shrink_to_fit();
    list
}

// Adds an item to the end of a list. Only this function does: what a push may reach when memory runs out is proved in
// line, at each such place again.
pub(crate) fn push<T: Drop>(list: &mut Vec<T>, item: T) -> Result<(), Memory>
    ensures { IfOk result (λ _. list.new.items ≡ list.old.items ++ item ∷ []) }
{
    list.push(item)?;
    Ok(())
}
