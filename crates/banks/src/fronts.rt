ghost use Rattle.std.specs.Prelude.{◌≡◌, ℕ, ◌+◌, ◌-◌, ◌<◌, ◌≤◌, ◌^◌, ◌&&◌, nat_le, nat_lt, if◌then◌else◌, pos, length, slice_index_or, vec_capacity};
ghost use Rattle.banks.specs.Blocks.{filled_up};

/// A word by its number, or 0 if there is no such word.
pub(crate) fn word_at(words: &[i64], at: usize) -> i64
    ensures { result ≡ slice_index_or words.now at (pos 0) }
{
    if at < words.len() { words[at] } else { 0 }
}

/// Fills a slice with the words from a place on, and with 0 past their end.
pub(crate) fn read_at(words: &[i64], start: usize, into: &mut [i64])
    requires { start < 2 ^ 63 }
    ensures { (i : ℕ) → i < length into.old
        → slice_index_or into.new i (pos 0) ≡ slice_index_or words.now (start + i) (pos 0) }
{
    let end = start + into.len();
    if end <= words.len() {
        into.copy_from_slice(&words[start..end]);
    } else {
        into.fill(0);
        read_kept(words, start, into);
    }
}

// Copies the words from a place on to the beginning of a slice of zeros that is longer than they are.
fn read_kept(words: &[i64], start: usize, into: &mut [i64])
    requires end { length words.now < start + length into.old }
    requires zeros { (i : ℕ) → slice_index_or into.old i (pos 0) ≡ pos 0 }
    ensures { (i : ℕ) → i < length into.old
        → slice_index_or into.new i (pos 0) ≡ slice_index_or words.now (start + i) (pos 0) }
{
    if start < words.len() {
        let kept = words.len() - start;
        into[..kept].copy_from_slice(&words[start..]);
    }
}

/// Writes words at a place of a vector that has room for them, with 0 between the words that it had and these. It takes
/// no memory.
pub fn write_at(words: &mut Vec<i64>, start: usize, from: &[i64])
    requires { start + length from.now ≤ vec_capacity words.old }
    ensures words { (i : ℕ) → slice_index_or words.new.items i (pos 0)
        ≡ (if nat_le start i && nat_lt i (start + length from.now)
        then slice_index_or from.now (i - start) (pos 0)
        else slice_index_or words.old.items i (pos 0)) }
    ensures within { (n : ℕ) → length words.old.items ≤ n → start + length from.now ≤ n → length words.new.items ≤ n }
    ensures capacity { vec_capacity words.old ≤ vec_capacity words.new }
{
    fill_up(words, start + from.len());
    write_over(words.as_mut_slice(), start, from);
}

// Writes words at a place of a slice.
fn write_over(words: &mut [i64], start: usize, from: &[i64])
    requires { start + length from.now ≤ length words.old }
    ensures { (i : ℕ) → i < length words.old → slice_index_or words.new i (pos 0)
        ≡ (if nat_le start i && nat_lt i (start + length from.now)
        then slice_index_or from.now (i - start) (pos 0)
        else slice_index_or words.old i (pos 0)) }
{
    words[start..start + from.len()].copy_from_slice(from);
}

/// Appends zeros to a vector that has room for them until it has `len` words; a longer vector stays as it is. It takes
/// no memory.
pub fn fill_up(words: &mut Vec<i64>, len: usize)
    requires { len ≤ vec_capacity words.old }
    ensures items { words.new.items ≡ filled_up len words.old.items }
    ensures capacity { vec_capacity words.old ≤ vec_capacity words.new }
{
    if words.len() < len {
        match words.resize(len, 0) {
            Ok(()) => (),
            Err(_) => unreachable!(),
        }
    }
}
