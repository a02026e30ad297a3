ghost use Rattle.std.specs.Prelude.{◌≡◌, IfOk};
ghost use Rattle.gr_base.specs.Prelude.{Within, is_within};
ghost use Rattle.object_file.specs.Reading.{Decodes, place, number_at, field_at};

use crate::errors::DecodeError;
use byteorder::{ByteOrder, LittleEndian};

/// A value, and the bytes after it.
pub type Read<'a, T> = Result<(T, &'a [u8]), DecodeError>;

/// The place of the first of the remaining bytes of a file, which has `all` bytes.
pub fn offset_of(all: u32, bytes: &[u8]) -> u32
    ensures { result ≡ place all bytes.now }
{
    (all as usize).saturating_sub(bytes.len()) as u32
}

/// A number of one byte, and the bytes after it.
#[tactic(auto, unfolding(crate::specs::Reading::number_at))]
pub fn u8_at(all: u32, bytes: &[u8]) -> Read<'_, u8>
    ensures { Decodes (λ x. (x.0, x.1.now)) result (number_at 1 all bytes.now) }
{
    match bytes {
        [] => Err(DecodeError::Truncated(offset_of(all, bytes))),
        [number, rest @ ..] => Ok((*number, rest)),
    }
}

/// A number of two bytes, and the bytes after it.
#[tactic(auto, unfolding(crate::specs::Reading::number_at))]
pub fn u16_at(all: u32, bytes: &[u8]) -> Read<'_, u16>
    ensures { Decodes (λ x. (x.0, x.1.now)) result (number_at 2 all bytes.now) }
{
    if bytes.len() < 2 {
        return Err(DecodeError::Truncated(offset_of(all, bytes)));
    }
    Ok((LittleEndian::read_u16(bytes), &bytes[2..]))
}

/// A number of four bytes, and the bytes after it.
#[tactic(auto, unfolding(crate::specs::Reading::number_at))]
pub fn u32_at(all: u32, bytes: &[u8]) -> Read<'_, u32>
    ensures { Decodes (λ x. (x.0, x.1.now)) result (number_at 4 all bytes.now) }
{
    if bytes.len() < 4 {
        return Err(DecodeError::Truncated(offset_of(all, bytes)));
    }
    Ok((LittleEndian::read_u32(bytes), &bytes[4..]))
}

/// A number of eight bytes, and the bytes after it.
#[tactic(auto, unfolding(crate::specs::Reading::number_at))]
fn u64_at(all: u32, bytes: &[u8]) -> Read<'_, u64>
    ensures { Decodes (λ x. (x.0, x.1.now)) result (number_at 8 all bytes.now) }
{
    if bytes.len() < 8 {
        return Err(DecodeError::Truncated(offset_of(all, bytes)));
    }
    Ok((LittleEndian::read_u64(bytes), &bytes[8..]))
}

/// A field of one byte, from `low` to `high`, and the bytes after it.
#[tactic(auto, unfolding(crate::specs::Reading::field_at, gr_base::specs::Lists::is_within))]
pub fn u8_field(all: u32, low: u64, high: u64, bytes: &[u8]) -> Read<'_, u8>
    ensures read { Decodes (λ x. (x.0, x.1.now)) result (field_at 1 all (is_within low high) bytes.now) }
    ensures range { IfOk result (λ x. Within low high x.0) }
{
    let (number, rest) = u8_at(all, bytes)?;
    if u64::from(number) < low || high < u64::from(number) {
        return Err(DecodeError::BadField(offset_of(all, bytes)));
    }
    Ok((number, rest))
}

/// A field of two bytes, from `low` to `high`, and the bytes after it.
#[tactic(auto, unfolding(crate::specs::Reading::field_at, gr_base::specs::Lists::is_within))]
pub fn u16_field(all: u32, low: u64, high: u64, bytes: &[u8]) -> Read<'_, u16>
    ensures read { Decodes (λ x. (x.0, x.1.now)) result (field_at 2 all (is_within low high) bytes.now) }
    ensures range { IfOk result (λ x. Within low high x.0) }
{
    let (number, rest) = u16_at(all, bytes)?;
    if u64::from(number) < low || high < u64::from(number) {
        return Err(DecodeError::BadField(offset_of(all, bytes)));
    }
    Ok((number, rest))
}

/// A field of four bytes, from `low` to `high`, and the bytes after it.
#[tactic(auto, unfolding(crate::specs::Reading::field_at, gr_base::specs::Lists::is_within))]
pub fn u32_field(all: u32, low: u64, high: u64, bytes: &[u8]) -> Read<'_, u32>
    ensures read { Decodes (λ x. (x.0, x.1.now)) result (field_at 4 all (is_within low high) bytes.now) }
    ensures range { IfOk result (λ x. Within low high x.0) }
{
    let (number, rest) = u32_at(all, bytes)?;
    if u64::from(number) < low || high < u64::from(number) {
        return Err(DecodeError::BadField(offset_of(all, bytes)));
    }
    Ok((number, rest))
}

/// A field of eight bytes, from `low` to `high`, and the bytes after it.
#[tactic(auto, unfolding(crate::specs::Reading::field_at, gr_base::specs::Lists::is_within))]
pub fn u64_field(all: u32, low: u64, high: u64, bytes: &[u8]) -> Read<'_, u64>
    ensures read { Decodes (λ x. (x.0, x.1.now)) result (field_at 8 all (is_within low high) bytes.now) }
    ensures range { IfOk result (λ x. Within low high x.0) }
{
    let (number, rest) = u64_at(all, bytes)?;
    if number < low || high < number {
        return Err(DecodeError::BadField(offset_of(all, bytes)));
    }
    Ok((number, rest))
}
