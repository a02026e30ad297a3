ghost use Rattle.std.specs.Prelude.{◌≡◌, ◌<◌, ◌↔◌, ◌++◌, ℕ, List, All, Ok, Err, take};
ghost use Rattle.lt_isa.specs.Prelude.{Parts, IsInRange};
ghost use Rattle.object_file.specs.Spelling.{spelling};
ghost use Rattle.object_file.specs.Reading.{decoded};
ghost use Rattle.object_file.specs.FirstFaults.{HasMore, IsCutShort, IsFirstObjectFault, IsRefused, IsTruncated, end_of_field};

use crate::errors::DecodeError;

/// Does nothing; its clauses are the laws of the format. Each object has one encoding, and no two objects have the same
/// one. What [`encode`](crate::encode) writes is decoded to the same object, and what [`decode`](crate::decode) accepts
/// is encoded to the same bytes. An error is reported exactly if it is the file's first: the file ends within a field,
/// and all before the field is allowed; or the bytes encode an object and more follow; or a field isn't allowed and all
/// before it is, with any bytes after it. Each prefix of a truncated file is truncated.
pub fn format_laws()
    ensures one_spelling { (o p : Parts) → IsInRange o → IsInRange p → spelling o ≡ spelling p → o ≡ p }
    ensures encoded_again { (o : Parts) → IsInRange o → decoded (spelling o) ≡ Ok o }
    ensures decoded_again { (bytes : List ℕ) (o : Parts)
        → All (λ byte. byte < 256) bytes → decoded bytes ≡ Ok o → IsInRange o × (spelling o ≡ bytes) }
    ensures first_fault { (bytes : List ℕ) (e : DecodeError) → All (λ byte. byte < 256) bytes
        → (decoded bytes ≡ Err e) ↔ IsFirstObjectFault bytes e }
    ensures truncated { (bytes : List ℕ) (place : ℕ) → All (λ byte. byte < 256) bytes
        → (decoded bytes ≡ Err (DecodeError.Truncated place)) ↔ IsCutShort bytes place }
    ensures trailing { (bytes : List ℕ) (place : ℕ) → All (λ byte. byte < 256) bytes
        → (decoded bytes ≡ Err (DecodeError.TrailingBytes place)) ↔ HasMore bytes place }
    ensures refused { (bytes other : List ℕ) (e : DecodeError) → (field : IsRefused bytes e)
        → decoded (take (end_of_field field) bytes ++ other) ≡ Err e }
    ensures shortened { (front more : List ℕ) (place : ℕ) → decoded (front ++ more) ≡ Err (DecodeError.Truncated place)
        → IsTruncated (decoded front) }
{}
