ghost use Rattle.std.specs.Prelude.{◌≡◌, ◌≢◌, ◌≤◌, length, IfErr, IfOk, MatchResult};
ghost use Rattle.lt_isa.specs.Prelude.{Parts, IsInRange};
ghost use Rattle.object_file.specs.Spelling.{spelling};
ghost use Rattle.object_file.specs.Reading.{Decodes, object_at, decoded};
ghost use Rattle.object_file.specs.FirstFaults.{IsFirstObjectFault};

use crate::errors::DecodeError;
use crate::fields::offset_of;
use crate::header::{banks, behind_magic, profile};
use crate::instructions::code;
use crate::notes::notes;
use crate::symbols::symbols;
use lt_isa::ranges::next_place;
use lt_isa::{BankSpec, Instr, Note, Object, Profile, Symbol};
use std::alloc::Global;

/// The five parts of an object, as they were read.
#[derive(Drop)]
struct Sections {
    profile: Profile,
    banks: Vec<BankSpec>,
    symbols: Vec<Symbol>,
    notes: Vec<Note>,
    code: Vec<Instr>,
}

#[tactic(auto, unfolding(crate::specs::Reading::object_at, crate::specs::Reading::parts_at))]
fn read_sections(alloc: Global, all: u32, bytes: &[u8]) -> Result<Sections, DecodeError>
    ensures { Decodes
        (λ s. record {
          profile = s.profile;
          banks = s.banks.items;
          symbols = s.symbols.items;
          notes = s.notes.items;
          code = s.code.items;
        })
        result
        (object_at all bytes.now) }
{
    let rest = behind_magic(all, bytes)?;
    let (profile, rest) = profile(all, rest)?;
    let (banks, rest) = banks(alloc, all, rest)?;
    let (symbols, rest) = symbols(alloc, all, profile.block_words(), &banks, rest)?;
    let (notes, rest) = notes(alloc, all, banks.len(), rest)?;
    let fewest = next_place(&notes).max(1);
    let (code, rest) = code(alloc, all, banks.len() as u8, fewest, rest)?;
    if !rest.is_empty() {
        return Err(DecodeError::TrailingBytes(offset_of(all, rest)));
    }
    Ok(Sections {
        profile,
        banks,
        symbols,
        notes,
        code,
    })
}

#[tactic(auto, unfolding(crate::specs::Reading::decoded))]
fn read_object(alloc: Global, bytes: &[u8]) -> Result<Object, DecodeError>
    requires { length bytes.now ≤ 33554432 }
    ensures { Decodes (λ o. o) result (decoded bytes.now) }
{
    let Sections {
        profile,
        banks,
        symbols,
        notes,
        code,
    } = read_sections(alloc, bytes.len() as u32, bytes)?;
    Ok(Object::of_parts(profile, banks, symbols, notes, code))
}

/// The object that a file's bytes encode, or the file's first error; the file has at most 33,554,432 bytes. Fields are
/// read in the order of the file. The first error is a field that is incomplete or isn't allowed, or bytes that follow
/// the object. Running out of memory says nothing about the file.
pub fn decode(alloc: Global, bytes: &[u8]) -> Result<Object, DecodeError>
    requires { length bytes.now ≤ 33554432 }

    // An object that is found is in range, and the bytes are its encoding.
    ensures found { IfOk result (λ o. IsInRange o × (bytes.now ≡ spelling o)) }

    // If the bytes encode an object in range, that object is found, unless memory runs out.
    ensures only { (o : Parts)
        → IsInRange o → bytes.now ≡ spelling o → MatchResult result (λ p. p ≡ o) (λ e. e ≡ DecodeError.Memory) }

    // An error is the file's first.
    ensures first { IfErr result (λ e. e ≢ DecodeError.Memory → IsFirstObjectFault bytes.now e) }
{
    read_object(alloc, bytes)
}
