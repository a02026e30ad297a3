//! The names of variables for people. A variable that a call adds is named after its procedure and its parameter or local.

ghost use Rattle.std.specs.Prelude.{◌≡◌, false, IfOk};
ghost use Rattle.src_tree.specs.Prelude.{DeclaredOnce};
ghost use Rattle.shown_programs.specs.ShownNames.{AreShown, IsNew};

use gr_base::Memory;
use gr_word::{Name, name_fits};
use itoa::Buffer;
use procs_tree::is_hidden;
use source_tokens::{Counted, Frame, Place, Procedures, Tokens};
use src_tree::Decl;
use std::alloc::Global;

/// The most bytes of a name.
const NAME_BYTES: usize = 32;

/// The name of an added variable if its procedure and its parameter or local give none.
const OTHERWISE: &[u8] = b"call";

/// Whether a name is that of a variable which a call adds: `__` and a number.
pub fn is_added(name: &[u8]) -> bool {
    is_hidden(name) && number_in(name).is_some()
}

/// The number in the name of a variable that a call adds.
pub(crate) fn number_in(name: &[u8]) -> Option<usize> {
    let (_, digits) = name.split_at(name.len().min(2));
    let Ok(digits) = std::str::from_utf8(digits) else {
        return None;
    };
    digits.parse::<usize>().ok()
}

/// The names of a program's variables for people, in the order of declaration. A variable of the file keeps its name. One
/// that a call adds is called `max_k` after its procedure and its parameter or local, or `max_k_2` if that name is taken.
pub(crate) fn shown_names(
    alloc: Global,
    tokens: Tokens<'_>,
    decls: &[Decl],
) -> Result<Vec<Name>, Memory>
    ensures { DeclaredOnce decls.now → IfOk result (λ names. AreShown decls.now names.items) }
{
    let procedures = Procedures::of(alloc, tokens)?;
    let mut names = Vec::new(alloc);
    let mut added = 0u64;
    for decl in decls {
        if is_hidden(decl.name.bytes()) {
            let wanted = wanted_name(alloc, &procedures, added)?;
            names.push(free_name(alloc, decls, names.as_slice(), wanted.as_slice())?)?;
            added = added.saturating_add(1);
        } else {
            names.push(decl.name.copy(alloc)?)?;
        }
    }
    Ok(names)
}

// The name of a procedure and of its parameter or local, for the added variable of a number.
fn wanted_name(alloc: Global, procedures: &Procedures<'_>, number: u64) -> Result<Vec<u8>, Memory> {
    let tokens = procedures.tokens;
    let mut name = Vec::new(alloc);
    if let Some(origin) = procedures.origin(alloc, Counted::Variables, number)?
        && let Place::Own(Frame { callee, .. }, place) = origin.place
        && let Some((target, _)) = tokens.own_of(callee, place)
    {
        name.extend_from_slice(tokens.word(callee.name))?;
        name.push(b'_')?;
        name.extend_from_slice(tokens.word(target.name))?;
    }
    let name = beginning(alloc, &name, NAME_BYTES)?;
    if !name_fits(&name) || is_hidden(&name) {
        return Ok(OTHERWISE.to_vec(alloc)?);
    }
    Ok(name)
}

// A name that isn't taken: the one that is wanted, or its beginning with a number.
fn free_name(
    alloc: Global,
    declared: &[Decl],
    names: &[Name],
    wanted: &[u8],
) -> Result<Name, Memory>
    ensures { IfOk result (IsNew declared.now names.now) }
{
    let mut name = beginning(alloc, wanted, NAME_BYTES)?;
    for number in 2..u64::MAX {
        if name_fits(&name) && !is_taken(declared, names, &name) {
            return Name::new(alloc, &name);
        }
        name = numbered(alloc, wanted, number)?;
    }
    // That many names don't fit in memory.
    Err(Memory)
}

// Whether a name is declared, or is one of some names.
fn is_taken(declared: &[Decl], names: &[Name], name: &[u8]) -> bool
    ensures { result ≡ false → IsNew declared.now names.now name.now }
{
    for decl in declared {
        if decl.name.bytes() == name {
            return true;
        }
    }
    for other in names {
        if other.bytes() == name {
            return true;
        }
    }
    false
}

// The beginning of a name with `_` and a number, as long as a name may be.
fn numbered(alloc: Global, wanted: &[u8], number: u64) -> Result<Vec<u8>, Memory> {
    let mut buffer = Buffer::new();
    let digits = buffer.format(number).as_bytes();
    let most = NAME_BYTES.saturating_sub(digits.len()).saturating_sub(1);
    let mut name = beginning(alloc, wanted, most)?;
    name.push(b'_')?;
    name.extend_from_slice(digits)?;
    Ok(name)
}

// The first `most` bytes of a name.
fn beginning(alloc: Global, name: &[u8], most: usize) -> Result<Vec<u8>, Memory> {
    let (front, _) = name.split_at(most.min(name.len()));
    Ok(front.to_vec(alloc)?)
}
