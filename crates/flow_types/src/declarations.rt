ghost use Rattle.std.specs.Prelude.{◌≡◌, ◌+◌, List, [], Some, None, Ok, Err, IfOk, IfErr, OnOk, length};
ghost use Rattle.src_tree.specs.declared.faults.TypeError.TheVariants.{Memory};
ghost use Rattle.src_tree.specs.Prelude.{words_of_length, words_of, length_fits, length_fault, words_fault, variables_fault};
ghost use Rattle.gr_base.specs.Prelude.{found_under};
ghost use Rattle.flow_types.specs.Walk.{with_name, nothing_known, names_gathered, IsRefusal};

use crate::names::place;
use crate::walks::where_true;
use gr_word::{Label, Shape};
use src_tree::{Decl, Names, TypeError, Which, kind_at, shape_of};
use std::alloc::Global;
use std::collections::BTreeMap;

// The most variables of a program.
const MAX_VARIABLES: usize = 256;

// The most words of an array.
const MAX_LENGTH: u64 = 1048576;

// The most words of all variables together.
const MAX_WORDS: u64 = 4194304;

// Adds a name, with what it is declared as.
fn add_name<'a>(
    names: &mut Names<'a>,
    name: &'a [u8],
    kind: (Label, Shape),
) -> Result<(), TypeError>
    ensures memory { IfErr result (λ e. e ≡ Memory) }
    ensures added { OnOk result (found_under names.new ≡ with_name (found_under names.old) name.now kind) }
{
    match names.insert(name, kind) {
        Ok(_) => Ok(()),
        Err(_) => Err(TypeError::Memory),
    }
}

// The names of declarations, or the error that a name is declared again.
pub(crate) fn gather<'a>(alloc: Global, decls: &'a [Decl]) -> Result<Names<'a>, TypeError>
    ensures gathered { IfOk result (λ names. names_gathered nothing_known 0 decls.now ≡ Ok (found_under names)) }
    ensures refused { IfErr result (λ e. IsRefusal e (names_gathered nothing_known 0 decls.now)) }
{
    let mut names = BTreeMap::new(alloc);
    for (i, decl) in decls.iter().enumerate() {
        if kind_at(&names, decl.name.bytes()).is_some() {
            return Err(TypeError::TwiceDeclared(place(i as u64)));
        }
        let kind = (decl.label, shape_of(decl.length));
        match add_name(&mut names, decl.name.bytes(), kind) {
            Ok(()) => {}
            Err(_) => return Err(TypeError::Memory),
        }
    }
    Ok(names)
}

// Whether an array's length is within the limits; a scalar has no length.
fn length_fits(length: Option<u64>) -> bool
    ensures { result ≡ length_fits length }
{
    match length {
        None => true,
        Some(words) => 1 <= words && words <= MAX_LENGTH,
    }
}

// The words of a variable.
pub(crate) fn words_in(length: Option<u64>) -> u64
    ensures { result ≡ words_of_length length }
{
    match length {
        None => 1,
        Some(words) => words,
    }
}

pub(crate) fn variables_fault(decls: &[Decl]) -> Option<TypeError>
    ensures { result ≡ variables_fault decls.now }
{
    let count = decls.len();
    where_true(
        count > MAX_VARIABLES,
        TypeError::Limit(Which::Variables, count as u64),
    )
}

pub(crate) fn length_fault(decls: &[Decl]) -> Option<TypeError>
    ensures { result ≡ length_fault 0 decls.now }
{
    for (i, decl) in decls.iter().enumerate() {
        if !length_fits(decl.length) {
            return Some(TypeError::Limit(Which::ArrayLength, i as u64));
        }
    }
    None
}

pub(crate) fn words_fault(decls: &[Decl]) -> Option<TypeError>
    ensures { result ≡ words_fault 0 0 decls.now }
{
    let mut total = 0u64;
    for (i, decl) in decls.iter().enumerate() {
        total = total.saturating_add(words_in(decl.length));
        if total > MAX_WORDS {
            return Some(TypeError::Limit(Which::TotalWords, i as u64));
        }
    }
    None
}
