//! The variables of an object or a program: their labels, numbers and words.

ghost use Rattle.std.specs.Prelude.{◌≡◌, IfSome, None, length};
ghost use Rattle.lt_assembler.specs.Prelude.{label_word};
ghost use Rattle.src_tree.specs.Prelude.{variable_number};

use gr_base::Memory;
use gr_word::{Inputs, Label, Name, Shape};
use lt_isa::Symbol;
use src_tree::Decl;
use std::alloc::Global;

/// The word for a label.
pub fn label_text(label: Label) -> &'static str
    ensures { result.now ≡ label_word label }
{
    match label {
        Label::Public => "public",
        Label::Secret => "secret",
    }
}

/// Adds a name to a text.
pub(crate) fn push_name(text: &mut String, name: &Name) -> Result<(), Memory> {
    for byte in name.bytes() {
        text.push(char::from(*byte))?;
    }
    Ok(())
}

/// Adds a word of a variable in two runs to a text, as in `n: 10 and 9` or `a[3]: 5 and 7`.
pub(crate) fn push_two_words(
    alloc: Global,
    text: &mut String,
    symbol: &Symbol,
    index: u64,
    words: (i64, i64),
) -> Result<(), Memory> {
    push_name(text, &symbol.name)?;
    if let Shape::Array = symbol.shape {
        text.push_str(format!(in alloc; "[{index}]")?.as_str())?;
    }
    let (one, other) = words;
    text.push_str(format!(in alloc; ": {one} and {other}")?.as_str())?;
    Ok(())
}

/// The words of a variable, by its number; none if there is no such variable.
pub(crate) fn words_of(inputs: &Inputs, variable: usize) -> &[i64] {
    if variable < inputs.len() {
        inputs.words(variable)
    } else {
        &[]
    }
}

/// The number of the variable of a name, in the order of declaration, or `None` if no variable has it.
pub fn number_of(decls: &[Decl], name: &[u8]) -> Option<usize>
    ensures found { IfSome result (λ number. number ≡ variable_number decls.now name.now) }
    ensures none { result ≡ None → variable_number decls.now name.now ≡ length decls.now }
{
    for (number, decl) in decls.iter().enumerate() {
        if name == decl.name.bytes() {
            return Some(number);
        }
    }
    None
}
