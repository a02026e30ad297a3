ghost use Rattle.std.specs.Prelude.{◌≡◌, IfOk};
ghost use Rattle.src_lexer.specs.declared.tokens.Kind.TheVariants.{Num};
ghost use Rattle.src_parser.specs.Headings.{declared, heading_advanced, Closing, Declared, Sized, Sizing, Titled, Typed};
ghost use Rattle.src_parser.specs.Seen.{heading_of, heading_advance_of};
ghost use Rattle.src_parser.specs.Tokenwise.{Goes};

use gr_base::Memory;
use gr_word::{Label, Name};
use src_lexer::Kind;
use src_tree::Decl;
use std::alloc::Global;

/// How far a declaration was read, from its label on.
#[derive(Drop)]
pub enum Heading {
    Labelled(Label),
    Typed(Label),
    Titled(Label, Name),
    Sizing(Label, Name),
    Sized(Label, Name, u64),
    Closing(Label, Name, u64),
}

/// The effect of a token on a declaration: it is read; it ends the declaration; no declaration can continue with it.
#[derive(Drop)]
pub enum HeadingAdvance {
    Goes(Heading),
    Ends(Decl),
    Wrong,
}

// The declaration is complete.
fn end(label: Label, name: Name, length: Option<u64>) -> HeadingAdvance
    ensures { heading_advance_of result ≡ Goes (Declared (declared label name length)) }
{
    HeadingAdvance::Ends(Decl {
        name,
        label,
        length,
    })
}

// Reads the length of an array.
fn size(label: Label, name: Name, value: i64) -> HeadingAdvance
    ensures { heading_advance_of result ≡ heading_advanced (Sizing label name) (Num value) }
{
    if value < 0 {
        return HeadingAdvance::Wrong;
    }
    HeadingAdvance::Goes(Heading::Sized(label, name, value as u64))
}

fn typed(alloc: Global, label: Label, kind: &Kind) -> Result<HeadingAdvance, Memory>
    ensures { IfOk result (λ t. heading_advance_of t ≡ heading_advanced (Typed label) kind.now) }
{
    match kind {
        Kind::Word(name) => {
            let name = name.copy(alloc)?;
            Ok(HeadingAdvance::Goes(Heading::Titled(label, name)))
        }
        _ => Ok(HeadingAdvance::Wrong),
    }
}

fn titled(label: Label, name: Name, kind: &Kind) -> HeadingAdvance
    ensures { heading_advance_of result ≡ heading_advanced (Titled label name) kind.now }
{
    match kind {
        Kind::Semi => end(label, name, None),
        Kind::LBracket => HeadingAdvance::Goes(Heading::Sizing(label, name)),
        _ => HeadingAdvance::Wrong,
    }
}

fn sizing(label: Label, name: Name, kind: &Kind) -> HeadingAdvance
    ensures { heading_advance_of result ≡ heading_advanced (Sizing label name) kind.now }
{
    match kind {
        Kind::Num(value) => size(label, name, *value),
        _ => HeadingAdvance::Wrong,
    }
}

fn sized(label: Label, name: Name, length: u64, kind: &Kind) -> HeadingAdvance
    ensures { heading_advance_of result ≡ heading_advanced (Sized label name length) kind.now }
{
    match kind {
        Kind::RBracket => HeadingAdvance::Goes(Heading::Closing(label, name, length)),
        _ => HeadingAdvance::Wrong,
    }
}

fn closing(label: Label, name: Name, length: u64, kind: &Kind) -> HeadingAdvance
    ensures { heading_advance_of result ≡ heading_advanced (Closing label name length) kind.now }
{
    match kind {
        Kind::Semi => end(label, name, Some(length)),
        _ => HeadingAdvance::Wrong,
    }
}

/// Reads the next token of a declaration. `Memory` says nothing about the tokens.
pub fn read_heading(alloc: Global, heading: Heading, kind: &Kind) -> Result<HeadingAdvance, Memory>
    ensures { IfOk result (λ t. heading_advance_of t ≡ heading_advanced (heading_of heading) kind.now) }
{
    match heading {
        Heading::Labelled(label) => match kind {
            Kind::Int => Ok(HeadingAdvance::Goes(Heading::Typed(label))),
            _ => Ok(HeadingAdvance::Wrong),
        },
        Heading::Typed(label) => typed(alloc, label, kind),
        Heading::Titled(label, name) => Ok(titled(label, name, kind)),
        Heading::Sizing(label, name) => Ok(sizing(label, name, kind)),
        Heading::Sized(label, name, length) => Ok(sized(label, name, length, kind)),
        Heading::Closing(label, name, length) => Ok(closing(label, name, length, kind)),
    }
}
