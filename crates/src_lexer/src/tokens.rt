use gr_word::Name;

/// The kind of a token: a keyword, a sign, a number or a name of the source language. The comparisons are in the order
/// of [`gr_word::Cmp`].
#[derive(Debug, Drop)]
pub enum Kind {
    Public,
    Secret,
    Int,
    If,
    Else,
    While,
    LParen,
    RParen,
    LBracket,
    RBracket,
    LBrace,
    RBrace,
    Semi,
    Assign,
    Eq,
    Ne,
    Lt,
    Le,
    Gt,
    Ge,
    Plus,
    Minus,
    Star,
    Slash,
    Percent,
    Amp,
    Bar,
    Caret,
    Shl,
    Shr,
    Num(i64),
    Word(Name),
}

/// A token of a source text: its kind, the place of its first byte, and its number of bytes.
#[derive(Debug, Drop)]
pub struct Token {
    pub kind: Kind,
    pub start: u32,
    pub len: u32,
}
