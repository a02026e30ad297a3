use crate::headings::Heading;
use crate::parts::{Form, Part};
use src_tree::{Decl, Guard, Stmt};

// The most braces that may be open.
pub(crate) const MAX_BRACES: usize = 32;

/// An open block, with its guard, the first block of its choice, and the statements before its statement.
#[derive(Drop)]
pub enum Outer<S> {
    InFirst(Guard, Vec<S>),
    InSecond(Guard, Vec<S>, Vec<S>),
    InLoop(Guard, Vec<S>),
}

/// What comes before the next part of a statement: nothing; the first block of a choice; the guard of a block; an
/// `else`.
#[derive(Drop)]
pub enum Pause<S> {
    Ready,
    MayElse(Guard, Vec<S>),
    Guarded(Form, Guard),
    Otherwise(Guard, Vec<S>),
}

/// How far statements were read.
#[derive(Drop)]
pub enum Phase<S> {
    Between(Pause<S>),
    InPart(Part),
}

/// What was read of the statements: the open blocks, with the innermost at the end, and the statements of the innermost
/// block.
#[derive(Drop)]
pub struct Blocks<S> {
    pub outer: Vec<Outer<S>>,
    pub here: Vec<S>,
}

// What was read of a program, and how far: between declarations, in a declaration, or among statements.
#[derive(Drop)]
pub(crate) enum ParserState {
    Between(Vec<Decl>),
    Declaring(Vec<Decl>, Heading),
    Doing(Vec<Decl>, Blocks<Stmt>, Phase<Stmt>),
}

/// The effect of a token on what was read: it is read; nothing can continue with it; it exceeds a limit.
#[derive(Drop)]
pub enum Advance {
    Goes,
    Wrong,
    TooMuch,
}
