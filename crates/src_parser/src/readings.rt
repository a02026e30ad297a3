use gr_word::{Name, Op};
use src_tree::Expr;

// The most parentheses, brackets and signs that may be open in one statement's own expressions.
pub(crate) const MAX_BRACKETS: u32 = 32;

// The most operators and signs of one statement's own expressions.
pub(crate) const MAX_OPERATORS: u32 = 256;

/// An item that waits for an operand: a bracket, an index or a sign, each with how many were open before it, or an
/// operation with its left operand.
#[derive(Drop)]
pub enum Waiting {
    Open(u32),
    Index(u32, Name),
    Sign(u32),
    Pending(Expr, Op),
}

/// Whether an operand is expected, was a name that may get an index, or was read.
#[derive(Drop)]
pub enum OperandState {
    Wanted,
    Named(Name),
    Given(Expr),
}

/// How far an expression was read: what waits, with the last item at the end; how many brackets and signs are open; and
/// how many operators and signs the statement has used. It may begin inside brackets and after operators.
#[derive(Drop)]
pub struct Reading {
    pub stack: Vec<Waiting>,
    pub depth: u32,
    pub used: u32,
    pub operand: OperandState,
}

/// The effect of a token on an expression: it is read; the expression doesn't continue with it; it exceeds a limit.
#[derive(Drop)]
pub enum TokenStep {
    Moves,
    Stops,
    Deep,
}

// What still waits, and the operand, after everything that binds tightly enough has taken its operand.
#[derive(Drop)]
pub(crate) struct Joint {
    pub stack: Vec<Waiting>,
    pub tree: Expr,
    pub depth: u32,
}
