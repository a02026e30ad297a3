use gr_word::{Cmp, Label, Name, Op};

/// An operator with two operands: an operation of the machine, `>>>`, a comparison, `&&` or `||`.
#[derive(Clone, Copy, Debug, PartialEq, Eq)]
pub enum Operator {
    Machine(Op),
    LogicalShift,
    Compare(Cmp),
    Conjunction,
    Disjunction,
}

/// An expression: a number, a constant or a scalar, an element of an array or of a table, the length of one of these,
/// an operator with two operands, a selection by a test, or a call.
#[derive(Debug, Drop)]
pub enum Expr {
    Num(i64),
    Var(Name),
    Item(Name, Box<Expr>),
    Length(Name),
    Bin(Operator, Box<Expr>, Box<Expr>),
    Select(Box<Expr>, Box<Expr>, Box<Expr>),
    Call(Name, Vec<Expr>),
}

/// A statement: a declaration, an assignment to a variable, an assignment to an element (its name, its index, its
/// value), a choice between two blocks, a loop with its body and its step, a return, a call, or a block of its own.
#[derive(Debug, Drop)]
pub enum Stmt {
    Declare(Option<Label>, Name, Expr),
    Set(Name, Expr),
    Put(Name, Expr, Expr),
    If(Expr, Vec<Stmt>, Vec<Stmt>),
    Loop(Expr, Vec<Stmt>, Vec<Stmt>),
    Return(Expr),
    Call(Name, Vec<Expr>),
    Block(Vec<Stmt>),
}

/// A parameter: a word, or another name for an array of the caller.
#[derive(Debug, Drop)]
pub enum Parameter {
    Word(Option<Label>, Name),
    Array(Name),
}

/// A function: its name, whether it returns a word, its parameters, and its body.
#[derive(Debug, Drop)]
pub struct Function {
    pub name: Name,
    pub returns_word: bool,
    pub parameters: Vec<Parameter>,
    pub body: Vec<Stmt>,
}
