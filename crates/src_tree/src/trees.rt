use gr_word::{Cmp, Label, Name, Op};

/// An expression: a number, a variable, an element of an array with its index, or an operation on two expressions.
#[derive(Debug, Drop)]
pub enum Expr {
    Num(i64),
    Var(Name),
    Item(Name, Box<Expr>),
    Bin(Op, Box<Expr>, Box<Expr>),
}

/// A guard, which compares two expressions.
#[derive(Debug, Drop)]
pub struct Guard {
    pub cmp: Cmp,
    pub left: Expr,
    pub right: Expr,
}

/// A statement: an assignment to a variable, an assignment to an element of an array (its name, its index, its value),
/// a choice between two blocks, or a loop.
#[derive(Debug, Drop)]
pub enum Stmt {
    Set(Name, Expr),
    Put(Name, Expr, Expr),
    If(Guard, Vec<Stmt>, Vec<Stmt>),
    While(Guard, Vec<Stmt>),
}

/// The declaration of a variable. An array has a length, in words; a scalar has none.
#[derive(Debug, Drop)]
pub struct Decl {
    pub name: Name,
    pub label: Label,
    pub length: Option<u64>,
}

/// A program: its declarations and its statements, each in order.
#[derive(Debug, Drop)]
pub struct Program {
    pub decls: Vec<Decl>,
    pub body: Vec<Stmt>,
}
