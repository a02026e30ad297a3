use gr_word::{Cmp, Op};

/// An operator with two operands: an operation of the machine, `>>>`, a comparison, `&&` or `||`.
#[derive(Clone, Copy, Debug, PartialEq, Eq)]
pub enum Operator {
    Machine(Op),
    LogicalShift,
    Compare(Cmp),
    Conjunction,
    Disjunction,
}

/// A term: a number, a scalar by its number, an element of an array, an operator with two operands, or a selection by a
/// test.
#[derive(Debug, Drop)]
pub enum Term {
    Num(i64),
    Var(usize),
    Item(usize, Box<Term>),
    Bin(Operator, Box<Term>, Box<Term>),
    Select(Box<Term>, Box<Term>, Box<Term>),
}

/// A flat statement: nothing, two statements in sequence, an assignment to a scalar, an assignment to an element (its
/// array, its index, its value), a choice, a loop, or a local variable with its first value and its scope.
#[derive(Debug, Drop)]
pub enum Flat {
    Skip,
    Seq(Box<Flat>, Box<Flat>),
    Set(usize, Term),
    Put(usize, Term, Term),
    If(Term, Box<Flat>, Box<Flat>),
    While(Term, Box<Flat>),
    Local(usize, Term, Box<Flat>),
}
