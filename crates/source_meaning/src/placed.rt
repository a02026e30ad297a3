use gr_word::{Cmp, Op};

// An expression with numbers of variables instead of names.
#[derive(Drop)]
pub(crate) enum Term {
    Constant(i64),
    Scalar(usize),
    Element(usize, Box<Term>),
    Operation(Op, Box<Term>, Box<Term>),
}

// A guard of such expressions.
#[derive(Drop)]
pub(crate) struct Check {
    pub cmp: Cmp,
    pub left: Term,
    pub right: Term,
}

// A statement of such expressions.
#[derive(Drop)]
pub(crate) enum Step {
    SetScalar(usize, Term),
    SetElement(usize, Term, Term),
    Choice(Check, Vec<Step>, Vec<Step>),
    Loop(Check, Vec<Step>),
}
