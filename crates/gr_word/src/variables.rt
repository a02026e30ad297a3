use crate::names::Name;

/// Whether an observer may know a variable's words.
#[derive(Clone, Copy, Debug, PartialEq, Eq)]
pub enum Label {
    Public,
    Secret,
}

/// Whether a variable is one word or an array of words.
#[derive(Clone, Copy, Debug, PartialEq, Eq)]
pub enum Shape {
    Scalar,
    Array,
}

/// One variable that inputs must fit: its name, its label, its shape and its length in words.
#[derive(Debug, Drop)]
pub struct Want {
    pub name: Name,
    pub label: Label,
    pub shape: Shape,
    pub length: u32,
}
