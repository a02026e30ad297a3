ghost use Rattle.std.specs.Prelude.{◌≡◌, ℕ, List, map};
ghost use Rattle.src_tree.specs.Prelude.{Tree, Test, expr_tree, test_of};
ghost use Rattle.src_parser.specs.Statements.{Makers};

use gr_word::Name;
use src_tree::{Expr, Guard, Stmt};

/// A language whose statements are assignments, choices and loops, and possibly others, which its own parser reads.
/// why: implemented by a type without fields, since a crate can't implement a trait of one crate for a type of another.
pub trait Language {
    /// A statement.
    type Stmt: Drop;

    /// What contracts see of a statement.
    ghost Seen: { Type 0 };

    /// How contracts see a statement.
    ghost seen: { Self.Stmt → Seen };

    /// How the language makes its statements.
    ghost makers: { Makers Seen };

    /// An assignment to a variable.
    fn variable_set(name: Name, value: Expr) -> Self::Stmt
        ensures { seen result ≡ makers.variable_set name (expr_tree value) };

    /// An assignment to an element.
    fn element_set(name: Name, index: Expr, value: Expr) -> Self::Stmt
        ensures { seen result ≡ makers.element_set name (expr_tree index) (expr_tree value) };

    /// A choice between two blocks.
    fn choice(guard: Guard, first: Vec<Self::Stmt>, second: Vec<Self::Stmt>) -> Self::Stmt
        ensures { seen result ≡ makers.choice (test_of guard) (map seen first.items) (map seen second.items) };

    /// A loop.
    fn repetition(guard: Guard, body: Vec<Self::Stmt>) -> Self::Stmt
        ensures { seen result ≡ makers.repetition (test_of guard) (map seen body.items) };
}

/// The language of programs.
pub struct Programs;

impl Language for Programs {
    ghost use Rattle.src_tree.specs.Trees.{Statement, statement_of};
    ghost use Rattle.src_parser.specs.Advances.{programs};

    type Stmt = Stmt;

    ghost Seen = { Statement };

    ghost seen = { statement_of };

    ghost makers = { programs };

    fn variable_set(name: Name, value: Expr) -> Stmt
        ensures { statement_of result ≡ programs.variable_set name (expr_tree value) }
    {
        Stmt::Set(name, value)
    }

    fn element_set(name: Name, index: Expr, value: Expr) -> Stmt
        ensures { statement_of result ≡ programs.element_set name (expr_tree index) (expr_tree value) }
    {
        Stmt::Put(name, index, value)
    }

    fn choice(guard: Guard, first: Vec<Stmt>, second: Vec<Stmt>) -> Stmt
        ensures { statement_of result
            ≡ programs.choice (test_of guard) (map statement_of first.items) (map statement_of second.items) }
    {
        Stmt::If(guard, first, second)
    }

    fn repetition(guard: Guard, body: Vec<Stmt>) -> Stmt
        ensures { statement_of result ≡ programs.repetition (test_of guard) (map statement_of body.items) }
    {
        Stmt::While(guard, body)
    }
}
