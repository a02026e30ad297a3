ghost use Rattle.std.specs.Prelude.{◌≡◌, map};
ghost use Rattle.src_tree.specs.Prelude.{expr_tree, test_of};
ghost use Rattle.procs_tree.specs.Prelude.{statement_of};
ghost use Rattle.procs_parser.specs.FileAdvances.{with_calls};

use gr_word::Name;
use procs_tree::PStmt;
use src_parser::languages::Language;
use src_tree::{Expr, Guard};

// The language of files with procedures.
pub(crate) struct ProcFiles;

impl Language for ProcFiles {
    ghost use Rattle.procs_tree.specs.Trees.{Statement};

    type Stmt = PStmt;

    ghost Seen = { Statement };

    ghost seen = { statement_of };

    ghost makers = { with_calls };

    fn variable_set(name: Name, value: Expr) -> PStmt
        ensures { statement_of result ≡ with_calls.variable_set name (expr_tree value) }
    {
        PStmt::Set(name, value)
    }

    fn element_set(name: Name, index: Expr, value: Expr) -> PStmt
        ensures { statement_of result ≡ with_calls.element_set name (expr_tree index) (expr_tree value) }
    {
        PStmt::Put(name, index, value)
    }

    fn choice(guard: Guard, first: Vec<PStmt>, second: Vec<PStmt>) -> PStmt
        ensures { statement_of result
            ≡ with_calls.choice (test_of guard) (map statement_of first.items) (map statement_of second.items) }
    {
        PStmt::If(guard, first, second)
    }

    fn repetition(guard: Guard, body: Vec<PStmt>) -> PStmt
        ensures { statement_of result ≡ with_calls.repetition (test_of guard) (map statement_of body.items) }
    {
        PStmt::While(guard, body)
    }
}
