ghost use Rattle.std.specs.Prelude.{◌≡◌};
ghost use Rattle.src_tree.specs.Contexts.{context_of};
ghost use Rattle.src_tree.specs.Labels.{higher, label_at, label_of};
ghost use Rattle.src_tree.specs.Trees.{expr_tree};

use crate::trees::{Decl, Expr, Program};
use gr_word::Label;

/// The label of two expressions together: secret if one of them is.
pub fn higher(a: Label, b: Label) -> Label
    ensures { result ≡ higher a b }
{
    match a {
        Label::Public => b,
        Label::Secret => Label::Secret,
    }
}

// The label of a name by its first declaration.
fn label_at(decls: &[Decl], name: &[u8]) -> Label
    ensures { result ≡ label_at (context_of decls.now) name.now }
{
    for decl in decls {
        if name == decl.name.bytes() {
            return decl.label;
        }
    }
    Label::Public
}

/// The label of an expression of a program: secret if a secret variable or an element of a secret array is in it, and
/// otherwise public. A name that isn't declared makes nothing secret. It takes no memory, and searches the list of
/// declarations for each name.
pub fn label_of(p: &Program, e: &Expr) -> Label
    ensures { result ≡ label_of (context_of p.now.decls.items) (expr_tree e.now) }
{
    match e {
        Expr::Num(_) => Label::Public,
        Expr::Var(name) => label_at(p.decls.as_slice(), name.bytes()),
        Expr::Item(name, index) => {
            let array = label_at(p.decls.as_slice(), name.bytes());
            higher(array, label_of(p, index))
        }
        Expr::Bin(_, left, right) => {
            let left = label_of(p, left);
            let right = label_of(p, right);
            higher(left, right)
        }
    }
}
