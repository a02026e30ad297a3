ghost use Rattle.std.specs.Prelude.{◌≡◌, ◌-◌, ◌^◌, min};
ghost use Rattle.src_tree.specs.Heights.{height_of};
ghost use Rattle.src_tree.specs.Trees.{expr_tree};

use crate::trees::Expr;

/// The height of an expression: 1 for a number or a variable, and otherwise 1 more than that of its highest operand or
/// index. It is reported as 2^32 - 1 if it is greater.
pub fn height(e: &Expr) -> u32
    ensures { result ≡ min (height_of (expr_tree e.now)) (2 ^ 32 - 1) }
{
    match e {
        Expr::Num(_) => 1,
        Expr::Var(_) => 1,
        Expr::Item(_, index) => height(index).saturating_add(1),
        Expr::Bin(_, left, right) => {
            let left = height(left);
            let right = height(right);
            left.max(right).saturating_add(1)
        }
    }
}
