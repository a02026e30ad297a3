//! The loops of a source that a variable controls.

use crate::tokens::Tokens;
use fault_texts::Words;

impl Tokens<'_> {
    /// Whether the condition of a loop names the name at a token.
    pub fn controls_loop(&self, name: usize) -> bool {
        for head in 0..self.all.len() {
            if self.is(head, "while") && self.is_head(head) && self.names_in_condition(head, name) {
                return true;
            }
        }
        false
    }

    // Whether the condition of the loop at a token names the name at another.
    fn names_in_condition(&self, head: usize, name: usize) -> bool {
        for at in head..self.own_end(head).max(head) {
            if self.is_name(at) && self.word(at) == self.word(name) {
                return true;
            }
        }
        false
    }

    /// Says how a loop that the name at a token controls is put outside a branch on a secret.
    pub fn put_loop_outside(&self, name: usize, out: &mut Words) {
        self.cite(
            name,
            " controls a loop, which can't be in the branch. ",
            out,
        );
        out.line(
            "Put the `if` into the loop: `i = 0; while (i < 9) { if (s > 0) { .. } i = i + 1; }`.",
        );
    }
}
