ghost use Rattle.std.specs.Prelude.{◌≡◌};
ghost use Rattle.std.specs.Hash as fed;
ghost use Rattle.symbolic_values.specs.NodeWords.{node_word, pair_word};
ghost use Rattle.std.proofs.Common.{rules};
ghost use Rattle.std.specs.Cmp.Rules.{hashing};

use gr_word::Op;
use std::hash::{Hash, Hasher};

/// A bit that marks the word of a constant.
const CONST_MARK: u64 = 1 << 62;

/// A bit that marks the words of values that are read at the entry.
const ENTRY_MARK: u32 = 1 << 31;

/// One node of a tree. It names the nodes below it by their numbers, which are lower, in one table.
#[derive(Clone, Copy, Debug, PartialEq, Eq)]
pub enum Node {
    /// A word that is known.
    Const(i64),
    /// The contents of a register, 0 to 31, at the entry.
    Reg(u8),
    /// The number of the block to which a slot of the scratchpad, 0 to 7, is bound at the entry.
    SlotAt(u8),
    /// A word that a slot holds at the entry: the slot, and the word's place in the block.
    SlotWord(u8, u32),
    /// A word of plain memory at the entry: the block's number, and the word's place in it.
    MemWord(u32, u32),
    /// An operation on two values.
    Apply(Op, u32, u32),
}

impl Hash for Node {
    ghost hash_input = { λ n. fed.u64 (node_word n) };

    ghost respects_eq = { Prim.search (hashing, rules) };

    fn hash<H: Hasher>(&self, state: &mut H) {
        state.write_u64(node_word(*self));
    }
}

// The word by which a table looks for a node. Different operations on the same values share a word. Other nodes hardly
// ever do, since the marks are bits that the numbers of smaller tables and constants of usual size don't have.
fn node_word(node: Node) -> u64
    ensures { result ≡ node_word node }
{
    match node {
        Node::Const(word) => word.cast_unsigned() ^ CONST_MARK,
        Node::Reg(register) => pair_word(ENTRY_MARK, u32::from(register)),
        Node::SlotAt(slot) => pair_word(ENTRY_MARK + 1, u32::from(slot)),
        Node::SlotWord(slot, place) => pair_word(ENTRY_MARK + 2 + u32::from(slot), place),
        Node::MemWord(block, place) => !pair_word(block, place),
        Node::Apply(_, left, right) => pair_word(left, right),
    }
}

// A word of two halves.
fn pair_word(high: u32, low: u32) -> u64
    ensures { result ≡ pair_word high low }
{
    u64::from(high) << 32 | u64::from(low)
}
