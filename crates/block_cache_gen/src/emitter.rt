ghost use Rattle.std.specs.Prelude.{◌≡◌, ◌≤◌, ◌^◌, true, is_some};
ghost use Rattle.src_tree.specs.Prelude.{context_of, label_at, label_of, expr_tree};
ghost use Rattle.held_registers.specs.Prelude.{register_of_number};
ghost use Rattle.scalar_ranges.specs.Prelude.{is_within};
ghost use Rattle.block_cache_gen.specs.Homes.{ranged};

use crate::prepared::Prepared;
use crate::variables::Variable;
use gr_word::Label;
use held_registers::Held;
use lt_isa::Profile;
use scalar_ranges::{Range, is_within};
use scratch_alloc::Pin;
use src_tree::{Decl, Expr, higher};
use std::alloc::Global;
use std::marker::Model;

/// A frame that is ready for calls, with what is known of the store at the place of the code. Contracts see it as a
/// setting.
#[derive(Drop)]
pub struct Emitter<'a, 'p, 'k> {
    prepared: &'p Prepared<'a>,
    known: &'k [Option<Range>],
}

impl<'a, 'p, 'k> Model for Emitter<'a, 'p, 'k> {
    ghost use Rattle.block_cache_gen.specs.Homes.{Setting, ranged};

    ghost Value = { Setting };

    ghost view = { λ e. ranged e.prepared.now e.known.now };
}

impl<'a, 'p, 'k> Emitter<'a, 'p, 'k> {
    ghost use Rattle.block_cache_gen.specs.Notes.{base_mask, slot_claims};
    ghost use Rattle.block_cache_gen.specs.ServedBlocks.{first_blocks};
    ghost use Rattle.block_cache_gen.specs.Variables.{home_in};
    ghost use Rattle.block_cache_gen.specs.Homes.{home_of, register_for};

    /// Makes an emitter for code at the beginning of a program, where nothing is known.
    pub fn new(prepared: &'p Prepared<'a>) -> Emitter<'a, 'p, 'p>
        ensures { result ≡ prepared.now }
    {
        Emitter {
            prepared,
            known: prepared.known(),
        }
    }

    /// The same for code at a place where other ranges are known.
    pub fn at<'q>(&self, known: &'q [Option<Range>]) -> Emitter<'a, 'p, 'q>
        ensures { result ≡ ranged self.now known.now }
    {
        Emitter {
            prepared: self.prepared,
            known,
        }
    }

    /// Whether an index is known to be below a length.
    pub(crate) fn is_within(&self, index: &Expr, length: u64) -> bool
        ensures { result ≡ is_within self.now.decls self.now.ranges (expr_tree index.now) length }
    {
        is_within(self.prepared.decls(), self.known, index, length)
    }

    /// What a declared name refers to.
    pub(crate) fn variable(&self, name: &'a [u8]) -> Variable
        requires { is_some (context_of self.now.decls name.now) ≡ true }
        ensures home { home_in result ≡ home_of self.now name.now }
        ensures label { result.label ≡ label_at (context_of self.now.decls) name.now }
        ensures held { result.held ≡ register_for self.now name.now }
        ensures length { 1 ≤ result.place.length }
        ensures few { result.further ≤ 4 }
    {
        self.prepared.variable(name)
    }

    /// The label of a name, public if it isn't declared.
    pub(crate) fn label_at(&self, name: &'a [u8]) -> Label
        ensures { result ≡ label_at (context_of self.now.decls) name.now }
    {
        self.prepared.label_at(name)
    }

    /// What each note claims about the slots. It serves `code_gen`, which makes notes of its own.
    pub fn claims(&self) -> [u8; 8]
        ensures { result ≡ slot_claims self.now }
    {
        self.prepared.claims()
    }

    /// The block that each slot holds for the whole run. It serves `code_gen`, which stores these blocks at the end.
    pub fn pins(&self) -> [Option<Pin>; 8]
        ensures { result ≡ self.now.pins }
    {
        self.prepared.pins()
    }

    /// The block that each slot begins with. It serves `code_gen`, which loads these blocks before any access.
    pub fn first_blocks(&self) -> [Option<Pin>; 8]
        ensures { result ≡ first_blocks self.now }
    {
        self.prepared.first_blocks()
    }

    /// The cycles of a jump or a branch that is taken.
    pub fn taken(&self) -> u8
        ensures value { result ≡ self.now.profile.taken }
        ensures some { 1 ≤ result }
        ensures most { result ≤ 32 }
    {
        self.prepared.taken()
    }

    /// The cycles of instructions, and the size of blocks. It serves `branch_padding`, which lets quiet branches idle.
    pub fn profile(&self) -> &'a Profile
        ensures { result.now ≡ self.now.profile }
    {
        self.prepared.profile()
    }

    /// What is known of the store at the place of the code. It serves `code_gen`, which follows what is known.
    pub fn known(&self) -> &'k [Option<Range>]
        ensures { result.now ≡ self.now.ranges }
    {
        self.known
    }

    /// The allocator for short lists. It serves `code_gen` too.
    pub fn alloc(&self) -> Global {
        self.prepared.alloc()
    }

    /// What the mask of a note between statements says. It serves `code_gen`, which makes notes of its own.
    pub fn base_mask(&self) -> u32
        ensures { result ≡ base_mask self.now }
    {
        self.prepared.base_mask()
    }

    /// What the registers from 19 on hold for the whole run. It serves `code_gen`, which gives them their first words.
    pub fn held(&self) -> &'a [Held]
        ensures { result.now ≡ self.now.held }
    {
        self.prepared.held()
    }

    /// The register that holds a number for the whole run; `None` if no register does.
    pub(crate) fn number_held(&self, number: i64) -> Option<u8>
        ensures { result ≡ register_of_number self.now.held number }
    {
        self.prepared.number_held(number)
    }

    /// Whether operations by numbers are replaced by steps, and ranges are used. It serves `code_gen`, which follows what
    /// is known.
    pub fn reduces(&self) -> bool
        ensures { result ≡ self.now.reduces }
    {
        self.prepared.reduces()
    }

    /// The declarations of the program. It serves `code_gen`, which follows what is known of scalars.
    pub fn decls(&self) -> &'a [Decl]
        ensures { result.now ≡ self.now.decls }
    {
        self.prepared.decls()
    }

    /// The number of words of a block, as its logarithm.
    pub(crate) fn block_log(&self) -> u8
        ensures value { result ≡ self.now.profile.block_log }
        ensures most { result ≤ 9 }
    {
        self.prepared.block_log()
    }

    /// The number of words of a block.
    pub(crate) fn block_words(&self) -> u32
        ensures value { result ≡ 2 ^ self.now.profile.block_log }
        ensures some { 1 ≤ result }
        ensures most { result ≤ 512 }
    {
        self.prepared.block_words()
    }
}

/// The label of an expression: secret if it contains a secret name, otherwise public. A name that isn't declared is
/// public.
pub fn label_of<'a>(emitter: &Emitter<'a, '_, '_>, e: &'a Expr) -> Label
    ensures { result ≡ label_of (context_of emitter.now.decls) (expr_tree e.now) }
{
    match e {
        Expr::Num(_) => Label::Public,
        Expr::Var(name) => emitter.label_at(name.bytes()),
        Expr::Item(name, index) => {
            let array = emitter.label_at(name.bytes());
            higher(array, label_of(emitter, index))
        }
        Expr::Bin(_, left, right) => {
            let left = label_of(emitter, left);
            let right = label_of(emitter, right);
            higher(left, right)
        }
    }
}
