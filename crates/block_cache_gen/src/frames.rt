ghost use Rattle.std.specs.Prelude.{◌≡◌, ◌-◌, ◌^◌, ◌<◌, ◌≤◌, pos, [], ◌∷◌, ◌++◌, OnErr, OnOk, length, slice_set};
ghost use Rattle.lt_isa.specs.Prelude.{most_instructions};
ghost use Rattle.lt_isa.specs.declared.instructions.Instr.TheVariants.{Br, Jmp};
ghost use Rattle.block_cache_gen.specs.Behind.{IsAsBefore};
ghost use Rattle.block_cache_gen.specs.Emitted.{Appended, CodeGrows, no_notes};

use bank_alloc::Places;
use gr_base::Memory;
use gr_word::Cmp;
use held_registers::Held;
use lt_isa::{Instr, Note, Profile};
use scratch_alloc::{Pin, SlotPlan, scalar_pins};
use src_tree::Program;
use std::alloc::Global;

/// What code is made for: a program, a plan of its memory, and the machine's profile.
#[derive(Clone, Copy, Debug)]
pub struct Frame<'a> {
    pub program: &'a Program,
    /// Where its variables are stored, as `bank_alloc::banks` returns it for the program and the profile's block size.
    pub places: &'a Places,
    /// Which slot serves each variable, as `scratch_alloc::slots` returns it for these places.
    pub slots: &'a SlotPlan,
    pub profile: &'a Profile,
}

/// A frame with what `--fast` adds to it.
#[derive(Clone, Copy, Debug)]
pub struct FastFrame<'a> {
    pub program: &'a Program,
    /// Where its variables are stored.
    pub places: &'a Places,
    /// Which slot serves each variable.
    pub slots: &'a SlotPlan,
    /// The block that each slot holds for the whole run, from slot 0 on. Every other slot holds several blocks in turn.
    pub pins: [Option<Pin>; 8],
    pub profile: &'a Profile,
    /// Whether operations by numbers are replaced by steps without products, quotients and remainders, and public code
    /// skips the remainder of a public index that is below its array's length.
    pub reduces: bool,
    /// What the registers from 19 on hold for the whole run.
    pub held: &'a [Held],
}

impl<'a> Frame<'a> {
    ghost use Rattle.block_cache_gen.specs.Settings.{IsFastFrame, IsFrame, fast_setting, setting_of};

    /// The same frame without anything that `--fast` adds.
    pub fn plain(&self) -> FastFrame<'a>
        ensures setting { fast_setting result ≡ setting_of self.now }
        ensures frame { IsFrame self.now → IsFastFrame result }
    {
        FastFrame {
            program: self.program,
            places: self.places,
            slots: self.slots,
            pins: scalar_pins(),
            profile: self.profile,
            reduces: false,
            held: &[],
        }
    }
}

/// How code is made: for public code; or for an arm of a branch on a secret, either so that it has its effect or so
/// that it only looks as if it had.
#[derive(Debug, Clone, Copy, PartialEq, Eq)]
pub enum Mode {
    /// In public code. A load of a block of plain or encrypted memory is skipped where its slot holds the block; one of
    /// an oblivious bank never is.
    Public,
    /// In secret code, with its effect. Every access loads its block.
    Real,
    /// In secret code, without effect: each store writes back the old word, or with `reduces` is a read of it.
    Mirrored,
}

/// What appending code returns: the only error is running out of memory.
pub(crate) type PutResult = Result<(), Memory>;

/// Code that is being made, and its notes, in order of place.
#[derive(Debug, Drop)]
pub struct CodeBuf {
    pub code: Vec<Instr>,
    pub notes: Vec<Note>,
}

impl CodeBuf {
    /// Without any code. It takes no memory.
    pub fn new(alloc: Global) -> CodeBuf
        ensures code { result.code.items ≡ [] }
        ensures notes { result.notes.items ≡ [] }
    {
        CodeBuf {
            code: Vec::new(alloc),
            notes: Vec::new(alloc),
        }
    }

    /// The place after the code so far.
    pub fn next_place(&self) -> u32
        requires { length self.now.code.items < 2 ^ 32 }
        ensures { result ≡ length self.now.code.items }
    {
        self.code.len() as u32
    }

    /// Appends instructions, all of them or none. It serves `branch_padding` and `code_gen`.
    pub fn put(&mut self, more: &[Instr]) -> Result<(), Memory>
        ensures appended { OnOk result (Appended self.old self.new more.now no_notes) }
        ensures kept { OnErr result (IsAsBefore self.old self.new) }
        ensures grows { CodeGrows self.old self.new }
    {
        match self.code.extend_from_slice(more) {
            Ok(()) => Ok(()),
            Err(_) => Err(Memory),
        }
    }

    /// Sets the jump at a place to jump to the end of the code so far. It serves `branch_padding` and `code_gen`.
    pub fn set_jump(&mut self, at: u32)
        requires before { at < length self.old.code.items }
        requires room { length self.old.code.items ≤ most_instructions }
        ensures code { self.new.code.items
            ≡ slice_set self.old.code.items at (Jmp (pos (length self.old.code.items - at))) }
        ensures notes { self.new.notes.items ≡ self.old.notes.items }
    {
        let offset = (self.next_place() - at) as i32;
        self.code[at as usize] = Instr::Jmp { offset };
    }

    /// Sets the branch at a place to jump to the end of the code so far if a comparison of registers 0 and 1 holds. It
    /// serves `branch_padding` and `code_gen`.
    pub fn set_branch(&mut self, at: u32, cmp: Cmp)
        requires before { at < length self.old.code.items }
        requires room { length self.old.code.items ≤ most_instructions }
        ensures code { self.new.code.items
            ≡ slice_set self.old.code.items at (Br cmp 0 1 (pos (length self.old.code.items - at))) }
        ensures notes { self.new.notes.items ≡ self.old.notes.items }
    {
        let offset = (self.next_place() - at) as i32;
        self.code[at as usize] = Instr::Br {
            cmp,
            ra: 0,
            rb: 1,
            offset,
        };
    }

    /// Appends a note, or changes nothing. It serves `code_gen`.
    pub fn put_note(&mut self, note: Note) -> Result<(), Memory>
        ensures appended { OnOk result (Appended self.old self.new [] (λ place. note ∷ [])) }
        ensures kept { OnErr result (IsAsBefore self.old self.new) }
        ensures grows { CodeGrows self.old self.new }
    {
        match self.notes.push(note) {
            Ok(()) => Ok(()),
            Err(_) => Err(Memory),
        }
    }
}
