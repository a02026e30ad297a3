ghost use Rattle.std.specs.Prelude.{◌≡◌, ℕ, ◌≤◌, ◌^◌, ◌==◌, true, List, Option, IfOk, find, is_some, length, position};
ghost use Rattle.std.specs.Option.{option_map};
ghost use Rattle.src_tree.specs.Prelude.{context_of, label_at};
ghost use Rattle.held_registers.specs.Prelude.{held_at, register_of_number};
ghost use Rattle.block_cache_gen.specs.Homes.{Pin, label_by};
ghost use Rattle.block_cache_gen.specs.Notes.{is_public, mask_to};
ghost use Rattle.block_cache_gen.specs.Settings.{IsFastFrame, homes_at, fast_setting};

use crate::accesses::unmarked;
use crate::frames::FastFrame;
use crate::pins::{claims_in, pin_at, pin_in, pin_or};
use crate::variables::{Variable, Variables, gather, variable_at};
use bank_alloc::Place;
use gr_base::Memory;
use gr_word::Label;
use held_registers::{Held, register_of_number};
use lt_isa::Profile;
use scalar_ranges::{Range, nothing_known};
use scratch_alloc::Pin;
use src_tree::Decl;
use std::alloc::Global;
use std::marker::Model;

/// A frame with a map of its names, made once for many calls, so that no call goes through the declarations. Contracts
/// see it as the frame's setting, where nothing is known of the store.
#[derive(Drop)]
pub struct Prepared<'a> {
    alloc: Global,
    frame: FastFrame<'a>,
    variables: Variables<'a>,
    claims: [u8; 8],
    mask: u32,
    known: Vec<Option<Range>>,
}

impl<'a> Model for Prepared<'a> {
    ghost use Rattle.std.specs.Prelude.{◌≡◌, ℕ, List, length};
    ghost use Rattle.scalar_ranges.specs.Known.{nothing_known};
    ghost use Rattle.block_cache_gen.specs.Homes.{Setting};
    ghost use Rattle.block_cache_gen.specs.Notes.{base_mask, slot_claims};
    ghost use Rattle.block_cache_gen.specs.Settings.{IsFastFrame, fast_setting};
    ghost use Rattle.gr_base.specs.NameMaps.{found_under};
    ghost use Rattle.block_cache_gen.specs.Variables.{variable_of};

    ghost Value = { Setting };

    ghost view = { λ e. fast_setting e.frame };

    ghost invariant = { λ e. IsFastFrame e.frame
        × ((e.known.items ≡ nothing_known (length e.frame.program.now.decls.items)) × ((e.claims ≡ slot_claims (fast_setting e.frame)) × ((e.mask ≡ base_mask (fast_setting e.frame))
        × ((x : List ℕ) → found_under e.variables x ≡ variable_of
        e.frame.pins e.frame.profile.now.block_log e.frame.held.now 0 e.frame.program.now.decls.items e.frame.places.now.of_var.items
        e.frame.slots.now.of_var.items x)))) };
}

// The label that a register has for the whole run, `None` if it holds nothing for the whole run.
fn label_of_register(decls: &[Decl], held: &[Held], register: usize) -> Option<Label>
    ensures { result ≡ label_by decls.now (held_at held.now register) }
{
    if register < 19 {
        return None;
    }
    match held.get(register - 19) {
        None => None,
        Some(Held::SecretZero) => Some(Label::Secret),
        Some(Held::Number(_)) => Some(Label::Public),
        Some(Held::Scalar(number)) => match decls.get(*number as usize) {
            None => None,
            Some(decl) => Some(decl.label),
        },
    }
}

// Whether a register holds something public for the whole run.
fn is_public(label: Option<Label>) -> bool
    ensures { result ≡ is_public label }
{
    match label {
        None => false,
        Some(Label::Public) => true,
        Some(Label::Secret) => false,
    }
}

// Every register, but for those that hold something public for the whole run.
fn mask_of_held(decls: &[Decl], held: &[Held]) -> u32
    ensures { result ≡ mask_to decls.now held.now 32 }
{
    let mut mask = u32::MAX;
    for register in 0..32 {
        if is_public(label_of_register(decls, held, register)) {
            mask = unmarked(mask, register as u8);
        }
    }
    mask
}

// The number of the first variable that a slot serves.
fn first_served(slots: &[u8], slot: u8) -> Option<usize>
    ensures { result ≡ position (λ s. s == slot) slots.now }
{
    slots.iter().position(|used| *used == slot)
}

// The first block of that variable.
fn block_of_first(places: &[Place], slots: &[u8], slot: u8) -> Option<u32>
    requires { length places.now ≡ length slots.now }
    ensures { (pins : List (Option Pin)) (w : ℕ)
        → result ≡ option_map (λ h. h.block) (find (λ h. h.slot == slot) (homes_at pins w places.now slots.now)) }
{
    match first_served(slots, slot) {
        Some(number) => Some(places[number].block),
        None => None,
    }
}

impl<'a> Prepared<'a> {
    ghost use Rattle.block_cache_gen.specs.Notes.{base_mask, slot_claims};
    ghost use Rattle.block_cache_gen.specs.ServedBlocks.{block_served, first_blocks};
    ghost use Rattle.block_cache_gen.specs.Variables.{home_in};
    ghost use Rattle.block_cache_gen.specs.Homes.{home_of, register_for};

    /// Makes a frame ready.
    pub fn new(alloc: Global, f: &FastFrame<'a>) -> Result<Prepared<'a>, Memory>
        requires { IsFastFrame f.now }
        ensures { IfOk result (λ prepared. prepared ≡ fast_setting f.now) }
    {
        let slots = f.slots.of_var.as_slice();
        let variables = gather(
            alloc,
            f.program.decls.as_slice(),
            f.places.of_var.as_slice(),
            slots,
            &f.pins,
            f.profile.block_log,
            f.held,
        )?;
        let known = nothing_known(alloc, f.program.decls.as_slice().len())?;
        let claims = claims_in(&f.pins, slots);
        let mask = mask_of_held(f.program.decls.as_slice(), f.held);
        Ok(Prepared {
            alloc,
            frame: *f,
            variables,
            claims,
            mask,
            known,
        })
    }

    /// What a declared name refers to.
    pub(crate) fn variable(&self, name: &'a [u8]) -> Variable
        requires { is_some (context_of self.now.decls name.now) ≡ true }
        ensures home { home_in result ≡ home_of self.now name.now }
        ensures label { result.label ≡ label_at (context_of self.now.decls) name.now }
        ensures held { result.held ≡ register_for self.now name.now }
        ensures length { 1 ≤ result.place.length }
        ensures few { result.further ≤ 4 }
    {
        match variable_at(&self.variables, name) {
            Some(variable) => variable,
            None => unreachable!(),
        }
    }

    /// The label of a name, public if it isn't declared.
    pub(crate) fn label_at(&self, name: &'a [u8]) -> Label
        ensures { result ≡ label_at (context_of self.now.decls) name.now }
    {
        match variable_at(&self.variables, name) {
            Some(variable) => variable.label,
            None => Label::Public,
        }
    }

    /// What each note claims about the slots.
    pub(crate) fn claims(&self) -> [u8; 8]
        ensures { result ≡ slot_claims self.now }
    {
        self.claims
    }

    /// The block that each slot holds for the whole run.
    pub(crate) fn pins(&self) -> [Option<Pin>; 8]
        ensures { result ≡ self.now.pins }
    {
        self.frame.pins
    }

    // The first block of the first variable that a slot serves, `None` if it serves no variable.
    fn block_served(&self, slot: u8) -> Option<u32>
        ensures { result ≡ block_served self.now slot }
    {
        let places = self.frame.places.of_var.as_slice();
        let slots = self.frame.slots.of_var.as_slice();
        block_of_first(places, slots, slot)
    }

    /// The block that each slot begins with.
    pub(crate) fn first_blocks(&self) -> [Option<Pin>; 8]
        ensures { result ≡ first_blocks self.now }
    {
        let pins = self.pins();
        [
            pin_at(&pins, 0),
            pin_at(&pins, 1),
            pin_or(pin_at(&pins, 2), pin_in(0, self.block_served(2))),
            pin_or(pin_at(&pins, 3), pin_in(0, self.block_served(3))),
            pin_or(pin_at(&pins, 4), pin_in(1, self.block_served(4))),
            pin_or(pin_at(&pins, 5), pin_in(1, self.block_served(5))),
            None,
            pin_at(&pins, 7),
        ]
    }

    /// The cycles of a jump or a branch that is taken.
    pub(crate) fn taken(&self) -> u8
        ensures value { result ≡ self.now.profile.taken }
        ensures some { 1 ≤ result }
        ensures most { result ≤ 32 }
    {
        self.frame.profile.taken
    }

    /// The declarations of the program.
    pub(crate) fn decls(&self) -> &'a [Decl]
        ensures { result.now ≡ self.now.decls }
    {
        self.frame.program.decls.as_slice()
    }

    /// The ranges that are known before the program runs.
    pub(crate) fn known(&self) -> &[Option<Range>]
        ensures { result.now ≡ self.now.ranges }
    {
        self.known.as_slice()
    }

    /// The allocator for short lists of instructions.
    pub(crate) fn alloc(&self) -> Global {
        self.alloc
    }

    /// What the mask of a note between statements says.
    pub(crate) fn base_mask(&self) -> u32
        ensures { result ≡ base_mask self.now }
    {
        self.mask
    }

    /// What the registers from 19 on hold for the whole run.
    pub(crate) fn held(&self) -> &'a [Held]
        ensures { result.now ≡ self.now.held }
    {
        self.frame.held
    }

    /// The register that holds a number for the whole run; `None` if no register does.
    pub(crate) fn number_held(&self, number: i64) -> Option<u8>
        ensures { result ≡ register_of_number self.now.held number }
    {
        register_of_number(self.frame.held, number)
    }

    /// Whether operations by numbers are replaced by steps.
    pub(crate) fn reduces(&self) -> bool
        ensures { result ≡ self.now.reduces }
    {
        self.frame.reduces
    }

    /// The cycles of instructions, and the size of blocks.
    pub(crate) fn profile(&self) -> &'a Profile
        ensures { result.now ≡ self.now.profile }
    {
        self.frame.profile
    }

    /// The number of words of a block, as its logarithm.
    pub(crate) fn block_log(&self) -> u8
        ensures value { result ≡ self.now.profile.block_log }
        ensures most { result ≤ 9 }
    {
        self.frame.profile.block_log
    }

    /// The number of words of a block.
    pub(crate) fn block_words(&self) -> u32
        ensures value { result ≡ 2 ^ self.now.profile.block_log }
        ensures some { 1 ≤ result }
        ensures most { result ≤ 512 }
    {
        self.frame.profile.block_words()
    }
}
