//! The form of compiled code: where expressions, assignments, guards and arms end.

use gr_word::{Label, Op};
use lt_isa::Instr;
use scratch_alloc::PinnedPlan;
use src_tree::{Decl, Expr, Guard};

// The first of the registers that hold scalars or numbers for the whole run.
const FIRST_HELD: u8 = 21;

/// The code of a program, and what its form depends on.
#[derive(Clone, Copy)]
pub struct CompiledCode<'a> {
    /// The object's instructions.
    pub code: &'a [Instr],
    /// The program's variables.
    pub decls: &'a [Decl],
    /// How the code uses the slots of the scratchpad.
    pub slots: &'a PinnedPlan,
}

/// A region of two arms: the branch before the first, the jump that ends it, and the place after the second.
#[derive(Clone, Copy)]
pub(crate) struct Region {
    pub(crate) branch: usize,
    pub(crate) jump: usize,
    pub(crate) end: usize,
}

/// Where the arms of a region begin: that of a branch that isn't taken, after instructions that do nothing, and that of
/// one that is.
#[derive(Clone, Copy)]
pub(crate) struct Arms {
    pub(crate) idle: usize,
    pub(crate) untaken: usize,
    pub(crate) taken: usize,
}

impl CompiledCode<'_> {
    /// Where the code of the statements begins: after the loads of the slots' first blocks, and of the registers that hold
    /// zeros, scalars and numbers.
    pub(crate) fn body_start(&self) -> usize {
        let mut start = 0usize;
        for _ in 0..8 {
            if self.loads_first(start) {
                start = start.saturating_add(2);
            }
        }
        if let Some(Instr::Ldw { rd: 19, .. }) = self.code.get(start) {
            start = start.saturating_add(3);
        }
        for _ in FIRST_HELD..32 {
            if self.loads_scalar(start) {
                start = start.saturating_add(2);
            } else if self.sets_number(start) {
                start = start.saturating_add(1);
            }
        }
        start
    }

    // Whether a register gets a number for the whole run at a place.
    fn sets_number(&self, at: usize) -> bool {
        match self.code.get(at) {
            Some(Instr::Li { rd, .. }) => *rd >= FIRST_HELD,
            _ => false,
        }
    }

    // Whether a register that holds a scalar for the whole run is loaded at a place.
    fn loads_scalar(&self, at: usize) -> bool {
        match (self.code.get(at), self.code.get(at.saturating_add(1))) {
            (Some(Instr::Li { rd: 0, .. }), Some(Instr::Ldw { rd, .. })) => *rd >= FIRST_HELD,
            _ => false,
        }
    }

    // Whether a scalar that a register holds is stored at a place.
    fn stores_scalar(&self, at: usize) -> bool {
        match (self.code.get(at), self.code.get(at.saturating_add(1))) {
            (Some(Instr::Li { rd: 0, .. }), Some(Instr::Stw { rs, .. })) => *rs >= FIRST_HELD,
            _ => false,
        }
    }

    // The place after the stores of the scalars that registers hold.
    fn stores_end(&self, from: usize) -> usize {
        let mut end = from;
        for _ in FIRST_HELD..32 {
            if self.stores_scalar(end) {
                end = end.saturating_add(2);
            }
        }
        end
    }

    // Whether a slot is loaded with a block of a fixed number at a place.
    fn loads_first(&self, at: usize) -> bool {
        match (self.code.get(at), self.code.get(at.saturating_add(1))) {
            (Some(Instr::Li { rd: 0, .. }), Some(Instr::Ldb { reg: 0, .. })) => true,
            _ => false,
        }
    }

    /// Whether only stores of scalars and slots and the halt are left at a place.
    pub(crate) fn ends_from(&self, at: usize) -> bool {
        let mut is_over = false;
        for instruction in self.code.iter().skip(self.stores_end(at)) {
            match instruction {
                Instr::Stb { .. } if !is_over => {}
                Instr::Halt if !is_over => is_over = true,
                _ => return false,
            }
        }
        is_over
    }

    /// The target of a jump or a branch.
    pub(crate) fn target(&self, at: usize) -> Option<usize> {
        let offset = match self.code.get(at)? {
            Instr::Jmp { offset } => *offset,
            Instr::Br { offset, .. } => *offset,
            _ => return None,
        };
        let target = i64::try_from(at).ok()?.checked_add(i64::from(offset))?;
        usize::try_from(target).ok()
    }

    // Whether the branch at a place only skips the remainder of an index that is in range.
    fn skips_remainder(&self, at: usize) -> bool {
        let branch = self.code.get(at);
        let length = self.code.get(at.saturating_add(1));
        let remainder = self.code.get(at.saturating_add(2));
        match (branch, length, remainder) {
            (
                Some(Instr::Br { offset: 3, .. }),
                Some(Instr::Li { .. }),
                Some(Instr::Alu { op: Op::Remu, .. }),
            ) => true,
            _ => false,
        }
    }

    // Whether an instruction ends the code of an expression: a store of a word, a result in a register that holds a scalar,
    // a jump, a halt, or a branch other than one that skips the load of a cached block or a remainder.
    fn ends_expression(&self, at: usize) -> bool {
        match self.code.get(at) {
            Some(Instr::Stw { .. } | Instr::Jmp { .. } | Instr::Halt) => true,
            Some(Instr::Alu { rd, .. }) => *rd >= FIRST_HELD,
            Some(Instr::Br { .. }) => !self.tests_cache(at) && !self.skips_remainder(at),
            _ => false,
        }
    }

    // Whether the branch at a place skips the load of a cached block.
    fn tests_cache(&self, at: usize) -> bool {
        match at.checked_sub(1) {
            Some(before) => matches!(self.code.get(before), Some(Instr::Idb { .. })),
            None => false,
        }
    }

    // The first place from one on that ends the code of an expression.
    fn expression_end(&self, from: usize) -> Option<usize> {
        (from..self.code.len()).find(|at| self.ends_expression(*at))
    }

    /// The branch after a guard whose code begins at a place.
    pub(crate) fn guard_end(&self, from: usize) -> Option<usize> {
        let end = self.expression_end(from)?;
        match self.code.get(end)? {
            Instr::Br { .. } => Some(end),
            _ => None,
        }
    }

    // The slot of a variable.
    fn slot_of(&self, name: &[u8]) -> Option<u8> {
        let number = number_of(self.decls, name)?;
        Some(*self.slots.plan.of_var.as_slice().get(number)?)
    }

    /// The end of an assignment to a variable, whose code begins at a place: after its last store or its result in a
    /// register, and for an element of an array that no slot holds for the whole run after the store of its block.
    pub(crate) fn assignment_end(
        &self,
        name: &[u8],
        is_element: bool,
        from: usize,
    ) -> Option<usize> {
        let own = self.slot_of(name)?;
        let store = self.expression_end(from)?;
        match self.code.get(store)? {
            Instr::Stw { slot, .. } if self.is_stored_in(own, *slot) => {}
            Instr::Alu { .. } if !is_element => return store.checked_add(1),
            _ => return None,
        }
        let next = self.last_store(store).checked_add(1)?;
        if !is_element || is_pinned(self.slots, own) {
            return Some(next);
        }
        match self.code.get(next)? {
            Instr::Stb { slot } if *slot == own => next.checked_add(1),
            _ => None,
        }
    }

    // Whether a variable whose first words are in one slot may have words in another: slots that hold blocks for the whole
    // run may share an array.
    fn is_stored_in(&self, own: u8, slot: u8) -> bool {
        slot == own || is_pinned(self.slots, own) && is_pinned(self.slots, slot)
    }

    // The last store of a write whose first is at a place: a write of an array in several slots stores a word of each.
    fn last_store(&self, first: usize) -> usize {
        let mut last = first;
        for _ in 1..8 {
            if let Some(next) = self.next_store(last) {
                last = next;
            }
        }
        last
    }

    // The store of the next slot after the store of a slot. Before it register 2 gets the slot's word, whose number is in the
    // same register as that of the store, and three operations choose between that and the new word; four instructions before
    // them may make a mask.
    fn next_store(&self, store: usize) -> Option<usize> {
        let number = self.number_of_store(store)?;
        let next = self.code.get(store.checked_add(1)?)?;
        let masked: usize = if let Instr::Li { .. } = next { 5 } else { 1 };
        let read = store.checked_add(masked)?;
        let write = read.checked_add(4)?;
        match (self.code.get(read)?, self.code.get(write)?) {
            (
                Instr::Ldw {
                    rd: 2,
                    slot: one,
                    off,
                },
                Instr::Stw { slot: other, .. },
            ) if *off == number && one == other && self.number_of_store(write)? == number => {
                Some(write)
            }
            _ => None,
        }
    }

    // The register with the number of the word that is stored at a place.
    fn number_of_store(&self, at: usize) -> Option<u8> {
        match self.code.get(at)? {
            Instr::Stw { off, .. } => Some(*off),
            _ => None,
        }
    }

    // The first place from one on, but not past another, whose instruction does something.
    fn idle_end(&self, from: usize, to: usize) -> usize {
        for (at, instruction) in self.code.iter().enumerate().skip(from) {
            if to <= at {
                return to;
            }
            match instruction {
                Instr::Nop => {}
                _ => return at,
            }
        }
        to
    }

    /// Whether the instructions from a place up to another do nothing.
    pub(crate) fn idles(&self, from: usize, to: usize) -> bool {
        from <= to && self.idle_end(from, to) == to
    }

    /// Whether a guard has a secret variable.
    pub(crate) fn is_secret_guard(&self, guard: &Guard) -> bool {
        has_secret(self.decls, &guard.left) || has_secret(self.decls, &guard.right)
    }

    /// How many statements with their effect have their code between two places of an arm, before instructions that do
    /// nothing.
    pub(crate) fn statements_between(&self, from: usize, to: usize) -> Option<usize> {
        let mut at = from;
        let mut count = 0usize;
        for _ in 0..self.code.len() {
            if self.idles(at, to) {
                return Some(count);
            }
            if to < at {
                return None;
            }
            at = self.statement_end(self.expression_end(at)?)?;
            count = count.saturating_add(1);
        }
        None
    }

    /// How many statements have their code in both arms, before instructions that do nothing. At least one of the arms has
    /// the effect of each.
    pub(crate) fn statements_in_both(&self, region: Region, arms: Arms) -> Option<usize> {
        let mut untaken = arms.untaken;
        let mut taken = arms.taken;
        let mut count = 0usize;
        for _ in 0..self.code.len() {
            if self.idles(untaken, region.jump) && self.idles(taken, region.end) {
                return Some(count);
            }
            let length = self.length_in_both(untaken, taken, region)?;
            untaken = untaken.checked_add(length)?;
            taken = taken.checked_add(length)?;
            count = count.saturating_add(1);
        }
        None
    }

    // The number of instructions of the statement whose code begins at these places of both arms. Without effect it may
    // have no visible end.
    fn length_in_both(&self, untaken: usize, taken: usize, region: Region) -> Option<usize> {
        for offset in 0..region.jump.checked_sub(untaken)? {
            let one = self.length_by_end(untaken, untaken.checked_add(offset)?);
            let other = self.length_by_end(taken, taken.checked_add(offset)?);
            match (one, other) {
                (Some(first), Some(second)) => return Some(first.min(second)),
                (Some(length), None) | (None, Some(length)) => return Some(length),
                (None, None) => {}
            }
        }
        None
    }

    // The number of instructions of a statement from its first place on, if its expression ends at another.
    fn length_by_end(&self, from: usize, end: usize) -> Option<usize> {
        if !self.ends_expression(end) {
            return None;
        }
        self.statement_end(end)?.checked_sub(from)
    }

    // The end of the code of a statement of an arm, whose expression or guard ends at a place.
    fn statement_end(&self, end: usize) -> Option<usize> {
        match self.code.get(end)? {
            Instr::Stw { .. } => {
                let next = self.last_store(end).checked_add(1)?;
                match self.code.get(next)? {
                    Instr::Stb { .. } => next.checked_add(1),
                    _ => Some(next),
                }
            }
            Instr::Alu { .. } => end.checked_add(1),
            Instr::Br { .. } => Some(self.region_at(end)?.end),
            _ => None,
        }
    }

    /// The region of two arms after a branch.
    pub(crate) fn region_at(&self, branch: usize) -> Option<Region> {
        let taken = self.target(branch)?;
        let jump = taken.checked_sub(1)?;
        match self.code.get(jump)? {
            Instr::Jmp { .. } => {}
            _ => return None,
        }
        let end = self.target(jump)?;
        if jump <= branch || end <= jump {
            return None;
        }
        Some(Region { branch, jump, end })
    }

    /// Where the arms of a region begin.
    pub(crate) fn arms_of(&self, region: Region) -> Option<Arms> {
        let idle = region.branch.checked_add(1)?;
        Some(Arms {
            idle,
            untaken: self.idle_end(idle, region.jump),
            taken: region.jump.checked_add(1)?,
        })
    }
}

// Whether an expression has a secret variable.
fn has_secret(decls: &[Decl], e: &Expr) -> bool {
    match e {
        Expr::Num(_) => false,
        Expr::Var(name) => is_secret(decls, name.bytes()),
        Expr::Item(name, index) => is_secret(decls, name.bytes()) || has_secret(decls, index),
        Expr::Bin(_, left, right) => has_secret(decls, left) || has_secret(decls, right),
    }
}

fn is_secret(decls: &[Decl], name: &[u8]) -> bool {
    match number_of(decls, name) {
        Some(number) => match decls.get(number) {
            Some(decl) => decl.label == Label::Secret,
            None => false,
        },
        None => false,
    }
}

// Whether a slot holds one block for the whole run.
fn is_pinned(slots: &PinnedPlan, slot: u8) -> bool {
    match slots.pins.get(usize::from(slot)) {
        Some(pin) => pin.is_some(),
        None => false,
    }
}

// The number of the variable of a name, in the order of declaration.
fn number_of(decls: &[Decl], name: &[u8]) -> Option<usize> {
    for (number, decl) in decls.iter().enumerate() {
        if decl.name.bytes() == name {
            return Some(number);
        }
    }
    None
}
