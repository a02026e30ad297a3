ghost use Rattle.std.specs.Prelude.{◌≡◌, ◌<◌, ◌+◌, ◌^◌, IfSome, length, slice_get};
ghost use Rattle.lt_isa.specs.Prelude.{cost_of, register, blocks_of, IsInRange, IsShaped, access_start, block_named, loaded, step_start};
ghost use Rattle.processor.specs.ObliviousBanks.{Accessed};
ghost use Rattle.processor.specs.Quick.{IsLeft};
ghost use Rattle.processor.specs.Stepping.{Executes, IsReady};

use crate::done::Untold;
use crate::machine::Machine;
use crate::waits::{access_at, start_at};
use banks::{Bank, Leaves};
use lt_isa::{Instr, latency};

impl<'a, B: Bank + Drop> Machine<'a, B> {
    /// The instruction at the machine's place.
    pub(crate) fn fetch(&self) -> Option<Instr>
        ensures value { result ≡ slice_get self.now.object.code self.now.state.place }
        ensures ready { IfSome result (λ i. self.now.state.cycle < 2 ^ 32 → IsReady self.now i) }
    {
        self.object.code().get(self.place).copied()
    }

    /// The cycle at which the next instruction starts.
    pub(crate) fn start(&self) -> u64
        ensures value { result ≡ step_start self.now.object self.now.state }
        ensures in_range { IsInRange self.now.object }
        ensures shaped { IsShaped self.now.object self.now.state }
    {
        let _ = self.object.code();
        match self.fetch() {
            Some(instruction) => start_at(self.object, &instruction, self.cycle),
            None => self.cycle,
        }
    }

    /// Makes the access of an instruction, or stops, but doesn't report it. Inlined, so that what is left to report
    /// stays in registers.
    #[inline(always)]
    pub(crate) fn execute(&mut self, instruction: Instr) -> Untold
        requires ready { IsReady self.old instruction }
        requires left { IsLeft self.old.object self.old.state instruction }
        ensures { Executes B.shows B.comes self.old self.new instruction result }
    {
        match instruction {
            Instr::Halt => self.stop(),
            Instr::Ldb { slot, bank, reg } => self.load_block(slot, bank, reg),
            Instr::Stb { slot } => self.store_block(slot),
            Instr::Nop | Instr::Li { .. } | Instr::Alu { .. } => Untold::Fault,
            Instr::Idb { .. } | Instr::Ldw { .. } | Instr::Stw { .. } => Untold::Fault,
            Instr::Jmp { .. } | Instr::Br { .. } => Untold::Fault,
        }
    }

    fn stop(&mut self) -> Untold
        requires { IsReady self.old Instr.Halt }
        ensures { Executes B.shows B.comes self.old self.new Instr.Halt result }
    {
        self.cycle += 1;
        Untold::Stopped
    }

    // Inlined, as is the store, so that paths that no one receives are never assembled.
    #[inline(always)]
    fn load_block(&mut self, slot: u8, bank: u8, reg: u8) -> Untold
        requires { IsReady self.old (Instr.Ldb slot bank reg) }
        ensures { Executes B.shows B.comes self.old self.new (Instr.Ldb slot bank reg) result }
    {
        let block = self.block_named(bank, reg);
        let cost = self.cost(Instr::Ldb { slot, bank, reg }, false, bank);
        let leaves = self.bind(slot, bank, block);
        self.end_access(cost);
        Untold::Read { slot, leaves }
    }

    #[inline(always)]
    fn store_block(&mut self, slot: u8) -> Untold
        requires { IsReady self.old (Instr.Stb slot) }
        ensures { Executes B.shows B.comes self.old self.new (Instr.Stb slot) result }
    {
        let Some(held) = self.pad.held(slot) else {
            return Untold::Fault;
        };
        let bank = held.bank;
        let leaves = self.banks.write(bank, held.block, held.words);
        let latency = self.cost(Instr::Stb { slot }, false, bank);
        self.end_access(latency);
        Untold::Wrote { slot, leaves }
    }

    fn register(&self, number: u8) -> i64
        requires { number < 32 }
        ensures { result ≡ register self.now.state number }
    {
        self.registers[number as usize]
    }

    // The block that a register names in a bank.
    fn block_named(&self, bank: u8, reg: u8) -> u32
        requires register { reg < 32 }
        requires bank { bank < length self.now.object.banks }
        ensures value { result ≡ block_named self.now.object bank (register self.now.state reg) }
        ensures exists { result < blocks_of self.now.object bank }
    {
        let blocks = self.object.banks()[bank as usize].blocks;
        (self.register(reg).cast_unsigned() % u64::from(blocks)) as u32
    }

    // What an instruction costs.
    fn cost(&self, instruction: Instr, taken: bool, bank: u8) -> u32
        requires { bank < length self.now.object.banks }
        ensures { result ≡ cost_of self.now.object instruction taken bank }
    {
        latency(self.object, &instruction, taken, bank)
    }

    // Continues at the next place, after an access that waited for the window and took this many cycles.
    fn end_access(&mut self, cost: u32)
        requires place { self.old.state.place < 2 ^ 32 }
        requires early { self.old.state.cycle < 2 ^ 32 }
        ensures { self.new
            ≡ record self.old {
              state = record (self.old.state) {
                place = self.old.state.place + 1;
                cycle = access_start self.old.object.profile self.old.state.cycle + cost;
              };
            } }
    {
        let end = access_at(self.object, self.cycle) + u64::from(cost);
        self.place += 1;
        self.cycle = end;
    }

    // Binds a slot to a block, which it then holds.
    fn bind(&mut self, slot: u8, bank: u8, block: u32) -> Leaves
        requires slot { slot < 8 }
        requires bank { bank < length self.old.object.banks }
        requires block { block < blocks_of self.old.object bank }
        ensures bound { self.new
            ≡ record self.old { state = loaded self.old.state slot bank block; orams = self.new.orams } }
        ensures accessed { Accessed B.shows B.comes self.old.orams self.new.orams
            (record { bank = bank; block = block }) result }
    {
        self.pad.load(slot, &mut self.banks, bank, block)
    }
}
