ghost use Rattle.std.specs.Prelude.{fold};
ghost use Rattle.std.specs.Hash as fed;
ghost use Rattle.std.specs.Hash.FoldHasher as folding;

use lt_isa::Instr;
use lt_isa::instruction_table::{Kind, opcode_of};
use std::hash::{BuildHasher, FoldHasher, Hasher};

// Hashes the nodes of an object's values, with two keys that are computed from all of the object's code. So nobody can
// choose constants that collide in a table, since the choice changes both keys. The hash determines how long a look-up
// takes, but not its result.
#[derive(Clone, Copy)]
pub(crate) struct CodeHash {
    keyed: NodeHasher,
}

// A fast hasher, with one key before the words and another after them. Without both keys one can't predict which words
// collide.
#[derive(Clone, Copy)]
pub(crate) struct NodeHasher {
    behind_key: FoldHasher,
    last_key: u64,
}

impl CodeHash {
    // The hash with the keys of some code. Each instruction is read once. The opcodes and the operands of two
    // instructions are read together as one word. Their constants and offsets, which don't fit in it, are read after
    // it.
    pub(crate) fn of(code: &[Instr]) -> CodeHash {
        let mut digest = Digest::new();
        for pair in code.chunks(2) {
            match pair {
                [first, second] => {
                    digest.read(head_of(*first) | head_of(*second) << 32);
                    digest.read_rest(*first);
                    digest.read_rest(*second);
                }
                [last] => {
                    digest.read(head_of(*last));
                    digest.read_rest(*last);
                }
                _ => {}
            }
        }
        let (first_key, last_key) = digest.keys();
        let mut behind_key = FoldHasher::default();
        behind_key.write_u64(first_key);
        CodeHash {
            keyed: NodeHasher {
                behind_key,
                last_key,
            },
        }
    }
}

// The opcode and the operands of an instruction, without its offset and its constant, in four bytes.
fn head_of(instruction: Instr) -> u64 {
    match instruction {
        Instr::Nop => packed(Kind::Nop, 0, 0, 0),
        Instr::Halt => packed(Kind::Halt, 0, 0, 0),
        Instr::Li { rd, .. } => packed(Kind::Li, rd, 0, 0),
        Instr::Alu { op, rd, ra, rb } => packed(Kind::Alu(op), rd, ra, rb),
        Instr::Ldb { slot, bank, reg } => packed(Kind::Ldb, slot, bank, reg),
        Instr::Stb { slot } => packed(Kind::Stb, slot, 0, 0),
        Instr::Idb { rd, slot } => packed(Kind::Idb, rd, slot, 0),
        Instr::Ldw { rd, slot, off } => packed(Kind::Ldw, rd, slot, off),
        Instr::Stw { rs, slot, off } => packed(Kind::Stw, rs, slot, off),
        Instr::Jmp { .. } => packed(Kind::Jmp, 0, 0, 0),
        Instr::Br { cmp, ra, rb, .. } => packed(Kind::Br(cmp), ra, rb, 0),
    }
}

#[inline(always)]
fn packed(kind: Kind, a: u8, b: u8, c: u8) -> u64 {
    u64::from(opcode_of(kind)) | u64::from(a) << 8 | u64::from(b) << 16 | u64::from(c) << 24
}

// SipHash-1-3 of words, with a result of 128 bits; both keys are 0. It reads a word in a third of the steps of the
// library's hash, which takes any number of bytes at a time.
#[derive(Clone, Copy)]
struct Digest {
    v0: u64,
    v1: u64,
    v2: u64,
    v3: u64,
}

impl Digest {
    fn new() -> Digest {
        Digest {
            v0: 0x736f_6d65_7073_6575,
            v1: 0x646f_7261_6e64_6f83,
            v2: 0x6c79_6765_6e65_7261,
            v3: 0x7465_6462_7974_6573,
        }
    }

    fn read(&mut self, word: u64) {
        self.v3 ^= word;
        self.round();
        self.v0 ^= word;
    }

    // Reads an instruction's constant or offset, if it has one.
    #[inline(always)]
    fn read_rest(&mut self, instruction: Instr) {
        match instruction {
            Instr::Li { value, .. } => self.read(value.cast_unsigned()),
            Instr::Jmp { offset } => self.read(u64::from(offset.cast_unsigned())),
            Instr::Br { offset, .. } => self.read(u64::from(offset.cast_unsigned())),
            _ => {}
        }
    }

    fn round(&mut self) {
        self.v0 = self.v0.wrapping_add(self.v1);
        self.v2 = self.v2.wrapping_add(self.v3);
        self.v1 = self.v1.rotate_left(13) ^ self.v0;
        self.v3 = self.v3.rotate_left(16) ^ self.v2;
        self.v0 = self.v0.rotate_left(32);
        self.v2 = self.v2.wrapping_add(self.v1);
        self.v0 = self.v0.wrapping_add(self.v3);
        self.v1 = self.v1.rotate_left(17) ^ self.v2;
        self.v3 = self.v3.rotate_left(21) ^ self.v0;
        self.v2 = self.v2.rotate_left(32);
    }

    // Both halves of the result.
    fn keys(self) -> (u64, u64) {
        let mut digest = self;
        digest.v2 ^= 0xee;
        let first = digest.half();
        digest.v1 ^= 0xdd;
        (first, digest.half())
    }

    fn half(&mut self) -> u64 {
        self.round();
        self.round();
        self.round();
        self.v0 ^ self.v1 ^ self.v2 ^ self.v3
    }
}

impl BuildHasher for CodeHash {
    type Hasher = NodeHasher;

    ghost build_hasher = { λ h. h.keyed };

    fn build_hasher(&self) -> NodeHasher {
        self.keyed
    }
}

impl Hasher for NodeHasher {
    ghost write = { λ h bytes. record { behind_key = folding.write h.behind_key bytes; last_key = h.last_key } };

    ghost finish = { λ h. folding.finish (fold folding.write h.behind_key (fed.u64 h.last_key)) };

    fn write(&mut self, bytes: &[u8]) {
        self.behind_key.write(bytes);
    }

    fn finish(&self) -> u64 {
        let mut hasher = self.behind_key;
        hasher.write_u64(self.last_key);
        hasher.finish()
    }
}
