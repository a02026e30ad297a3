ghost use Rattle.std.specs.Prelude.{◌≤◌, vec_len};
ghost use Rattle.std.specs.Option.{ForSome};
ghost use Rattle.lt_isa.specs.Prelude.{most_block_log, most_banks, most_symbols, most_instructions};

use crate::label_keys::Labels;
use lt_isa::{BankSpec, Instr, Note, Profile, Symbol};
use std::alloc::Global;
use std::collections::BTreeMap;

/// A place of the code, or the place after its end.
#[derive(Clone, Copy)]
pub struct CodePlace {
    pub number: u32,
    pub ghost in_code: { number ≤ most_instructions },
}

/// A label used as a target.
#[derive(Clone, Copy)]
pub struct Use<'a> {
    pub name: &'a [u8],
    /// The place of the instruction.
    pub place: CodePlace,
    /// The number of the line, from 1.
    pub line: u32,
}

/// What has been read of a text so far.
#[derive(Drop)]
pub struct Draft<'a> {
    pub profile: Option<Profile>,
    pub banks: Vec<BankSpec>,
    pub symbols: Vec<Symbol>,
    pub notes: Vec<Note>,
    /// The offset of an instruction is 0 if its target is a label.
    pub code: Vec<Instr>,
    pub labels: Labels<'a>,
    /// Where labels are used, in the order of the text.
    pub uses: Vec<Use<'a>>,
    pub ghost small_blocks: { ForSome profile (λ p. p.block_log ≤ most_block_log) },
    pub ghost few_banks: { vec_len banks ≤ most_banks },
    pub ghost few_symbols: { vec_len symbols ≤ most_symbols },
    pub ghost few_code: { vec_len code ≤ most_instructions },
}

impl<'a> Draft<'a> {
    ghost use Rattle.std.specs.Prelude.{◌≡◌};
    ghost use Rattle.lt_assembler.specs.Drafts.{empty_draft};
    ghost use Rattle.lt_assembler.specs.Seen.{draft_of};

    /// The draft before the first line.
    pub fn new(alloc: Global) -> Draft<'a>
        ensures { draft_of result ≡ empty_draft }
    {
        Draft {
            profile: None,
            banks: Vec::new(alloc),
            symbols: Vec::new(alloc),
            notes: Vec::new(alloc),
            code: Vec::new(alloc),
            labels: BTreeMap::new(alloc),
            uses: Vec::new(alloc),
        }
    }
}
