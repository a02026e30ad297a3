ghost use Rattle.std.specs.Prelude.{◌≡◌, ◌↔◌, ◌<◌, IfOk, IsOk, IsTrue, length, map};
ghost use Rattle.gr_word.specs.Prelude.{AreVariables};
ghost use Rattle.lt_isa.specs.Costs.{cost_of};
ghost use Rattle.lt_isa.specs.Object.{Parts};
ghost use Rattle.lt_isa.specs.Ranges.{IsInRange};
ghost use Rattle.lt_isa.specs.Start.{want_of, wants_of};

use crate::instructions::Instr;
use crate::profiles::{BankSpec, Profile};
use crate::ranges::parts_fit;
use crate::symbols::{Note, Symbol};
use gr_word::{Memory, Want};
use std::alloc::Global;
use std::marker::Model;

/// A field of an object is out of its range.
#[derive(Clone, Copy, Debug, PartialEq, Eq)]
pub struct OutOfRange;

/// An object: a program of the machine with its memory. Contracts see it as its five parts, each in range.
#[derive(Debug, Drop)]
pub struct Object {
    profile: Profile,
    banks: Vec<BankSpec>,
    symbols: Vec<Symbol>,
    notes: Vec<Note>,
    code: Vec<Instr>,
}

impl Model for Object {
    ghost use Rattle.lt_isa.specs.Object.{Parts};
    ghost use Rattle.lt_isa.specs.Ranges.{IsInRange};

    ghost Value = { Parts };

    ghost view = { λ o. record {
      profile = o.profile;
      banks = o.banks.items;
      symbols = o.symbols.items;
      notes = o.notes.items;
      code = o.code.items;
    } };

    ghost invariant = { λ o. IsInRange (record {
      profile = o.profile;
      banks = o.banks.items;
      symbols = o.symbols.items;
      notes = o.notes.items;
      code = o.code.items;
    }) };
}

impl Object {
    /// Makes an object of five parts. It is an error if a part isn't in range; the parts are dropped then.
    pub fn try_new(
        profile: Profile,
        banks: Vec<BankSpec>,
        symbols: Vec<Symbol>,
        notes: Vec<Note>,
        code: Vec<Instr>,
    ) -> Result<Object, OutOfRange>
        ensures value { IfOk result
            (λ o. o
            ≡ record {
              profile = profile;
              banks = banks.items;
              symbols = symbols.items;
              notes = notes.items;
              code = code.items;
            }) }
        ensures exactly { IsOk result
            ↔ IsInRange (record {
              profile = profile;
              banks = banks.items;
              symbols = symbols.items;
              notes = notes.items;
              code = code.items;
            }) }
    {
        if parts_fit(&profile, &banks, &symbols, &notes, &code) {
            Ok(Object {
                profile,
                banks,
                symbols,
                notes,
                code,
            })
        } else {
            Err(OutOfRange)
        }
    }

    /// Makes an object of five parts that are in range.
    pub fn of_parts(
        profile: Profile,
        banks: Vec<BankSpec>,
        symbols: Vec<Symbol>,
        notes: Vec<Note>,
        code: Vec<Instr>,
    ) -> Object
        requires { IsInRange (record {
          profile = profile;
          banks = banks.items;
          symbols = symbols.items;
          notes = notes.items;
          code = code.items;
        }) }
        ensures { result
            ≡ record {
              profile = profile;
              banks = banks.items;
              symbols = symbols.items;
              notes = notes.items;
              code = code.items;
            } }
    {
        Object {
            profile,
            banks,
            symbols,
            notes,
            code,
        }
    }

    /// The parameters of the processor for which the object is made.
    pub fn profile(&self) -> &Profile
        ensures value { result.now ≡ self.now.profile }
        ensures in_range { IsInRange self.now }
    {
        &self.profile
    }

    /// The banks: plain memory first, then encrypted memory, then the oblivious banks.
    pub fn banks(&self) -> &[BankSpec]
        ensures value { result.now ≡ self.now.banks }
        ensures in_range { IsInRange self.now }
    {
        self.banks.as_slice()
    }

    /// The variables, in order of bank and place.
    pub fn symbols(&self) -> &[Symbol]
        ensures value { result.now ≡ self.now.symbols }
        ensures in_range { IsInRange self.now }
    {
        self.symbols.as_slice()
    }

    /// The claims about places of the code, in order of place.
    pub fn notes(&self) -> &[Note]
        ensures value { result.now ≡ self.now.notes }
        ensures in_range { IsInRange self.now }
    {
        self.notes.as_slice()
    }

    /// The instructions. They are numbered from 0, and the machine starts at the first.
    pub fn code(&self) -> &[Instr]
        ensures value { result.now ≡ self.now.code }
        ensures in_range { IsInRange self.now }
    {
        self.code.as_slice()
    }

    /// What inputs must fit: one variable for each symbol, in the order of the symbols.
    #[tactic(auto, using(crate::proofs::Variables::wants_are_variables))]
    pub fn wants(&self, alloc: Global) -> Result<Vec<Want>, Memory>
        ensures wants { IfOk result (λ wants. wants.items ≡ wants_of self.now) }
        ensures variables { IfOk result (λ wants. AreVariables wants.items) }
    {
        wants_of(alloc, self.symbols())
    }
}

fn wants_of(alloc: Global, symbols: &[Symbol]) -> Result<Vec<Want>, Memory>
    ensures { IfOk result (λ wants. wants.items ≡ map want_of symbols.now) }
{
    let mut wants = Vec::new(alloc);
    for symbol in symbols {
        wants.push(symbol.want(alloc)?)?;
    }
    Ok(wants)
}
