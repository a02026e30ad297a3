ghost use Rattle.std.specs.Prelude.{◌≡◌, ◌<◌, ◌&&◌, OnOk, IfOk, IfErr, IfSome, IfNone};
ghost use Rattle.std.specs.List.{list_any};
ghost use Rattle.lt_isa.specs.Prelude.{is_ram, IsInRange, IsOblivious};
ghost use Rattle.trace_patterns.specs.Prelude.{Accepts, FirstRefusal, is_secret_label};
ghost use Rattle.lt_checker.specs.Answers.{IsRefusalOf, HandsBack};

use crate::effects::Refusal;
use crate::places::lowest_refusal;
use crate::tables::table_of;
use gr_word::{Label, Memory};
use lt_isa::{Object, Symbol};
use std::alloc::Global;
use std::marker::Model;
use trace_patterns::{Reason, is_ram};

/// Why a check has no accepted object. Both variants return the object as it was.
#[derive(Debug, Drop)]
pub enum CheckError {
    /// The place of the first refusal, and its reason.
    Refused {
        pc: u32,
        reason: Reason,
        object: Object,
    },
    /// Memory ran out.
    Memory {
        object: Object,
    },
}

/// An object that the check accepted, and that is therefore oblivious. Contracts see it as the object. Only [`check`]
/// makes one.
#[derive(Debug, Drop)]
pub struct Accepted {
    object: Object,
}

impl Model for Accepted {
    ghost use Rattle.lt_isa.specs.Object.{Parts};

    ghost Value = { Parts };

    ghost use Rattle.lt_isa.specs.Oblivious.{IsOblivious};
    ghost use Rattle.trace_patterns.specs.Accepts.{Accepts};

    ghost view = { λ a. a.object };

    ghost invariant = { λ a. Accepts a.object × IsOblivious a.object };
}

impl Accepted {
    /// The object.
    pub fn object(&self) -> &Object
        ensures object { result.now ≡ self.now }
        ensures accepts { Accepts self.now }
        ensures oblivious { IsOblivious self.now }
    {
        &self.object
    }

    /// The object, which is then no longer known to be accepted.
    pub fn into_object(self) -> Object
        ensures object { result ≡ self }
        ensures accepts { Accepts self }
        ensures oblivious { IsOblivious self }
    {
        self.object
    }
}

/// Checks an object. It is accepted exactly if no rule refuses it. Otherwise the result is the first refusal: the
/// lowest place of public code that is refused or, if its region is refused, the place in the region. Either way the
/// object is returned as it was. Running out of memory says nothing about the object. The check takes memory for one
/// number for each place, if there are notes, and for the values of one region at a time. It examines each place once.
#[tactic(auto, using(crate::proofs::Soundness::accepted_is_oblivious, crate::proofs::AcceptanceLaws::refused_is_not_accepted))]
pub fn check(alloc: Global, object: Object) -> Result<Accepted, CheckError>
    ensures object { IfOk result (λ accepted. accepted ≡ object) }
    ensures accepts { OnOk result (Accepts object) }
    ensures oblivious { OnOk result (IsOblivious object) }
    ensures refused { IfErr result (λ e. IsRefusalOf object e) }
    ensures handed_back { IfErr result (λ e. HandsBack object e) }
{
    match first_refusal(alloc, &object) {
        Err(_) => Err(CheckError::Memory { object }),
        Ok(Some(refusal)) => Err(CheckError::Refused {
            pc: refusal.pc,
            reason: refusal.reason,
            object,
        }),
        Ok(None) => Ok(Accepted { object }),
    }
}

// The first refusal of an object, or `None` if the object is accepted.
#[tactic(auto, using(crate::proofs::Refusals::none_is_accepted, crate::proofs::Refusals::found_is_first))]
fn first_refusal(alloc: Global, object: &Object) -> Result<Option<Refusal>, Memory>
    ensures accepted { IfOk result (λ found. IfNone found (Accepts object.now)) }
    ensures first { IfOk result (λ found. IfSome found (λ r. FirstRefusal object.now r.pc r.reason)) }
    ensures in_range { IsInRange object.now }
{
    if has_secret_in_ram(object.symbols()) {
        return Ok(Some(Refusal {
            pc: 0,
            reason: Reason::SecretSymbolInRam,
        }));
    }
    let table = table_of(alloc, object.notes(), object.code().len())?;
    lowest_refusal(alloc, object, &table)
}

// Whether a secret variable is in plain memory.
fn has_secret_in_ram(symbols: &[Symbol]) -> bool
    ensures { result ≡ list_any (λ s. is_ram s.bank && is_secret_label s.label) symbols.now }
{
    symbols.iter().any(|symbol| is_secret_in_ram(symbol))
}

fn is_secret_in_ram(symbol: &Symbol) -> bool
    ensures { result ≡ (is_ram symbol.now.bank && is_secret_label symbol.now.label) }
{
    is_ram(symbol.bank) && is_secret_label(symbol.label)
}

fn is_secret_label(label: Label) -> bool
    ensures { result ≡ is_secret_label label }
{
    match label {
        Label::Public => false,
        Label::Secret => true,
    }
}
