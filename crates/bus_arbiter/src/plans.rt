ghost use Rattle.std.specs.Prelude.{◌≡◌, ◌<◌, ◌≤◌, ◌+◌, ◌++◌, ◌∷◌, [], IfErr, IfNone, IfSome, OnErr, OnOk, None, Some, length, ◌⊎◌};
ghost use Rattle.bus_arbiter.specs.Shares.{IsPlan, PlanRefuses, PlanTakes, ShareFits, share_at, share_of};
ghost use Rattle.bus_arbiter.specs.Refusals.{of_overlap, of_period, refusal};
ghost use Rattle.bus_arbiter.specs.declared.errors.BusError.TheVariants.{Memory};

use crate::errors::BusError;
use crate::shares::{Share, end, meet};
use lt_checker::Accepted;
use std::alloc::Global;
use std::marker::Model;

/// The cores of a bus: objects whose transfers can't overlap. Seen as the list of their shares.
#[derive(Drop)]
pub struct Plan {
    shares: Vec<Share>,
}

impl Model for Plan {
    ghost use Rattle.std.specs.Prelude.{List};
    ghost use Rattle.bus_arbiter.specs.declared.shares.Share.{Share};
    ghost use Rattle.bus_arbiter.specs.Shares.{IsPlan};

    ghost Value = { List Share };

    ghost view = { λ p. p.shares.items };

    ghost invariant = { λ p. IsPlan p.shares.items };
}

impl Plan {
    /// No core yet.
    pub fn new(alloc: Global) -> Plan
        ensures { result ≡ [] }
    {
        Plan {
            shares: Vec::new(alloc),
        }
    }

    /// How many cores there are.
    pub fn len(&self) -> u8
        ensures cores { result ≡ length self.now }
        ensures plan { IsPlan self.now }
    {
        self.shares.len() as u8
    }

    /// Takes an object as the next core. After a refusal the plan is as before.
    pub fn add(&mut self, accepted: &Accepted) -> Result<(), BusError>
        requires { length self.old < 8 }
        ensures added { OnOk result (self.new ≡ self.old ++ share_of accepted.now ∷ []) }
        ensures fits { OnOk result (PlanTakes self.old (share_of accepted.now)) }
        ensures unchanged { OnErr result (self.new ≡ self.old) }
        ensures refused { IfErr result (λ e. (e ≡ Memory) ⊎ PlanRefuses self.old (share_of accepted.now) e) }
    {
        let share = Share::of_object(accepted.object());
        match refused(&self.shares, &share) {
            Some(cause) => Err(cause),
            None => self.push(share),
        }
    }

    // Takes a share that the plan doesn't refuse.
    fn push(&mut self, share: Share) -> Result<(), BusError>
        requires room { length self.old < 8 }
        requires fits { ShareFits share }
        requires taken { PlanTakes self.old share }
        ensures added { OnOk result (self.new ≡ self.old ++ share ∷ []) }
        ensures unchanged { OnErr result (self.new ≡ self.old) }
        ensures memory { IfErr result (λ e. e ≡ Memory) }
    {
        match self.shares.push(share) {
            Ok(()) => Ok(()),
            Err(_) => Err(BusError::Memory),
        }
    }

    /// The cycles of a period, or 1 if there are no cores.
    pub(crate) fn period(&self) -> u32
        ensures period { 0 < length self.now → result ≡ (share_at self.now 0).period }
        ensures some { 1 ≤ result }
        ensures most { result ≤ 1000000 }
    {
        if self.shares.is_empty() {
            return 1;
        }
        self.share(0).period
    }

    /// The share of a core.
    pub(crate) fn share(&self, core: u8) -> Share
        requires { core < length self.now }
        ensures share { result ≡ share_at self.now core }
        ensures fits { ShareFits result }
        ensures plan { IsPlan self.now }
    {
        self.shares[core as usize]
    }
}

// Why a plan of these shares doesn't take one more, if it doesn't.
fn refused(shares: &[Share], share: &Share) -> Option<BusError>
    requires plan { IsPlan shares.now }
    requires fits { ShareFits share.now }
    ensures takes { IfNone result (PlanTakes shares.now share.now) }
    ensures refuses { IfSome result (PlanRefuses shares.now share.now) }
{
    refusal_of(shares, share)
}

// The same, as it is worked out.
fn refusal_of(shares: &[Share], share: &Share) -> Option<BusError>
    requires plan { IsPlan shares.now }
    requires fits { ShareFits share.now }
    ensures { result ≡ refusal shares.now share.now }
{
    if share.period == 1 {
        return Some(BusError::NoWindow);
    }
    match other_period(shares, share) {
        Some(cause) => return Some(cause),
        None => {}
    }
    let end = end(share);
    if end > share.period {
        return Some(BusError::TooLong(end));
    }
    overlap(shares, share)
}

// Another period than that of core 0.
fn other_period(shares: &[Share], share: &Share) -> Option<BusError>
    ensures { result ≡ of_period shares.now share.now }
{
    if shares.is_empty() || shares[0].period == share.period {
        None
    } else {
        Some(BusError::OtherPeriod(shares[0].period))
    }
}

// The lowest core whose reach meets that of a share.
fn overlap(shares: &[Share], share: &Share) -> Option<BusError>
    requires plan { IsPlan shares.now }
    requires fits { ShareFits share.now }
    ensures { result ≡ of_overlap 0 shares.now share.now }
{
    for core in 0..shares.len() {
        if meet(&shares[core], share) {
            return Some(BusError::Overlap(core as u8));
        }
    }
    None
}
