ghost use Rattle.std.specs.Prelude.{◌≤◌, ◌<◌, ◌≡◌, ◌≢◌, IsTrue, IsFalse};

use lt_isa::{BankKind, bank_kind};

/// Whether a bank is oblivious: it has a number from 2 on.
pub fn is_oblivious(bank: u8) -> bool
    ensures oblivious { IsTrue result → 2 ≤ bank }
    ensures other { IsFalse result → bank < 2 }
{
    match bank_kind(bank) {
        BankKind::Plain => false,
        BankKind::Encrypted => false,
        BankKind::Oblivious => true,
    }
}

/// Whether a bank is plain memory: it has the number 0.
pub fn is_plain(bank: u8) -> bool
    ensures plain { IsTrue result → bank ≡ 0 }
    ensures other { IsFalse result → bank ≢ 0 }
{
    match bank_kind(bank) {
        BankKind::Plain => true,
        BankKind::Encrypted => false,
        BankKind::Oblivious => false,
    }
}
