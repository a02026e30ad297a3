ghost use Rattle.std.specs.Prelude.{◌≡◌};
ghost use Rattle.trace_patterns.specs.Reasons.{reason_number};

/// Why the check rejects an object.
#[derive(Clone, Copy, Debug, PartialEq, Eq)]
pub enum Reason {
    /// A secret determines which block of plain or encrypted memory is accessed.
    SecretAddress,
    /// A secret would reach plain memory.
    SecretToRam,
    /// The bank to which a slot is bound isn't known.
    UnboundSlot,
    /// A jump leads outside the code.
    JumpOutside,
    /// A place needs a note and has none.
    NoNote,
    /// A note claims more than is known.
    NoteTooLow,
    /// A branch on a secret, or a jump in an arm, doesn't lead forwards.
    SecretLoop,
    /// The machine would halt inside a branch on a secret.
    HaltInSecret,
    /// Plain memory would be written inside a branch on a secret.
    RamStoreInSecret,
    /// The two ways through a branch on a secret differ in what they show.
    UnequalArms,
    /// A branch on a secret doesn't have two arms that join: there is no jump before the second arm, the arms reach
    /// past the end, a jump or a note is inside, or regions would be nested more than 64 deep.
    BadRegion,
    /// The code continues past its last instruction.
    RunsOffEnd,
    /// A secret variable is in plain memory.
    SecretSymbolInRam,
}

impl Reason {
    /// The number of the reason: 1 to 13, in the order of the reasons.
    pub fn number(&self) -> u8
        ensures { result ≡ reason_number self.now }
    {
        match self {
            Reason::SecretAddress => 1,
            Reason::SecretToRam => 2,
            Reason::UnboundSlot => 3,
            Reason::JumpOutside => 4,
            Reason::NoNote => 5,
            Reason::NoteTooLow => 6,
            Reason::SecretLoop => 7,
            Reason::HaltInSecret => 8,
            Reason::RamStoreInSecret => 9,
            Reason::UnequalArms => 10,
            Reason::BadRegion => 11,
            Reason::RunsOffEnd => 12,
            Reason::SecretSymbolInRam => 13,
        }
    }
}
