ghost use Rattle.std.specs.Prelude.{◌≡◌};
ghost use Rattle.processor.specs.Stepping.{went_of};

use banks::Leaves;

/// What an instruction left to be told.
#[derive(Clone, Copy)]
pub(crate) enum Untold {
    /// The block that this slot is bound to was read into it, which showed these paths.
    Read { slot: u8, leaves: Leaves },
    /// The block that this slot is bound to was written, which showed these paths.
    Wrote { slot: u8, leaves: Leaves },
    /// The machine stopped.
    Stopped,
    /// There is no such instruction, or its slot is unbound. Nothing was changed.
    Fault,
}

/// How a step went.
#[derive(Clone, Copy)]
pub(crate) enum Went {
    /// The run continues.
    On,
    /// The machine stopped.
    Halted,
    /// The step was a fault, and changed nothing.
    Faulted,
}

impl Untold {
    /// How the step went that left this.
    pub(crate) fn went(&self) -> Went
        ensures { result ≡ went_of self.now }
    {
        match self {
            Untold::Read { .. } | Untold::Wrote { .. } => Went::On,
            Untold::Stopped => Went::Halted,
            Untold::Fault => Went::Faulted,
        }
    }
}
