use std::alloc::{AllocError, AllocFailed};

/// Out of memory: the error of a call that can't fail otherwise.
#[derive(Clone, Copy, Debug, PartialEq, Eq)]
pub struct Memory;

impl From<AllocError> for Memory {
    fn from(_error: AllocError) -> Memory {
        Memory
    }
}

impl<T: Drop> From<AllocFailed<T>> for Memory {
    fn from(_error: AllocFailed<T>) -> Memory {
        Memory
    }
}

/// Why a call failed: its input has a fault, or memory ran out, which says nothing about the input.
///
/// This keeps `Memory` out of the types of faults: a definition of faults has no case for it, and `?` makes a `Fail` of
/// each error of an allocation.
#[derive(Debug, Drop, PartialEq, Eq)]
pub enum Fail<E> {
    /// The input has this fault.
    Fault(E),
    /// Memory ran out.
    Memory,
}

impl<E> Fail<E> {
    ghost use Rattle.std.specs.Prelude.{◌≡◌};
    ghost use Rattle.gr_base.specs.Fails.{IfFault, IsFaultAnd, MatchFail};
    ghost use Rattle.gr_base.specs.declared.errors.Fail.TheVariants as fail;

    /// Makes another fault of the fault.
    pub fn map<D, F: FnOnce(E) -> D>(self, make: F) -> Fail<D>
        requires { IfFault (F.pre make) self }
        ensures { MatchFail self (λ e. IsFaultAnd (F.post make e) result) (result ≡ fail.Memory) }
    {
        match self {
            Fail::Fault(fault) => Fail::Fault(make(fault)),
            Fail::Memory => Fail::Memory,
        }
    }
}

impl<E, M: Into<Memory> + Drop> From<M> for Fail<E> {
    ghost use Rattle.std.specs.Prelude.{◌≡◌};
    ghost use Rattle.gr_base.specs.declared.errors.Fail.TheVariants as fail;

    ghost from_gives = { λ _ error. error ≡ fail.Memory };

    fn from(_error: M) -> Fail<E> {
        Fail::Memory
    }
}
