ghost use Rattle.std.specs.List.{list_any};
ghost use Rattle.std.specs.Prelude.{◌≡◌, ◌==◌};
ghost use Rattle.gr_base.specs.Calls.{next_fails, after_call};

use std::marker::Model;

/// The number of the next call, counted from 0, and the numbers of the calls that are to fail. The count stays at 2^64
/// - 1, above each number of a call that is to fail.
#[derive(Debug, Drop)]
pub struct CallCounter {
    failing: Vec<u32>,
    next: u64,
}

impl Model for CallCounter {
    ghost use Rattle.gr_base.specs.Calls.{Calls};

    ghost Value = { Calls };

    ghost view = { λ c. record { failing = c.failing.items; next = c.next } };
}

impl CallCounter {
    /// The counter before the first call.
    pub fn new(failing: Vec<u32>) -> CallCounter
        ensures { result ≡ record { failing = failing.items; next = 0 } }
    {
        CallCounter { failing, next: 0 }
    }

    /// Counts a call, and returns whether it is one that is to fail.
    pub fn call(&mut self) -> bool
        ensures fails { result ≡ next_fails self.old }
        ensures counted { self.new ≡ after_call self.old }
    {
        let fails = is_among(&self.failing, self.next);
        self.next = self.next.saturating_add(1);
        fails
    }
}

fn is_among(numbers: &[u32], number: u64) -> bool
    ensures { result ≡ list_any (λ n. n == number) numbers.now }
{
    numbers.iter().any(|n| u64::from(*n) == number)
}
