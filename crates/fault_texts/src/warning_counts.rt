//! How many warnings of a file are shown.

ghost use Rattle.std.specs.Prelude.{◌≡◌, ◌<◌, ◌≤◌, true};

use crate::words::Words;
use std::marker::Model;

/// The most warnings that are shown of a file.
const SHOWN: u64 = 10;

/// The warnings of a file that were found so far. Contracts see their number.
#[derive(Clone, Copy)]
pub struct WarningCount {
    found: u64,
}

impl Model for WarningCount {
    ghost use Rattle.std.specs.Prelude.{ℕ};

    ghost Value = { ℕ };

    ghost view = { λ count. count.found };

    ghost inverse = { λ found. record { found = found } };
}

impl WarningCount {
    /// No warning.
    pub const NONE: WarningCount = WarningCount { found: 0 };

    /// Counts one more warning, and returns whether it is shown. At most ten are.
    pub fn next(&mut self) -> bool
        ensures { result ≡ true → self.old < 10 }
    {
        self.found = self.found.saturating_add(1);
        self.found <= SHOWN
    }

    /// Says how many warnings aren't shown, if not all are.
    pub fn close(self, out: &mut Words)
        ensures { self ≤ 10 → out.new ≡ out.old }
    {
        if self.found > SHOWN {
            out.say("and ");
            out.counted(self.found - SHOWN, "more warning");
            out.say("\n");
        }
    }
}
