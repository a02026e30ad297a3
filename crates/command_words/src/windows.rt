ghost use Rattle.std.specs.Prelude.{◌≡◌, ◌<◌, ◌≤◌, IfSome};
ghost use Rattle.std.specs.Option.{option_map};
ghost use Rattle.gr_base.specs.Prelude.{Within};
ghost use Rattle.lt_isa.specs.Prelude.{ProfileFits};
ghost use Rattle.command_words.specs.Options.{option_within};
ghost use Rattle.command_words.specs.Windows.{WindowFits, at_colon, window_given, window_in, window_in_order, window_of_numbers, windowed_profile};

use crate::options::number_within;
use lt_isa::Profile;

/// A window: the cycles of a period, the one from which on accesses may start, and the one from which on none may.
#[derive(Clone, Copy)]
pub struct Window {
    pub(crate) period: u32,
    pub(crate) opens: u32,
    pub(crate) closes: u32,
}

/// Memory is always open.
pub const ALWAYS_OPEN: Window = Window {
    period: 1,
    opens: 0,
    closes: 1,
};

/// The window that the option gives by three numbers with colons between them: memory is always open without the
/// option, and `None` if its text isn't a window with a period of at least 2.
pub fn window_given(option: Option<&str>) -> Option<Window>
    ensures value { result ≡ window_given (option_map (λ text. text.now) option.entry) }
    ensures fits { IfSome result WindowFits }
{
    match option {
        Some(text) => window_in(text),
        None => Some(ALWAYS_OPEN),
    }
}

// The window that a text writes.
fn window_in(text: &str) -> Option<Window>
    ensures value { result ≡ window_in text.now }
    ensures fits { IfSome result WindowFits }
{
    let (period, rest) = at_colon(text)?;
    let (opens, closes) = at_colon(rest)?;
    window_of(
        number_within(period, 2, 1_000_000),
        number_within(opens, 0, 1_000_000),
        number_within(closes, 1, 1_000_000),
    )
}

// The parts of a text before and after its first colon.
fn at_colon(text: &str) -> Option<(&str, &str)>
    ensures { option_map (λ parts. (parts.0.now, parts.1.now)) result ≡ at_colon text.now }
{
    text.split_once(':')
}

// The window of three numbers.
fn window_of(period: Option<u64>, opens: Option<u64>, closes: Option<u64>) -> Option<Window>
    requires period { IfSome period (λ n. n ≤ 1000000) }
    requires opens { IfSome opens (λ n. n ≤ 1000000) }
    requires closes { IfSome closes (λ n. n ≤ 1000000) }
    ensures value { result ≡ window_of_numbers period opens closes }
    ensures fits { IfSome result WindowFits }
{
    checked_window(period? as u32, opens? as u32, closes? as u32)
}

fn checked_window(period: u32, opens: u32, closes: u32) -> Option<Window>
    requires { period ≤ 1000000 }
    ensures value { result ≡ window_in_order period opens closes }
    ensures fits { IfSome result WindowFits }
{
    if opens < closes {
        if closes <= period {
            return Some(Window {
                period,
                opens,
                closes,
            });
        }
    }
    None
}

/// The usual profile for blocks of 2^`block_log` words, with this window.
pub fn windowed(block_log: u8, window: Window) -> Profile
    requires block_log { Within 3 9 block_log }
    requires window { WindowFits window }
    ensures value { result ≡ windowed_profile block_log window }
    ensures fits { ProfileFits result }
{
    Profile {
        period: window.period,
        opens: window.opens,
        closes: window.closes,
        ..Profile::usual(block_log)
    }
}
