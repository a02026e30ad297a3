//! Texts about faults of files: places with a line and a caret below it, suggestions, and the same as lines of JSON.
//!
//! [`Words`] is a text that is built up piece by piece. It is proved that it is plain when it is printed: ASCII, with
//! nothing that a terminal acts on. [`Spot`] is a place in a file, [`Nearest`] the known word that is nearest to a
//! misspelt one, and [`FileKind`] what a file of a call should be, or seems to be.
#![tactic(auto)]

mod file_kinds;
mod nearest;
mod reports;
mod texts;
mod warning_counts;
mod words;

pub use file_kinds::{FileKind, looks_like, put_other_kind};
pub use nearest::Nearest;
pub use texts::{Source, Spot, is_word_of, length_up_to, line_of, line_start, piece, spot_at};
pub use warning_counts::WarningCount;
pub use words::Words;
