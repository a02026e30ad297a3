//! Which of the files that the words of a tool name are `-`, and which is the file of cases.

use crate::streams::is_dash;
use crate::tools::ToolName;
use clap::ArgMatches;
use ghost_tools::{Count, Diff, Expand, Layout, Listing, Profile, Test, Tool};
use gr_base::Memory;
use run_tools::words;
use std::alloc::Global;

/// The names under which the tools' rows have files to read.
const READ: [&str; 6] = ["OBJ", "SRC", "INPUT", "FIRST", "SECOND", CASES];

/// The name under which `test` has its file of cases.
const CASES: &str = "CASES";

/// How many of the files of a call of a tool are `-`, and the name of its file of cases, if it has one.
#[derive(Clone, Copy)]
pub(crate) struct ToolFiles<'a> {
    pub dashes: usize,
    pub cases: Option<&'a str>,
}

impl<'a> ToolFiles<'a> {
    /// The files that the words of a tool name, the tool first. No files if the words are a usage error.
    pub(crate) fn of(
        alloc: Global,
        tool: ToolName,
        words: &'a [&'a str],
    ) -> Result<ToolFiles<'a>, Memory> {
        let row = match tool {
            ToolName::Diff => Diff::ROW,
            ToolName::Count => Count::ROW,
            ToolName::Expand => Expand::ROW,
            ToolName::Layout => Layout::ROW,
            ToolName::Listing => Listing::ROW,
            ToolName::Profile => Profile::ROW,
            ToolName::Test => Test::ROW,
        };
        Ok(match words::matches_of(alloc, row, words)? {
            Some(matches) => ToolFiles::in_matches(&matches),
            None => ToolFiles {
                dashes: 0,
                cases: None,
            },
        })
    }

    // The files that were found in the words.
    fn in_matches(matches: &ArgMatches<'a>) -> ToolFiles<'a> {
        let named = READ.iter().filter(|place| is_dash_at(matches, **place));
        ToolFiles {
            dashes: named.count(),
            cases: matches.get_str(CASES),
        }
    }
}

// Whether the file under this name is `-`.
fn is_dash_at(matches: &ArgMatches<'_>, place: &str) -> bool {
    match matches.get_str(place) {
        Some(name) => is_dash(name),
        None => false,
    }
}
