//! Why a file has no cases for the tool `test`, and its failed cases as lines of JSON.

ghost use Rattle.std.specs.Prelude.{IfOk, All};
ghost use Rattle.fault_texts.specs.Plain.{IsPlain};

use fault_texts::{FileKind, Source, Words, put_other_kind};
use gr_base::Memory;
use std::alloc::Global;

/// The form of a file of cases.
const CASES_FORM: &str =
    "Each line of a file of cases is one JSON object, `{\"in\":{\"n\":3},\"out\":{\"best\":7}}`. Empty lines are \
    skipped.";

/// Explains why a file has no cases: it is another kind of file, it isn't UTF-8, or all of its lines are empty. Each other
/// fault is a case that fails.
pub(crate) fn explain_cases(name: &str, text: &[u8], out: &mut Words) {
    if put_other_kind(name, FileKind::Cases, text, out) {
        return;
    }
    let source = Source { name, text };
    match std::str::from_utf8(text) {
        Ok(lines) => if lines.trim_ascii().is_empty() {
            source.put(0, "the file has no cases", CASES_FORM, out);
        },
        Err(error) => source.put(
            error.valid_up_to(),
            "this byte isn't part of valid UTF-8 text",
            CASES_FORM,
            out,
        ),
    }
}

/// The failed cases of a report of `test` as lines of JSON, with the members that an explanation has. In the report each
/// has a line, `line <n>: <reason>`.
pub fn failed_cases(alloc: Global, name: &str, report: &str) -> Result<Vec<u8>, Memory>
    ensures plain { IfOk result (λ text. All IsPlain text.items) }
{
    let mut out = Words::new(alloc);
    for line in report.split("\n") {
        if let Some((place, reason)) = line.split_once(": ")
            && let Some(number) = place.strip_prefix("line ")
            && let Ok(number) = number.parse::<u64>()
        {
            put_failed(name, number, reason, &mut out);
        }
    }
    out.finish(alloc)
}

fn put_failed(name: &str, line: u64, reason: &str, out: &mut Words) {
    out.say("{\"status\":1,\"file\":\"");
    out.put_escaped(name);
    out.fill("\",\"line\":{},\"column\":null,\"reason\":\"", &[line]);
    out.put_escaped(reason);
    out.line("\",\"hint\":null}");
}
