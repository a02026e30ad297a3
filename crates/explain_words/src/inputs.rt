//! Why a text gives no inputs for some variables.

ghost use Rattle.std.specs.Prelude.{IfSome};
ghost use Rattle.gr_word.specs.Prelude.{AreVariables};

use crate::json_faults::{JsonFault, json_fault, unread_at};
use crate::members::{Described, ValueKind, described_member, item_at, member_at, value_at};
use fault_texts::{FileKind, Nearest, Source, Words, piece, put_other_kind, spot_at};
use flow_types::type_program;
use gr_base::Memory;
use gr_word::{Shape, Want};
use object_faults::object_in;
use procs_parser::parse_procs;
use run_data::{INPUT_BYTES, InputError, Name2, read_inputs};
use shown_programs::is_added;
use source_tokens::SOURCE_BYTES;
use src_lexer::{Token, lex};
use src_parser::parse;
use src_procs::inline_owned;
use src_tree::Program;
use std::alloc::Global;

/// The variables of a file's object.
pub(crate) fn variables_of_object(alloc: Global, bytes: &[u8]) -> Option<Vec<Want>>
    ensures { IfSome result (λ wants. AreVariables wants.items) }
{
    match object_in(alloc, bytes)?.wants(alloc) {
        Ok(wants) => Some(wants),
        Err(_) => None,
    }
}

/// The variables of a source's program. `has_procs` says whether it may have procedures.
pub(crate) fn variables_of_source(alloc: Global, text: &[u8], has_procs: bool) -> Option<Vec<Want>>
    ensures { IfSome result (λ wants. AreVariables wants.items) }
{
    if text.len() > SOURCE_BYTES {
        return None;
    }
    let tokens = lex(alloc, text).ok()?;
    let program = program_of(alloc, &tokens, has_procs)?;
    let Ok(typed) = type_program(alloc, program) else {
        return None;
    };
    match typed.wants(alloc) {
        Ok(wants) => Some(wants),
        Err(_) => None,
    }
}

// The program that tokens are, without calls.
fn program_of(alloc: Global, tokens: &[Token], has_procs: bool) -> Option<Program> {
    if !has_procs {
        return parse(alloc, tokens).ok();
    }
    match parse_procs(alloc, tokens) {
        Ok(file) => inline_owned(alloc, file).ok(),
        Err(_) => None,
    }
}

/// The form of inputs.
const JSON_FORM: &str =
    "Inputs are one JSON object, such as `{\"n\":3,\"a\":[1,2,3]}`: names in double quotation marks, decimal integers, \
    and a comma between two members or items, but none after the last.";

/// The most variables that are named.
const NAMES_SHOWN: u32 = 20;

/// The most bytes of an unknown name that is shown.
const NAME_BYTES: usize = 64;

/// The first bytes of a text with a byte order mark.
const ORDER_MARK: &[u8] = &[239, 187, 191];

/// A text of inputs, and what it should give.
#[derive(Clone, Copy)]
struct Given<'a> {
    source: Source<'a>,
    wants: &'a [Want],
}

/// Explains why a text gives no inputs for some variables.
pub(crate) fn explain_inputs(
    alloc: Global,
    name: &str,
    text: &[u8],
    wants: &[Want],
    out: &mut Words,
)
    requires { AreVariables wants.now }
{
    if text.len() > INPUT_BYTES {
        return;
    }
    if let Some(fault) = read_inputs(alloc, wants, text).err() {
        let source = Source { name, text };
        Given { source, wants }.explain(alloc, &fault, out);
    }
}

impl Given<'_> {
    fn explain(&self, alloc: Global, fault: &InputError, out: &mut Words) {
        match fault {
            InputError::Memory => out.starve(),
            InputError::BadJson => self.no_json(alloc, out),
            InputError::NotAnObject => self.source.put(
                0,
                "the inputs aren't a JSON object",
                "Inputs are one JSON object with a member for each variable, such as `{\"n\":3,\"a\":[1,2,3]}`.",
                out,
            ),
            InputError::UnknownName(name) => self.unknown(alloc, name.text(), out),
            InputError::WrongShape(name) => self.misfit(alloc, name.text(), out),
            InputError::WrongLength(name) => self.misfit(alloc, name.text(), out),
            InputError::NotAWord(name) => self.misfit(alloc, name.text(), out),
        }
    }

    // Where the member of a name begins.
    fn member(&self, alloc: Global, name: &str, out: &mut Words) -> usize {
        match member_at(alloc, self.source.text, name) {
            Ok(found) => found.unwrap_or(0),
            Err(_) => {
                out.starve();
                0
            }
        }
    }

    fn no_json(&self, alloc: Global, out: &mut Words) {
        if piece(self.source.text, 0, 3) == ORDER_MARK {
            return self.source.put(
                0,
                "the inputs begin with a byte order mark",
                "Remove the first three bytes of the file, with `tail -c +4`.",
                out,
            );
        }
        if put_other_kind(self.source.name, FileKind::Inputs, self.source.text, out) {
            return;
        }
        match json_fault(alloc, self.source.text) {
            Ok(Some(fault)) => self.put_json(fault, out),
            Ok(None) => self.put_unread(alloc, out),
            Err(_) => out.starve(),
        }
    }

    fn put_json(&self, fault: JsonFault, out: &mut Words) {
        self.source.point(fault.at, fault.what, out);
        match fault.open {
            Some(open) => {
                out.say("The bracket at ");
                out.put_numbers(spot_at(self.source.text, open));
                out.line(" is still open.");
            }
            None => out.line(JSON_FORM),
        }
    }

    // A text whose fault is only known to the reader of inputs, as a number that is too big.
    fn put_unread(&self, alloc: Global, out: &mut Words) {
        match unread_at(alloc, self.source.text) {
            Ok(at) => self.source.put(at, "this isn't valid JSON", JSON_FORM, out),
            Err(_) => out.starve(),
        }
    }

    fn unknown(&self, alloc: Global, name: &str, out: &mut Words) {
        let spot = spot_at(self.source.text, self.member(alloc, name, out));
        out.put_place(self.source.name, spot);
        if name.len() <= NAME_BYTES {
            out.say("there is no variable `");
            out.name(name);
            out.say("`");
        } else {
            out.say("there is no variable of this name");
        }
        out.put_line(self.source.text, spot);
        match nearest_variable(alloc, name, self.wants) {
            Ok(Some(nearest)) => out.suggest(nearest),
            Ok(None) => {}
            Err(_) => out.starve(),
        }
        self.put_variables(out);
    }

    // Adds the names of the first variables, without those that calls add.
    fn put_variables(&self, out: &mut Words) {
        let mut count = 0u32;
        out.say("The variables are:");
        for want in self.wants {
            if !is_added(want.name.bytes()) {
                if count == NAMES_SHOWN {
                    return out.line(", ..");
                }
                out.say(if count == 0 { " " } else { ", " });
                count = count.saturating_add(1);
                out.quote(want.name.bytes());
            }
        }
        out.line(".");
    }

    // A member whose value isn't what its variable needs.
    fn misfit(&self, alloc: Global, name: &str, out: &mut Words) {
        match described_member(alloc, self.source.text, name) {
            Ok(Some(value)) => {
                let member = self.member(alloc, name, out);
                self.unfitting(name, member, value, out)
            }
            Ok(None) => {}
            Err(_) => out.starve(),
        }
    }

    fn unfitting(&self, name: &str, member: usize, value: Described, out: &mut Words) {
        for want in self.wants {
            if want.name.bytes() == name.as_bytes() {
                return self.put_misfit(want, member, value, out);
            }
        }
    }

    // Adds what the member that begins at a byte must be, and what it is.
    fn put_misfit(&self, want: &Want, member: usize, value: Described, out: &mut Words) {
        let text = self.source.text;
        let unfit = unfit_item(want, value);
        let spot = spot_at(text, misfit_at(text, member, unfit));
        out.put_place(self.source.name, spot);
        out.say("`");
        out.quote(want.name.bytes());
        match (unfit, want.shape) {
            (Some((number, kind)), _) => {
                out.fill("[{}]` must be a signed 64-bit integer", &[number]);
                put_other(kind, out)
            }
            (None, Shape::Scalar) => {
                out.say("` must be a signed 64-bit integer");
                put_other(value.kind, out)
            }
            (None, Shape::Array) => put_list(u64::from(want.length), value.kind, out),
        }
        out.put_line(text, spot);
        out.line("Each integer is in decimal, from -9223372036854775808 to 9223372036854775807.");
    }
}

// The byte at which the value of the member that begins at a byte isn't what its variable needs: the value, or an item
// of its list.
fn misfit_at(text: &[u8], member: usize, unfit: Option<(u64, ValueKind)>) -> usize {
    let found = match unfit {
        Some((number, _)) => item_at(text, member, number as usize),
        None => value_at(text, member),
    };
    found.unwrap_or(member)
}

// The name of the variable that is nearest to a name, if one is near and no call adds it.
fn nearest_variable<'a>(
    alloc: Global,
    name: &str,
    wants: &'a [Want],
) -> Result<Option<&'a [u8]>, Memory> {
    let mut nearest = Nearest::to(alloc, name.as_bytes())?;
    for want in wants {
        if !is_added(want.name.bytes()) {
            nearest.compare(alloc, want.name.bytes())?;
        }
    }
    Ok(nearest.found())
}

// The number of the item that isn't a word, in a list of the right length.
fn unfit_item(want: &Want, value: Described) -> Option<(u64, ValueKind)> {
    match want.shape {
        Shape::Scalar => None,
        Shape::Array => if value.kind == ValueKind::List(u64::from(want.length)) {
            value.unfit
        } else {
            None
        },
    }
}

// What an array of a length needs in place of a value.
fn put_list(length: u64, kind: ValueKind, out: &mut Words) {
    match kind {
        ValueKind::List(count) => {
            out.say("` needs ");
            out.counted(length, "integer");
            out.fill(", but the list has {}", &[count])
        }
        _ => {
            out.say("` must be a list of ");
            out.counted(length, "integer");
            put_other(kind, out)
        }
    }
}

// What a value is in place of another. A number that isn't a word is only called so by what is needed.
fn put_other(kind: ValueKind, out: &mut Words) {
    out.say(match kind {
        ValueKind::Null => ", not null",
        ValueKind::Truth => ", not true or false",
        ValueKind::Word => ", not a number",
        ValueKind::Number => "",
        ValueKind::Text => ", not a string",
        ValueKind::List(_) => ", not a list",
        ValueKind::Object => ", not an object",
    })
}
