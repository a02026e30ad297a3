ghost use Rattle.std.specs.Prelude.{◌≡◌, IfOk, Some};
ghost use Rattle.call_replies.specs.NameText.{name_text};
ghost use Rattle.call_replies.specs.declared.replies.Reply.TheVariants.{NoMemory};
ghost use Rattle.call_replies.specs.Texts.{bus_fault, done_text, figures_text, input_fault, notes_fault, object_fault, said, text_fault, verdict_status, verdict_text};

use crate::name_text::without_hidden;
use crate::source_faults::SourceFault;
use bus_arbiter::BusError;
use gr_base::Memory;
use lt_assembler::AsmError;
use lt_checker::Reason;
use note_infer::InferError;
use object_file::DecodeError;
use serde_json::Value;
use std::alloc::{AllocError, Global};
use std::fmt;
use std::marker::Model;

/// A text as JSON writes it, within quotation marks and without hidden characters.
#[derive(Drop)]
pub struct JsonText {
    text: String,
}

impl Model for JsonText {
    ghost use Rattle.std.specs.Prelude.{List, ℕ, string_bytes};

    ghost Value = { List ℕ };

    ghost view = { λ t. string_bytes t.text };
}

impl JsonText {
    /// The JSON text of a text.
    pub fn new(alloc: Global, text: &str) -> Result<JsonText, AllocError>
        ensures { IfOk result (λ json. json ≡ name_text text.now) }
    {
        let quoted = Value::String(String::from_str(alloc, text)?).to_string(alloc)?;
        let text = without_hidden(alloc, quoted.as_str())?;
        Ok(JsonText { text })
    }
}

impl fmt::Display for JsonText {
    ghost output = { λ json. Some json };

    fn fmt<W: fmt::Write>(&self, f: &mut fmt::Formatter<W>) -> fmt::Result {
        f.write_str(self.text.as_str())
    }
}

/// Why a file gives no inputs: its first fault. A name is given as JSON text.
#[derive(Drop)]
pub enum InputFault {
    /// The bytes aren't the text of one JSON value.
    Json,
    /// The value isn't a JSON object.
    Object,
    /// No variable has this name.
    Unknown(JsonText),
    /// The value of this name is of the wrong kind.
    Shape(JsonText),
    /// The list of this name has the wrong length.
    Length(JsonText),
    /// The value of this name, or an element of its list, isn't a word.
    Word(JsonText),
}

/// The outcome of a verb's own work, if it writes no file.
#[derive(Drop)]
pub enum Verdict {
    /// The object was accepted.
    Accepted,
    /// The trace was printed; whether the run halted.
    Traced(bool),
    /// The file doesn't encode an object.
    Malformed(DecodeError),
    /// The object is refused at a place of its code.
    Refused(u32, Reason),
    /// The text gives no program.
    BadSource(SourceFault),
    /// The file gives no inputs.
    BadInput(InputFault),
    /// The run didn't halt within this many cycles, or the loops took more than this many iterations.
    Spent(u32),
    /// The text isn't an object in assembly.
    BadAssembly(AsmError),
    /// The plan of a bus refuses the object as this core.
    OffBus(u8, BusError),
    /// The lines of a bus were printed; whether all its cores halted.
    Shared(bool),
    /// The object gets no notes, and why.
    NoNotes(InferError),
}

/// What was done where a verb wrote its file.
#[derive(Drop)]
pub enum Done {
    /// The run halted at this cycle.
    Halted(u32),
    /// The object file was written.
    Assembled,
    /// The assembly text was written.
    Disassembled,
    /// The program was evaluated, and its outputs were written.
    Evaluated,
    /// The program was compiled, and its object file was written.
    Compiled,
    /// The sample's object file was written. Its run had these figures.
    Sampled(Figures),
    /// The object file was written, with this many notes.
    Inferred(u32),
}

/// The figures of a sample: the number of its items; the cycle at which its run halted; how many accesses the run made
/// to plain memory, to encrypted memory and to oblivious bank 2; and the sum of the counts.
#[derive(Clone, Copy)]
pub struct Figures {
    pub items: u32,
    pub cycles: u32,
    pub ram: u32,
    pub eram: u32,
    pub oram2: u32,
    pub sum: i128,
}

/// The outcome of a call of the program. Its status and its last line are defined here, and no line is made elsewhere.
#[derive(Drop)]
pub enum Reply<'a> {
    /// The words ask for no work.
    Usage,
    /// The file of this name couldn't be read.
    Unread(&'a str),
    /// The file of this name couldn't be written.
    Unwritten(&'a str),
    /// Memory ran out.
    NoMemory,
    /// The file of this name has more bytes than this limit.
    TooLong(&'a str, u32),
    /// The outcome of the verb's work.
    Comes(Verdict),
    /// The verb wrote its file.
    Wrote(Done),
}

// why: one conversion for the allocator's errors and `Memory` alike. A type that is also made from another error, such
// as `Unread` of `run_data`, can't have it: the implementations would conflict.
impl<'a, E: Into<Memory> + Drop> From<E> for Reply<'a> {
    ghost from_gives = { λ _ reply. reply ≡ NoMemory };

    fn from(_error: E) -> Reply<'a> {
        Reply::NoMemory
    }
}

impl Reply<'_> {
    /// The exit status.
    pub fn status(&self) -> u8
        ensures { result ≡ (said self.now).status }
    {
        match self {
            Reply::Usage => 2,
            Reply::Unread(_) => 3,
            Reply::Unwritten(_) => 4,
            Reply::NoMemory => 5,
            Reply::TooLong(_, _) => 11,
            Reply::Comes(verdict) => verdict.status(),
            Reply::Wrote(_) => 0,
        }
    }
}

impl Verdict {
    fn status(&self) -> u8
        ensures { result ≡ verdict_status self.now }
    {
        match self {
            Verdict::Accepted => 0,
            Verdict::Traced(true) => 0,
            Verdict::Traced(false) => 10,
            Verdict::Malformed(_) => 6,
            Verdict::Refused(_, _) => 7,
            Verdict::BadSource(_) => 8,
            Verdict::BadInput(_) => 9,
            Verdict::Spent(_) => 10,
            Verdict::BadAssembly(_) => 12,
            Verdict::OffBus(_, _) => 13,
            Verdict::Shared(true) => 0,
            Verdict::Shared(false) => 10,
            Verdict::NoNotes(_) => 7,
        }
    }
}

/// The line for running out of memory, which is printed if there isn't memory for any other.
pub const NO_MEMORY: &str = "fault 5 memory\n";

/// The bytes of the line.
impl fmt::Display for Reply<'_> {
    ghost output = { λ reply. Some (said reply).text };

    fn fmt<W: fmt::Write>(&self, f: &mut fmt::Formatter<W>) -> fmt::Result {
        match self {
            Reply::Usage => f.write_str("fault 2 usage\n"),
            Reply::Unread(name) => write!(f, "fault 3 read {name}\n"),
            Reply::Unwritten(name) => write!(f, "fault 4 write {name}\n"),
            Reply::NoMemory => f.write_str(NO_MEMORY),
            Reply::TooLong(name, limit) => write!(f, "fault 11 long {name} {limit}\n"),
            Reply::Comes(verdict) => write!(f, "{verdict}"),
            Reply::Wrote(done) => write!(f, "{done}\n"),
        }
    }
}

impl fmt::Display for Verdict {
    ghost output = { λ verdict. Some (verdict_text verdict) };

    fn fmt<W: fmt::Write>(&self, f: &mut fmt::Formatter<W>) -> fmt::Result {
        match self {
            Verdict::Accepted => f.write_str("accepted\n"),
            Verdict::Traced(true) => f.write_str("end halted\n"),
            Verdict::Traced(false) => f.write_str("end spent\n"),
            Verdict::Malformed(fault) => {
                let detail = Detail(fault);
                write!(f, "fault 6 object {detail}\n")
            }
            Verdict::Refused(pc, reason) => {
                let number = reason.number();
                write!(f, "fault 7 refused {pc} {number}\n")
            }
            Verdict::BadSource(fault) => write!(f, "fault 8 source {fault}\n"),
            Verdict::BadInput(fault) => write!(f, "fault 9 input {fault}\n"),
            Verdict::Spent(most) => write!(f, "fault 10 spent {most}\n"),
            Verdict::BadAssembly(fault) => {
                let detail = Detail(fault);
                write!(f, "fault 12 assembly {detail}\n")
            }
            Verdict::OffBus(core, cause) => {
                let detail = BusDetail(*core, cause);
                write!(f, "fault 13 bus {detail}\n")
            }
            Verdict::Shared(_) => Ok(()),
            Verdict::NoNotes(why) => {
                let detail = Detail(why);
                write!(f, "fault 7 {detail}\n")
            }
        }
    }
}

impl fmt::Display for Done {
    ghost output = { λ done. Some (done_text done) };

    fn fmt<W: fmt::Write>(&self, f: &mut fmt::Formatter<W>) -> fmt::Result {
        match self {
            Done::Halted(at) => write!(f, "halted {at}"),
            Done::Assembled => f.write_str("assembled"),
            Done::Disassembled => f.write_str("disassembled"),
            Done::Evaluated => f.write_str("done"),
            Done::Compiled => f.write_str("compiled"),
            Done::Sampled(figures) => write!(f, "{figures}"),
            Done::Inferred(count) => write!(f, "inferred {count}"),
        }
    }
}

impl fmt::Display for Figures {
    ghost output = { λ figures. Some (figures_text figures) };

    fn fmt<W: fmt::Write>(&self, f: &mut fmt::Formatter<W>) -> fmt::Result {
        let Figures {
            items,
            cycles,
            ram,
            eram,
            oram2,
            sum,
        } = *self;
        write!(
            f,
            "items {items}\ncycles {cycles}\nram {ram}\neram {eram}\noram2 {oram2}\nsum {sum}"
        )
    }
}

impl fmt::Display for InputFault {
    ghost output = { λ fault. Some (input_fault fault) };

    fn fmt<W: fmt::Write>(&self, f: &mut fmt::Formatter<W>) -> fmt::Result {
        match self {
            InputFault::Json => f.write_str("json"),
            InputFault::Object => f.write_str("object"),
            InputFault::Unknown(name) => write!(f, "unknown {name}"),
            InputFault::Shape(name) => write!(f, "shape {name}"),
            InputFault::Length(name) => write!(f, "length {name}"),
            InputFault::Word(name) => write!(f, "word {name}"),
        }
    }
}

/// A fault of another crate, as the last line of a call names it.
#[derive(Clone, Copy)]
struct Detail<'a, E>(&'a E);

/// Why a file doesn't encode an object, and where.
impl fmt::Display for Detail<'_, DecodeError> {
    ghost output = { λ detail. Some (object_fault detail.0.now) };

    fn fmt<W: fmt::Write>(&self, f: &mut fmt::Formatter<W>) -> fmt::Result {
        match self.0 {
            DecodeError::Truncated(at) => write!(f, "truncated {at}"),
            DecodeError::BadMagic => f.write_str("magic"),
            DecodeError::BadVersion(version) => write!(f, "version {version}"),
            DecodeError::BadField(at) => write!(f, "field {at}"),
            DecodeError::TrailingBytes(at) => write!(f, "trailing {at}"),
            DecodeError::Memory => f.write_str("memory"),
        }
    }
}

/// Why a text isn't an object in assembly, and in which line.
impl fmt::Display for Detail<'_, AsmError> {
    ghost output = { λ detail. Some (text_fault detail.0.now) };

    fn fmt<W: fmt::Write>(&self, f: &mut fmt::Formatter<W>) -> fmt::Result {
        match self.0 {
            AsmError::BadLine(n) => write!(f, "line {n}"),
            AsmError::BadNumber(n) => write!(f, "number {n}"),
            AsmError::UnknownName(n) => write!(f, "unknown {n}"),
            AsmError::TwiceNamed(n) => write!(f, "twice {n}"),
            AsmError::OverLimit(n) => write!(f, "limit {n}"),
            AsmError::Memory => f.write_str("memory"),
        }
    }
}

/// Why an object gets no notes.
impl fmt::Display for Detail<'_, InferError> {
    ghost output = { λ detail. Some (notes_fault detail.0.now) };

    fn fmt<W: fmt::Write>(&self, f: &mut fmt::Formatter<W>) -> fmt::Result {
        match self.0 {
            InferError::Dead(pc) => write!(f, "dead {pc}"),
            InferError::Refused { pc, reason } => {
                let number = reason.number();
                write!(f, "refused {pc} {number}")
            }
            InferError::TooMany(count) => write!(f, "notes {count}"),
            InferError::Memory => f.write_str("memory"),
        }
    }
}

/// Why the plan of a bus refuses an object as a core.
#[derive(Drop)]
struct BusDetail<'a>(u8, &'a BusError);

impl fmt::Display for BusDetail<'_> {
    ghost output = { λ detail. Some (bus_fault detail.0 detail.1.now) };

    fn fmt<W: fmt::Write>(&self, f: &mut fmt::Formatter<W>) -> fmt::Result {
        let core = self.0;
        match self.1 {
            BusError::NoWindow => write!(f, "window {core}"),
            BusError::OtherPeriod(_) => write!(f, "period {core}"),
            BusError::TooLong(_) => write!(f, "long {core}"),
            BusError::Overlap(other) => write!(f, "overlap {other} {core}"),
            BusError::Memory => f.write_str("memory"),
        }
    }
}
