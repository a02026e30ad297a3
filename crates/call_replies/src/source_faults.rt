ghost use Rattle.std.specs.Prelude.{◌≡◌, Some};
ghost use Rattle.lt_assembler.specs.Prelude.{label_word};
ghost use Rattle.call_replies.specs.Texts.{limit_name, source_fault};

use gr_word::Label;
use src_tree::Which;
use std::fmt;

/// Why a source text isn't a program: its first fault. The number of `Byte` is that of the byte that begins no token,
/// or of a letter directly after a number; the other faults of tokens have the number of the byte at which the token
/// starts. The number of `Twice` is that of a declaration, and the faults of typing from `Undeclared` on have that of a
/// statement, all counted from 0. A limit has the number that `flow_types` gives it; the lack of room names a label or
/// a bank. The last six are faults of a file that is read with procedures; their numbers are those that `src_procs`
/// gives, of a procedure or of a call.
#[derive(Clone, Copy)]
pub enum SourceFault {
    /// The byte begins no token.
    Byte(u32),
    /// The number is above 2^63 - 1.
    Number(u32),
    /// The name has more than 32 bytes.
    Name(u32),
    /// No program can continue with the token.
    Unexpected(u32),
    /// More is nested at the token than is allowed.
    Deep(u32),
    /// The text ends within a program.
    End,
    /// The declaration has the name of an earlier one.
    Twice(u32),
    /// The statement names what isn't declared.
    Undeclared(u32),
    /// The statement names an array without an index, or a scalar with one.
    Shape(u32),
    /// The statement assigns a secret, or from within secret code, to what is public.
    Flow(u32),
    /// A public array has a secret index in the statement.
    Index(u32),
    /// The loop has a secret guard.
    Guard(u32),
    /// The loop is in secret code.
    Loop(u32),
    /// A limit is passed.
    Limit(Which, u64),
    /// There are more scalars of the label than a block has words.
    Scalars(Label),
    /// The bank is the lowest that needs more blocks than it may have.
    BankFull(u8),
    /// The procedure has the name of an earlier one, or two of its parameters and locals have one name.
    ProcedureTwice(u32),
    /// The procedure names a variable that is none of its parameters and locals.
    ProcedureUndeclared(u32),
    /// No procedure of that name is declared before the call.
    CallUnknown(u32),
    /// The call has another number of arguments than the procedure has parameters.
    CallCount(u32),
    /// An array's argument isn't a bare name.
    CallArray(u32),
    /// The program without calls has too many statements.
    CallsLarge,
}

/// The word for a label.
fn label_name(label: Label) -> &'static str
    ensures { result.now ≡ label_word label }
{
    match label {
        Label::Public => "public",
        Label::Secret => "secret",
    }
}

/// The word for a limit.
fn limit_name(which: Which) -> &'static str
    ensures { result.now ≡ limit_name which }
{
    match which {
        Which::Variables => "variables",
        Which::ArrayLength => "length",
        Which::TotalWords => "words",
        Which::Height => "height",
        Which::Weight => "weight",
    }
}

impl fmt::Display for SourceFault {
    ghost output = { λ fault. Some (source_fault fault) };

    fn fmt<W: fmt::Write>(&self, f: &mut fmt::Formatter<W>) -> fmt::Result {
        match self {
            SourceFault::Byte(at) => write!(f, "byte {at}"),
            SourceFault::Number(at) => write!(f, "number {at}"),
            SourceFault::Name(at) => write!(f, "name {at}"),
            SourceFault::Unexpected(at) => write!(f, "unexpected {at}"),
            SourceFault::Deep(at) => write!(f, "deep {at}"),
            SourceFault::End => f.write_str("end"),
            SourceFault::Twice(n) => write!(f, "twice {n}"),
            SourceFault::Undeclared(n) => write!(f, "undeclared {n}"),
            SourceFault::Shape(n) => write!(f, "shape {n}"),
            SourceFault::Flow(n) => write!(f, "flow {n}"),
            SourceFault::Index(n) => write!(f, "index {n}"),
            SourceFault::Guard(n) => write!(f, "guard {n}"),
            SourceFault::Loop(n) => write!(f, "loop {n}"),
            SourceFault::Limit(which, n) => {
                let name = limit_name(*which);
                write!(f, "limit {name} {n}")
            }
            SourceFault::Scalars(label) => {
                let name = label_name(*label);
                write!(f, "scalars {name}")
            }
            SourceFault::BankFull(bank) => write!(f, "bank {bank}"),
            SourceFault::ProcedureTwice(n) => write!(f, "procs twice {n}"),
            SourceFault::ProcedureUndeclared(n) => write!(f, "procs undeclared {n}"),
            SourceFault::CallUnknown(n) => write!(f, "procs unknown {n}"),
            SourceFault::CallCount(n) => write!(f, "procs count {n}"),
            SourceFault::CallArray(n) => write!(f, "procs array {n}"),
            SourceFault::CallsLarge => f.write_str("procs large"),
        }
    }
}
