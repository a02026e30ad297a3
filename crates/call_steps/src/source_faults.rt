ghost use Rattle.std.specs.Prelude.{◌≡◌};
ghost use Rattle.call_steps.specs.Sources.{shown_call_fault, program_fault, text_fault};

use call_replies::source_faults::SourceFault;
use flow_types::TypeError;
use procs_tree::InlineError;
use src_lexer::LexFault;
use src_parser::{ParseFault, TextFault};

/// The fault of a text as it is shown.
pub(crate) fn text_fault(fault: TextFault) -> Option<SourceFault>
    ensures { result ≡ text_fault fault }
{
    match fault {
        TextFault::Pieces(LexFault::BadByte(at)) => Some(SourceFault::Byte(at)),
        TextFault::Pieces(LexFault::NumberTooBig(at)) => Some(SourceFault::Number(at)),
        TextFault::Pieces(LexFault::NameTooLong(at)) => Some(SourceFault::Name(at)),
        TextFault::Tokens(ParseFault::Unexpected(at)) => Some(SourceFault::Unexpected(at)),
        TextFault::Tokens(ParseFault::EndOfText) => Some(SourceFault::End),
        TextFault::Tokens(ParseFault::TooDeep(at)) => Some(SourceFault::Deep(at)),
    }
}

/// The fault of a file's calls as it is shown; running out of memory isn't one.
pub(crate) fn shown_call_fault(fault: InlineError) -> Option<SourceFault>
    ensures { result ≡ shown_call_fault fault }
{
    match fault {
        InlineError::TwiceNamed(n) => Some(SourceFault::ProcedureTwice(n)),
        InlineError::Undeclared(n) => Some(SourceFault::ProcedureUndeclared(n)),
        InlineError::NoProcedure(n) => Some(SourceFault::CallUnknown(n)),
        InlineError::WrongCount(n) => Some(SourceFault::CallCount(n)),
        InlineError::NotAnArray(n) => Some(SourceFault::CallArray(n)),
        InlineError::TooLarge => Some(SourceFault::CallsLarge),
        InlineError::Memory => None,
    }
}

/// The fault of a program as it is shown; running out of memory isn't one.
pub(crate) fn program_fault(fault: TypeError) -> Option<SourceFault>
    ensures { result ≡ program_fault fault }
{
    match fault {
        TypeError::TwiceDeclared(n) => Some(SourceFault::Twice(n)),
        TypeError::Undeclared(n) => Some(SourceFault::Undeclared(n)),
        TypeError::WrongShape(n) => Some(SourceFault::Shape(n)),
        TypeError::FlowToPublic(n) => Some(SourceFault::Flow(n)),
        TypeError::SecretIndexOfPublic(n) => Some(SourceFault::Index(n)),
        TypeError::SecretGuardOfLoop(n) => Some(SourceFault::Guard(n)),
        TypeError::LoopInSecret(n) => Some(SourceFault::Loop(n)),
        TypeError::Limit(which, n) => Some(SourceFault::Limit(which, n)),
        TypeError::Memory => None,
    }
}
