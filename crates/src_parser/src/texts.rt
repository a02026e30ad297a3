//! Programs from texts. The tokens are read some at a time: a list of all tokens may take 24 times as much memory as the
//! text.

ghost use Rattle.std.specs.Prelude.{◌≤◌, ◌^◌, length, IfOk, IfErr};
ghost use Rattle.gr_base.specs.Prelude.{IfFault};
ghost use Rattle.src_tree.specs.Prelude.{source_of};
ghost use Rattle.src_parser.specs.Readers.{ErrsFirst};
ghost use Rattle.src_parser.specs.Source.{SpellsSource, HasTokens, ExplainsText, ExplainsTextBy};

use crate::errors::{ParseFault, TextFault};
use crate::parsing::ProgramReader;
use crate::readers::TokenReader;
use gr_base::Fail;
use src_lexer::Lexer;
use src_tree::Program;
use std::alloc::Global;

// The first fault of a text of which a token is wrong. A fault of the pieces comes first, even if its place is after the
// token.
fn first_fault(alloc: Global, mut lexer: Lexer<'_>, fault: ParseFault) -> Fail<TextFault>
    ensures { IfFault (ErrsFirst lexer.entry fault) result }
{
    'skipping: loop {
        match lexer.next(alloc) {
            Ok(tokens) => {
                if tokens.is_empty() {
                    return Fail::Fault(TextFault::Tokens(fault));
                }
            }
            Err(fail) => return fail.map(TextFault::Pieces),
        }
    }
}

/// The tree of a text of at most 1,048,576 bytes, or the text's first fault. The tokens are passed to a reader some at a
/// time.
pub fn read_text<R: TokenReader>(alloc: Global, text: &[u8]) -> Result<R::Tree, Fail<TextFault>>
    requires { length text.now ≤ 2 ^ 20 }
    ensures spelled { IfOk result (λ tree. HasTokens (λ tokens. R.IsTree tokens tree) text.now) }
    ensures refused { IfErr result (IfFault (λ fault. ExplainsTextBy R.Explains fault text.now)) }
{
    let mut lexer = Lexer::new(alloc, text);
    let mut reader = R::new(alloc);
    'reading: loop {
        match lexer.next(alloc) {
            Ok(tokens) => {
                if tokens.is_empty() {
                    match reader.finish(alloc) {
                        Ok(tree) => return Ok(tree),
                        Err(fail) => return Err(fail.map(TextFault::Tokens)),
                    }
                }
                match reader.read(alloc, &tokens) {
                    Ok(()) => {}
                    Err(Fail::Fault(fault)) => return Err(first_fault(alloc, lexer, fault)),
                    Err(Fail::Memory) => return Err(Fail::Memory),
                }
            }
            Err(fail) => return Err(fail.map(TextFault::Pieces)),
        }
    }
}

/// The program of a text of at most 1,048,576 bytes, or the text's first fault.
pub fn read_source(alloc: Global, text: &[u8]) -> Result<Program, Fail<TextFault>>
    requires { length text.now ≤ 2 ^ 20 }
    ensures spelled { IfOk result (λ program. SpellsSource text.now (source_of program)) }
    ensures refused { IfErr result (IfFault (λ fault. ExplainsText fault text.now)) }
{
    read_text::<ProgramReader>(alloc, text)
}
