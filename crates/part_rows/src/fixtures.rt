ghost use Rattle.std.specs.Prelude.{IfOk};
ghost use Rattle.lt_assembler.specs.Prelude.{SpellsInText};
ghost use Rattle.lt_isa.specs.Prelude.{FitsObject};
ghost use Rattle.trace_patterns.specs.Prelude.{Accepts};

use flow_types::{Typed, type_program};
use gr_word::Inputs;
use lt_assembler::assemble;
use lt_checker::{Accepted, check};
use lt_isa::Object;
use run_data::{INPUT_BYTES, read_inputs};
use src_lexer::lex;
use src_parser::parse;
use src_tree::Program;
use std::alloc::Global;
use std::test::Fail;

/// Reads a block of plain memory, and halts.
pub(crate) const LOAD: &str = "\
.object 1 3 1 70 2 3
.bank 4 634
.bank 4 662
li r1 0
ldb 0 D r1
halt
";

/// The object of an assembly text.
pub(crate) fn object_of(alloc: Global, text: &str) -> Result<Object, Fail>
    ensures { IfOk result (λ object. SpellsInText text.now object) }
{
    if text.len() > INPUT_BYTES {
        return Err(Fail::from("too long"));
    }
    match assemble(alloc, text.as_bytes()) {
        Ok(object) => Ok(object),
        Err(error) => Err(Fail::from(error)),
    }
}

/// The object of an assembly text, which the check must accept.
pub(crate) fn accepted_of(alloc: Global, text: &str) -> Result<Accepted, Fail>
    ensures spelled { IfOk result (λ accepted. SpellsInText text.now accepted) }
    ensures accepts { IfOk result (λ accepted. Accepts accepted) }
{
    match check(alloc, object_of(alloc, text)?) {
        Ok(accepted) => Ok(accepted),
        Err(_) => Err(Fail::from("refused")),
    }
}

/// The inputs that a JSON text gives the variables of an object.
pub(crate) fn inputs_of(alloc: Global, accepted: &Accepted, json: &str) -> Result<Inputs, Fail>
    ensures { IfOk result (λ inputs. FitsObject accepted.now inputs) }
{
    if json.len() > INPUT_BYTES {
        return Err(Fail::from("too long"));
    }
    let wants = match accepted.object().wants(alloc) {
        Ok(wants) => wants,
        Err(_) => return Err(Fail::from("no memory")),
    };
    match read_inputs(alloc, &wants, json.as_bytes()) {
        Ok(inputs) => Ok(inputs),
        Err(_) => Err(Fail::from("no inputs")),
    }
}

/// The program of a source text.
pub(crate) fn program_of(alloc: Global, text: &[u8]) -> Result<Program, Fail> {
    if text.len() > 1_048_576 {
        return Err(Fail::from("a long text"));
    }
    let Ok(tokens) = lex(alloc, text) else {
        return Err(Fail::from("no tokens"));
    };
    match parse(alloc, tokens.as_slice()) {
        Ok(program) => Ok(program),
        Err(_) => Err(Fail::from("no program")),
    }
}

/// The program of a source text, which must be well typed and within the limits.
pub(crate) fn typed_of(alloc: Global, text: &[u8]) -> Result<Typed, Fail> {
    match type_program(alloc, program_of(alloc, text)?) {
        Ok(typed) => Ok(typed),
        Err(_) => Err(Fail::from("not typed")),
    }
}
