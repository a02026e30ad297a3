ghost use Rattle.std.specs.Prelude.{◌≡◌, ◌≤◌, ℤ, IfErr, IfOk, List, OnOk, length};
ghost use Rattle.gr_word.specs.Prelude.{AreVariables, FitsWants};
ghost use Rattle.lt_isa.specs.Prelude.{Parts, IsInRange, FitsObject};
ghost use Rattle.lt_assembler.specs.Prelude.{SpellsInText};
ghost use Rattle.trace_patterns.specs.Prelude.{Accepts};
ghost use Rattle.call_steps.specs.Objects.{SpellsObject, object_limit};
ghost use Rattle.call_steps.specs.Progress.{EndsWorkWith, SaysInputs, SaysObject, SaysText};
ghost use Rattle.call_steps.specs.Questions.{AreInputs, Shows, WhetherAccepted, WhichAssembly, WhichInputs, WhichObject};
ghost use Rattle.call_replies.specs.declared.replies.Verdict.TheVariants.{BadAssembly, BadInput, Malformed};
ghost use Rattle.call_steps.specs.Outside.{stage};
ghost use Rattle.call_steps.specs.Reached.{Finds, FindsNone};
ghost use Rattle.call_steps.specs.Steps.{input_limit, on_judged, or_ends, text_limit, with_accepted, with_assembly, with_inputs, with_object, with_variables};
ghost use Rattle.call_replies.specs.Prelude.{said};
ghost use Rattle.call_steps.specs.Work.{Reads, Work};

use call_replies::replies::{InputFault, JsonText, Reply, Verdict};
use gr_base::Memory;
use gr_outside::{Shelf, ShelfError};
use gr_word::{Inputs, Want};
use lt_assembler::{AsmError, assemble};
use lt_checker::{Accepted, CheckError, check};
use lt_isa::Object;
use object_file::{DecodeError, decode};
use run_data::{InputError, read_inputs};
use std::alloc::Global;

/// The most bytes that an object file may have.
const OBJECT_BYTES: u32 = 33_554_432;

/// The most bytes that an input file may have.
const INPUT_BYTES: u32 = 67_108_864;

/// The most bytes that an assembly text may have.
const TEXT_BYTES: u32 = 67_108_864;

/// The contents of the file of this name, or the reply if it doesn't exist, can't be read, has more bytes than the
/// limit, or memory ran out.
pub(crate) fn read_whole<'a, F: Shelf>(
    name: &'a str,
    limit: u32,
    shelf: &mut F,
) -> Result<Vec<u8>, Reply<'a>>
    ensures found { IfOk result (λ bytes. Finds (stage (F.seen shelf.old) (F.log shelf.old))
        (stage (F.seen shelf.new) (F.log shelf.new)) (Reads name.now limit) bytes.items) }
    ensures size { IfOk result (λ bytes. length bytes.items ≤ limit) }
    ensures calm { OnOk result (F.seen shelf.new ≡ F.seen shelf.old) }
    ensures stopped { IfErr result (λ reply. FindsNone (stage (F.seen shelf.old) (F.log shelf.old))
        (stage (F.seen shelf.new) (F.log shelf.new)) (Reads name.now limit) (said reply)) }
{
    match shelf.read(name, limit as usize + 1) {
        Ok(bytes) => {
            if bytes.len() > limit as usize {
                return Err(Reply::TooLong(name, limit));
            }
            Ok(bytes)
        }
        Err(ShelfError::Missing) => Err(Reply::Unread(name)),
        Err(ShelfError::Failed) => Err(Reply::Unread(name)),
        Err(ShelfError::Memory) => Err(Reply::NoMemory),
    }
}

/// The object that the file of this name encodes, accepted or not, or the reply if it encodes none.
pub fn find_object<'a, F: Shelf>(
    alloc: Global,
    name: &'a str,
    shelf: &mut F,
) -> Result<Object, Reply<'a>>
    ensures found { IfOk result (λ o. Finds (stage (F.seen shelf.old) (F.log shelf.old))
        (stage (F.seen shelf.new) (F.log shelf.new)) (with_object name.now) o) }
    ensures calm { OnOk result (F.seen shelf.new ≡ F.seen shelf.old) }
    ensures stopped { IfErr result (λ reply. FindsNone (stage (F.seen shelf.old) (F.log shelf.old))
        (stage (F.seen shelf.new) (F.log shelf.new)) (with_object name.now) (said reply)) }
{
    let bytes = read_whole(name, OBJECT_BYTES, shelf)?;
    object_in(alloc, &bytes)
}

/// The accepted object that the file of this name encodes, or the reply if it encodes none.
pub fn find_accepted<'a, F: Shelf>(
    alloc: Global,
    name: &'a str,
    shelf: &mut F,
) -> Result<Accepted, Reply<'a>>
    ensures found { IfOk result (λ o. Finds (stage (F.seen shelf.old) (F.log shelf.old))
        (stage (F.seen shelf.new) (F.log shelf.new)) (with_accepted name.now) o) }
    ensures in_range { IfOk result (λ o. IsInRange o) }
    ensures calm { OnOk result (F.seen shelf.new ≡ F.seen shelf.old) }
    ensures stopped { IfErr result (λ reply. FindsNone (stage (F.seen shelf.old) (F.log shelf.old))
        (stage (F.seen shelf.new) (F.log shelf.new)) (with_accepted name.now) (said reply)) }
{
    let object = find_object(alloc, name, shelf)?;
    checked(alloc, object)
}

/// The object that the file of this name writes in assembly, or the reply if it isn't one.
pub fn find_assembly<'a, F: Shelf>(
    alloc: Global,
    name: &'a str,
    shelf: &mut F,
) -> Result<Object, Reply<'a>>
    ensures found { IfOk result (λ o. Finds (stage (F.seen shelf.old) (F.log shelf.old))
        (stage (F.seen shelf.new) (F.log shelf.new)) (with_assembly name.now) o) }
    ensures stopped { IfErr result (λ reply. FindsNone (stage (F.seen shelf.old) (F.log shelf.old))
        (stage (F.seen shelf.new) (F.log shelf.new)) (with_assembly name.now) (said reply)) }
{
    let bytes = read_whole(name, TEXT_BYTES, shelf)?;
    assembly_in(alloc, &bytes)
}

/// The inputs of an object that the file of this name gives, or the reply if it gives none.
pub fn find_inputs<'a, F: Shelf>(
    alloc: Global,
    accepted: &Accepted,
    name: &'a str,
    shelf: &mut F,
) -> Result<Inputs, Reply<'a>>
    ensures found { IfOk result (λ inputs. Finds (stage (F.seen shelf.old) (F.log shelf.old))
        (stage (F.seen shelf.new) (F.log shelf.new)) (with_inputs accepted.now name.now) inputs) }
    ensures fits { IfOk result (λ inputs. FitsObject accepted.now inputs) }
    ensures calm { OnOk result (F.seen shelf.new ≡ F.seen shelf.old) }
    ensures stopped { IfErr result (λ reply. FindsNone (stage (F.seen shelf.old) (F.log shelf.old))
        (stage (F.seen shelf.new) (F.log shelf.new)) (with_inputs accepted.now name.now) (said reply)) }
{
    let wants = accepted.object().wants(alloc)?;
    find_variables(alloc, &wants, name, shelf)
}

/// The inputs that the file of this name gives for variables, or the reply if it gives none.
pub fn find_variables<'a, F: Shelf>(
    alloc: Global,
    wants: &[Want],
    name: &'a str,
    shelf: &mut F,
) -> Result<Inputs, Reply<'a>>
    requires { AreVariables wants.now }
    ensures found { IfOk result (λ inputs. Finds (stage (F.seen shelf.old) (F.log shelf.old))
        (stage (F.seen shelf.new) (F.log shelf.new)) (with_variables wants.now name.now) inputs) }
    ensures fits { IfOk result (λ inputs. FitsWants wants.now inputs) }
    ensures calm { OnOk result (F.seen shelf.new ≡ F.seen shelf.old) }
    ensures stopped { IfErr result (λ reply. FindsNone (stage (F.seen shelf.old) (F.log shelf.old))
        (stage (F.seen shelf.new) (F.log shelf.new)) (with_variables wants.now name.now) (said reply)) }
{
    let bytes = read_whole(name, INPUT_BYTES, shelf)?;
    inputs_in(alloc, wants, &bytes)
}

/// The object that the bytes encode, accepted or not.
pub fn object_in<'a>(alloc: Global, bytes: &[u8]) -> Result<Object, Reply<'a>>
    requires { length bytes.now ≤ object_limit }
    ensures found { IfOk result (λ o. SpellsObject bytes.now o) }
    ensures refused { IfErr result
        (λ reply. (next : Parts → Work) → EndsWorkWith (WhichObject bytes.now) (or_ends Malformed next) (said reply)) }
{
    match decode(alloc, bytes) {
        Ok(object) => Ok(object),
        Err(fault) => Err(undecoded(fault)),
    }
}

/// The reply for bytes that don't encode an object.
fn undecoded<'a>(fault: DecodeError) -> Reply<'a>
    ensures { SaysObject fault (said result) }
{
    match fault {
        DecodeError::Truncated(at) => Reply::Comes(Verdict::Malformed(DecodeError::Truncated(at))),
        DecodeError::BadMagic => Reply::Comes(Verdict::Malformed(DecodeError::BadMagic)),
        DecodeError::BadVersion(version) => {
            Reply::Comes(Verdict::Malformed(DecodeError::BadVersion(version)))
        }
        DecodeError::BadField(at) => Reply::Comes(Verdict::Malformed(DecodeError::BadField(at))),
        DecodeError::TrailingBytes(at) => {
            Reply::Comes(Verdict::Malformed(DecodeError::TrailingBytes(at)))
        }
        DecodeError::Memory => Reply::NoMemory,
    }
}

/// The object, if it is accepted.
pub fn checked<'a>(alloc: Global, object: Object) -> Result<Accepted, Reply<'a>>
    ensures same { IfOk result (λ accepted. accepted ≡ object) }
    ensures accepts { OnOk result (Accepts object) }
    ensures refused { IfErr result
        (λ reply. (next : Work) → EndsWorkWith (WhetherAccepted object) (on_judged next) (said reply)) }
{
    match check(alloc, object) {
        Ok(accepted) => Ok(accepted),
        Err(CheckError::Refused { pc, reason, .. }) => Err(Reply::Comes(Verdict::Refused(
            pc, reason,
        ))),
        Err(CheckError::Memory { .. }) => Err(Reply::NoMemory),
    }
}

/// The object that the bytes write in assembly.
fn assembly_in<'a>(alloc: Global, bytes: &[u8]) -> Result<Object, Reply<'a>>
    requires { length bytes.now ≤ text_limit }
    ensures found { IfOk result (λ o. SpellsInText bytes.now o) }
    ensures refused { IfErr result (λ reply. (next : Parts → Work)
        → EndsWorkWith (WhichAssembly bytes.now) (or_ends BadAssembly next) (said reply)) }
{
    match assemble(alloc, bytes) {
        Ok(object) => Ok(object),
        Err(fault) => Err(not_assembled(fault)),
    }
}

/// The reply for a text that isn't an object in assembly.
fn not_assembled<'a>(fault: AsmError) -> Reply<'a>
    ensures { SaysText fault (said result) }
{
    match fault {
        AsmError::BadLine(n) => Reply::Comes(Verdict::BadAssembly(AsmError::BadLine(n))),
        AsmError::BadNumber(n) => Reply::Comes(Verdict::BadAssembly(AsmError::BadNumber(n))),
        AsmError::UnknownName(n) => Reply::Comes(Verdict::BadAssembly(AsmError::UnknownName(n))),
        AsmError::TwiceNamed(n) => Reply::Comes(Verdict::BadAssembly(AsmError::TwiceNamed(n))),
        AsmError::OverLimit(n) => Reply::Comes(Verdict::BadAssembly(AsmError::OverLimit(n))),
        AsmError::Memory => Reply::NoMemory,
    }
}

/// The inputs that the bytes give for variables.
pub fn inputs_in<'a>(alloc: Global, wants: &[Want], bytes: &[u8]) -> Result<Inputs, Reply<'a>>
    requires size { length bytes.now ≤ input_limit }
    requires variables { AreVariables wants.now }
    ensures found { IfOk result (λ inputs. AreInputs wants.now bytes.now (Ok inputs)) }
    ensures fits { IfOk result (λ inputs. FitsWants wants.now inputs) }
    ensures refused { IfErr result (λ reply. (next : List (List ℤ) → Work)
        → EndsWorkWith (WhichInputs wants.now bytes.now) (or_ends BadInput next) (said reply)) }
{
    match read_inputs(alloc, wants, bytes) {
        Ok(inputs) => Ok(inputs),
        Err(fault) => Err(not_given(alloc, fault)),
    }
}

/// The reply for bytes that give no inputs.
fn not_given<'a>(alloc: Global, fault: InputError) -> Reply<'a>
    ensures { SaysInputs fault (said result) }
{
    match fault_shown(alloc, fault) {
        Ok(shown) => Reply::Comes(Verdict::BadInput(shown)),
        Err(_) => Reply::NoMemory,
    }
}

/// The fault with its name as JSON text.
fn fault_shown(alloc: Global, fault: InputError) -> Result<InputFault, Memory>
    ensures { IfOk result (Shows fault) }
{
    match fault {
        InputError::BadJson => Ok(InputFault::Json),
        InputError::NotAnObject => Ok(InputFault::Object),
        InputError::UnknownName(name) => Ok(InputFault::Unknown(JsonText::new(
            alloc,
            name.text(),
        )?)),
        InputError::WrongShape(name) => Ok(InputFault::Shape(JsonText::new(alloc, name.text())?)),
        InputError::WrongLength(name) => Ok(InputFault::Length(JsonText::new(alloc, name.text())?)),
        InputError::NotAWord(name) => Ok(InputFault::Word(JsonText::new(alloc, name.text())?)),
        InputError::Memory => Err(Memory),
    }
}
