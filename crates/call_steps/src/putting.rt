ghost use Rattle.std.specs.Prelude.{◌≡◌, ◌⊎◌, IfOk, string_bytes};
ghost use Rattle.call_steps.specs.Outside.{PutsSaid};
ghost use Rattle.call_replies.specs.Prelude.{no_memory, said};

use call_replies::replies::{NO_MEMORY, Reply};
use gr_base::Memory;
use gr_outside::Sink;
use std::alloc::Global;

/// The status of a call whose text couldn't be printed.
pub const NOT_PUT: u8 = 4;

/// The status of a call that wants memory.
const WANTS_MEMORY: u8 = 5;

/// Writes a text to the sink, and returns its status, or 4 if the sink failed.
pub fn put_text<O: Sink>(out: &mut O, status: u8, text: &[u8]) -> u8
    ensures { PutsSaid (O.seen out.old) (O.seen out.new) (record { status = status; text = text.now }) result }
{
    match out.put(text) {
        Ok(()) => status,
        Err(_) => NOT_PUT,
    }
}

/// Says that memory ran out.
pub fn say_no_memory<O: Sink>(out: &mut O) -> u8
    ensures { PutsSaid (O.seen out.old) (O.seen out.new) no_memory result }
{
    put_text(out, WANTS_MEMORY, NO_MEMORY.as_bytes())
}

/// The line of a reply. Fails only if memory runs out.
pub fn line_of(alloc: Global, reply: &Reply) -> Result<String, Memory>
    ensures { IfOk result (λ line. string_bytes line ≡ (said reply.now).text) }
{
    match format!(in alloc; "{reply}") {
        Ok(line) => Ok(line),
        Err(_) => Err(Memory),
    }
}

/// Prints the line of a reply, or the one for running out of memory if there is no memory for the line.
pub fn say<O: Sink>(alloc: Global, reply: &Reply, out: &mut O) -> u8
    ensures { PutsSaid (O.seen out.old) (O.seen out.new) (said reply.now) result
        ⊎ PutsSaid (O.seen out.old) (O.seen out.new) no_memory result }
{
    match line_of(alloc, reply) {
        Ok(line) => put_text(out, reply.status(), line.as_bytes()),
        Err(_) => say_no_memory(out),
    }
}
