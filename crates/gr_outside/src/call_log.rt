ghost use Rattle.std.specs.Prelude.{◌≡◌, [], IfOk, Some, None, false, if◌then◌else◌};
ghost use Rattle.gr_outside.specs.Shelf.{after_note};

use std::alloc::{AllocError, Global};
use std::marker::Model;

/// A call of a shelf: whether it was a write, where its name and its bytes are in the text of the log, and whether it
/// succeeded.
#[derive(Clone, Copy, Debug)]
pub(crate) struct Note {
    writes: bool,
    start: usize,
    name_end: usize,
    end: usize,
    done: bool,
}

/// A log of calls in a room that is reserved when it is made, so a contract can say which calls it has.
#[derive(Debug, Drop)]
pub(crate) struct CallLog {
    notes: Vec<Note>,
    text: Vec<u8>,
    room: usize,
    bytes: usize,
    is_told: bool,
}

impl Model for CallLog {
    ghost use Rattle.std.specs.Prelude.{◌+◌, ◌≤◌, All, Some, None, if◌then◌else◌, vec_capacity, vec_len};
    ghost use Rattle.gr_outside.specs.CallLog.{IsWithin, calls_of, noted_code};
    ghost use Rattle.gr_outside.specs.Shelf.{Noted};

    ghost Value = { Noted };

    ghost coded = { noted_code };

    ghost view = { λ l. record {
      calls = if l.is_told then Some (calls_of l.text.items l.notes.items) else None;
      room = l.room;
      bytes = l.bytes;
    } };

    ghost invariant = { λ l. (l.room + vec_len l.notes ≤ vec_capacity l.notes)
        × (l.bytes + vec_len l.text ≤ vec_capacity l.text) × All (IsWithin (vec_len l.text)) l.notes.items };
}

impl CallLog {
    /// An empty log with room for `room` calls, whose names and contents have `bytes` bytes together.
    pub(crate) fn new(alloc: Global, room: usize, bytes: usize) -> Result<CallLog, AllocError>
        ensures { IfOk result (λ log. log ≡ record { calls = Some []; room = room; bytes = bytes }) }
    {
        let notes = Vec::with_capacity(alloc, room)?;
        let text = Vec::with_capacity(alloc, bytes)?;
        Ok(CallLog {
            notes,
            text,
            room,
            bytes,
            is_told: true,
        })
    }

    /// Notes a call, with its bytes if it succeeded. If the call doesn't fit, the log is dropped for good.
    pub(crate) fn note(&mut self, writes: bool, name: &[u8], bytes: &[u8], done: bool)
        requires { done ≡ false → bytes.now ≡ [] }
        ensures { self.new
            ≡ after_note (record { writes = writes; name = name.now; bytes = if done then Some bytes.now else None })
            self.old }
    {
        if self.room == 0 || self.bytes < name.len() || self.bytes - name.len() < bytes.len() {
            self.is_told = false;
            self.room = 0;
            self.bytes = 0;
            return;
        }
        let start = self.text.len();
        let name_end = start + name.len();
        let end = name_end + bytes.len();
        match self.text.extend_from_slice(name) {
            Ok(()) => {}
            Err(_) => unreachable!(),
        }
        match self.text.extend_from_slice(bytes) {
            Ok(()) => {}
            Err(_) => unreachable!(),
        }
        match self.notes.push(Note {
            writes,
            start,
            name_end,
            end,
            done,
        }) {
            Ok(()) => {}
            Err(_) => unreachable!(),
        }
        self.room -= 1;
        self.bytes -= name.len() + bytes.len();
    }
}
