//! Keeps a verb's text back, so that it can be printed to standard error after its file, and as lines of JSON.

ghost use Rattle.std.specs.Prelude.{◌≡◌, [], All, IfOk, Some};
ghost use Rattle.std.specs.Option.{option_map};
ghost use Rattle.fault_texts.specs.Plain.{IsPlain};

use fault_texts::Words;
use gr_base::Memory;
use gr_outside::{Sink, SinkFailed};
use std::alloc::Global;
use std::marker::Model;

/// A sink that keeps the text that it takes, unless memory runs out. It never fails. Contracts see the text.
#[derive(Drop)]
pub(crate) struct HeldText {
    text: Option<Vec<u8>>,
}

impl Model for HeldText {
    ghost use Rattle.std.specs.Prelude.{ℕ, List, Option};
    ghost use Rattle.std.specs.Option.{option_map};

    ghost Value = { Option (List ℕ) };

    ghost view = { λ held. option_map (λ text. text.items) held.text };
}

impl HeldText {
    /// A sink that has no text yet.
    pub(crate) fn new(alloc: Global) -> HeldText
        ensures { result ≡ Some [] }
    {
        HeldText {
            text: Some(Vec::new(alloc)),
        }
    }

    /// The text that was put, or `None` if memory ran out.
    pub(crate) fn into_text(self) -> Option<Vec<u8>>
        ensures { option_map (λ text. text.items) result ≡ self }
    {
        self.text
    }
}

impl Sink for HeldText {
    ghost use Rattle.ghost_front.specs.HeldText.{held_seen};

    ghost seen = { λ s. held_seen s };

    ghost waiting = { λ _. 0 };

    #[tactic(auto, using(crate::proofs::HeldText::adds_none))]
    fn put(&mut self, bytes: &[u8]) -> Result<(), SinkFailed> {
        if let Some(mut text) = self.text.take() {
            if text.extend_from_slice(bytes).is_ok() {
                self.text = Some(text);
            }
        }
        Ok(())
    }

    /// Does nothing, since no bytes are held back.
    fn flush(&mut self) -> Result<(), SinkFailed> {
        Ok(())
    }

    fn mark(&self) -> usize {
        match &self.text {
            Some(text) => text.len(),
            None => 0,
        }
    }
}

/// The lines of a verb's text as lines of JSON, each with the members `status` and `result`. Names in them are escaped
/// as in explanations.
pub(crate) fn as_json(alloc: Global, status: u8, text: &[u8]) -> Result<Vec<u8>, Memory>
    ensures { IfOk result (λ lines. All IsPlain lines.items) }
{
    let mut out = Vec::new(alloc);
    let Ok(text) = std::str::from_utf8(text) else {
        return Ok(out);
    };
    for line in text.split_terminator("\n") {
        let head = format!(in alloc; "{{\"status\":{status},\"result\":")?;
        out.extend_from_slice(head.as_bytes())?;
        push_string(escaped(alloc, line)?.as_slice(), &mut out)?;
        out.extend_from_slice(b"}\n")?;
    }
    plain(alloc, out.as_slice())
}

/// A text in which nothing acts on a terminal: each byte that isn't printable ASCII is shown as a question mark, and a
/// text that isn't UTF-8 as nothing.
pub(crate) fn plain(alloc: Global, text: &[u8]) -> Result<Vec<u8>, Memory>
    ensures { IfOk result (λ shown. All IsPlain shown.items) }
{
    let mut words = Words::new(alloc);
    if let Ok(text) = std::str::from_utf8(text) {
        words.say(text);
    }
    words.finish(alloc)
}

// A text without characters that aren't printable ASCII.
fn escaped(alloc: Global, text: &str) -> Result<Vec<u8>, Memory> {
    let mut words = Words::new(alloc);
    words.name(text);
    words.finish(alloc)
}

/// Adds printable ASCII as a string of JSON.
pub(crate) fn push_string(text: &[u8], out: &mut Vec<u8>) -> Result<(), Memory> {
    out.push(b'"')?;
    for byte in text {
        if *byte == b'"' || *byte == b'\\' {
            out.push(b'\\')?;
        }
        out.push(*byte)?;
    }
    out.push(b'"')?;
    Ok(())
}
