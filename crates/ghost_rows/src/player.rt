use crate::calls::{Done, Outside, call};
use crate::checks::{are_levels, followed, is_front, lines_with, text_of, without};
use crate::contents::{Store, Trouble, join, join_text, number_of, numbers_of, patched, wrong};
use crate::frames::{Defined, Frame, end_of, filled_rows, names_of, substitute};
use crate::script::{Directive, Script};
use crate::tokens::Token;
use std::alloc::{AllocError, Global};
use std::{io, slice};

/// Plays the cases of a file, one directive after the other.
#[derive(Drop)]
pub(crate) struct Player {
    alloc: Global,
    frames: Vec<Frame>,
    defined: Vec<Defined>,
    texts: Store,
    files: Store,
    changed: Vec<String>,
    outside: Outside,
    status: u8,
    text: Vec<u8>,
    title: Option<String>,
    failed_here: bool,
    pub passed: u32,
    pub failed: u32,
}

// what was wrong with a step, if anything; where memory ran out, the error is handed on
fn told(step: Result<(), Trouble>) -> io::Result<Option<String>> {
    match step {
        Ok(()) => Ok(None),
        Err(trouble) => in_words(trouble),
    }
}

fn in_words(trouble: Trouble) -> io::Result<Option<String>> {
    match trouble {
        Trouble::Wrong(why) => Ok(Some(why)),
        Trouble::Memory => Err(io::Error::from(io::ErrorKind::OutOfMemory)),
    }
}

/// Replaces a value. The old value is dropped only in this function: otherwise the proof of the drop is repeated at
/// each assignment.
fn put<T: Drop>(place: &mut T, value: T) {
    *place = value;
}

// the title of a case
fn title_of(alloc: Global, directive: &Directive) -> Result<String, AllocError> {
    let mut title = String::new(alloc);
    for (at, token) in directive.tokens.iter().enumerate().skip(1) {
        if at > 1 {
            title.push_str(" ")?;
        }
        title.push_str(token.text())?;
    }
    Ok(title)
}

impl Player {
    pub(crate) fn new(alloc: Global) -> Player {
        Player {
            alloc,
            frames: Vec::new(alloc),
            defined: Vec::new(alloc),
            texts: Store::new(alloc),
            files: Store::new(alloc),
            changed: Vec::new(alloc),
            outside: Outside::new(alloc),
            status: 0,
            text: Vec::new(alloc),
            title: None,
            failed_here: false,
            passed: 0,
            failed: 0,
        }
    }

    /// Plays a whole file, and prints a line for each of its cases.
    pub(crate) fn play(&mut self, rt: &HostRuntime, script: &Script) -> io::Result<()> {
        let frame = Frame::whole(self.alloc, script.directives.len())?;
        self.frames.push(frame)?;
        for _ in 0..u64::MAX {
            let Some(at) = self.next() else {
                break;
            };
            let Some(directive) = script.directives.get(at) else {
                break;
            };
            self.perform(rt, script, directive, at)?;
        }
        self.close(rt)
    }

    // the place of the next directive
    fn next(&mut self) -> Option<usize> {
        for _ in 0..u64::MAX {
            if let Some(at) = self.frames.last_mut()?.next() {
                return Some(at);
            }
            let _ = self.frames.pop();
        }
        None
    }

    // performs a directive, and reports to the case what doesn't hold
    fn perform(
        &mut self,
        rt: &HostRuntime,
        script: &Script,
        directive: &Directive,
        at: usize,
    ) -> io::Result<()> {
        if directive.verb() == "case" {
            return self.begin(rt, directive);
        }
        let step = self.try_directive(script, directive, at);
        if let Some(why) = told(step)? {
            self.fail(rt, directive.line, why.as_str())?;
        }
        Ok(())
    }

    // prints a line for a case that fails, at its first step that doesn't hold
    fn fail(&mut self, rt: &HostRuntime, line: usize, why: &str) -> io::Result<()> {
        if !self.failed_here {
            self.failed_here = true;
            let title = match &self.title {
                Some(title) => title.as_str(),
                None => "before the first case",
            };
            println!(rt; "FAILED: {title}, line {line}: {why}")?;
        }
        Ok(())
    }

    // ends the case that is played, and counts it
    fn close(&mut self, rt: &HostRuntime) -> io::Result<()> {
        if let Some(why) = told(self.nothing_changed())? {
            self.fail(rt, 0, why.as_str())?;
        }
        if self.failed_here {
            self.failed = self.failed.saturating_add(1);
        } else if let Some(title) = &self.title {
            println!(rt; "ok: {title}")?;
            self.passed = self.passed.saturating_add(1);
        }
        self.failed_here = false;
        Ok(())
    }

    fn begin(&mut self, rt: &HostRuntime, directive: &Directive) -> io::Result<()> {
        self.close(rt)?;
        let title = title_of(self.alloc, directive)?;
        put(&mut self.title, Some(title));
        put(&mut self.files, Store::new(self.alloc));
        put(&mut self.outside, Outside::new(self.alloc));
        Ok(())
    }

    // directives that lead the play, and those that a case has
    fn try_directive(
        &mut self,
        script: &Script,
        directive: &Directive,
        at: usize,
    ) -> Result<(), Trouble> {
        match directive.verb() {
            "each" => self.each(script, directive, at),
            "define" => self.define(script, directive, at),
            "do" => self.perform_defined(directive),
            "end" => wrong(self.alloc, "this end closes nothing"),
            _ if self.failed_here => Ok(()),
            verb => {
                let tokens = substitute(self.alloc, &self.frames, &directive.tokens)?;
                self.step(verb, tokens.get(1..).unwrap_or(&[]))
            }
        }
    }

    // continues after the `end` of a body
    fn pass_body(&mut self, end: usize) {
        if let Some(frame) = self.frames.last_mut() {
            frame.go_to(end.saturating_add(1));
        }
    }

    fn each(&mut self, script: &Script, directive: &Directive, at: usize) -> Result<(), Trouble> {
        let first = at.saturating_add(1);
        let end = end_of(script, first);
        self.pass_body(end);
        let rows = filled_rows(self.alloc, &self.frames, directive)?;
        let names = names_of(self.alloc, directive.tokens.get(1..).unwrap_or(&[]))?;
        self.frames.push(Frame::new(first, end, names, rows))?;
        Ok(())
    }

    fn define(&mut self, script: &Script, directive: &Directive, at: usize) -> Result<(), Trouble> {
        let first = at.saturating_add(1);
        let end = end_of(script, first);
        self.pass_body(end);
        let Some(name) = directive.tokens.get(1) else {
            return wrong(self.alloc, "define wants a name");
        };
        let params = directive.tokens.get(2..).unwrap_or(&[]);
        let body = Defined::new(self.alloc, name.word(), first, end, params)?;
        self.defined.push(body)?;
        Ok(())
    }

    fn perform_defined(&mut self, directive: &Directive) -> Result<(), Trouble> {
        let tokens = substitute(self.alloc, &self.frames, &directive.tokens)?;
        let frame = self.frame_of(&tokens)?;
        self.frames.push(frame)?;
        Ok(())
    }

    // the body that tokens name, to be played with their values
    fn frame_of(&self, tokens: &[Token]) -> Result<Frame, Trouble> {
        let name = match tokens.get(1) {
            Some(token) => token.word(),
            None => "",
        };
        for body in &self.defined {
            if body.name.as_str() == name {
                return Ok(body.frame(self.alloc, tokens.get(2..).unwrap_or(&[]))?);
            }
        }
        wrong(self.alloc, "no body has this name")
    }

    // a step of a case
    fn step(&mut self, verb: &str, tokens: &[Token]) -> Result<(), Trouble> {
        match verb {
            "set" | "patch" | "file" | "gone" | "fail" | "surely" | "keep" | "take" | "without" =>
                self.prepare(verb, tokens),
            "call" => self.call(tokens),
            "says" | "status" | "starts" | "ends" | "holds" => self.judge(verb, tokens),
            "wrote" | "unwritten" => self.judge_file(verb, tokens),
            "same" | "differ" | "front" | "followed" | "levels" => self.compare(verb, tokens),
            _ => wrong(self.alloc, "this is no directive"),
        }
    }

    // the name that a step begins with
    fn name_in<'t>(&self, tokens: &'t [Token]) -> Result<&'t str, Trouble> {
        match tokens.first() {
            Some(token) => match str::from_utf8(token.bytes()) {
                Ok(name) => Ok(name),
                Err(_) => wrong(self.alloc, "a name is text"),
            },
            None => wrong(self.alloc, "a name is wanted"),
        }
    }

    // the bytes of the pieces after a name
    fn pieces_in(&self, tokens: &[Token], from: usize) -> Result<Vec<u8>, Trouble> {
        join(self.alloc, &self.texts, tokens.get(from..).unwrap_or(&[]))
    }

    fn prepare(&mut self, verb: &str, tokens: &[Token]) -> Result<(), Trouble> {
        if verb == "surely" {
            self.outside.sure = true;
            return Ok(());
        }
        let name = self.name_in(tokens)?;
        match verb {
            "set" => {
                let bytes = self.pieces_in(tokens, 1)?;
                self.texts.put(self.alloc, name, bytes)
            }
            "file" => {
                let bytes = self.pieces_in(tokens, 1)?;
                self.files.put(self.alloc, name, bytes)
            }
            "gone" => {
                self.files.remove(name);
                Ok(())
            }
            "keep" => {
                let bytes = Vec::from_slice(self.alloc, &self.text)?;
                self.texts.put(self.alloc, name, bytes)
            }
            "patch" => self.patch(name, tokens),
            "fail" => self.choose_failures(name, tokens),
            "take" => self.take(name, tokens),
            _ => self.leave_out(name, tokens),
        }
    }

    // a set text
    fn text_named(&self, name: &str) -> Result<&[u8], Trouble> {
        match self.texts.get(name) {
            Some(bytes) => Ok(bytes),
            None => wrong(self.alloc, "no text is set under this name"),
        }
    }

    fn patch(&mut self, name: &str, tokens: &[Token]) -> Result<(), Trouble> {
        let place = number_of(self.alloc, tokens.get(1))?;
        let bytes = self.pieces_in(tokens, 2)?;
        let new = patched(self.alloc, self.text_named(name)?, place, &bytes)?;
        self.texts.put(self.alloc, name, new)
    }

    fn choose_failures(&mut self, kind: &str, tokens: &[Token]) -> Result<(), Trouble> {
        for token in tokens.get(1..).unwrap_or(&[]) {
            let number = number_of(self.alloc, Some(token))?;
            let Ok(number) = u32::try_from(number) else {
                return wrong(self.alloc, "the number is too great");
            };
            match kind {
                "calls" => self.outside.calls.push(number)?,
                "puts" => self.outside.puts.push(number)?,
                _ => return wrong(self.alloc, "calls or puts fail"),
            }
        }
        Ok(())
    }

    // sets a text to the bytes of a file
    fn take(&mut self, name: &str, tokens: &[Token]) -> Result<(), Trouble> {
        let file = self.name_in(tokens.get(1..).unwrap_or(&[]))?;
        let Some(bytes) = self.files.get(file) else {
            return wrong(self.alloc, "there is no such file to take");
        };
        let bytes = Vec::from_slice(self.alloc, bytes)?;
        self.tell(file);
        self.texts.put(self.alloc, name, bytes)
    }

    // marks a changed file as mentioned by the case
    fn tell(&mut self, file: &str) {
        self.changed.retain(|changed| changed.as_str() != file);
    }

    fn leave_out(&mut self, name: &str, tokens: &[Token]) -> Result<(), Trouble> {
        let old = text_of(self.alloc, self.text_named(name)?)?;
        let rest = without(self.alloc, old, tokens.get(1..).unwrap_or(&[]))?;
        self.texts.put(self.alloc, name, rest.into_bytes())
    }

    // whether the case mentioned each file that a call changed or made
    fn nothing_changed(&mut self) -> Result<(), Trouble> {
        match self.changed.pop() {
            Some(name) => {
                self.changed.clear();
                Err(Trouble::Wrong(format!(in self.alloc;
                    "{name} has changed, and isn't told of"
                )?))
            }
            None => Ok(()),
        }
    }

    fn call(&mut self, tokens: &[Token]) -> Result<(), Trouble> {
        self.nothing_changed()?;
        let words = self.words_of(tokens)?;
        let done = call(self.alloc, &words, &self.files, &self.outside)?;
        self.note_changes(&done.files)?;
        self.hold(done);
        Ok(())
    }

    // the words of a call, each of which may be a piece
    fn words_of(&self, tokens: &[Token]) -> Result<Vec<String>, Trouble> {
        let mut words = Vec::new(self.alloc);
        for token in tokens {
            let word = join_text(self.alloc, &self.texts, slice::from_ref(token))?;
            words.push(word)?;
        }
        Ok(words)
    }

    // notes the files that a call changed or made
    fn note_changes(&mut self, files: &Store) -> Result<(), AllocError> {
        for item in &files.items {
            if self.files.get(item.name.as_str()) != Some(item.bytes.as_slice()) {
                let name = String::from_str(self.alloc, item.name.as_str())?;
                self.changed.push(name)?;
            }
        }
        Ok(())
    }

    // keeps the outcome of a call; the next call fails nowhere unless the case says so
    fn hold(&mut self, done: Done) {
        self.status = done.status;
        put(&mut self.text, done.text);
        put(&mut self.files, done.files);
        put(&mut self.outside, Outside::new(self.alloc));
    }

    // what came, in words
    fn came(&self) -> Result<(), Trouble> {
        let length = self.text.len();
        let text = str::from_utf8(self.text.get(..length.min(300)).unwrap_or(&[])).unwrap_or("?");
        let status = self.status;
        Err(Trouble::Wrong(format!(in self.alloc;
            "came status {status} and {length} bytes, {text:?}"
        )?))
    }

    fn judge(&self, verb: &str, tokens: &[Token]) -> Result<(), Trouble> {
        let holds = match verb {
            "says" => self.says(tokens)?,
            "status" => usize::from(self.status) == number_of(self.alloc, tokens.first())?,
            "holds" => self.holds(tokens)?,
            _ => self.begins_or_ends(verb, tokens)?,
        };
        if holds { Ok(()) } else { self.came() }
    }

    // N PIECES
    fn says(&self, tokens: &[Token]) -> Result<bool, Trouble> {
        let status = number_of(self.alloc, tokens.first())?;
        let wanted = self.pieces_in(tokens, 1)?;
        Ok(usize::from(self.status) == status && self.text == wanted)
    }

    // N PIECES
    fn holds(&self, tokens: &[Token]) -> Result<bool, Trouble> {
        let count = number_of(self.alloc, tokens.first())?;
        let piece = join_text(self.alloc, &self.texts, tokens.get(1..).unwrap_or(&[]))?;
        let text = text_of(self.alloc, &self.text)?;
        Ok(lines_with(text, piece.as_str()) == count)
    }

    // PIECES
    fn begins_or_ends(&self, verb: &str, tokens: &[Token]) -> Result<bool, Trouble> {
        let wanted = self.pieces_in(tokens, 0)?;
        Ok(if verb == "starts" {
            self.text.starts_with(&wanted)
        } else {
            self.text.ends_with(&wanted)
        })
    }

    fn judge_file(&mut self, verb: &str, tokens: &[Token]) -> Result<(), Trouble> {
        let name = self.name_in(tokens)?;
        let wanted = self.pieces_in(tokens, 1)?;
        let holds = match self.files.get(name) {
            Some(bytes) => verb == "wrote" && bytes == wanted.as_slice(),
            None => verb == "unwritten",
        };
        if holds {
            self.tell(name);
            return Ok(());
        }
        wrong(
            self.alloc,
            "the file has other bytes, or isn't there, or is",
        )
    }

    fn compare(&self, verb: &str, tokens: &[Token]) -> Result<(), Trouble> {
        let holds = match verb {
            "followed" => self.are_followed(tokens)?,
            "levels" => self.tells_levels(tokens)?,
            _ => self.compares(verb, tokens)?,
        };
        if holds {
            return Ok(());
        }
        wrong(self.alloc, "the texts don't compare so")
    }

    // NAME PIECES
    fn compares(&self, verb: &str, tokens: &[Token]) -> Result<bool, Trouble> {
        let own = self.text_named(self.name_in(tokens)?)?;
        let other = self.pieces_in(tokens, 1)?;
        Ok(match verb {
            "same" => own == other.as_slice(),
            "differ" => own != other.as_slice(),
            _ => is_front(own, &other),
        })
    }

    // N NAME O2 P2 LEAVES..
    fn are_followed(&self, tokens: &[Token]) -> Result<bool, Trouble> {
        let count = number_of(self.alloc, tokens.first())?;
        let name = self.name_in(tokens.get(1..).unwrap_or(&[]))?;
        let (Some(bank), Some(shown)) = (tokens.get(2), tokens.get(3)) else {
            return wrong(self.alloc, "followed N NAME O2 P2 LEAVES..");
        };
        let bounds = numbers_of(self.alloc, tokens.get(4..).unwrap_or(&[]))?;
        let text = text_of(self.alloc, self.text_named(name)?)?;
        Ok(followed(text, bank.word(), shown.word(), &bounds) == count)
    }

    // NAME BANK COUNT MOST
    fn tells_levels(&self, tokens: &[Token]) -> Result<bool, Trouble> {
        let name = self.name_in(tokens)?;
        let Some(bank) = tokens.get(1) else {
            return wrong(self.alloc, "levels NAME BANK COUNT MOST");
        };
        let count = number_of(self.alloc, tokens.get(2))?;
        let most = number_of(self.alloc, tokens.get(3))?;
        let text = text_of(self.alloc, self.text_named(name)?)?;
        Ok(are_levels(text, bank.word(), count, most))
    }
}
