ghost use Rattle.std.specs.Prelude.{◌≡◌, ◌+◌, ◌<◌, IfOk, length};
ghost use Rattle.src_parser.specs.Refusals.{token_kinds};
ghost use Rattle.src_lexer.specs.declared.tokens.Kind.TheVariants as kind;
ghost use Rattle.source_map.specs.Scans.{begun, ended, inside, scan_of, scanned, scans, semicolon, start};

use crate::maps::SourceMap;
use gr_base::Memory;
use src_lexer::{Kind, Token};
use std::alloc::Global;

/// What the next token may be: the first token of a statement, the token after a name that is the first token of a
/// statement or is `proc` (with the number of that name), or any other token.
#[derive(Clone, Copy)]
pub enum Phase {
    Head,
    Named(u32),
    Within,
}

/// Finds the places of statements among tokens, which are passed one after another. `open` has the statement of each
/// open brace, the innermost last, and `None` for the brace of a procedure; `current` is the statement that the next
/// semicolon ends; `round` counts open parentheses, since a semicolon between arguments doesn't end a statement.
#[derive(Drop)]
pub struct Mapper {
    pub starts: Vec<u32>,
    pub ends: Vec<u32>,
    pub open: Vec<Option<usize>>,
    pub current: Option<usize>,
    pub phase: Phase,
    pub round: u32,
    pub count: u32,
}

impl Mapper {
    /// Before the first token.
    pub fn new(alloc: Global) -> Mapper
        ensures scan { scan_of result ≡ start }
        ensures count { result.count ≡ 0 }
    {
        Mapper {
            starts: Vec::new(alloc),
            ends: Vec::new(alloc),
            open: Vec::new(alloc),
            current: None,
            phase: Phase::Head,
            round: 0,
            count: 0,
        }
    }

    /// The places of the statements.
    pub fn map(self) -> SourceMap
        ensures starts { result.starts ≡ self.starts }
        ensures ends { result.ends ≡ self.ends }
    {
        SourceMap {
            starts: self.starts,
            ends: self.ends,
        }
    }

    /// Reads the next tokens.
    pub fn read(&mut self, tokens: &[Token]) -> Result<(), Memory>
        ensures scan { IfOk result (λ _. scan_of self.new
            ≡ scans self.old.count (scan_of self.old) (token_kinds tokens.now)) }
        ensures count { IfOk result (λ _. self.new.count ≡ self.old.count + length tokens.now) }
    {
        for token in tokens {
            self.add(&token.kind)?;
        }
        Ok(())
    }

    // Reads a token. More than 2^32 - 1 tokens would need more memory than there is.
    fn add(&mut self, kind: &Kind) -> Result<(), Memory>
        ensures scan { IfOk result (λ _. scan_of self.new ≡ scanned self.old.count (scan_of self.old) kind.now) }
        ensures count { IfOk result (λ _. self.new.count ≡ self.old.count + 1) }
    {
        if self.count == u32::MAX || self.round == u32::MAX {
            return Err(Memory);
        }
        self.take(kind)?;
        self.count += 1;
        Ok(())
    }

    // Reads a token whose number and depth fit.
    fn take(&mut self, kind: &Kind) -> Result<(), Memory>
        requires count { self.old.count < u32.MAX }
        requires round { self.old.round < u32.MAX }
        ensures scan { IfOk result (λ _. scan_of self.new ≡ scanned self.old.count (scan_of self.old) kind.now) }
        ensures count { IfOk result (λ _. self.new.count ≡ self.old.count) }
    {
        match (self.phase, kind) {
            (Phase::Head, Kind::Word(_)) => {
                self.phase = Phase::Named(self.count);
                Ok(())
            }
            (Phase::Named(_), Kind::Word(_)) => {
                self.current = None;
                self.phase = Phase::Within;
                Ok(())
            }
            (Phase::Named(first), _) => {
                self.begin(first)?;
                self.go_on(kind)
            }
            _ => self.go_on(kind),
        }
    }

    // A statement begins at a token.
    fn begin(&mut self, first: u32) -> Result<(), Memory>
        ensures scan { IfOk result (λ _. scan_of self.new ≡ begun first (scan_of self.old)) }
        ensures count { IfOk result (λ _. self.new.count ≡ self.old.count) }
        ensures round { IfOk result (λ _. self.new.round ≡ self.old.round) }
    {
        self.current = Some(self.starts.len());
        self.starts.push(first)?;
        self.ends.push(first)?;
        self.phase = Phase::Within;
        Ok(())
    }

    // Reads a token that isn't the name that begins a statement, nor a name after it.
    fn go_on(&mut self, kind: &Kind) -> Result<(), Memory>
        requires count { self.old.count < u32.MAX }
        requires round { self.old.round < u32.MAX }
        ensures scan { IfOk result (λ _. scan_of self.new ≡ inside self.old.count (scan_of self.old) kind.now) }
        ensures count { IfOk result (λ _. self.new.count ≡ self.old.count) }
    {
        match kind {
            Kind::If | Kind::While => return self.begin(self.count),
            Kind::Semi => return Ok(self.end_at_semicolon()),
            Kind::RBrace => return Ok(self.leave()),
            Kind::LBrace => {
                self.open.push(self.current)?;
                self.phase = Phase::Head;
                return Ok(());
            }
            Kind::LParen => self.round += 1,
            Kind::RParen => self.round = self.round.saturating_sub(1),
            _ => {}
        }
        self.phase = Phase::Within;
        Ok(())
    }

    // Reads a semicolon.
    fn end_at_semicolon(&mut self)
        requires { self.old.count < u32.MAX }
        ensures scan { scan_of self.new ≡ semicolon self.old.count (scan_of self.old) }
        ensures count { self.new.count ≡ self.old.count }
    {
        if self.round == 0 {
            end(&mut self.ends, self.current, self.count + 1);
            self.phase = Phase::Head;
        } else {
            self.phase = Phase::Within;
        }
    }

    // Reads a closing brace.
    fn leave(&mut self)
        requires { self.old.count < u32.MAX }
        ensures scan { scan_of self.new ≡ inside self.old.count (scan_of self.old) kind.RBrace }
        ensures count { self.new.count ≡ self.old.count }
    {
        self.current = match self.open.pop() {
            Some(owner) => owner,
            None => None,
        };
        end(&mut self.ends, self.current, self.count + 1);
        self.phase = Phase::Head;
    }
}

// Sets the end of a statement, if there is one.
fn end(ends: &mut Vec<u32>, statement: Option<usize>, at: u32)
    ensures { ends.new.items ≡ ended ends.old.items statement at }
{
    if let Some(number) = statement {
        if number < ends.len() {
            ends[number] = at;
        }
    }
}
