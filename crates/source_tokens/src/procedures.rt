//! The procedures of a file among its tokens, and where each statement of the program without calls comes from.
//!
//! Calls are replaced in the order of their tokens. So the number of a statement, or of a new variable, leads to its
//! tokens by counting, without making the program.

use crate::tokens::Tokens;
use gr_base::Memory;
use std::alloc::Global;
use std::collections::BTreeMap;

/// What a call is replaced by: how many statements, and how many new variables.
#[derive(Clone, Copy)]
pub struct Size {
    pub statements: u64,
    pub variables: u64,
}

impl Size {
    /// No statement and no variable.
    pub const NONE: Size = Size {
        statements: 0,
        variables: 0,
    };

    const ONE: Size = Size {
        statements: 1,
        variables: 0,
    };

    fn plus(self, other: Size) -> Size {
        Size {
            statements: self.statements.saturating_add(other.statements),
            variables: self.variables.saturating_add(other.variables),
        }
    }

    // The number of what is counted.
    fn of(self, counted: Counted) -> u64 {
        match counted {
            Counted::Statements => self.statements,
            Counted::Variables => self.variables,
        }
    }
}

/// What numbers are given to: the statements of the program without calls, or its new variables.
#[derive(Clone, Copy)]
pub enum Counted {
    Statements,
    Variables,
}

/// A procedure among the tokens of a file.
#[derive(Clone, Copy)]
pub struct Procedure {
    /// Its name.
    pub name: usize,
    /// The first token of its parameters.
    pub params: usize,
    /// The parenthesis after its parameters.
    pub close: usize,
    /// The first token of its locals.
    pub locals: usize,
    /// The first token of its statements.
    pub body: usize,
    /// Its closing brace.
    pub end: usize,
    /// How many scalar parameters and locals it has. A call assigns to each.
    pub own: u64,
    /// What a call of it is replaced by.
    pub size: Size,
}

/// A call that led to some statements: the token of its name, and the procedure that it calls.
#[derive(Clone, Copy)]
pub struct Frame {
    pub call: usize,
    pub callee: Procedure,
}

/// Where the calls that led to a statement end: at a statement of the innermost procedure, or at one of the
/// assignments with which a call there begins.
#[derive(Clone, Copy)]
pub enum Place {
    Statement(usize),
    Own(Frame, u64),
}

/// Where a statement or a new variable of the program without calls comes from: the calls that led there, the outermost
/// first, and what they led to.
#[derive(Drop)]
pub struct Origin {
    pub frames: Vec<Frame>,
    pub place: Place,
}

/// The procedures of a file, in order.
#[derive(Drop)]
pub struct Procedures<'a> {
    pub tokens: Tokens<'a>,
    pub all: Vec<Procedure>,
    numbers: BTreeMap<&'a [u8], usize>,
    /// The first token of the file's own statements.
    pub main: usize,
}

// What is found of a number among statements.
#[derive(Clone, Copy)]
enum Found {
    Statement(usize),
    InCall(Frame, u64),
    Nothing,
}

impl<'a> Procedures<'a> {
    /// The procedures of a file that parses.
    pub fn of(alloc: Global, tokens: Tokens<'a>) -> Result<Procedures<'a>, Memory> {
        let mut procedures = Procedures {
            tokens,
            all: Vec::new(alloc),
            numbers: BTreeMap::new(alloc),
            main: tokens.end_of_declarations(),
        };
        for _ in 0..tokens.all.len() {
            if !tokens.begins_procedure(procedures.main) {
                break;
            }
            let read = tokens.procedure_at(procedures.main);
            procedures.main = read.end.saturating_add(1);
            procedures.add(read)?;
        }
        Ok(procedures)
    }

    // Adds a procedure, with what a call of it is replaced by.
    fn add(&mut self, read: Procedure) -> Result<(), Memory> {
        let own = Size {
            statements: read.own,
            variables: read.own,
        };
        let size = own.plus(self.size_between(read.body, read.end));
        if self
            .numbers
            .insert(self.tokens.word(read.name), self.all.len())
            .is_err()
        {
            return Err(Memory);
        }
        self.all.push(Procedure { size, ..read })?;
        Ok(())
    }

    // What the statements from a token to an end are replaced by.
    fn size_between(&self, from: usize, end: usize) -> Size {
        let mut at = from;
        let mut size = Size::NONE;
        for _ in from..end.max(from) {
            let Some(statement) = self.tokens.statement_from(at, end) else {
                break;
            };
            size = size.plus(self.size_at(statement));
            at = self.tokens.after(statement);
        }
        size
    }

    // What the statement at a token is replaced by, without its blocks.
    fn size_at(&self, statement: usize) -> Size {
        if !self.tokens.is_call(statement) {
            return Size::ONE;
        }
        match self.called(statement) {
            Some(callee) => callee.size,
            None => Size::NONE,
        }
    }

    /// The procedure of the name at a token.
    pub fn called(&self, name: usize) -> Option<Procedure> {
        let number = self.numbers.get(&self.tokens.word(name)).copied()?;
        self.all.get(number).copied()
    }

    /// Where a statement or a new variable of the program without calls comes from. Both are counted from 0.
    pub fn origin(
        &self,
        alloc: Global,
        counted: Counted,
        number: u64,
    ) -> Result<Option<Origin>, Memory> {
        let mut frames = Vec::new(alloc);
        let mut left = number;
        let mut from = self.main;
        let mut end = self.tokens.all.len();
        for _ in 0..=self.all.len() {
            match self.find(counted, left, from, end) {
                Found::Nothing => return Ok(None),
                Found::Statement(at) => {
                    let place = Place::Statement(at);
                    return Ok(Some(Origin { frames, place }));
                }
                Found::InCall(frame, within) => {
                    let Frame { callee, .. } = frame;
                    if within < callee.own {
                        let place = Place::Own(frame, within);
                        return Ok(Some(Origin { frames, place }));
                    }
                    frames.push(frame)?;
                    left = within - callee.own;
                    from = callee.body;
                    end = callee.end;
                }
            }
        }
        Ok(None)
    }

    // What has a number among what the statements from a token to an end are replaced by.
    fn find(&self, counted: Counted, number: u64, from: usize, end: usize) -> Found {
        let mut at = from;
        let mut left = number;
        for _ in from..end.max(from) {
            let Some(statement) = self.tokens.statement_from(at, end) else {
                break;
            };
            let size = self.size_at(statement).of(counted);
            if left < size {
                return self.found_at(statement, left);
            }
            left -= size;
            at = self.tokens.after(statement);
        }
        Found::Nothing
    }

    fn found_at(&self, statement: usize, within: u64) -> Found {
        if !self.tokens.is_call(statement) {
            return Found::Statement(statement);
        }
        match self.called(statement) {
            Some(callee) => Found::InCall(
                Frame {
                    call: statement,
                    callee,
                },
                within,
            ),
            None => Found::Nothing,
        }
    }
}
