//! The lines of a file with procedures, for the statements of its program without calls.

use gr_base::Memory;
use procs_tree::{PStmt, Param, Proc, ProcFile};
use std::alloc::Global;
use std::collections::BTreeMap;

/// The most statements and ends of blocks that are gone through. A program without calls has at most 8,192 statements.
const MOST_STEPS: u32 = 4_294_967_295;

// The numbers of procedures, by their names.
type Numbers<'a> = BTreeMap<&'a [u8], usize>;

// Statements in order, with the number of the first in the text.
#[derive(Clone, Copy)]
struct Row<'a> {
    statements: &'a [PStmt],
    first: usize,
}

// The statements of a file: the line of each, the bodies of its procedures with their names, and how many statements of
// the program without calls are made of each call.
#[derive(Drop)]
struct Bodies<'a> {
    lines: &'a [u32],
    procs: &'a [Proc],
    numbers: Numbers<'a>,
    rows: Vec<Row<'a>>,
    sizes: Vec<u64>,
}

/// The line of each statement of a file's program without calls, in order, where `lines` has the lines of the file's own
/// statements. The assignments of a call to parameters and locals are at the line of the call, and the others at their
/// lines in the procedure. `None` if `lines` has another number of lines than the file has statements.
pub(crate) fn lines_without_calls(
    alloc: Global,
    file: &ProcFile,
    lines: &[u32],
) -> Result<Option<Vec<u32>>, Memory> {
    let bodies = bodies_of(alloc, file, lines)?;
    let body = bodies.row_of(file);
    let count = statements_in_all(body.statements);
    if lines.len() != body.first.saturating_add(count) {
        return Ok(None);
    }
    let mut waiting = Vec::new(alloc);
    waiting.push(body)?;
    let mut found = Vec::new(alloc);
    for _ in 0..MOST_STEPS {
        let Some(row) = waiting.pop() else {
            return Ok(Some(found));
        };
        bodies.step(row, &mut waiting, &mut found)?;
    }
    Ok(None)
}

// The bodies of a file's procedures.
fn bodies_of<'a>(
    alloc: Global,
    file: &'a ProcFile,
    lines: &'a [u32],
) -> Result<Bodies<'a>, Memory> {
    let mut bodies = Bodies {
        lines,
        procs: file.procs.as_slice(),
        numbers: BTreeMap::new(alloc),
        rows: Vec::new(alloc),
        sizes: Vec::new(alloc),
    };
    let mut first = 0usize;
    for (number, procedure) in file.procs.iter().enumerate() {
        let statements = procedure.body.as_slice();
        let inner = size_of_all(&bodies.numbers, &bodies.sizes, statements);
        let size = inner.saturating_add(own_size(procedure));
        bodies.sizes.push(size)?;
        bodies.rows.push(Row { statements, first })?;
        first = first.saturating_add(statements_in_all(statements));
        match bodies.numbers.insert(procedure.name.bytes(), number) {
            Ok(_) => {}
            Err(_) => return Err(Memory),
        }
    }
    Ok(bodies)
}

// How many assignments to parameters and locals a call of a procedure begins with.
fn own_size(procedure: &Proc) -> u64 {
    let mut count = procedure.locals.len() as u64;
    for param in &procedure.params {
        match param {
            Param::Scalar(_, _) => count = count.saturating_add(1),
            Param::Array(_) => {}
        }
    }
    count
}

// How many statements of the text a statement is, with those within it.
#[cycle(counting)]
fn statements_in(s: &PStmt) -> usize {
    match s {
        PStmt::Set(_, _) => 1,
        PStmt::Put(_, _, _) => 1,
        PStmt::Call(_, _) => 1,
        PStmt::If(_, first, second) => {
            let first = statements_in_all(first.as_slice());
            let second = statements_in_all(second.as_slice());
            first.saturating_add(second).saturating_add(1)
        }
        PStmt::While(_, body) => statements_in_all(body.as_slice()).saturating_add(1),
    }
}

// How many statements of the text some statements are, with those within them.
#[cycle(counting)]
fn statements_in_all(statements: &[PStmt]) -> usize {
    let mut count = 0usize;
    for s in statements {
        count = count.saturating_add(statements_in(s));
    }
    count
}

// How many statements of the program without calls a call of a procedure is, if it has a size.
fn size_of_call<'a>(numbers: &Numbers<'a>, sizes: &[u64], name: &'a [u8]) -> u64 {
    let Some(number) = numbers.get(&name).copied() else {
        return 0;
    };
    match sizes.get(number) {
        Some(size) => *size,
        None => 0,
    }
}

// How many statements of the program without calls a statement is.
#[cycle(sizes)]
fn size_of<'a>(numbers: &Numbers<'a>, sizes: &[u64], s: &'a PStmt) -> u64 {
    match s {
        PStmt::Set(_, _) => 1,
        PStmt::Put(_, _, _) => 1,
        PStmt::Call(name, _) => size_of_call(numbers, sizes, name.bytes()),
        PStmt::If(_, first, second) => {
            let first = size_of_all(numbers, sizes, first.as_slice());
            let second = size_of_all(numbers, sizes, second.as_slice());
            first.saturating_add(second).saturating_add(1)
        }
        PStmt::While(_, body) => size_of_all(numbers, sizes, body.as_slice()).saturating_add(1),
    }
}

// How many statements of the program without calls some statements are.
#[cycle(sizes)]
fn size_of_all<'a>(numbers: &Numbers<'a>, sizes: &[u64], statements: &'a [PStmt]) -> u64 {
    let mut size: u64 = 0;
    for s in statements {
        size = size.saturating_add(size_of(numbers, sizes, s));
    }
    size
}

impl<'a> Bodies<'a> {
    // The statements of the file after its procedures.
    fn row_of(&self, file: &'a ProcFile) -> Row<'a> {
        let mut first = 0usize;
        if let Some(last) = self.rows.as_slice().last() {
            let count = statements_in_all(last.statements);
            first = last.first.saturating_add(count);
        }
        Row {
            statements: file.body.as_slice(),
            first,
        }
    }

    // The line of the statement of a number.
    fn line_at(&self, number: usize) -> u32 {
        match self.lines.get(number) {
            Some(line) => *line,
            None => 0,
        }
    }

    // Adds the line of the first statement of a row. The statements within it and after it wait, the first on top.
    fn step(
        &self,
        row: Row<'a>,
        waiting: &mut Vec<Row<'a>>,
        found: &mut Vec<u32>,
    ) -> Result<(), Memory> {
        let Some((s, rest)) = row.statements.split_first() else {
            return Ok(());
        };
        let line = self.line_at(row.first);
        waiting.push(Row {
            statements: rest,
            first: row.first.saturating_add(statements_in(s)),
        })?;
        match s {
            PStmt::Call(name, _) => self.call(name.bytes(), line, waiting, found),
            _ => {
                found.push(line)?;
                wait_for_blocks(s, row.first.saturating_add(1), waiting)
            }
        }
    }

    // Adds the line of a call for each of its own assignments. The procedure's statements wait, if there are any.
    fn call(
        &self,
        name: &'a [u8],
        line: u32,
        waiting: &mut Vec<Row<'a>>,
        found: &mut Vec<u32>,
    ) -> Result<(), Memory> {
        let Some(number) = self.numbers.get(&name).copied() else {
            return Ok(());
        };
        let Some(procedure) = self.procs.get(number) else {
            return Ok(());
        };
        let own = own_size(procedure);
        for _ in 0..own {
            found.push(line)?;
        }
        if size_of_call(&self.numbers, &self.sizes, name) > own {
            if let Some(row) = self.rows.get(number) {
                waiting.push(*row)?;
            }
        }
        Ok(())
    }
}

// The blocks of a statement wait, the first on top; `first` is the number of its first statement.
fn wait_for_blocks<'a>(
    s: &'a PStmt,
    first: usize,
    waiting: &mut Vec<Row<'a>>,
) -> Result<(), Memory> {
    match s {
        PStmt::If(_, one, other) => {
            waiting.push(Row {
                statements: other.as_slice(),
                first: first.saturating_add(statements_in_all(one.as_slice())),
            })?;
            waiting.push(Row {
                statements: one.as_slice(),
                first,
            })?;
        }
        PStmt::While(_, body) => {
            waiting.push(Row {
                statements: body.as_slice(),
                first,
            })?;
        }
        _ => {}
    }
    Ok(())
}
