use run_data::{TraceError, read_trace, trace_text};
use std::alloc::Global;
use std::test::Fail;

/// The number of the line that breaks a trace, where a block has eight words; 0 if it is complete.
fn broken_line(alloc: Global, text: &[u8]) -> Result<u32, Fail> {
    if text.len() >= 1000 {
        return Err(Fail::from("too long"));
    }
    match read_trace(alloc, text, 3) {
        Ok(_) => Ok(0),
        Err(TraceError::BadLine(line)) => Ok(line),
        Err(TraceError::Memory) => Err(Fail::from("no memory")),
    }
}

#[test]
fn broken_lines_are_named(rt: HostRuntime) -> Result<(), Fail> {
    let table = [
        (b"1 E r 0\nend halted\n".as_slice(), 2),
        (b"1 E r 0\nend spent\n", 0),
        (b"1 E r 0", 1),
        (b"2 O9\n2 H\nend halted\n", 2),
        (b"1 D w 7 1 2 3 4 5 6 7\nend spent\n", 1),
        (b"end spent\n\n", 2),
    ];
    for (text, want) in table {
        assert_eq!(rt; broken_line(rt.alloc(), text)?, want);
    }
    Ok(())
}

/// Traces that have every kind of line.
const HALTED: &[u8] =
    b"1 D r 0 0 0 0 0 0 0 0 -9223372036854775808\n2 D w 7 1 -2 3 4 5 6 7 8\n3 E r 4294967295\n\
    70 O2\n71 O9\n90 E w 12\n4294967295 H\nend halted\n";

const SPENT: &[u8] = b"0 O3\nend spent\n";

const STORED: &[u8] = b"1 D r 0 0 0 0 0 0 0 0 0\n638 D w 0 7 0 0 0 0 0 0 0\n1272 H\nend halted\n";

/// The text of the trace that a text encodes, if a block has eight words.
fn rewritten(alloc: Global, text: &[u8]) -> Result<Vec<u8>, Fail> {
    if text.len() >= 1000 {
        return Err(Fail::from("too long"));
    }
    match trace_text(alloc, &read_trace(alloc, text, 3)?) {
        Ok(written) => Ok(written),
        Err(_) => Err(Fail::from("no memory")),
    }
}

#[test]
fn traces_are_written_again(rt: HostRuntime) -> Result<(), Fail> {
    for text in [HALTED, SPENT, STORED] {
        assert_eq!(rt; rewritten(rt.alloc(), text)?.as_slice(), text);
    }
    Ok(())
}
