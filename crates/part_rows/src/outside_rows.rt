use gr_outside::{Shelf, ShelfError, Sink, SinkFailed};
use real_outside::{RealShelf, RealSink};
use std::io;
use std::io::Write;
use std::test::Fail;

#[test]
fn a_real_file_is_replaced_and_read(rt: HostRuntime) -> Result<(), Fail> {
    let long = vec![in rt.alloc(); 7; 65_539]?;
    let mut shelf = RealShelf::new(rt.alloc(), rt.clone()?);
    assert_eq!(rt; replaced(&mut shelf, &long)?, (true, 65_537));
    Ok(())
}

/// Whether a file that is replaced has these bytes, and how many of them a read with too little room gives.
fn replaced<F: Shelf>(shelf: &mut F, bytes: &[u8]) -> Result<(bool, usize), Fail> {
    shelf.write("replaced.bin", b"old")?;
    shelf.write("replaced.bin", bytes)?;
    let whole = shelf.read("replaced.bin", 131_072)?;
    let front = shelf.read("replaced.bin", 65_537)?;
    Ok((whole.as_slice() == bytes, front.len()))
}

#[test]
fn a_real_shelf_refuses_what_is_no_file(rt: HostRuntime) -> Result<(), Fail> {
    let mut shelf = RealShelf::new(rt.alloc(), rt.clone()?);
    assert_eq!(rt;
        refusals(&mut shelf),
        (
            Some(ShelfError::Missing),
            Some(ShelfError::Failed),
            Some(ShelfError::Failed)
        )
    );
    Ok(())
}

type Refusal = Option<ShelfError>;

/// How a missing file and a folder are read, and how a file is written into a missing folder.
fn refusals<F: Shelf>(shelf: &mut F) -> (Refusal, Refusal, Refusal) {
    let missing = shelf.read("missing.bin", 9).err();
    let folder = shelf.read(".", 9).err();
    let nowhere = shelf.write("missing/file.bin", b"x").err();
    (missing, folder, nowhere)
}

/// A writer that never takes a byte.
#[derive(Drop)]
struct Stuck;

impl Write for Stuck {
    fn write(&mut self, _bytes: &[u8]) -> io::Result<usize> {
        Ok(0)
    }

    fn flush(&mut self) -> io::Result<()> {
        Ok(())
    }
}

#[test]
fn a_stuck_output_is_told_at_a_later_put_or_at_the_end(rt: HostRuntime) -> Result<(), Fail> {
    let long = vec![in rt.alloc(); 7; 65_537]?;
    let mut sink = RealSink::new(rt.alloc(), Stuck);
    assert_eq!(rt;
        told(&mut sink, &long),
        (Ok(()), 7, Err(SinkFailed), Err(SinkFailed))
    );
    Ok(())
}

type Put = Result<(), SinkFailed>;

/// The result of a put, the mark after it, a flush, and a put of these bytes.
fn told(sink: &mut RealSink<Stuck>, long: &[u8]) -> (Put, usize, Put, Put) {
    let first = sink.put(b"a line\n");
    let mark = sink.mark();
    let flushed = sink.flush();
    (first, mark, flushed, sink.put(long))
}

/// A writer that takes all bytes and can't pass them on.
#[derive(Drop)]
struct Clogged;

impl Write for Clogged {
    fn write(&mut self, bytes: &[u8]) -> io::Result<usize> {
        Ok(bytes.len())
    }

    fn flush(&mut self) -> io::Result<()> {
        Err(io::Error::from(io::ErrorKind::Other))
    }
}

#[test]
fn an_output_that_cannot_be_flushed_is_a_failure(rt: HostRuntime) -> Result<(), Fail> {
    let mut sink = RealSink::new(rt.alloc(), Clogged);
    sink.put(b"a line\n")?;
    assert_eq!(rt; sink.flush(), Err(SinkFailed));
    Ok(())
}

#[test]
fn what_is_put_reaches_the_output(rt: HostRuntime) -> Result<(), Fail> {
    let mut sink = RealSink::new(rt.alloc(), io::writer(&rt));
    sink.put(b"a line\n")?;
    assert_eq!(rt; sink.flush(), Ok(()));
    Ok(())
}
