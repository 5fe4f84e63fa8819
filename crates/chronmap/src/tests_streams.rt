//! Streams: those in memory and those over std's readers and writers.

use crate::adapters::{StdSink, StdSource};
use crate::memory::{SliceSource, VecSink};
use crate::sink::write_text;
use crate::source::read_input;
use std::io;
use std::io::{ErrorKind, Read, Write};
use std::test::Fail;

#[test]
fn streams_in_memory(rt: HostRuntime) -> Result<(), Fail> {
    let alloc = rt.alloc();
    let mut source = SliceSource::new(b"abcdefgh", 3, Vec::new(alloc));
    let input = read_input(alloc, &mut source)?;
    assert!(rt; input.as_slice() == b"abcdefgh".as_slice());

    let mut sink = VecSink::new(alloc, 3, Vec::new(alloc));
    write_text(&mut sink, b"abcdefgh")?;
    assert!(rt; sink.bytes() == b"abcdefgh".as_slice());
    Ok(())
}

#[test]
fn streams_of_std(rt: HostRuntime) -> Result<(), Fail> {
    let alloc = rt.alloc();
    let mut source = StdSource::new(b"abcdefgh".as_slice());
    let input = read_input(alloc, &mut source)?;
    assert!(rt; input.as_slice() == b"abcdefgh".as_slice());

    // The room is for four bytes: then a write of nothing is a fault.
    let mut room = [0u8; 4];
    let mut sink = StdSink::new(room.as_mut_slice());
    assert!(rt; write_text(&mut sink, b"abcdefgh").is_err());
    assert!(rt; room.as_slice() == b"abcd".as_slice());
    Ok(())
}

// A stream whose first call is interrupted by a signal.
#[derive(Drop)]
struct Interrupted<T> {
    inner: T,
    is_over: bool,
}

impl<T> Interrupted<T> {
    fn new(inner: T) -> Interrupted<T> {
        Interrupted {
            inner,
            is_over: false,
        }
    }

    fn interrupt(&mut self) -> io::Result<()> {
        if self.is_over {
            return Ok(());
        }
        self.is_over = true;
        Err(io::Error::from(ErrorKind::Interrupted))
    }
}

impl<R: Read> Read for Interrupted<R> {
    fn read(&mut self, buf: &mut [u8]) -> io::Result<usize> {
        self.interrupt()?;
        self.inner.read(buf)
    }
}

impl<W: Write> Write for Interrupted<W> {
    fn write(&mut self, buf: &[u8]) -> io::Result<usize> {
        self.interrupt()?;
        self.inner.write(buf)
    }

    fn flush(&mut self) -> io::Result<()> {
        self.inner.flush()
    }
}

#[test]
fn interrupted_streams(rt: HostRuntime) -> Result<(), Fail> {
    let alloc = rt.alloc();
    let mut source = StdSource::new(Interrupted::new(b"abcdefgh".as_slice()));
    let input = read_input(alloc, &mut source)?;
    assert!(rt; input.as_slice() == b"abcdefgh".as_slice());

    let mut room = [0u8; 8];
    let mut sink = StdSink::new(Interrupted::new(room.as_mut_slice()));
    write_text(&mut sink, b"abcdefgh")?;
    assert!(rt; room.as_slice() == b"abcdefgh".as_slice());
    Ok(())
}
