//! Any reader and any writer of std as a source and a sink.

ghost use Rattle.std.specs.Prelude.{◌≡◌, ◌≤◌, ◌<◌, length, IfOk};
ghost use Rattle.std.specs.Io.{ReadsAtMost};
ghost use Rattle.std.specs.Io.KnownBytes.{ReadConsumes, WriteAppends};

use crate::sink::Sink;
use crate::source::Source;
use cm_plain::Failed;
use std::io::{ErrorKind, Read, Write};

// How often a call is tried that a signal interrupts: as good as always, as in the loops of std.
const MOST_TRIES: u64 = u64::MAX;

// One read, tried again where a signal interrupts it. Any other failure is the reader's.
fn read_retrying<R: Read>(reader: &mut R, buf: &mut [u8]) -> Result<usize, Failed>
    ensures bound { ReadsAtMost result buf.new }
    ensures bytes { ReadConsumes (R.remaining reader.old) (R.remaining reader.new) result buf.new }
{
    for _ in 0..MOST_TRIES {
        match reader.read(buf) {
            Ok(count) => return Ok(count),
            Err(error) if error.kind() == ErrorKind::Interrupted => {}
            Err(_) => return Err(Failed),
        }
    }
    Err(Failed)
}

// One write, tried again where a signal interrupts it. A write of nothing of some bytes is a failure.
fn write_retrying<W: Write>(writer: &mut W, bytes: &[u8]) -> Result<usize, Failed>
    ensures bound { IfOk result (λ n. n ≤ length bytes.now) }
    ensures progress { IfOk result (λ n. 0 < length bytes.now → 0 < n) }
    ensures bytes { WriteAppends (W.contents writer.old) (W.contents writer.new) result bytes.now }
{
    for _ in 0..MOST_TRIES {
        match writer.write(bytes) {
            Ok(0) if !bytes.is_empty() => return Err(Failed),
            Ok(count) => return Ok(count),
            Err(error) if error.kind() == ErrorKind::Interrupted => {}
            Err(_) => return Err(Failed),
        }
    }
    Err(Failed)
}

/// Any reader of std, with its count of faults, which stops at the last number of 64 bits.
#[derive(Drop)]
pub struct StdSource<R: Read + Drop> {
    inner: R,
    faults: u64,
}

impl<R: Read + Drop> StdSource<R> {
    /// A source over this reader. Takes no memory.
    pub fn new(inner: R) -> StdSource<R>
        ensures { ⟦<StdSource<R> as Source>⟧.seen result
            ≡ record { bytes = R.remaining inner; faults = 0 } }
    {
        StdSource { inner, faults: 0 }
    }
}

impl<R: Read + Drop> Source for StdSource<R> {
    ghost use Rattle.chronmap.specs.Streams.{CountsFailure, ReportsFault};

    ghost seen = { λ s. record { bytes = R.remaining s.inner; faults = s.faults } };

    /// One read, tried again where a signal interrupts it. A fault is counted exactly where it failed.
    fn take(&mut self, buf: &mut [u8]) -> Result<usize, Failed>
        ensures bound { ReadsAtMost result buf.new }
        ensures bytes { ReadConsumes (⟦<StdSource<R> as Source>⟧.seen self.old).bytes
            (⟦<StdSource<R> as Source>⟧.seen self.new).bytes result buf.new }
        ensures faults { ReportsFault (⟦<StdSource<R> as Source>⟧.seen self.old)
            (⟦<StdSource<R> as Source>⟧.seen self.new) result }
        ensures counts { CountsFailure (⟦<StdSource<R> as Source>⟧.seen self.old)
            (⟦<StdSource<R> as Source>⟧.seen self.new) result }
    {
        let result = read_retrying(&mut self.inner, buf);
        if result.is_err() {
            self.faults = self.faults.saturating_add(1);
        }
        result
    }
}

/// Any writer of std, with its count of faults, which stops at the last number of 64 bits. A write of
/// nothing is a fault.
#[derive(Drop)]
pub struct StdSink<W: Write + Drop> {
    inner: W,
    faults: u64,
}

impl<W: Write + Drop> StdSink<W> {
    /// A sink over this writer. Takes no memory.
    pub fn new(inner: W) -> StdSink<W>
        ensures { ⟦<StdSink<W> as Sink>⟧.seen result
            ≡ record { bytes = W.contents inner; faults = 0 } }
    {
        StdSink { inner, faults: 0 }
    }
}

impl<W: Write + Drop> Sink for StdSink<W> {
    ghost use Rattle.chronmap.specs.Streams.{CountsFailure, ReportsFault};

    ghost seen = { λ s. record { bytes = W.contents s.inner; faults = s.faults } };

    /// One write, tried again where a signal interrupts it. A fault is counted exactly where it failed, or
    /// took nothing of some bytes.
    fn give(&mut self, bytes: &[u8]) -> Result<usize, Failed>
        ensures bound { IfOk result (λ n. n ≤ length bytes.now) }
        ensures progress { IfOk result (λ n. 0 < length bytes.now → 0 < n) }
        ensures bytes { WriteAppends (⟦<StdSink<W> as Sink>⟧.seen self.old).bytes
            (⟦<StdSink<W> as Sink>⟧.seen self.new).bytes result bytes.now }
        ensures faults { ReportsFault (⟦<StdSink<W> as Sink>⟧.seen self.old)
            (⟦<StdSink<W> as Sink>⟧.seen self.new) result }
        ensures counts { CountsFailure (⟦<StdSink<W> as Sink>⟧.seen self.old)
            (⟦<StdSink<W> as Sink>⟧.seen self.new) result }
    {
        let result = write_retrying(&mut self.inner, bytes);
        if result.is_err() {
            self.faults = self.faults.saturating_add(1);
        }
        result
    }
}
