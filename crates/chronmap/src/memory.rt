//! A source and a sink in memory, with calls that are to fail.

ghost use Rattle.std.specs.Prelude.{◌≡◌, ◌≤◌, ◌<◌, ◌↔◌, [], length, min, IfOk, IsErr, IsTrue};
ghost use Rattle.std.specs.Io.{ReadsAtMost};
ghost use Rattle.std.specs.Io.KnownBytes.{ReadConsumes, WriteAppends};

use crate::sink::Sink;
use crate::source::Source;
use cm_plain::Failed;
use std::alloc::Global;

/// Which calls of a stream in memory are to fail, and how many there were and failed. Both counts stop at
/// the last number of 64 bits.
#[derive(Drop)]
struct Calls {
    failing: Vec<u32>,
    number: u64,
    faults: u64,
}

impl Calls {
    ghost use Rattle.chronmap.specs.MemoryStreams.{CountsCall, IsToFail, calls_view};
    ghost use Rattle.chronmap.specs.Streams.{next_count};

    /// No call so far; those with these numbers are to fail, counted from 0.
    fn new(failing: Vec<u32>) -> Calls
        ensures { calls_view result ≡ record { failing = failing.items; number = 0; faults = 0 } }
    {
        Calls {
            failing,
            number: 0,
            faults: 0,
        }
    }

    /// Whether the next call is to fail.
    fn is_to_fail(&self) -> bool
        ensures { IsTrue result ↔ IsToFail (calls_view self.now) }
    {
        self.failing
            .iter()
            .any(|call| u64::from(*call) == self.number)
    }

    /// Counts a call, which fails exactly where it is to.
    fn begin(&mut self) -> Result<(), Failed>
        ensures fails { IsErr result ↔ IsToFail (calls_view self.old) }
        ensures counts { CountsCall (calls_view self.old) (calls_view self.new) result }
    {
        let is_to_fail = self.is_to_fail();
        self.number = self.number.saturating_add(1);
        if is_to_fail {
            return Err(self.fault());
        }
        Ok(())
    }

    /// Counts a fault.
    fn fault(&mut self) -> Failed
        ensures no_fewer { (calls_view self.old).faults ≤ (calls_view self.new).faults }
        ensures counts { let old = calls_view self.old in
            calls_view self.new ≡ record old { faults = next_count old.faults } }
    {
        self.faults = self.faults.saturating_add(1);
        Failed
    }
}

/// Bytes in memory.
#[derive(Drop)]
pub struct SliceSource<'a> {
    bytes: &'a [u8],
    piece: usize,
    calls: Calls,
    ghost nonzero: { 1 ≤ piece },
}

impl<'a> SliceSource<'a> {
    ghost use Rattle.chronmap.specs.MemoryStreams.{new_stream, slice_stream};

    /// A source of these bytes, given in pieces of at most `piece`, whose calls with these numbers fail.
    /// Calls are counted from 0. Takes no memory.
    pub fn new(bytes: &'a [u8], piece: usize, failing: Vec<u32>) -> SliceSource<'a>
        requires { 1 ≤ piece }
        ensures { slice_stream result ≡ new_stream bytes.entry.now piece failing.items }
    {
        SliceSource {
            bytes,
            piece,
            calls: Calls::new(failing),
        }
    }
}

impl<'a> Source for SliceSource<'a> {
    ghost use Rattle.chronmap.specs.MemoryStreams.{IsToFail, MovesPiece, seen_of, slice_stream};
    ghost use Rattle.chronmap.specs.Streams.{ReportsFault};

    ghost seen = { λ s. seen_of (slice_stream s) };

    /// Fails exactly where the call is to fail, and else moves a whole piece, or as many bytes as are left
    /// or have room.
    fn take(&mut self, buf: &mut [u8]) -> Result<usize, Failed>
        ensures bound { ReadsAtMost result buf.new }
        ensures bytes { ReadConsumes (seen_of (slice_stream self.old)).bytes
            (seen_of (slice_stream self.new)).bytes result buf.new }
        ensures faults { ReportsFault (seen_of (slice_stream self.old))
            (seen_of (slice_stream self.new)) result }
        ensures fails { IsErr result ↔ IsToFail (slice_stream self.old).calls }
        ensures moves { let old = slice_stream self.old in
            MovesPiece old (slice_stream self.new) (min (length buf.old) (length old.bytes)) result }
    {
        self.calls.begin()?;
        let count = self.piece.min(buf.len()).min(self.bytes.len());
        let (front, rest) = self.bytes.split_at(count);
        buf[..count].copy_from_slice(front);
        self.bytes = rest;
        Ok(count)
    }
}

/// Bytes that were given, in memory. Want of memory is a fault, and is counted.
#[derive(Drop)]
pub struct VecSink {
    held: Vec<u8>,
    piece: usize,
    calls: Calls,
    ghost nonzero: { 1 ≤ piece },
}

impl VecSink {
    ghost use Rattle.chronmap.specs.MemoryStreams.{new_stream, vec_stream};

    /// An empty sink that takes pieces of at most `piece`, whose calls with these numbers fail. Calls are
    /// counted from 0. Takes no memory.
    pub fn new(alloc: Global, piece: usize, failing: Vec<u32>) -> VecSink
        requires { 1 ≤ piece }
        ensures { vec_stream result ≡ new_stream [] piece failing.items }
    {
        VecSink {
            held: Vec::new(alloc),
            piece,
            calls: Calls::new(failing),
        }
    }

    /// What it holds.
    pub fn bytes(&self) -> &[u8]
        ensures { result.now ≡ (vec_stream self.now).bytes }
    {
        self.held.as_slice()
    }
}

impl Sink for VecSink {
    ghost use Rattle.chronmap.specs.MemoryStreams.{IsToFail, MovesPiece, seen_of, vec_stream};
    ghost use Rattle.chronmap.specs.Streams.{ReportsFault};

    ghost seen = { λ s. seen_of (vec_stream s) };

    /// Fails where the call is to fail, and else takes a whole piece, or all of the bytes. Another failure
    /// is want of memory.
    fn give(&mut self, bytes: &[u8]) -> Result<usize, Failed>
        ensures bound { IfOk result (λ n. n ≤ length bytes.now) }
        ensures progress { IfOk result (λ n. 0 < length bytes.now → 0 < n) }
        ensures bytes { WriteAppends (seen_of (vec_stream self.old)).bytes
            (seen_of (vec_stream self.new)).bytes result bytes.now }
        ensures faults { ReportsFault (seen_of (vec_stream self.old)) (seen_of (vec_stream self.new)) result }
        ensures fails { IsToFail (vec_stream self.old).calls → IsErr result }
        ensures moves { MovesPiece (vec_stream self.old) (vec_stream self.new) (length bytes.now) result }
    {
        self.calls.begin()?;
        let count = self.piece.min(bytes.len());
        if self.held.extend_from_slice(&bytes[..count]).is_err() {
            return Err(self.calls.fault());
        }
        Ok(count)
    }
}
