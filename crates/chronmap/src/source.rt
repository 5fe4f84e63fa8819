//! Where a script's bytes come from.

ghost use Rattle.std.specs.Prelude.{◌≡◌, ◌≤◌, IfOk, IfErr};
ghost use Rattle.std.specs.Io.{ReadsAtMost};
ghost use Rattle.std.specs.Io.KnownBytes.{ReadConsumes};
ghost use Rattle.chronmap.specs.ReadStops.{CausesReadStop};
ghost use Rattle.chronmap.specs.Streams.{StreamView, ReadsUpTo, ReportsFault};

use cm_plain::{Failed, NoMemory};
use cm_script::MAX_SCRIPT_BYTES;
use std::alloc::{AllocError, Global};

/// Where bytes come from.
pub trait Source {
    /// The bytes that are left, where they are known, and how many calls failed. That count stops at the
    /// last number of 64 bits.
    ghost seen: { Self → StreamView };

    /// Moves bytes to the front of `buf`, and answers how many. For a buffer with room, 0 means that the
    /// input has ended. `Failed` comes only where a fault was counted.
    fn take(&mut self, buf: &mut [u8]) -> Result<usize, Failed>
        ensures bound { ReadsAtMost result buf.new }
        ensures bytes { ReadConsumes (seen self.old).bytes (seen self.new).bytes result buf.new }
        ensures faults { ReportsFault (seen self.old) (seen self.new) result };
}

/// Why the input was not read.
#[derive(Clone, Copy, Debug)]
pub enum ReadStop {
    /// The source failed.
    Fault,
    /// No memory was left.
    NoMemory,
}

impl From<Failed> for ReadStop {
    ghost use Rattle.chronmap.specs.declared.source.ReadStop.TheVariants as stop;

    ghost from_gives = { λ _ e. e ≡ stop.Fault };

    fn from(_failed: Failed) -> ReadStop {
        ReadStop::Fault
    }
}

impl From<AllocError> for ReadStop {
    ghost use Rattle.chronmap.specs.declared.source.ReadStop.TheVariants as stop;

    ghost from_gives = { λ _ e. e ≡ stop.NoMemory };

    fn from(_error: AllocError) -> ReadStop {
        ReadStop::NoMemory
    }
}

/// The most bytes that are taken: one more than a script may have.
pub const MOST_TAKEN: usize = MAX_SCRIPT_BYTES + 1;

// The most bytes that are asked for at once.
const PIECE: usize = 4096;

/// Reads until the source ends, or until `MOST_TAKEN` bytes were taken. Takes memory. After a fault the
/// bytes that were taken are lost.
pub fn read_input<S: Source>(alloc: Global, source: &mut S) -> Result<Vec<u8>, ReadStop>
    ensures faults { (S.seen source.old).faults ≤ (S.seen source.new).faults }
    ensures all { IfOk result
        (λ input. ReadsUpTo MOST_TAKEN (S.seen source.old) (S.seen source.new) input.items) }
    ensures cause { IfErr result (CausesReadStop (S.seen source.old) (S.seen source.new)) }
{
    let mut bytes = Vec::new(alloc);
    let mut piece = [0u8; PIECE];
    while bytes.len() < MOST_TAKEN {
        let room = (MOST_TAKEN - bytes.len()).min(PIECE);
        let part = &mut piece[..room];
        let count = source.take(part)?;
        if count == 0 {
            return Ok(bytes);
        }
        bytes.extend_from_slice(&part[..count])?;
    }
    Ok(bytes)
}
