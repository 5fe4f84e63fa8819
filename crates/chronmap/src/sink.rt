//! Where a report's bytes go.

ghost use Rattle.std.specs.Prelude.{◌≤◌, ◌<◌, length, IfOk, OnOk, OnErr};
ghost use Rattle.std.specs.Io.KnownBytes.{WriteAppends, Appends};
ghost use Rattle.chronmap.specs.Streams.{StreamView, AppendsPrefix, ReportsFault};

use cm_plain::Failed;

/// Where bytes go.
pub trait Sink {
    /// The bytes that it holds, where they are known, and how many calls failed. That count stops at the
    /// last number of 64 bits.
    ghost seen: { Self → StreamView };

    /// Takes a prefix of `bytes`, at least one where there is one, and answers how many. `Failed` comes
    /// only where a fault was counted, and then no byte was taken.
    fn give(&mut self, bytes: &[u8]) -> Result<usize, Failed>
        ensures bound { IfOk result (λ n. n ≤ length bytes.now) }
        ensures progress { IfOk result (λ n. 0 < length bytes.now → 0 < n) }
        ensures bytes { WriteAppends (seen self.old).bytes (seen self.new).bytes result bytes.now }
        ensures faults { ReportsFault (seen self.old) (seen self.new) result };
}

/// Gives all of `text`, in as many pieces as the sink wants. After a fault the sink holds a prefix of it.
pub fn write_text<K: Sink>(sink: &mut K, text: &[u8]) -> Result<(), Failed>
    ensures faults { ReportsFault (K.seen sink.old) (K.seen sink.new) result }
    ensures whole { OnOk result (Appends (K.seen sink.old).bytes (K.seen sink.new).bytes text.now) }
    ensures prefix { OnErr result (AppendsPrefix (K.seen sink.old) (K.seen sink.new) text.now) }
{
    let mut at = 0;
    while at < text.len() {
        at += sink.give(&text[at..])?;
    }
    Ok(())
}
