//! Where bytes are written, and the write of all of them.

ghost use Rattle.std.specs.Prelude.{ℕ, ◌<◌, ◌≤◌, List, Option, Bool, IsTrue, length, IfOk, OnOk};
ghost use Rattle.std.specs.Prelude.{OnErr};
ghost use Rattle.std.specs.Io.KnownBytes.{Appends, Keeps, WriteAppends};
ghost use Rattle.gf_streams.specs.Counts.{CountsFailure, Rises};
ghost use Rattle.gf_streams.specs.Taken.{AppendsPrefix, Flushes, TakesPart, UnflushedBy, Unflushes};

use thiserror::Error;

/// A sink failed.
#[derive(Clone, Copy, Debug, PartialEq, Eq, Error)]
#[error("the sink failed")]
pub struct SinkFault;

/// Where bytes go. A call that fails takes no bytes.
pub trait Sink {
    /// The bytes that the sink took, where they are known.
    ghost taken: { Self → Option (List ℕ) };

    /// How often the sink failed, up to the greatest `u64`.
    ghost failures: { Self → ℕ };

    /// Whether a flush succeeded since the sink last took bytes.
    ghost flushed: { Self → Bool };

    /// Takes the first of these bytes, and says how many.
    fn write(&mut self, bytes: &[u8]) -> Result<usize, SinkFault>
        ensures within { IfOk result (λ n. n ≤ length bytes.now) }
        ensures some { IfOk result (λ n. 0 < length bytes.now → 0 < n) }
        ensures takes { WriteAppends (taken self.old) (taken self.new) result bytes.now }
        ensures counts { CountsFailure (failures self.old) (failures self.new) result }
        ensures unflushes { Unflushes (flushed self.old) (flushed self.new) result };

    /// Passes on what the sink took.
    fn flush(&mut self) -> Result<(), SinkFault>
        ensures keeps { Keeps (taken self.old) (taken self.new) }
        ensures counts { CountsFailure (failures self.old) (failures self.new) result }
        ensures flushes { Flushes (flushed self.old) (flushed self.new) result };
}

/// Writes all these bytes without a flush, so a text may go out in several pieces.
#[tactic(auto, using(crate::proofs::TakenLemmas::appends_more, crate::proofs::TakenLemmas::within_more, crate::proofs::TakenLemmas::appends_whole, crate::proofs::TakenLemmas::unflushed_more))]
pub fn write_all<W: Sink>(sink: &mut W, bytes: &[u8]) -> Result<(), SinkFault>
    ensures ok { OnOk result (Appends (W.taken sink.old) (W.taken sink.new) bytes.now) }
    ensures unflushes { OnOk result (UnflushedBy (length bytes.now) (W.flushed sink.old)
        (W.flushed sink.new)) }
    ensures err { OnErr result (TakesPart bytes.now (W.taken sink.old) (W.taken sink.new)
        (W.flushed sink.old) (W.flushed sink.new)) }
    ensures failed { OnErr result (Rises (W.failures sink.old) (W.failures sink.new)) }
    ensures counts { CountsFailure (W.failures sink.old) (W.failures sink.new) result }
{
    let mut done = 0;
    while done < bytes.len() {
        done += sink.write(&bytes[done..])?;
    }
    Ok(())
}

/// Writes all these bytes, and flushes.
#[tactic(auto, using(crate::proofs::TakenLemmas::appends_prefix))]
pub fn write_whole<W: Sink>(sink: &mut W, bytes: &[u8]) -> Result<(), SinkFault>
    ensures ok { OnOk result (Appends (W.taken sink.old) (W.taken sink.new) bytes.now) }
    ensures flushed { OnOk result (IsTrue (W.flushed sink.new)) }
    ensures err { OnErr result (AppendsPrefix (W.taken sink.old) (W.taken sink.new) bytes.now) }
    ensures failed { OnErr result (Rises (W.failures sink.old) (W.failures sink.new)) }
    ensures counts { CountsFailure (W.failures sink.old) (W.failures sink.new) result }
{
    write_all(sink, bytes)?;
    sink.flush()
}
