//! The run of a service: it takes turns until the requests end.

ghost use Rattle.std.specs.Prelude.{◌≡◌, ◌≤◌, IfErr, IfSome, IsErrOf, IsTrue, OnOk};
ghost use Rattle.gf_streams.specs.Counts.{CountsFailureAt, Rises};
ghost use Rattle.gf_serve.specs.declared.serve_error.ServeError.TheVariants.{ReadFailed, WriteFailed};
ghost use Rattle.gf_serve.specs.Serves.{AnswersAll, AnswersFirst};

use crate::{Dialogue, ServeError, Turn};
use gf_streams::{Sink, Source};
use std::alloc::Global;
use std::thread::Threads;

/// Reads requests until the source ends, and writes an answer to each, in their order, by the turns
/// of a [`Dialogue`]: a request is read when the answer before it was written and flushed.
pub fn serve_run<T: Threads + Sync, R: Source, W: Sink>(
    rt: &T,
    alloc: Global,
    source: &mut R,
    sink: &mut W,
    workers: u8,
) -> Result<(), ServeError>
    requires { (1 ≤ workers) × (workers ≤ 16) }
    // All requests were answered, each as the command of its name answers all operation lines that
    // were taken before.
    ensures all { OnOk result (IfSome (R.left source.old) (λ bytes.
        AnswersAll bytes (W.taken sink.old) (W.taken sink.new))) }
    ensures flushed { OnOk result (IsTrue (W.flushed sink.new)) }
    // The first requests were answered so, and why the run ended behind them, with what was written
    // then.
    ensures first { IfErr result (λ e. IfSome (R.left source.old) (λ bytes.
        AnswersFirst bytes (W.taken sink.old) (W.taken sink.new) e)) }
    // A read failed exactly if the source did, and a write only if the sink did.
    ensures read_failed { CountsFailureAt ReadFailed (R.failures source.old)
        (R.failures source.new) result }
    ensures write_failed { IsErrOf result WriteFailed
        → Rises (W.failures sink.old) (W.failures sink.new) }
{
    let mut dialogue = Dialogue::new(alloc);
    let mut served = 0;
    while served < u64::MAX {
        match dialogue.turn(rt, source, sink, workers)? {
            Turn::Answered => served += 1,
            Turn::Ended => return Ok(()),
        }
    }
    Err(ServeError::TooMany)
}
