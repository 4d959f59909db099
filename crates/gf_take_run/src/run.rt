//! The whole run over operation lines and a FIG text.

ghost use Rattle.std.specs.Prelude.{◌≤◌, IfSome, IfOk, IfErr};
ghost use Rattle.gf_ops.specs.OperationOrder.{IsSite};
ghost use Rattle.gf_run.specs.RunAnswers.{LeavesSinkBy, ReadsInputBy};
ghost use Rattle.gf_take_run.specs.TakeRun.{IsTakeOf, RefusesTaking, WritesTake};
ghost use Rattle.gf_take_run.specs.TakeRun.{of_take};

use crate::taking::take_text;
use crate::{TakeRequest, TakeRunError, Taken};
use gf_run::run;
use gf_streams::{Sink, Source};
use std::alloc::Global;
use std::thread::Threads;

/// Reads operation lines of any sites, and behind them a FIG text that was written with names and
/// changed since. This site makes operations behind what the text knew, so that it shows the text's
/// drawing, and their lines are written; behind them, where it is asked for, the named text of all
/// operations. The lines are read by 1 to 16 workers. All is read, made and checked before the
/// first write.
pub fn take_run<T: Threads + Sync, R: Source, W: Sink>(
    rt: &T,
    alloc: Global,
    source: &mut R,
    sink: &mut W,
    request: TakeRequest,
    workers: u8,
) -> Result<Taken, TakeRunError>
    requires site { IsSite request.site }
    requires workers { (1 ≤ workers) × (workers ≤ 16) }

    // The lines of the new operations are written, and the answer tells of them. What the drawing
    // knew and these are a history that has at every point of the grid the drawing's colour.
    ensures takes { IfOk result (λ taken. IfSome (R.left source.old) (λ bytes.
        WritesTake request bytes taken (W.taken sink.old) (W.taken sink.new))) }

    // The same as `edit_run` promises. In place of a command, the error says what is wrong with the
    // drawing.
    ensures source { ReadsInputBy R.Source source.old source.new of_take result }
    ensures refused { IfErr result (λ e. IfSome (R.left source.old) (λ bytes.
        RefusesTaking request bytes e)) }

    // At most a prefix of the text is written, and that only where the sink failed.
    ensures sink { LeavesSinkBy W.Sink (R.left source.old) (IsTakeOf request) sink.old sink.new
        of_take result }
{
    run(
        alloc,
        source,
        sink,
        |bytes|
            requires { IsSite request.site × (1 ≤ workers) × (workers ≤ 16) }
        { take_text(rt, alloc, bytes, request, workers) },
    )
}
