//! Whole runs: from operation lines to FIG text or a picture, and from FIG text to a picture.

ghost use Rattle.std.specs.Prelude.{◌≤◌, IfSome, IfOk, IfErr, OnOk};
ghost use Rattle.gf_studio.specs.FigRun.{Exports, HoldsBack, IsFigOf, Writes};
ghost use Rattle.gf_studio.specs.PaintRun.{IsDenoted, IsMeant, PaintsWindow, WritesPicture};
ghost use Rattle.gf_run.specs.RefusedRuns.{IsBetween, RefusesFig};
ghost use Rattle.gf_studio.specs.RefusedRuns.{RefusesLines};
ghost use Rattle.gf_run.specs.RunAnswers.{LeavesSink, ReadsInput};

use crate::drawings::draw;
use crate::painting::{Extent, Format, Picture, picture_run};
use gf_base::OutOfMemory;
use gf_fig_write::fig_bytes;
use gf_raster::{Gate, Window};
use gf_run::{Answer, StudioError, run};
use gf_streams::{Sink, Source};
use std::alloc::Global;
use std::thread::Threads;

/// Reads operation lines to their end, by 1 to 16 workers, and writes the FIG text of their
/// history's drawing. The answer is how many operations wait, and are not drawn. All is read before
/// the first write.
#[tactic(auto, using(crate::proofs::ExportLemmas::exported))]
pub fn fig_run<T: Threads + Sync, R: Source, W: Sink>(
    rt: &T,
    alloc: Global,
    source: &mut R,
    sink: &mut W,
    workers: u8,
) -> Result<usize, StudioError>
    requires { (1 ≤ workers) × (workers ≤ 16) }
    // By the FIG grammar, what is written reads as a drawing. At every grid point this has the
    // colour that the denoted history means there. To the byte, the text is the one of that
    // history's canonical drawing.
    ensures exports { OnOk result (IfSome (R.left source.old) (λ bytes.
        Exports bytes (W.taken sink.old) (W.taken sink.new))) }
    ensures text { OnOk result (IfSome (R.left source.old) (λ bytes.
        Writes bytes (W.taken sink.old) (W.taken sink.new))) }
    // The answer is how many operations wait behind that history.
    ensures waiting { IfOk result (λ waiting. IfSome (R.left source.old) (λ bytes.
        HoldsBack bytes waiting)) }

    // The input was read whole, or the source failed, or had more than an input. The error names
    // the first line at fault, or why the history has no drawing.
    ensures source { ReadsInput R.Source source.old source.new result }
    ensures refused { IfErr result (λ e. IfSome (R.left source.old) (λ bytes.
        RefusesLines bytes e)) }

    // At most a prefix of the text is written, and that only where the sink failed.
    ensures sink { LeavesSink W.Sink (R.left source.old) IsFigOf sink.old sink.new result }
{
    run(
        alloc,
        source,
        sink,
        |bytes|
            requires { (1 ≤ workers) × (workers ≤ 16) }
        { fig_of(rt, alloc, bytes, workers) },
    )
}

/// Reads operation lines to their end, and writes the picture of their history's colours in a
/// window. The lines are read and the picture is painted by 1 to 16 workers. The answer is how many
/// operations wait, and are not drawn. All is read before the first write.
pub fn paint_run<T: Threads + Sync, R: Source, W: Sink, G: Gate + Sync>(
    rt: &T,
    alloc: Global,
    source: &mut R,
    sink: &mut W,
    window: Window,
    workers: u8,
    gate: &G,
) -> Result<usize, StudioError>
    requires { (1 ≤ workers) × (workers ≤ 16) }
    // What is written is the picture of the colours that the denoted history means.
    ensures paints { OnOk result (IfSome (R.left source.old) (λ bytes.
        WritesPicture (IsMeant bytes) window (W.taken sink.old) (W.taken sink.new))) }
    ensures waiting { IfOk result (λ waiting. IfSome (R.left source.old) (λ bytes.
        HoldsBack bytes waiting)) }

    // The same as `fig_run` promises.
    ensures source { ReadsInput R.Source source.old source.new result }
    ensures refused { IfErr result (λ e. IfSome (R.left source.old) (λ bytes.
        RefusesLines bytes e)) }

    // A prefix of the picture is written where the sink failed. Want of memory leaves nothing, or
    // the header and whole bands. With any other error nothing is written.
    ensures sink { PaintsWindow W.Sink (R.left source.old) IsMeant window sink.old sink.new
        result }
{
    let picture = Picture {
        format: Format::Lines,
        extent: Extent::Window(window),
    };
    let painted = picture_run(rt, alloc, source, sink, picture, workers, gate)?;
    Ok(painted.waiting)
}

/// Reads a FIG text to its end, and writes the picture of its drawing in a window. The picture is
/// painted by 1 to 16 workers. All is read before the first write.
pub fn repaint_run<T: Threads + Sync, R: Source, W: Sink, G: Gate + Sync>(
    rt: &T,
    alloc: Global,
    source: &mut R,
    sink: &mut W,
    window: Window,
    workers: u8,
    gate: &G,
) -> Result<(), StudioError>
    requires { (1 ≤ workers) × (workers ≤ 16) }
    // What is written is the picture of the colours of the drawing that the text reads as.
    ensures paints { OnOk result (IfSome (R.left source.old) (λ text.
        WritesPicture (IsDenoted text) window (W.taken sink.old) (W.taken sink.new))) }

    // The text was read whole, or the source failed, or had more than an input. The error names the
    // fault of an object for which the text reads as no drawing.
    ensures source { ReadsInput R.Source source.old source.new result }
    ensures refused { IfErr result (λ e. IfSome (R.left source.old) (λ text. RefusesFig text e)) }

    ensures sink { PaintsWindow W.Sink (R.left source.old) IsDenoted window sink.old sink.new
        result }
{
    let picture = Picture {
        format: Format::Fig,
        extent: Extent::Window(window),
    };
    picture_run(rt, alloc, source, sink, picture, workers, gate)?;
    Ok(())
}

/// The FIG text of the history that these bytes denote, and how many operations wait behind it.
fn fig_of<T: Threads + Sync>(
    rt: &T,
    alloc: Global,
    bytes: Vec<u8>,
    workers: u8,
) -> Result<Answer<usize>, StudioError>
    requires { (1 ≤ workers) × (workers ≤ 16) }
    ensures ok { IfOk result (λ fig. IsFigOf bytes.items fig.text.items) }
    ensures waiting { IfOk result (λ fig. HoldsBack bytes.items fig.value) }
    ensures refused { IfErr result (RefusesLines bytes.items) }
    ensures between { IfErr result IsBetween }
{
    let drawn = draw(rt, alloc, bytes, workers)?;
    match fig_bytes(alloc, &drawn.drawing) {
        Ok(text) => Ok(Answer {
            text,
            value: drawn.waiting,
        }),
        Err(OutOfMemory) => Err(StudioError::OutOfMemory),
    }
}
