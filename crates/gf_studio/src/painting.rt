//! The run from operation lines, or a FIG text, to a picture.

ghost use Rattle.std.specs.Prelude.{◌≤◌, IfSome, IfOk, IfErr};
ghost use Rattle.gf_fit.specs.FittedWindow.{held};
ghost use Rattle.gf_studio.specs.PaintRun.{WritesPicture};
ghost use Rattle.gf_studio.specs.PictureParts.{IsWindowOver};
ghost use Rattle.gf_studio.specs.PictureRun.{IsShownBy, IsWindowOf, LeavesOut, PaintsInput};
ghost use Rattle.gf_studio.specs.PictureRun.{PaintsBands, RefusesFormat};
ghost use Rattle.gf_run.specs.RunAnswers.{LeavesPicture, ReadsInput};

use crate::drawings::{drawing_of_fig, drawing_of_lines};
use gf_figures::Drawing;
use gf_fit::{Frame, fitted_window};
use gf_raster::{Gate, Window, ppm_to};
use gf_run::StudioError;
use gf_shape::Shape;
use gf_streams::{Sink, Source};
use std::alloc::Global;
use std::thread::Threads;

/// In which format a drawing is read.
#[derive(Clone, Copy, Debug, PartialEq, Eq)]
pub enum Format {
    /// Operation lines, whose history has the drawing.
    Lines,
    /// A FIG text, which reads as the drawing.
    Fig,
}

/// Which part of the plane a picture shows.
#[derive(Clone, Copy, Debug, PartialEq, Eq)]
pub enum Extent {
    /// This window.
    Window(Window),
    /// The window with this frame that fits what is drawn.
    Fitted(Frame),
}

/// What a picture is made of, and what it shows.
#[derive(Clone, Copy, Debug, PartialEq, Eq)]
pub struct Picture {
    pub format: Format,
    pub extent: Extent,
}

/// The window in which a picture was painted, and what is not drawn there.
#[derive(Clone, Copy, Debug, PartialEq, Eq)]
pub struct Painted {
    pub window: Window,
    /// How many operations wait, and are not drawn: 0 behind a FIG text.
    pub waiting: usize,
}

/// Reads operation lines or a FIG text to its end, and writes the picture of its drawing in a
/// window, or in the window that fits. Lines are read and the picture is painted by 1 to 16 workers.
/// The answer is this window, with how many operations wait. All is read before the first write.
#[tactic(auto, using(crate::proofs::LeavingLemmas::window_of_lines, crate::proofs::LeavingLemmas::window_of_fig))]
pub fn picture_run<T: Threads + Sync, R: Source, W: Sink, G: Gate + Sync>(
    rt: &T,
    alloc: Global,
    source: &mut R,
    sink: &mut W,
    picture: Picture,
    workers: u8,
    gate: &G,
) -> Result<Painted, StudioError>
    requires { (1 ≤ workers) × (workers ≤ 16) }
    // The window is the one that is asked for. What is written is the picture, in this window, of
    // the colours that the input shows. So many operations wait behind what is drawn.
    ensures window { IfOk result (λ painted. IfSome (R.left source.old) (λ bytes.
        IsWindowOf picture.format picture.extent bytes painted.window)) }
    ensures paints { IfOk result (λ painted. IfSome (R.left source.old) (λ bytes.
        WritesPicture (IsShownBy picture.format bytes) painted.window (W.taken sink.old)
        (W.taken sink.new))) }
    ensures waiting { IfOk result (λ painted. IfSome (R.left source.old) (λ bytes.
        LeavesOut picture.format bytes painted.waiting)) }

    // The input was read whole, or the source failed, or had more than an input. The error names
    // what is at fault in the input, or why its history has no drawing.
    ensures source { ReadsInput R.Source source.old source.new result }
    ensures refused { IfErr result (λ e. IfSome (R.left source.old) (λ bytes.
        RefusesFormat picture.format bytes e)) }

    // A prefix of the picture is written where the sink failed. Want of memory leaves nothing, or
    // the header and whole bands. With any other error nothing is written.
    ensures sink { LeavesPicture W.Sink (R.left source.old)
        (PaintsInput picture.format picture.extent) sink.old sink.new
        (PaintsBands picture.format picture.extent) result }
{
    match picture.format {
        Format::Lines => {
            let meant = drawing_of_lines(rt, alloc, source, workers)?;
            let window = window_of(picture.extent, &meant.drawing);
            ppm_to(rt, alloc, &meant.drawing, window, workers, gate, sink)?;
            let waiting = meant.waiting;
            Ok(Painted { window, waiting })
        }
        Format::Fig => {
            let denoted = drawing_of_fig(alloc, source)?;
            let window = window_of(picture.extent, &denoted);
            ppm_to(rt, alloc, &denoted, window, workers, gate, sink)?;
            Ok(Painted { window, waiting: 0 })
        }
    }
}

/// The window of a drawing that the extent asks for.
fn window_of<S: Shape>(extent: Extent, drawing: &Drawing<S>) -> Window
    ensures { IsWindowOver (held S.holds drawing.now.figures) extent result }
{
    match extent {
        Extent::Window(window) => window,
        Extent::Fitted(frame) => fitted_window(drawing, frame),
    }
}
