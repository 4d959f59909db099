//! The run that paints, in the window that the words choose or in one that fits.

ghost use Rattle.std.specs.Prelude.{◌≡◌, ◌⊎◌, IfErr, IfSome, IsTrue, OnOk};
ghost use Rattle.gf_command.specs.Outputs.{WritesExtent, WritesExtentPrefix};

use crate::Canvas;
use crate::chosen::{Chosen, chosen_numbers};
use gf_gate::OpenGate;
use gf_run::StudioError;
use gf_streams::{Sink, Source};
use gf_studio::{Format, Picture, picture_run};
use std::alloc::Global;
use std::thread::Threads;

/// What is told of a picture.
#[derive(Clone, Copy)]
pub(crate) struct Told {
    /// The window, where it was chosen.
    pub chosen: Option<Chosen>,
    /// How many operations wait, and are not drawn.
    pub waiting: usize,
}

/// Writes the picture of an input of this format.
pub(crate) fn paint<T: Threads + Sync, R: Source, W: Sink>(
    rt: &T,
    alloc: Global,
    source: &mut R,
    output: &mut W,
    format: Format,
    canvas: Canvas,
) -> Result<Told, StudioError>
    ensures done { OnOk result (IfSome (R.left source.old) (λ bytes.
        WritesExtent format canvas.extent bytes (W.taken output.old) (W.taken output.new))) }
    ensures flushed { OnOk result (IsTrue (W.flushed output.new)) }
    ensures refused { IfErr result (λ _. (output.new ≡ output.old) ⊎
        IfSome (R.left source.old) (λ bytes. WritesExtentPrefix format canvas.extent bytes
        (W.taken output.old) (W.taken output.new))) }
{
    let extent = canvas.extent;
    let workers = canvas.workers.count;
    let picture = Picture { format, extent };
    let painted = picture_run(rt, alloc, source, output, picture, workers, &OpenGate)?;
    let chosen = chosen_numbers(canvas.extent, painted.window);
    let waiting = painted.waiting;
    Ok(Told { chosen, waiting })
}
