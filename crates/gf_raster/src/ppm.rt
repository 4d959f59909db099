//! The whole picture, written.

ghost use Rattle.std.specs.Prelude.{◌≡◌, ◌+◌, ◌<◌, ◌≤◌, ◌⊎◌, [], IsTrue, IfOk, OnErr, OnOk};
ghost use Rattle.std.specs.Prelude.{Err};
ghost use Rattle.std.specs.Io.KnownBytes.{Appends};
ghost use Rattle.gf_streams.specs.Counts.{Rises};
ghost use Rattle.gf_streams.specs.Taken.{AppendsPrefix};
ghost use Rattle.gf_figures.specs.DrawingColour.{drawing_colour};
ghost use Rattle.gf_scanline.specs.Layers.{layered};
ghost use Rattle.gf_scanline.specs.Picture.{header, picture, raster};
ghost use Rattle.gf_raster.specs.Bands.{HasBands};
ghost use Rattle.gf_raster.specs.Rows.{bytes_in, bytes_of};

use crate::Gate;
use crate::crew::Crew;
use crate::rounds::{round, rows_of_round};
use gf_base::push_number;
use gf_figures::Drawing;
use gf_scanline::{Band, Layers, Window};
use gf_shape::Shape;
use gf_streams::{Sink, SinkFault, WriteError, write_all};
use std::alloc::{AllocError, Global};
use std::thread::Threads;

/// Writes the picture of a window of a drawing as raw PPM, and flushes. The header comes first, and
/// then one round after another, each painted as [`paint`](crate::paint) does. At most a round is
/// in memory: two bands of 64 rows for each worker. Of a band that all workers share, its bytes are
/// there twice, and what it shows.
pub fn ppm_to<S: Shape + Sync, G: Gate + Sync, R: Threads + Sync, W: Sink>(
    rt: &R,
    alloc: Global,
    drawing: &Drawing<S>,
    window: Window,
    workers: u8,
    gate: &G,
    sink: &mut W,
) -> Result<(), WriteError>
    requires { (1 ≤ workers) × (workers ≤ 16) }
    ensures whole { OnOk result (Appends (W.taken sink.old) (W.taken sink.new)
        (picture (drawing_colour S.holds drawing.now.table drawing.now.figures) window)) }
    ensures flushed { OnOk result (IsTrue (W.flushed sink.new)) }
    ensures unfailed { OnOk result (W.failures sink.new ≡ W.failures sink.old) }
    // Want of memory leaves nothing, or the header and whole bands.
    ensures memory { result ≡ Err WriteError.OutOfMemory
        → (sink.new ≡ sink.old)
        ⊎ HasBands (header window) (drawing_colour S.holds drawing.now.table drawing.now.figures)
        window (W.taken sink.old) (W.taken sink.new) }
    ensures prefix { result ≡ Err WriteError.WriteFailed
        → AppendsPrefix (W.taken sink.old) (W.taken sink.new)
        (picture (drawing_colour S.holds drawing.now.table drawing.now.figures) window) }
    ensures failed { result ≡ Err WriteError.WriteFailed
        → Rises (W.failures sink.old) (W.failures sink.new) }
{
    let Ok(layers) = Layers::new(alloc, drawing) else {
        return Err(WriteError::OutOfMemory);
    };
    let header = header(alloc, window)?;
    write_all(sink, &header)?;
    let crew = Crew::new(rt, alloc, window, workers, gate);
    write_rows(&crew, &layers, window, sink)?;
    sink.flush()?;
    Ok(())
}

/// The header: the raw form, width, height and the greatest value.
fn header(alloc: Global, window: Window) -> Result<Vec<u8>, AllocError>
    ensures { IfOk result (λ bytes. bytes.items ≡ header window) }
{
    let mut bytes = Vec::new(alloc);
    bytes.extend_from_slice(b"P6\n")?;
    push_number(&mut bytes, window.width())?;
    bytes.extend_from_slice(b" ")?;
    push_number(&mut bytes, window.height())?;
    bytes.extend_from_slice(b"\n255\n")?;
    Ok(bytes)
}

/// Writes all rows of a window, a round at a time.
fn write_rows<S: Shape + Sync, G: Gate + Sync, R: Threads + Sync, W: Sink>(
    crew: &Crew<'_, R, G>,
    layers: &Layers<'_, S>,
    window: Window,
    sink: &mut W,
) -> Result<(), WriteError>
    ensures whole { OnOk result (Appends (W.taken sink.old) (W.taken sink.new)
        (raster (layered S.holds layers.now) window)) }
    ensures unfailed { OnOk result (W.failures sink.new ≡ W.failures sink.old) }
    ensures memory { result ≡ Err WriteError.OutOfMemory
        → HasBands [] (layered S.holds layers.now) window (W.taken sink.old) (W.taken sink.new) }
    ensures prefix { result ≡ Err WriteError.WriteFailed
        → AppendsPrefix (W.taken sink.old) (W.taken sink.new)
        (raster (layered S.holds layers.now) window) }
    ensures failed { result ≡ Err WriteError.WriteFailed
        → Rises (W.failures sink.old) (W.failures sink.new) }
{
    let height = window.height() as usize;
    let rows = rows_of_round(crew);
    let mut top = 0;
    while top < height {
        let count = rows.min(height - top);
        write_round(crew, layers, Band::new(window, top, count), sink)?;
        top += count;
    }
    Ok(())
}

/// Writes the rows of a round.
fn write_round<S: Shape + Sync, G: Gate + Sync, R: Threads + Sync, W: Sink>(
    crew: &Crew<'_, R, G>,
    layers: &Layers<'_, S>,
    rows: Band,
    sink: &mut W,
) -> Result<(), WriteError>
    ensures whole { OnOk result (Appends (W.taken sink.old) (W.taken sink.new)
        (bytes_of (layered S.holds layers.now) rows)) }
    ensures unfailed { OnOk result (W.failures sink.new ≡ W.failures sink.old) }
    ensures memory { result ≡ Err WriteError.OutOfMemory → sink.new ≡ sink.old }
    ensures prefix { result ≡ Err WriteError.WriteFailed
        → AppendsPrefix (W.taken sink.old) (W.taken sink.new)
        (bytes_of (layered S.holds layers.now) rows) }
    ensures failed { result ≡ Err WriteError.WriteFailed
        → Rises (W.failures sink.old) (W.failures sink.new) }
{
    let Ok(pieces) = round(crew, layers, rows) else {
        return Err(WriteError::OutOfMemory);
    };
    write_pieces(&pieces, sink)?;
    Ok(())
}

/// Writes pieces, one behind the other.
fn write_pieces<W: Sink>(pieces: &[Vec<u8>], sink: &mut W) -> Result<(), SinkFault>
    ensures whole { OnOk result (Appends (W.taken sink.old) (W.taken sink.new)
        (bytes_in pieces.now)) }
    ensures unfailed { OnOk result (W.failures sink.new ≡ W.failures sink.old) }
    ensures prefix { OnErr result (AppendsPrefix (W.taken sink.old) (W.taken sink.new)
        (bytes_in pieces.now)) }
    ensures failed { OnErr result (Rises (W.failures sink.old) (W.failures sink.new)) }
{
    for piece in pieces {
        write_all(sink, piece)?;
    }
    Ok(())
}
