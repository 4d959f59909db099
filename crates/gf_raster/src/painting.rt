//! The pixels of a window.

ghost use Rattle.std.specs.Prelude.{◌≡◌, ◌≤◌, ◌++◌, IfOk, OnOk};
ghost use Rattle.gf_figures.specs.DrawingColour.{drawing_colour};
ghost use Rattle.gf_scanline.specs.Layers.{layered};
ghost use Rattle.gf_scanline.specs.Picture.{raster};
ghost use Rattle.gf_raster.specs.Rows.{bytes_in};

use crate::Gate;
use crate::crew::Crew;
use crate::rounds::{round, rows_of_round};
use gf_base::OutOfMemory;
use gf_figures::Drawing;
use gf_scanline::{Band, Layers, Window};
use gf_shape::Shape;
use std::alloc::Global;
use std::marker::Model;
use std::thread::Threads;

/// The pixels of a window: rows from the top, points from the left, and bytes of red, green and
/// blue.
#[derive(Drop)]
pub struct Raster {
    bytes: Vec<u8>,
}

impl Model for Raster {
    ghost use Rattle.std.specs.Prelude.{ℕ, List};

    ghost Value = { List ℕ };

    ghost view = { λ r. r.bytes.items };
}

impl Raster {
    /// The bytes of the pixels.
    pub fn bytes(&self) -> &[u8]
        ensures { result.now ≡ self.now }
    {
        &self.bytes
    }
}

/// Paints a window of a drawing by 1 to 16 workers. The pixel (i, j) has the drawing's colour at
/// the point (x + i * step, y + j * step).
///
/// In a round each worker has a run of bands of 64 rows. The worker passes `gate` for the tiles of
/// a band, paints the band, and goes on to the next one. Where the gate may let workers wait for
/// each other, or a wide window has fewer bands than workers, a round is one band. Then each has a
/// run of its tiles, passes the gate for a tile, paints it, and goes on to the next one. Where a
/// thread can't be started, the caller's does its part.
pub fn paint<S: Shape + Sync, G: Gate + Sync, R: Threads + Sync>(
    rt: &R,
    alloc: Global,
    drawing: &Drawing<S>,
    window: Window,
    workers: u8,
    gate: &G,
) -> Result<Raster, OutOfMemory>
    requires { (1 ≤ workers) × (workers ≤ 16) }
    ensures { IfOk result (λ pixels. pixels
        ≡ raster (drawing_colour S.holds drawing.now.table drawing.now.figures) window) }
{
    let layers = Layers::new(alloc, drawing)?;
    let crew = Crew::new(rt, alloc, window, workers, gate);
    let bytes = paint_all(&crew, &layers, window)?;
    Ok(Raster { bytes })
}

/// Paints all rounds.
fn paint_all<S: Shape + Sync, G: Gate + Sync, R: Threads + Sync>(
    crew: &Crew<'_, R, G>,
    layers: &Layers<'_, S>,
    window: Window,
) -> Result<Vec<u8>, OutOfMemory>
    ensures { IfOk result (λ bytes. bytes.items ≡ raster (layered S.holds layers.now) window) }
{
    let height = window.height() as usize;
    let rows = rows_of_round(crew);
    let mut bytes = Vec::with_capacity(crew.alloc, 3 * window.width() as usize * height)?;
    let mut top = 0;
    while top < height {
        let count = rows.min(height - top);
        let pieces = round(crew, layers, Band::new(window, top, count))?;
        add_pieces(&pieces, &mut bytes)?;
        top += count;
    }
    Ok(bytes)
}

fn add_pieces(pieces: &[Vec<u8>], bytes: &mut Vec<u8>) -> Result<(), OutOfMemory>
    ensures { OnOk result (bytes.new.items ≡ bytes.old.items ++ bytes_in pieces.now) }
{
    for piece in pieces {
        bytes.extend_from_slice(piece)?;
    }
    Ok(())
}
