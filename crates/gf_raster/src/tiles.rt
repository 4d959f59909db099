//! The tiles of a band, filled behind their gates.

ghost use Rattle.std.specs.Prelude.{◌≡◌, ℕ, ◌+◌, ◌≤◌, [], All, IfOk, OnOk, length, vec_len};
ghost use Rattle.gf_plane.specs.declared.colour.Rgb.{Rgb};
ghost use Rattle.gf_plane.specs.declared.point.Point.{Point};
ghost use Rattle.gf_scanline.specs.Windows.{View};
ghost use Rattle.gf_raster.specs.Rows.{AreRows};
ghost use Rattle.gf_raster.specs.Columns.{ArePiecesWith, HasPieces, HaveAllPieces};

use crate::Gate;
use crate::crew::Crew;
use crate::gathering::all_of;
use crate::pass::Pass;
use crate::shown_rows::ShownRows;
use gf_base::OutOfMemory;
use gf_scanline::{Stroke, fill};
use std::alloc::Global;
use std::thread::Threads;

/// How wide and how high a tile is, in pixels; a band has as many rows.
pub(crate) const TILE: usize = 64;

/// The bytes of all workers' columns, for each row of a band.
pub(crate) fn columns<R: Threads + Sync, G: Gate + Sync>(
    crew: &Crew<'_, R, G>,
    shown: &ShownRows<'_>,
) -> Result<Vec<Vec<Vec<u8>>>, OutOfMemory>
    ensures len { IfOk result (λ columns. vec_len columns ≡ crew.now.workers) }
    ensures each { IfOk result (λ columns.
        HaveAllPieces shown.now crew.now.workers columns.items) }
{
    let columns = all_of(
        crew.rt,
        crew.alloc,
        crew.workers,
        &|k| { pieces(crew, shown, k) },
    )?;
    Ok(columns)
}

/// The bytes of worker `k`'s columns, for each row of a band. The worker fills a run of tiles, each
/// behind its gate.
fn pieces<R: Threads, G: Gate>(
    crew: &Crew<'_, R, G>,
    shown: &ShownRows<'_>,
    k: usize,
) -> Result<Vec<Vec<u8>>, OutOfMemory>
    ensures { IfOk result (λ ps. HasPieces shown.now crew.now.workers k ps) }
{
    let width = shown.band.window().width() as usize;
    let size = TILE * width.div_ceil(TILE).div_ceil(crew.workers);
    let start = k.saturating_mul(size).min(width);
    let len = size.min(width - start);
    let mut pieces = blank(crew.alloc, shown.strokes.len(), 3 * len)?;
    let who = (k % 255 + 1) as u8;
    for i in 0..len.div_ceil(TILE) {
        let from = start + TILE * i;
        let pass = Pass::through(crew, shown.band, who, from, TILE.min(len - TILE * i));
        fill_tile(&shown.strokes, pass, &mut pieces)?;
    }
    Ok(pieces)
}

/// Pieces of no bytes, `count` of them, each with room for `room` bytes.
fn blank(alloc: Global, count: usize, room: usize) -> Result<Vec<Vec<u8>>, OutOfMemory>
    ensures len { IfOk result (λ ps. vec_len ps ≡ count) }
    ensures blank { IfOk result (λ ps. All (λ p. p.items ≡ []) ps.items) }
{
    let mut pieces = Vec::with_capacity(alloc, count)?;
    for i in 0..count {
        let piece = Vec::with_capacity(alloc, room)?;
        pieces.push(piece)?;
    }
    Ok(pieces)
}

/// Adds to each row's piece the bytes of the columns for which the gate was passed.
fn fill_tile(
    strokes: &[Vec<Stroke<'_>>],
    pass: Pass,
    pieces: &mut Vec<Vec<u8>>,
) -> Result<(), OutOfMemory>
    requires len { vec_len pieces.old ≡ length strokes.now }
    requires columns { pass.from + pass.len ≤ 4096 }
    ensures len { OnOk result (vec_len pieces.new ≡ vec_len pieces.old) }
    ensures pieces { OnOk result ((colour : Point → Rgb) (w : View) (top : ℕ)
        → pass.from + pass.len ≤ w.width → AreRows colour w top strokes.now
        → ArePiecesWith colour w top pass.from pass.len pieces.old.items pieces.new.items) }
{
    for i in 0..strokes.len() {
        fill(&strokes[i], pass.from(), pass.len(), &mut pieces[i])?;
    }
    Ok(())
}
