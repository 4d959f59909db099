//! Runs of bands, each painted by a worker of its own.

ghost use Rattle.std.specs.Prelude.{◌≡◌, ◌+◌, ◌≤◌, ◌<◌, ◌++◌, IfOk, OnOk, vec_len};
ghost use Rattle.gf_scanline.specs.Layers.{layered};
ghost use Rattle.gf_scanline.specs.Picture.{rows};
ghost use Rattle.gf_raster.specs.Rows.{AreRunsOf, bytes_in, bytes_of};
ghost use Rattle.gf_raster.specs.Shares.{cut, parts, run};

use crate::Gate;
use crate::crew::Crew;
use crate::gathering::all_of;
use crate::pass::Pass;
use crate::tiles::TILE;
use gf_base::OutOfMemory;
use gf_scanline::{Band, Layers, Strip, Workspace, fill};
use gf_shape::Shape;
use std::thread::Threads;

/// The bytes of a round, of which each worker paints a run of whole bands.
pub(crate) fn all_runs<S: Shape + Sync, R: Threads + Sync, G: Gate + Sync>(
    crew: &Crew<'_, R, G>,
    layers: &Layers<'_, S>,
    round: Band,
) -> Result<Vec<Vec<u8>>, OutOfMemory>
    ensures { IfOk result (λ pieces.
        bytes_in pieces.items ≡ bytes_of (layered S.holds layers.now) round) }
{
    let size = TILE * round.count().div_ceil(TILE).div_ceil(crew.workers);
    let pieces = runs_of(crew, layers, round, size)?;
    Ok(pieces)
}

/// The bytes of runs of `size` rows each.
fn runs_of<S: Shape + Sync, R: Threads + Sync, G: Gate + Sync>(
    crew: &Crew<'_, R, G>,
    layers: &Layers<'_, S>,
    round: Band,
    size: usize,
) -> Result<Vec<Vec<u8>>, OutOfMemory>
    requires { 1 ≤ size }
    ensures len { IfOk result (λ pieces. vec_len pieces ≡ parts round.count size) }
    ensures each { IfOk result (λ pieces.
        AreRunsOf (layered S.holds layers.now) round size pieces.items) }
{
    let pieces = all_of(
        crew.rt,
        crew.alloc,
        round.count().div_ceil(size),
        &|k| { run(crew, layers, round, size, k) },
    )?;
    Ok(pieces)
}

/// The bytes of run `k` of `size` rows, painted band by band.
fn run<S: Shape, R: Threads, G: Gate>(
    crew: &Crew<'_, R, G>,
    layers: &Layers<'_, S>,
    round: Band,
    size: usize,
    k: usize,
) -> Result<Vec<u8>, OutOfMemory>
    ensures { IfOk result (λ bytes. bytes.items ≡ rows (layered S.holds layers.now) round.window
        (round.top + cut round.count size k) (run round.count size k)) }
{
    let window = round.window();
    let start = k.saturating_mul(size).min(round.count());
    let len = size.min(round.count() - start);
    let who = (k % 255 + 1) as u8;
    let mut bytes = Vec::with_capacity(crew.alloc, 3 * window.width() as usize * len)?;
    let mut done = 0;
    while done < len {
        let band = Band::new(window, round.top() + start + done, TILE.min(len - done));
        add_band(crew, layers, band, who, &mut bytes)?;
        done += band.count();
    }
    Ok(bytes)
}

/// Passes the gate, as worker `who`, for each tile of a band, and adds the bytes of its rows.
fn add_band<S: Shape, R: Threads, G: Gate>(
    crew: &Crew<'_, R, G>,
    layers: &Layers<'_, S>,
    band: Band,
    who: u8,
    bytes: &mut Vec<u8>,
) -> Result<(), OutOfMemory>
    ensures { OnOk result (bytes.new.items
        ≡ bytes.old.items ++ bytes_of (layered S.holds layers.now) band) }
{
    let part = layers.part(crew.alloc, band)?;
    let pass = Pass::through(crew, band, who, 0, band.window().width() as usize);
    let mut strip = Strip::new(crew.alloc);
    let mut space = Workspace::new(crew.alloc);
    for i in 0..band.count() {
        let strokes = part.row(band.top() + i, &mut strip, &mut space)?;
        fill(&strokes, pass.from(), pass.len(), bytes)?;
    }
    Ok(())
}
