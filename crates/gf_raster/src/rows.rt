//! What rows show, found as strokes.

ghost use Rattle.std.specs.Prelude.{◌≡◌, ◌+◌, ◌≤◌, IfOk, vec_len};
ghost use Rattle.gf_scanline.specs.Layers.{layered};
ghost use Rattle.gf_raster.specs.Rows.{AreRows, AreSharesOf, IsShareOf};

use crate::Gate;
use crate::crew::Crew;
use crate::gathering::{all_of, joined};
use gf_base::OutOfMemory;
use gf_scanline::{Part, Strip, Stroke, Workspace};
use gf_shape::Shape;
use std::alloc::Global;
use std::thread::Threads;

/// What the rows of a part show, of which each worker finds a share.
pub(crate) fn found<'l, S: Shape + Sync, R: Threads + Sync, G: Gate + Sync>(
    crew: &Crew<'_, R, G>,
    part: &Part<'l, '_, S>,
) -> Result<Vec<Vec<Stroke<'l>>>, OutOfMemory>
    ensures len { IfOk result (λ rows. vec_len rows ≡ part.now.band.count) }
    ensures rows { IfOk result (λ rows. AreRows (layered S.holds part.now.layers)
        part.now.band.window part.now.band.top rows.items) }
{
    let size = part.count().div_ceil(crew.workers);
    let shares = shares(crew, part, size)?;
    let rows = joined(crew.alloc, shares)?;
    Ok(rows)
}

/// What all workers find, where each has `size` rows of a part.
fn shares<'l, S: Shape + Sync, R: Threads + Sync, G: Gate + Sync>(
    crew: &Crew<'_, R, G>,
    part: &Part<'l, '_, S>,
    size: usize,
) -> Result<Vec<Vec<Vec<Stroke<'l>>>>, OutOfMemory>
    ensures len { IfOk result (λ shares. vec_len shares ≡ crew.now.workers) }
    ensures each { IfOk result (λ shares. AreSharesOf S.holds part.now size shares.items) }
{
    let shares = all_of(
        crew.rt,
        crew.alloc,
        crew.workers,
        &|k| { share(crew.alloc, part, size, k) },
    )?;
    Ok(shares)
}

/// What the rows of worker `k` show, where each worker has `size` rows of a part.
fn share<'l, S: Shape>(
    alloc: Global,
    part: &Part<'l, '_, S>,
    size: usize,
    k: usize,
) -> Result<Vec<Vec<Stroke<'l>>>, OutOfMemory>
    ensures { IfOk result (λ rows. IsShareOf S.holds part.now size k rows) }
{
    let count = part.count();
    let from = k.saturating_mul(size).min(count);
    rows_from(alloc, part, part.top() + from, size.min(count - from))
}

/// What the rows from `top` on show, `count` of them.
fn rows_from<'l, S: Shape>(
    alloc: Global,
    part: &Part<'l, '_, S>,
    top: usize,
    count: usize,
) -> Result<Vec<Vec<Stroke<'l>>>, OutOfMemory>
    requires { (part.now.band.top ≤ top)
        × (top + count ≤ part.now.band.top + part.now.band.count) }
    ensures len { IfOk result (λ rows. vec_len rows ≡ count) }
    ensures rows { IfOk result (λ rows.
        AreRows (layered S.holds part.now.layers) part.now.band.window top rows.items) }
{
    part.recall_rows();
    let mut rows = Vec::with_capacity(alloc, count)?;
    let mut strip = Strip::new(alloc);
    let mut space = Workspace::new(alloc);
    for i in 0..count {
        let strokes = part.row(top + i, &mut strip, &mut space)?;
        rows.push(strokes)?;
    }
    Ok(rows)
}
