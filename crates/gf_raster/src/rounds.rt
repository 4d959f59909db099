//! Rounds: in each all workers paint.

ghost use Rattle.std.specs.Prelude.{◌≡◌, ◌≤◌, IfOk};
ghost use Rattle.gf_scanline.specs.Layers.{layered};
ghost use Rattle.gf_raster.specs.Shares.{AreWholeBands};
ghost use Rattle.gf_raster.specs.Rows.{bytes_in, bytes_of};

use crate::Gate;
use crate::crew::Crew;
use crate::runs::all_runs;
use crate::sharing::shared_band;
use crate::tiles::TILE;
use gf_base::OutOfMemory;
use gf_scanline::{Band, Layers};
use gf_shape::Shape;
use std::thread::Threads;

/// How many bands a worker paints in a round.
const BANDS: usize = 2;

/// How many rows a round has: those of whole bands, of one where the workers share each band.
pub(crate) fn rows_of_round<R: Threads, G: Gate>(crew: &Crew<'_, R, G>) -> usize
    ensures some { 1 ≤ result }
    ensures whole { AreWholeBands result }
{
    if crew.shares_bands {
        TILE
    } else {
        TILE * (BANDS * crew.workers)
    }
}

/// The bytes of a round's rows in pieces, one behind the other.
pub(crate) fn round<S: Shape + Sync, R: Threads + Sync, G: Gate + Sync>(
    crew: &Crew<'_, R, G>,
    layers: &Layers<'_, S>,
    rows: Band,
) -> Result<Vec<Vec<u8>>, OutOfMemory>
    ensures { IfOk result (λ pieces.
        bytes_in pieces.items ≡ bytes_of (layered S.holds layers.now) rows) }
{
    if !crew.shares_bands {
        return all_runs(crew, layers, rows);
    }
    let bytes = shared_band(crew, layers, rows)?;
    let mut pieces = Vec::new(crew.alloc);
    pieces.push(bytes)?;
    Ok(pieces)
}
