//! Bands that all workers share.

ghost use Rattle.std.specs.Prelude.{◌≡◌, IfOk};
ghost use Rattle.gf_scanline.specs.Layers.{layered};
ghost use Rattle.gf_raster.specs.Rows.{bytes_of};

use crate::Gate;
use crate::crew::Crew;
use crate::gathering::gather;
use crate::rows::found;
use crate::shown_rows::ShownRows;
use crate::tiles::columns;
use gf_base::OutOfMemory;
use gf_scanline::{Band, Layers};
use gf_shape::Shape;
use std::thread::Threads;

/// The bytes of a band. Each worker finds what a share of its rows shows. Then each fills a run of
/// its tiles, behind the gate.
pub(crate) fn shared_band<S: Shape + Sync, R: Threads + Sync, G: Gate + Sync>(
    crew: &Crew<'_, R, G>,
    layers: &Layers<'_, S>,
    band: Band,
) -> Result<Vec<u8>, OutOfMemory>
    ensures { IfOk result (λ bytes. bytes.items
        ≡ bytes_of (layered S.holds layers.now) band) }
{
    let part = layers.part(crew.alloc, band)?;
    let strokes = found(crew, &part)?;
    let shown = ShownRows { band, strokes };
    let columns = columns(crew, &shown)?;
    let bytes = gather(crew.alloc, &columns, band.count())?;
    Ok(bytes)
}
