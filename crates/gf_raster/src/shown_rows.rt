//! Rows that were found.

ghost use Rattle.std.specs.Prelude.{◌≡◌, length};

use gf_scanline::{Band, Stroke};

/// What the rows of a band show: the strokes of each row.
#[derive(Drop)]
pub(crate) struct ShownRows<'l> {
    pub band: Band,
    pub strokes: Vec<Vec<Stroke<'l>>>,
    ghost count: { length strokes.items ≡ band.count },
}
