//! Passes, without which no tile is filled.

ghost use Rattle.std.specs.Prelude.{◌≡◌, ◌+◌, ◌≤◌, ◌<◌};

use crate::Gate;
use crate::crew::Crew;
use crate::tiles::TILE;
use gf_scanline::Band;
use std::marker::Model;
use std::thread::Threads;

/// Says that a worker passed the gate for the tiles of some columns. Only [`Pass::through`] makes
/// one, and only with one is a tile filled.
#[derive(Drop)]
pub(crate) struct Pass {
    from: usize,
    len: usize,
}

impl Model for Pass {
    ghost use Rattle.gf_raster.specs.Passes.{PassView};

    ghost Value = { PassView };

    ghost view = { λ p. record { from = p.from; len = p.len } };
}

impl Pass {
    /// Passes the gate, as worker `who`, for each tile of a band that begins among `len` columns
    /// from `from` on.
    pub fn through<R: Threads, G: Gate>(
        crew: &Crew<'_, R, G>,
        band: Band,
        who: u8,
        from: usize,
        len: usize,
    ) -> Pass
        requires { from + len ≤ band.window.width }
        ensures { result ≡ record { from = from; len = len } }
    {
        band.window().recall_sides();
        for i in 0..len.div_ceil(TILE) {
            crew.gate.enter(who, number(band, from + TILE * i));
        }
        Pass { from, len }
    }

    /// The first of the columns.
    pub fn from(&self) -> usize
        ensures { result ≡ self.now.from }
    {
        self.from
    }

    /// How many columns there are.
    pub fn len(&self) -> usize
        ensures { result ≡ self.now.len }
    {
        self.len
    }
}

/// The number of a band's tile at a column.
fn number(band: Band, column: usize) -> u32
    requires { column < band.window.width }
{
    let window = band.window();
    window.recall_sides();
    let tiles = (window.width() as usize).div_ceil(TILE);
    (band.top() / TILE * tiles + column / TILE) as u32
}
