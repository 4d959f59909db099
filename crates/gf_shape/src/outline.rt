//! What a figure of a FIG file draws.

ghost use Rattle.std.specs.Prelude.{◌≡◌, IfOk, refl};
ghost use Rattle.gf_shape.specs.FigureMeaning.{outline_holds};
ghost use Rattle.gf_shape.specs.ShapeMoves.{outline_movable, outline_moved};
ghost use Rattle.gf_shape.specs.Laws.Shapes.{outline_moves};

use crate::{Bounds, Chain, Disc, Oval, Point, Row, Shape};
use gf_base::OutOfMemory;
use std::alloc::Global;

/// The outline of a figure, filled.
#[derive(Drop)]
pub enum Outline {
    Chain(Chain),
    Disc(Disc),
    Oval(Oval),
}

impl Shape for Outline {
    ghost holds = { outline_holds };

    ghost is_movable = { outline_movable };

    ghost moved = { outline_moved };

    ghost outline = { λ o. o };

    fn holds(&self, p: Point) -> bool {
        match self {
            Outline::Chain(chain) => chain.holds(p),
            Outline::Disc(disc) => disc.holds(p),
            Outline::Oval(oval) => oval.holds(p),
        }
    }

    fn bounds(&self) -> Bounds {
        match self {
            Outline::Chain(chain) => chain.bounds(),
            Outline::Disc(disc) => disc.bounds(),
            Outline::Oval(oval) => oval.bounds(),
        }
    }

    fn movable(&self, d: Point) -> bool {
        match self {
            Outline::Chain(chain) => chain.movable(d),
            Outline::Disc(disc) => disc.movable(d),
            Outline::Oval(oval) => oval.movable(d),
        }
    }

    fn moved(&self, alloc: Global, d: Point) -> Result<Outline, OutOfMemory> {
        match self {
            Outline::Chain(chain) => Ok(Outline::Chain(chain.moved(alloc, d)?)),
            Outline::Disc(disc) => Ok(Outline::Disc(disc.moved(d))),
            Outline::Oval(oval) => Ok(Outline::Oval(oval.moved(d))),
        }
    }

    /// A copy of the outline.
    fn outline(&self, alloc: Global) -> Result<Outline, OutOfMemory> {
        match self {
            Outline::Chain(chain) => Ok(Outline::Chain(chain.copy(alloc)?)),
            Outline::Disc(disc) => Ok(Outline::Disc(disc.copy())),
            Outline::Oval(oval) => Ok(Outline::Oval(oval.copy())),
        }
    }

    fn row_into(&self, y: i32, row: &mut Row) -> Result<(), OutOfMemory> {
        match self {
            Outline::Chain(chain) => chain.row_into(y, row),
            Outline::Disc(disc) => disc.row_into(y, row),
            Outline::Oval(oval) => oval.row_into(y, row),
        }
    }

    ghost moves = { outline_moves };

    ghost outlines = { λ o p. refl };
}
