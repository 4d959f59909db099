//! Circles.

ghost use Rattle.std.specs.Prelude.{◌≡◌, ◌↔◌, IsTrue, IsOk, IfOk};
ghost use Rattle.gf_shape.specs.declared.outline.Outline.{Outline};
ghost use Rattle.gf_shape.specs.Round.{is_round};
ghost use Rattle.gf_shape.specs.ShapeLaws.{IsLawful};
ghost use Rattle.gf_shape.specs.ShapeMeaning.{round_holds};
ghost use Rattle.gf_shape.specs.ShapeMoves.{round_movable, round_moved};
ghost use Rattle.gf_shape.specs.Laws.Shapes.{round_moves, round_outlines};

use crate::disc::MOST_RADIUS;
use crate::{Bounds, Disc, Outline, Point, Range, Row, Shape};
use gf_base::OutOfMemory;
use std::alloc::Global;
use std::marker::Model;

/// A circle by its centre and radius. The line and all within belong to the circle.
#[derive(Clone, Copy, Debug, PartialEq, Eq)]
pub struct Circle {
    disc: Disc,
}

impl Model for Circle {
    ghost use Rattle.gf_shape.specs.Round.{Round};

    ghost Value = { Round };

    ghost view = { λ c. c.disc };

    ghost inverse = { λ r. record { disc = r } };
}

impl Circle {
    /// The circle of this centre and radius.
    pub fn new(centre: Point, radius: u32) -> Result<Circle, Range>
        ensures within { IsOk result ↔ IsTrue (is_round
            (record { centre = centre; radius = radius })) }
        ensures same { IfOk result (λ circle. circle
            ≡ record { centre = centre; radius = radius }) }
    {
        if centre.is_within_reach() && 1 <= radius && radius <= MOST_RADIUS {
            let disc = Disc::new(centre, radius);
            Ok(Circle { disc })
        } else {
            Err(Range)
        }
    }
}

impl Shape for Circle {
    ghost holds = { round_holds };

    ghost is_movable = { round_movable };

    ghost moved = { round_moved };

    ghost outline = { Outline.Disc };

    fn holds(&self, p: Point) -> bool {
        self.disc.holds(p)
    }

    fn bounds(&self) -> Bounds {
        self.disc.bounds()
    }

    fn movable(&self, d: Point) -> bool {
        self.disc.movable(d)
    }

    /// The circle moved by `d`. The call takes no memory, and is never refused for want of it.
    fn moved(&self, _alloc: Global, d: Point) -> Result<Circle, OutOfMemory>
        requires { IsTrue (round_movable self.now d) }
        ensures ok { IsOk result }
        ensures moved { IfOk result (λ circle. circle ≡ round_moved self.now d) }
    {
        Ok(Circle {
            disc: self.disc.moved(d),
        })
    }

    /// The disc of the circle's centre and radius. The call takes no memory, and is never refused
    /// for want of it.
    fn outline(&self, _alloc: Global) -> Result<Outline, OutOfMemory>
        ensures ok { IsOk result }
        ensures outline { IfOk result (λ o. o ≡ Outline.Disc self.now) }
        ensures lawful { IfOk result IsLawful }
    {
        Ok(Outline::Disc(self.disc.copy()))
    }

    fn row_into(&self, y: i32, row: &mut Row) -> Result<(), OutOfMemory> {
        self.disc.row_into(y, row)
    }

    ghost moves = { round_moves };

    ghost outlines = { round_outlines };
}
