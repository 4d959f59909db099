//! Ellipses.

ghost use Rattle.std.specs.Prelude.{◌≡◌, ◌↔◌, IsTrue, IsOk, IfOk};
ghost use Rattle.gf_shape.specs.declared.outline.Outline.{Outline};
ghost use Rattle.gf_shape.specs.Oblong.{is_oblong};
ghost use Rattle.gf_shape.specs.ShapeLaws.{IsLawful};
ghost use Rattle.gf_shape.specs.ShapeMeaning.{oval_holds};
ghost use Rattle.gf_shape.specs.ShapeMoves.{oval_movable, oval_moved};
ghost use Rattle.gf_shape.specs.Laws.Shapes.{oval_moves, oval_outlines};

use crate::oval::is_radius;
use crate::{Bounds, Outline, Oval, Point, Range, Row, Shape};
use gf_base::OutOfMemory;
use std::alloc::Global;
use std::marker::Model;

/// An ellipse with level axes, by its centre and radii. The line and all within belong to the
/// ellipse.
#[derive(Clone, Copy, Debug, PartialEq, Eq)]
pub struct Ellipse {
    oval: Oval,
}

impl Model for Ellipse {
    ghost use Rattle.gf_shape.specs.Oblong.{Oblong};

    ghost Value = { Oblong };

    ghost view = { λ e. e.oval };

    ghost inverse = { λ o. record { oval = o } };
}

impl Ellipse {
    /// The ellipse of this centre and these radii, to both sides and upwards and downwards.
    pub fn new(centre: Point, rx: u32, ry: u32) -> Result<Ellipse, Range>
        ensures within { IsOk result ↔ IsTrue (is_oblong
            (record { centre = centre; rx = rx; ry = ry })) }
        ensures same { IfOk result (λ ellipse. ellipse
            ≡ record { centre = centre; rx = rx; ry = ry }) }
    {
        if centre.is_within_reach() && is_radius(rx) && is_radius(ry) {
            let oval = Oval::new(centre, rx, ry);
            Ok(Ellipse { oval })
        } else {
            Err(Range)
        }
    }
}

impl Shape for Ellipse {
    ghost holds = { oval_holds };

    ghost is_movable = { oval_movable };

    ghost moved = { oval_moved };

    ghost outline = { Outline.Oval };

    fn holds(&self, p: Point) -> bool {
        self.oval.holds(p)
    }

    fn bounds(&self) -> Bounds {
        self.oval.bounds()
    }

    fn movable(&self, d: Point) -> bool {
        self.oval.movable(d)
    }

    /// The ellipse moved by `d`. The call takes no memory, and is never refused for want of it.
    fn moved(&self, _alloc: Global, d: Point) -> Result<Ellipse, OutOfMemory>
        requires { IsTrue (oval_movable self.now d) }
        ensures ok { IsOk result }
        ensures moved { IfOk result (λ ellipse. ellipse ≡ oval_moved self.now d) }
    {
        Ok(Ellipse {
            oval: self.oval.moved(d),
        })
    }

    /// The oval of the ellipse's centre and radii. The call takes no memory, and is never refused
    /// for want of it.
    fn outline(&self, _alloc: Global) -> Result<Outline, OutOfMemory>
        ensures ok { IsOk result }
        ensures outline { IfOk result (λ o. o ≡ Outline.Oval self.now) }
        ensures lawful { IfOk result IsLawful }
    {
        Ok(Outline::Oval(self.oval.copy()))
    }

    fn row_into(&self, y: i32, row: &mut Row) -> Result<(), OutOfMemory> {
        self.oval.row_into(y, row)
    }

    ghost moves = { oval_moves };

    ghost outlines = { oval_outlines };
}
