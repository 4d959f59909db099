//! Lists of points.

ghost use Rattle.std.specs.Prelude.{◌≡◌};
ghost use Rattle.std.proofs.Common.{rules};
ghost use Rattle.std.specs.Cmp.Rules.{comparing};
ghost use Rattle.gf_ops.specs.SamePoints.{points_eq};

use gf_plane::Point;
use std::marker::Model;

/// The points of a polygon, seen as their list.
#[derive(Drop)]
pub struct Points {
    points: Vec<Point>,
}

impl Model for Points {
    ghost use Rattle.std.specs.Prelude.{List};
    ghost use Rattle.gf_plane.specs.declared.point.Point.{Point};

    ghost Value = { List Point };

    ghost view = { λ s. s.points.items };
}

impl Points {
    /// These points in their order.
    pub fn new(points: Vec<Point>) -> Points
        ensures { result ≡ points.items }
    {
        Points { points }
    }

    /// The points in their order.
    pub fn as_slice(&self) -> &[Point]
        ensures { result.now ≡ self.now }
    {
        &self.points
    }
}

impl PartialEq for Points {
    ghost eq = { points_eq };

    ghost laws = { Prim.search (comparing, rules) };

    fn eq(&self, other: &Points) -> bool {
        self.points == other.points
    }
}

impl Eq for Points {
    ghost laws = { Prim.search (comparing, rules) };
}
