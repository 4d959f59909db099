//! Where a shape lies at most.

ghost use Rattle.std.specs.Prelude.{◌≡◌};
ghost use Rattle.gf_shape.specs.BoundsOf.{with};

use crate::Point;

/// The points from `low` to `high` in both coordinates, both corners included.
#[derive(Clone, Copy, Debug, PartialEq, Eq)]
pub struct Bounds {
    pub low: Point,
    pub high: Point,
}

impl Bounds {
    /// The bounds widened to a point.
    pub(crate) fn with(self, p: Point) -> Bounds
        ensures { result ≡ with self p }
    {
        Bounds {
            low: self.low.least(p),
            high: self.high.most(p),
        }
    }
}
