//! Rows of points: what chains and polygons share.

ghost use Rattle.std.specs.Prelude.{◌≡◌, IsTrue, IfOk};
ghost use Rattle.std.specs.List.{list_all};
ghost use Rattle.gf_shape.specs.BoundsOf.{bounds_from};
ghost use Rattle.gf_plane.specs.Reach.{is_within_reach};
ghost use Rattle.gf_shape.specs.ShapeMoves.{points_movable, points_moved};

use crate::{Bounds, Point};
use gf_base::OutOfMemory;
use std::alloc::Global;

/// Whether each point lies within reach.
pub(crate) fn all_within_reach(points: &[Point]) -> bool
    ensures { result ≡ list_all is_within_reach points.now }
{
    points.iter().all(|p| p.is_within_reach())
}

/// Whether each point, moved by `d`, lies within reach.
pub(crate) fn all_movable(points: &[Point], d: Point) -> bool
    ensures { result ≡ points_movable points.now d }
{
    points.iter().all(|p| p.movable(d))
}

/// The points moved by `d`.
pub(crate) fn all_moved(
    alloc: Global,
    points: &[Point],
    d: Point,
) -> Result<Vec<Point>, OutOfMemory>
    requires { IsTrue (points_movable points.now d) }
    ensures { IfOk result (λ moved. moved.items ≡ points_moved points.now d) }
{
    let mut moved = Vec::with_capacity(alloc, points.len())?;
    for p in points {
        moved.push(p.moved(d))?;
    }
    Ok(moved)
}

/// The least bounds of a point and those after it.
pub(crate) fn bounds_from(first: Point, rest: &[Point]) -> Bounds
    ensures { result ≡ bounds_from first rest.now }
{
    let mut bounds = Bounds {
        low: first,
        high: first,
    };
    for p in rest {
        bounds = bounds.with(*p);
    }
    bounds
}
