//! Polygons.

ghost use Rattle.std.specs.Prelude.{◌≡◌, ◌↔◌, false, true, IfOk, IsTrue, Err, length};
ghost use Rattle.std.specs.List.{list_all};
ghost use Rattle.gf_shape.specs.Opened.{IsClosed};
ghost use Rattle.gf_shape.specs.Outlines.{polygon_outline};
ghost use Rattle.gf_plane.specs.PointCounts.{is_polygon_count};
ghost use Rattle.gf_shape.specs.Polygons.{is_polygon};
ghost use Rattle.gf_plane.specs.Reach.{is_within_reach};
ghost use Rattle.gf_shape.specs.Ring.{ring_of};
ghost use Rattle.gf_shape.specs.ShapeMeaning.{polygon_holds};
ghost use Rattle.gf_shape.specs.ShapeMoves.{points_movable, points_moved};
ghost use Rattle.gf_shape.specs.Laws.Shapes.{polygon_moves, polygon_outlines};

use crate::points::all_within_reach;
use crate::{Bounds, Chain, Outline, Point, PolygonError, Row, Shape};
use gf_base::OutOfMemory;
use std::alloc::Global;
use std::marker::Model;

/// A polygon by its points, the last one joined to the first. The edges belong to the polygon;
/// inside is what an odd number of edges separates from far away.
#[derive(Drop)]
pub struct Polygon {
    ring: Chain,
}

impl Model for Polygon {
    ghost use Rattle.std.specs.Prelude.{◌≡◌, List, IsTrue};
    ghost use Rattle.gf_plane.specs.declared.point.Point.{Point};
    ghost use Rattle.gf_shape.specs.Opened.{opened};

    ghost Value = { List Point };

    ghost view = { λ p. opened p.ring.points };

    ghost use Rattle.gf_shape.specs.Opened.{IsClosed};

    ghost invariant = { λ p. IsClosed p.ring };
}

impl Polygon {
    /// The polygon of 3 to 64 points. Their count is checked first, then their reach. Only then may
    /// memory be refused.
    pub fn new(alloc: Global, points: &[Point]) -> Result<Polygon, PolygonError>
        ensures same { IfOk result (λ polygon. polygon ≡ points.now) }
        ensures count { result ≡ Err PolygonError.Count
            ↔ is_polygon_count (length points.now) ≡ false }
        ensures range { result ≡ Err PolygonError.Range
            ↔ (is_polygon_count (length points.now) ≡ true)
            × (list_all is_within_reach points.now ≡ false) }
    {
        if points.len() < 3 || 64 < points.len() {
            return Err(PolygonError::Count);
        }
        if !all_within_reach(points) {
            return Err(PolygonError::Range);
        }
        match ring(alloc, points) {
            Ok(ring) => Ok(Polygon { ring }),
            Err(OutOfMemory) => Err(PolygonError::OutOfMemory),
        }
    }

    /// A copy of the polygon.
    pub(crate) fn copy(&self, alloc: Global) -> Result<Polygon, OutOfMemory>
        ensures { IfOk result (λ polygon. polygon ≡ self.now) }
    {
        let ring = self.ring.copy(alloc)?;
        Ok(Polygon { ring })
    }
}

/// The chain round these points.
fn ring(alloc: Global, points: &[Point]) -> Result<Chain, OutOfMemory>
    requires { IsTrue (is_polygon points.now) }
    ensures ring { IfOk result (λ ring. ring ≡ ring_of points.now) }
    ensures closed { IfOk result IsClosed }
{
    let mut ring = Vec::with_capacity(alloc, points.len() + 1)?;
    ring.extend_from_slice(points)?;
    ring.push(points[0])?;
    Ok(Chain::new(false, ring))
}

impl Shape for Polygon {
    ghost holds = { polygon_holds };

    ghost is_movable = { points_movable };

    ghost moved = { points_moved };

    ghost outline = { polygon_outline };

    fn holds(&self, p: Point) -> bool {
        self.ring.holds(p)
    }

    fn bounds(&self) -> Bounds {
        self.ring.bounds()
    }

    fn movable(&self, d: Point) -> bool {
        self.ring.movable(d)
    }

    fn moved(&self, alloc: Global, d: Point) -> Result<Polygon, OutOfMemory> {
        let ring = self.ring.moved(alloc, d)?;
        Ok(Polygon { ring })
    }

    fn outline(&self, alloc: Global) -> Result<Outline, OutOfMemory> {
        let ring = self.ring.copy(alloc)?;
        Ok(Outline::Chain(ring))
    }

    fn row_into(&self, y: i32, row: &mut Row) -> Result<(), OutOfMemory> {
        self.ring.row_into(y, row)?;
        Ok(())
    }

    ghost moves = { polygon_moves };

    ghost outlines = { polygon_outlines };
}
