//! Closed chains of points.

ghost use Rattle.std.specs.Prelude.{◌≡◌, IfOk, IsTrue, OnOk};
ghost use Rattle.gf_shape.specs.FigureMeaning.{chain_holds};
ghost use Rattle.gf_shape.specs.Ring.{IsRing};
ghost use Rattle.gf_shape.specs.Rows.{IsRow};
ghost use Rattle.gf_shape.specs.ShapeLaws.{IsBounds};
ghost use Rattle.gf_shape.specs.ShapeMoves.{points_movable, ring_moved};

use crate::edges::path_holds;
use crate::points::{all_movable, all_moved, bounds_from};
use crate::{Bounds, Point, Row};
use gf_base::OutOfMemory;
use std::alloc::Global;
use std::marker::Model;

/// A closed chain of points, the first one again at its end. FIG has two kinds: boxes and
/// polygons.
#[derive(Drop)]
pub struct Chain {
    boxed: bool,
    points: Vec<Point>,
}

impl Model for Chain {
    ghost use Rattle.gf_shape.specs.Ring.{Ring};

    ghost Value = { Ring };

    ghost view = { λ c. record { boxed = c.boxed; points = c.points.items } };

    ghost use Rattle.gf_shape.specs.Ring.{IsRing};

    ghost invariant = { λ c. IsRing (record { boxed = c.boxed; points = c.points.items }) };
}

impl Chain {
    /// The chain of these points, as a box of FIG or as a polygon.
    pub fn new(boxed: bool, points: Vec<Point>) -> Chain
        requires { IsRing (record { boxed = boxed; points = points.items }) }
        ensures { result ≡ record { boxed = boxed; points = points.items } }
    {
        Chain { boxed, points }
    }

    /// Whether FIG calls the chain a box.
    pub fn boxed(&self) -> bool
        ensures { result ≡ self.now.boxed }
    {
        self.boxed
    }

    /// The points of the chain in order, the first one again at the end.
    pub fn points(&self) -> &[Point]
        ensures points { result.now ≡ self.now.points }
        ensures lawful { IsRing self.now }
    {
        &self.points
    }

    /// Whether the chain holds the point.
    pub(crate) fn holds(&self, p: Point) -> bool
        ensures { result ≡ chain_holds self.now.points p }
    {
        path_holds(self.points[0], &self.points[1..], p)
    }

    /// The least bounds of what the chain holds.
    pub(crate) fn bounds(&self) -> Bounds
        ensures { IsBounds (chain_holds self.now.points) result }
    {
        bounds_from(self.points[0], &self.points[1..])
    }

    /// Makes `row` the row `y` of the chain.
    pub(crate) fn row_into(&self, y: i32, row: &mut Row) -> Result<(), OutOfMemory>
        ensures { OnOk result (IsRow (chain_holds self.now.points) y row.new) }
    {
        row.set_path(self.points[0], &self.points[1..], y)
    }

    /// Whether each point of the chain, moved by `d`, lies within reach.
    pub(crate) fn movable(&self, d: Point) -> bool
        ensures { result ≡ points_movable self.now.points d }
    {
        all_movable(&self.points, d)
    }

    /// The chain moved by `d`.
    pub(crate) fn moved(&self, alloc: Global, d: Point) -> Result<Chain, OutOfMemory>
        requires { IsTrue (points_movable self.now.points d) }
        ensures { IfOk result (λ chain. chain ≡ ring_moved self.now d) }
    {
        let points = all_moved(alloc, &self.points, d)?;
        Ok(Chain::new(self.boxed, points))
    }

    /// A copy of the chain.
    pub(crate) fn copy(&self, alloc: Global) -> Result<Chain, OutOfMemory>
        ensures same { IfOk result (λ chain. chain ≡ self.now) }
        ensures lawful { IfOk result (λ chain. IsRing chain) }
    {
        let points = Vec::from_slice(alloc, &self.points)?;
        Ok(Chain::new(self.boxed, points))
    }
}
