//! What every shape can do, and the laws that it keeps.

ghost use Rattle.std.specs.Prelude.{◌≡◌, Bool, IsTrue, IfOk, OnOk};
ghost use Rattle.gf_shape.specs.declared.outline.Outline.{Outline};
ghost use Rattle.gf_plane.specs.declared.point.Point.{Point};
ghost use Rattle.gf_shape.specs.Rows.{IsRow};
ghost use Rattle.gf_shape.specs.ShapeLaws.{IsBounds, IsLawful, IsMovedBy, IsOutlineOf};

use crate::{Bounds, Outline, Point, Row, Span};
use gf_base::OutOfMemory;
use std::alloc::Global;

/// A set of grid points that a designer can draw.
pub trait Shape: Drop {
    /// Which points the shape holds.
    ghost holds: { Self → Point → Bool };

    /// Whether each defining point of the shape, moved by a distance, lies within reach.
    ghost is_movable: { Self → Point → Bool };

    /// The shape whose defining points are moved by a distance.
    ghost moved: { Self → Point → Self };

    /// What FIG draws of the shape.
    ghost outline: { Self → Outline };

    /// Whether the shape holds the point.
    fn holds(&self, p: Point) -> bool
        ensures { result ≡ holds self.now p };

    /// The least bounds of what the shape holds.
    fn bounds(&self) -> Bounds
        ensures { IsBounds (holds self.now) result };

    /// Whether the shape, moved by `d`, keeps within reach.
    fn movable(&self, d: Point) -> bool
        ensures { result ≡ is_movable self.now d };

    /// The shape moved by `d`.
    fn moved(&self, alloc: Global, d: Point) -> Result<Self, OutOfMemory>
        requires { IsTrue (is_movable self.now d) }
        ensures { IfOk result (λ shape. shape ≡ moved self.now d) };

    /// The outline of the shape, as a FIG file draws it.
    fn outline(&self, alloc: Global) -> Result<Outline, OutOfMemory>
        ensures outline { IfOk result (λ o. o ≡ outline self.now) }
        ensures lawful { IfOk result IsLawful };

    /// Makes `row` the row `y`. The memory of `row` is used again, and grows where it is too
    /// little. A box takes constant time, and a disc or an oval one root. A chain takes one pass
    /// over its edges, and a sort of the edges that meet the row. After an error nothing is
    /// promised of the points of `row`.
    fn row_into(&self, y: i32, row: &mut Row) -> Result<(), OutOfMemory>
        ensures { OnOk result (IsRow (holds self.now) y row.new) };

    /// The row `y`: the rising spans of each x whose (x, y) the shape holds. No two of them overlap
    /// or touch.
    fn row(&self, alloc: Global, y: i32) -> Result<Vec<Span>, OutOfMemory>
        ensures { IfOk result (λ spans. IsRow (holds self.now) y spans.items) }
    {
        let mut row = Row::new(alloc);
        self.row_into(y, &mut row)?;
        Ok(row.into_spans())
    }

    /// Move law.
    ghost moves: { (s : Self) (d : Point) → IsMovedBy d (holds s) (holds (moved s d)) };

    /// Outline law.
    ghost outlines: { (s : Self) → IsOutlineOf (holds s) (outline s) };
}
