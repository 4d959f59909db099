//! Boxes.

ghost use Rattle.std.specs.Prelude.{◌≡◌, ◌↔◌, IsTrue, IsOk, IfOk, pos, true, ◌+ℤ◌, ◌-ℤ◌, ◌&&◌};
ghost use Rattle.std.specs.Prelude.{int_le, OnOk, [], ◌∷◌};
ghost use Rattle.gf_shape.specs.Area.{is_area, is_side, far_corner, corners_again};
ghost use Rattle.gf_shape.specs.Outlines.{rect_outline};
ghost use Rattle.gf_shape.specs.ShapeMeaning.{rect_holds};
ghost use Rattle.gf_shape.specs.ShapeMoves.{rect_movable, rect_moved};
ghost use Rattle.gf_shape.specs.Laws.Shapes.{rect_moves, rect_outlines};

use crate::products::gap;
use crate::{Bounds, Chain, Outline, Point, REACH, Range, Row, Shape};
use gf_base::OutOfMemory;
use std::alloc::Global;
use std::marker::Model;

/// A box by its least corner and its size. The edges belong to the box.
#[derive(Clone, Copy, Debug, PartialEq, Eq)]
pub struct Rect {
    low: Point,
    width: u32,
    height: u32,
}

impl Model for Rect {
    ghost use Rattle.std.specs.Prelude.{IsTrue};
    ghost use Rattle.gf_shape.specs.Area.{Area};

    ghost Value = { Area };

    ghost view = { λ r. record { low = r.low; width = r.width; height = r.height } };

    ghost use Rattle.gf_shape.specs.Area.{is_area};

    ghost invariant = { λ r. IsTrue (is_area (record
        { low = r.low; width = r.width; height = r.height })) };

    ghost inverse = { λ a. record { low = a.low; width = a.width; height = a.height } };
}

impl Rect {
    /// The box of this least corner and size.
    pub fn new(low: Point, width: u32, height: u32) -> Result<Rect, Range>
        ensures within { IsOk result ↔ IsTrue (is_area
            (record { low = low; width = width; height = height })) }
        ensures same { IfOk result (λ rect. rect
            ≡ record { low = low; width = width; height = height }) }
    {
        if is_side(low.x, width) && is_side(low.y, height) {
            Ok(Rect { low, width, height })
        } else {
            Err(Range)
        }
    }

    /// The corners in FIG's order, the first one again at the end.
    fn corners_again(&self) -> [Point; 5]
        ensures corners { result ≡ corners_again self.now }
        ensures area { IsTrue (is_area self.now) }
    {
        let (low, far) = (self.low, self.far_corner());
        let right = Point { x: far.x, y: low.y };
        let under = Point { x: low.x, y: far.y };
        [low, right, far, under, low]
    }

    /// The corner opposite the least one.
    fn far_corner(&self) -> Point
        ensures { result ≡ far_corner self.now }
    {
        Point {
            x: end(self.low.x, self.width),
            y: end(self.low.y, self.height),
        }
    }
}

impl Shape for Rect {
    ghost holds = { rect_holds };

    ghost is_movable = { rect_movable };

    ghost moved = { rect_moved };

    ghost outline = { rect_outline };

    fn holds(&self, p: Point) -> bool {
        is_along(self.low.x, self.width, p.x) && is_along(self.low.y, self.height, p.y)
    }

    fn bounds(&self) -> Bounds {
        let far = self.far_corner();
        Bounds {
            low: self.low,
            high: far,
        }
    }

    fn movable(&self, d: Point) -> bool {
        self.low.movable(d) && self.far_corner().movable(d)
    }

    /// The box moved by `d`. The call takes no memory, and is never refused for want of it.
    fn moved(&self, _alloc: Global, d: Point) -> Result<Rect, OutOfMemory>
        requires { IsTrue (rect_movable self.now d) }
        ensures ok { IsOk result }
        ensures moved { IfOk result (λ rect. rect ≡ rect_moved self.now d) }
    {
        Ok(Rect {
            low: self.low.moved(d),
            ..*self
        })
    }

    /// The closed chain of the box's corners.
    fn outline(&self, alloc: Global) -> Result<Outline, OutOfMemory> {
        let points = Vec::from_array(alloc, self.corners_again())?;
        Ok(Outline::Chain(Chain::new(true, points)))
    }

    fn row_into(&self, y: i32, row: &mut Row) -> Result<(), OutOfMemory> {
        if is_along(self.low.y, self.height, y) {
            set_side(row, self.low.x, self.width)?;
        } else {
            row.clear();
        }
        Ok(())
    }

    ghost moves = { rect_moves };

    ghost outlines = { rect_outlines };
}

/// Whether a side of at least 1 keeps within reach at both ends.
#[tactic(auto, using(std::proofs::lemmas::Int::ints), unfolding(crate::specs::Area::is_side))]
fn is_side(low: i32, size: u32) -> bool
    ensures { result ≡ is_side low size }
{
    let low = low as i64;
    1 <= size && -(REACH as i64) <= low && low + size as i64 <= REACH as i64
}

/// The far end of a side.
#[tactic(auto, using(std::proofs::lemmas::Int::ints), unfolding(crate::specs::Area::is_side))]
fn end(low: i32, size: u32) -> i32
    requires { IsTrue (is_side low size) }
    ensures { result ≡ low +ℤ pos size }
{
    (low as i64 + size as i64) as i32
}

/// Makes `row` the one span of a side.
#[tactic(auto, using(std::proofs::lemmas::Int::ints))]
fn set_side(row: &mut Row, low: i32, size: u32) -> Result<(), OutOfMemory>
    requires { IsTrue (is_side low size) }
    ensures { OnOk result (row.new ≡ record { first = low; last = low +ℤ pos size } ∷ []) }
{
    let last = end(low, size);
    row.set(low, last)?;
    Ok(())
}

/// Whether `at` lies between the ends of a side, or is one.
#[tactic(auto, using(std::proofs::lemmas::Int::ints))]
fn is_along(low: i32, size: u32, at: i32) -> bool
    ensures { result ≡ (int_le (pos 0) (at -ℤ low) && int_le (at -ℤ low) (pos size)) }
{
    let past = gap(low, at);
    0 <= past && past <= size as i64
}
