//! Shapes of every kind.

ghost use Rattle.std.specs.Prelude.{◌≡◌, IfOk};
ghost use Rattle.gf_shape.specs.ShapeMeaning.{any_holds};
ghost use Rattle.gf_shape.specs.ShapeMoves.{any_movable, any_moved};
ghost use Rattle.gf_shape.specs.Outlines.{any_outline};
ghost use Rattle.gf_shape.specs.Laws.Shapes.{any_moves, any_outlines};

use crate::{Bounds, Circle, Ellipse, Outline, Point, Polygon, Rect, Row, Shape};
use gf_base::OutOfMemory;
use std::alloc::Global;

/// A shape of any kind that a designer draws.
#[derive(Drop)]
pub enum AnyShape {
    Rect(Rect),
    Circle(Circle),
    Ellipse(Ellipse),
    Polygon(Polygon),
}

impl AnyShape {
    /// A copy of the shape.
    pub fn copy(&self, alloc: Global) -> Result<AnyShape, OutOfMemory>
        ensures { IfOk result (λ shape. shape ≡ self.now) }
    {
        match self {
            AnyShape::Rect(rect) => Ok(AnyShape::Rect(*rect)),
            AnyShape::Circle(circle) => Ok(AnyShape::Circle(*circle)),
            AnyShape::Ellipse(ellipse) => Ok(AnyShape::Ellipse(*ellipse)),
            AnyShape::Polygon(polygon) => Ok(AnyShape::Polygon(polygon.copy(alloc)?)),
        }
    }
}

impl Shape for AnyShape {
    ghost holds = { any_holds };

    ghost is_movable = { any_movable };

    ghost moved = { any_moved };

    ghost outline = { any_outline };

    fn holds(&self, p: Point) -> bool {
        match self {
            AnyShape::Rect(rect) => rect.holds(p),
            AnyShape::Circle(circle) => circle.holds(p),
            AnyShape::Ellipse(ellipse) => ellipse.holds(p),
            AnyShape::Polygon(polygon) => polygon.holds(p),
        }
    }

    fn bounds(&self) -> Bounds {
        match self {
            AnyShape::Rect(rect) => rect.bounds(),
            AnyShape::Circle(circle) => circle.bounds(),
            AnyShape::Ellipse(ellipse) => ellipse.bounds(),
            AnyShape::Polygon(polygon) => polygon.bounds(),
        }
    }

    fn movable(&self, d: Point) -> bool {
        match self {
            AnyShape::Rect(rect) => rect.movable(d),
            AnyShape::Circle(circle) => circle.movable(d),
            AnyShape::Ellipse(ellipse) => ellipse.movable(d),
            AnyShape::Polygon(polygon) => polygon.movable(d),
        }
    }

    fn moved(&self, alloc: Global, d: Point) -> Result<AnyShape, OutOfMemory> {
        match self {
            AnyShape::Rect(rect) => Ok(AnyShape::Rect(rect.moved(alloc, d)?)),
            AnyShape::Circle(circle) => Ok(AnyShape::Circle(circle.moved(alloc, d)?)),
            AnyShape::Ellipse(ellipse) => Ok(AnyShape::Ellipse(ellipse.moved(alloc, d)?)),
            AnyShape::Polygon(polygon) => Ok(AnyShape::Polygon(polygon.moved(alloc, d)?)),
        }
    }

    fn outline(&self, alloc: Global) -> Result<Outline, OutOfMemory> {
        match self {
            AnyShape::Rect(rect) => rect.outline(alloc),
            AnyShape::Circle(circle) => circle.outline(alloc),
            AnyShape::Ellipse(ellipse) => ellipse.outline(alloc),
            AnyShape::Polygon(polygon) => polygon.outline(alloc),
        }
    }

    fn row_into(&self, y: i32, row: &mut Row) -> Result<(), OutOfMemory> {
        match self {
            AnyShape::Rect(rect) => rect.row_into(y, row),
            AnyShape::Circle(circle) => circle.row_into(y, row),
            AnyShape::Ellipse(ellipse) => ellipse.row_into(y, row),
            AnyShape::Polygon(polygon) => polygon.row_into(y, row),
        }
    }

    ghost moves = { any_moves };

    ghost outlines = { any_outlines };
}
