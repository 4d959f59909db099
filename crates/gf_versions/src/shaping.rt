//! The shapes of forms.

ghost use Rattle.std.specs.Prelude.{◌≡◌, IfOk, IsTrue};
ghost use Rattle.gf_ops.specs.Limits.{is_form, is_near, is_polygon, is_size};
ghost use Rattle.gf_versions.specs.Ranking.{form_at, origin, shape_of};

use gf_base::OutOfMemory;
use gf_ops::Form;
use gf_shape::{AnyShape, Circle, Ellipse, Point, Polygon, PolygonError, Rect, Shape};
use std::alloc::Global;

/// The origin, from which no form is moved.
const ORIGIN: Point = Point { x: 0, y: 0 };

/// A form moved to its place.
pub(crate) fn shape_at(alloc: Global, form: &Form, place: Point) -> Result<AnyShape, OutOfMemory>
    requires form { IsTrue (is_form form.now) }
    requires place { IsTrue (is_near place) }
    ensures { IfOk result (λ shape. shape ≡ form_at form.now place) }
{
    shape(alloc, form)?.moved(alloc, place)
}

/// The shape of a form, seen from its place.
fn shape(alloc: Global, form: &Form) -> Result<AnyShape, OutOfMemory>
    requires { IsTrue (is_form form.now) }
    ensures { IfOk result (λ shape. shape ≡ shape_of form.now) }
{
    match form {
        Form::Rect(width, height) => Ok(AnyShape::Rect(rect(*width, *height))),
        Form::Circle(radius) => Ok(AnyShape::Circle(circle(*radius))),
        Form::Ellipse(rx, ry) => Ok(AnyShape::Ellipse(ellipse(*rx, *ry))),
        Form::Polygon(points) => Ok(AnyShape::Polygon(polygon(alloc, points.as_slice())?)),
    }
}

fn rect(width: u32, height: u32) -> Rect
    requires width { IsTrue (is_size width) }
    requires height { IsTrue (is_size height) }
    ensures { result ≡ record { low = origin; width = width; height = height } }
{
    match Rect::new(ORIGIN, width, height) {
        Ok(rect) => rect,
        Err(_) => unreachable!(),
    }
}

fn circle(radius: u32) -> Circle
    requires { IsTrue (is_size radius) }
    ensures { result ≡ record { centre = origin; radius = radius } }
{
    match Circle::new(ORIGIN, radius) {
        Ok(circle) => circle,
        Err(_) => unreachable!(),
    }
}

fn ellipse(rx: u32, ry: u32) -> Ellipse
    requires rx { IsTrue (is_size rx) }
    requires ry { IsTrue (is_size ry) }
    ensures { result ≡ record { centre = origin; rx = rx; ry = ry } }
{
    match Ellipse::new(ORIGIN, rx, ry) {
        Ok(ellipse) => ellipse,
        Err(_) => unreachable!(),
    }
}

fn polygon(alloc: Global, points: &[Point]) -> Result<Polygon, OutOfMemory>
    requires { IsTrue (is_polygon points.now) }
    ensures { IfOk result (λ polygon. polygon ≡ points.now) }
{
    match Polygon::new(alloc, points) {
        Ok(polygon) => Ok(polygon),
        Err(PolygonError::OutOfMemory) => Err(OutOfMemory),
        Err(PolygonError::Count) => unreachable!(),
        Err(PolygonError::Range) => unreachable!(),
    }
}
