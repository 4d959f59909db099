//! Which chains are boxes, and which boxes they are.

ghost use Rattle.std.specs.Prelude.{◌≡◌};
ghost use Rattle.gf_objects.specs.Boxes.{are_between, are_corners, are_opposite, box_form, is_at};
ghost use Rattle.gf_objects.specs.Boxes.{greatest_corner, is_box, least_corner, point_at};

use gf_ops::Form;
use gf_shape::{Chain, Point};

/// The point at an index of a list.
pub(crate) fn point_at(points: &[Point], i: usize) -> Point
    ensures { result ≡ point_at points.now i }
{
    points.get(i).copied().unwrap_or(Point { x: 0, y: 0 })
}

/// Whether a chain is an upright rectangle of positive size that FIG calls a box.
pub(crate) fn is_box(chain: &Chain) -> bool
    ensures { result ≡ is_box chain.now }
{
    let points = chain.points();
    chain.boxed()
        && are_corners(
            point_at(points, 0),
            point_at(points, 1),
            point_at(points, 2),
            point_at(points, 3),
        )
}

/// Whether four points are the corners of an upright rectangle, in an order round it.
fn are_corners(a: Point, b: Point, c: Point, d: Point) -> bool
    ensures { result ≡ are_corners a b c d }
{
    are_opposite(a, c) && (are_between(a, b, c, d) || are_between(a, d, c, b))
}

/// Whether two points differ in both coordinates.
#[tactic(auto, unfolding(crate::specs::Boxes::are_opposite))]
fn are_opposite(a: Point, c: Point) -> bool
    ensures { result ≡ are_opposite a c }
{
    a.x != c.x && a.y != c.y
}

/// Whether `b` has the height of `a` and `d` that of `c`, between these two corners.
fn are_between(a: Point, b: Point, c: Point, d: Point) -> bool
    ensures { result ≡ are_between a b c d }
{
    is_at(b, c.x, a.y) && is_at(d, a.x, c.y)
}

/// Whether a point has these coordinates.
#[tactic(auto, unfolding(crate::specs::Boxes::is_at))]
fn is_at(p: Point, x: i32, y: i32) -> bool
    ensures { result ≡ is_at p x y }
{
    p == Point { x, y }
}

/// The lesser of both coordinates of two points.
pub(crate) fn least_corner(a: Point, c: Point) -> Point
    ensures { result ≡ least_corner a c }
{
    Point {
        x: a.x.min(c.x),
        y: a.y.min(c.y),
    }
}

/// The greater of both coordinates of two points.
pub(crate) fn greatest_corner(a: Point, c: Point) -> Point
    ensures { result ≡ greatest_corner a c }
{
    Point {
        x: a.x.max(c.x),
        y: a.y.max(c.y),
    }
}

/// The box with these opposite corners.
pub(crate) fn box_form(a: Point, c: Point) -> Form
    ensures { result ≡ box_form a c }
{
    Form::Rect(c.x.abs_diff(a.x), c.y.abs_diff(a.y))
}
