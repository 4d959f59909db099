//! Where a polygon of a drawing has its place.

ghost use Rattle.std.specs.Prelude.{◌≡◌, ◌≤◌, ◌+ℤ◌, ◌-ℤ◌, pos, IsTrue, All, length};
ghost use Rattle.gf_plane.specs.Reach.{is_reached, is_within_reach};
ghost use Rattle.gf_objects.specs.Places.{drawn, greatest_of, least_of, place_along};
ghost use Rattle.gf_objects.specs.Places.{polygon_place};

use crate::boxes::{greatest_corner, least_corner, point_at};
use gf_shape::Point;

/// The greatest distance of a place from 0, and of a point from its place.
const NEAR: i32 = 1_000_000;

/// The place of the polygon that a chain of these points becomes: the first point, or as near to it
/// as all points are within 1,000,000 of the place, and the place within 1,000,000 of 0.
pub(crate) fn polygon_place(points: &[Point]) -> Point
    requires some { 1 ≤ length points.now }
    requires reach { All (λ p. IsTrue (is_within_reach p)) points.now }
    ensures place { result ≡ polygon_place points.now }
    ensures reach { IsTrue (is_within_reach result) }
{
    let first = point_at(points, 0);
    let least = least_of(points);
    let greatest = greatest_of(points);
    Point {
        x: place_along(first.x, least.x, greatest.x),
        y: place_along(first.y, least.y, greatest.y),
    }
}

/// The least coordinates of points.
fn least_of(points: &[Point]) -> Point
    requires some { 1 ≤ length points.now }
    requires reach { All (λ p. IsTrue (is_within_reach p)) points.now }
    ensures least { result ≡ least_of points.now }
    ensures reach { IsTrue (is_within_reach result) }
{
    let mut least = point_at(points, 0);
    for p in points {
        least = least_corner(least, *p);
    }
    least
}

/// The greatest coordinates of points.
fn greatest_of(points: &[Point]) -> Point
    requires some { 1 ≤ length points.now }
    requires reach { All (λ p. IsTrue (is_within_reach p)) points.now }
    ensures greatest { result ≡ greatest_of points.now }
    ensures reach { IsTrue (is_within_reach result) }
{
    let mut greatest = point_at(points, 0);
    for p in points {
        greatest = greatest_corner(greatest, *p);
    }
    greatest
}

/// A coordinate of the place: that of the first point, within 1,000,000 of 0, and then of the least
/// and of the greatest coordinate of the points.
fn place_along(n: i32, least: i32, greatest: i32) -> i32
    requires least { IsTrue (is_reached least) }
    requires greatest { IsTrue (is_reached greatest) }
    ensures place { result ≡ place_along n least greatest }
    ensures reach { IsTrue (is_reached result) }
{
    drawn(before(greatest), behind(least), drawn(-NEAR, NEAR, n))
}

/// The number that is 1,000,000 less.
#[tactic(auto, using(std::proofs::lemmas::Int::ints), unfolding(gf_plane::specs::Reach::is_reached))]
fn before(n: i32) -> i32
    requires { IsTrue (is_reached n) }
    ensures { result ≡ n -ℤ pos 1000000 }
{
    n - NEAR
}

/// The number that is 1,000,000 more.
#[tactic(auto, using(std::proofs::lemmas::Int::ints), unfolding(gf_plane::specs::Reach::is_reached))]
fn behind(n: i32) -> i32
    requires { IsTrue (is_reached n) }
    ensures { result ≡ n +ℤ pos 1000000 }
{
    n + NEAR
}

/// A number, raised to `low` and then lowered to `high`.
fn drawn(low: i32, high: i32, n: i32) -> i32
    ensures { result ≡ drawn low high n }
{
    n.max(low).min(high)
}
