//! What lies round a centre: how far a coordinate is from it, and the corners of what surrounds it.

ghost use Rattle.std.specs.Prelude.{◌≡◌, ◌+ℤ◌, ◌-ℤ◌, ◌≤◌, ◌^◌, pos, unsigned_abs, IsTrue};
ghost use Rattle.gf_plane.specs.Reach.{is_reached, is_within_reach};

use crate::Point;
use crate::products::gap;

/// How far two coordinates are apart.
pub(crate) fn apart(a: i32, b: i32) -> u64
    ensures value { result ≡ unsigned_abs (b -ℤ a) }
    ensures small { result ≤ 2 ^ 32 }
{
    gap(a, b).unsigned_abs()
}

/// The point `across` before and `along` above `p`.
pub(crate) fn low_corner(p: Point, across: u32, along: u32) -> Point
    requires p { IsTrue (is_within_reach p) }
    requires across { across ≤ 10000000 }
    requires along { along ≤ 10000000 }
    ensures { result ≡ record { x = p.x -ℤ pos across; y = p.y -ℤ pos along } }
{
    Point {
        x: less(p.x, across),
        y: less(p.y, along),
    }
}

/// The point `across` past and `along` below `p`.
pub(crate) fn high_corner(p: Point, across: u32, along: u32) -> Point
    requires p { IsTrue (is_within_reach p) }
    requires across { across ≤ 10000000 }
    requires along { along ≤ 10000000 }
    ensures { result ≡ record { x = p.x +ℤ pos across; y = p.y +ℤ pos along } }
{
    Point {
        x: more(p.x, across),
        y: more(p.y, along),
    }
}

/// The coordinate `n` before `at`.
#[tactic(auto, using(std::proofs::lemmas::Int::ints), unfolding(gf_plane::specs::Reach::is_reached))]
pub(crate) fn less(at: i32, n: u32) -> i32
    requires at { IsTrue (is_reached at) }
    requires n { n ≤ 10000000 }
    ensures { result ≡ at -ℤ pos n }
{
    at - n as i32
}

/// The coordinate `n` past `at`.
#[tactic(auto, using(std::proofs::lemmas::Int::ints), unfolding(gf_plane::specs::Reach::is_reached))]
pub(crate) fn more(at: i32, n: u32) -> i32
    requires at { IsTrue (is_reached at) }
    requires n { n ≤ 10000000 }
    ensures { result ≡ at +ℤ pos n }
{
    at + n as i32
}
