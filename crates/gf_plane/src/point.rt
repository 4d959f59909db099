//! Grid points, and how far from the axes those lie that a shape is made of.

ghost use Rattle.std.specs.Prelude.{◌≡◌, ◌+ℤ◌, IsTrue};
ghost use Rattle.gf_plane.specs.Corners.{least, most};
ghost use Rattle.gf_plane.specs.Moving.{plus};
ghost use Rattle.gf_plane.specs.Reach.{is_reached, is_within_reach};

/// The greatest distance of a shape's defining points from either axis.
pub const REACH: i32 = 10_000_000;

/// A grid point. The y axis points downwards.
#[derive(Clone, Copy, Debug, PartialEq, Eq)]
pub struct Point {
    pub x: i32,
    pub y: i32,
}

impl Point {
    /// Whether the point lies within reach.
    pub fn is_within_reach(self) -> bool
        ensures { result ≡ is_within_reach self }
    {
        is_reached(self.x.into()) && is_reached(self.y.into())
    }

    /// Whether the point, moved by `d`, lies within reach.
    pub fn movable(self, d: Point) -> bool
        ensures { result ≡ is_within_reach (plus self d) }
    {
        is_reached(moved(self.x, d.x)) && is_reached(moved(self.y, d.y))
    }

    /// The point moved by `d`.
    pub fn moved(self, d: Point) -> Point
        requires { IsTrue (is_within_reach (plus self d)) }
        ensures { result ≡ plus self d }
    {
        Point {
            x: sum(self.x, d.x),
            y: sum(self.y, d.y),
        }
    }

    /// The lesser of both coordinates.
    pub fn least(self, other: Point) -> Point
        ensures { result ≡ least self other }
    {
        Point {
            x: self.x.min(other.x),
            y: self.y.min(other.y),
        }
    }

    /// The greater of both coordinates.
    pub fn most(self, other: Point) -> Point
        ensures { result ≡ most self other }
    {
        Point {
            x: self.x.max(other.x),
            y: self.y.max(other.y),
        }
    }
}

/// A coordinate moved by a distance.
#[tactic(auto, using(std::proofs::lemmas::Int::ints))]
fn moved(n: i32, d: i32) -> i64
    ensures { result ≡ n +ℤ d }
{
    i64::from(n) + i64::from(d)
}

/// Whether a coordinate lies within reach.
#[tactic(auto, using(std::proofs::lemmas::Int::ints), unfolding(crate::specs::Reach::is_reached))]
fn is_reached(n: i64) -> bool
    ensures { result ≡ is_reached n }
{
    -i64::from(REACH) <= n && n <= i64::from(REACH)
}

/// A coordinate moved by a distance, where the result lies within reach.
#[tactic(auto, using(std::proofs::lemmas::Int::ints), unfolding(crate::specs::Reach::is_reached))]
fn sum(n: i32, d: i32) -> i32
    requires { IsTrue (is_reached (n +ℤ d)) }
    ensures { result ≡ n +ℤ d }
{
    n + d
}
