//! Discs.

ghost use Rattle.std.specs.Prelude.{◌≡◌, ◌+ℤ◌, ◌-ℤ◌, ◌*ℤ◌, ◌*◌, ◌≤◌, ◌^◌, pos, int_le};
ghost use Rattle.std.specs.Prelude.{unsigned_abs, IsTrue, OnOk, ◌+◌, ◌<◌};
ghost use Rattle.gf_plane.specs.Reach.{is_reached, is_within_reach};
ghost use Rattle.gf_shape.specs.Round.{is_round};
ghost use Rattle.gf_shape.specs.Rows.{IsRow};
ghost use Rattle.gf_shape.specs.ShapeLaws.{IsBounds};
ghost use Rattle.gf_shape.specs.ShapeMeaning.{round_holds};
ghost use Rattle.gf_shape.specs.ShapeMoves.{round_movable, round_moved};

use crate::around::{apart, high_corner, less, low_corner, more};
use crate::products::{gap, product};
use crate::{Bounds, Point, Row};
use gf_base::OutOfMemory;
use std::marker::Model;

/// The greatest radius.
pub(crate) const MOST_RADIUS: u32 = 10_000_000;

/// The points within a radius of a centre.
#[derive(Clone, Copy, Debug, PartialEq, Eq)]
pub struct Disc {
    centre: Point,
    radius: u32,
}

impl Model for Disc {
    ghost use Rattle.std.specs.Prelude.{IsTrue};
    ghost use Rattle.gf_shape.specs.Round.{Round};

    ghost Value = { Round };

    ghost view = { λ d. record { centre = d.centre; radius = d.radius } };

    ghost use Rattle.gf_shape.specs.Round.{is_round};

    ghost invariant = { λ d. IsTrue (is_round (record { centre = d.centre; radius = d.radius })) };

    ghost inverse = { λ d. record { centre = d.centre; radius = d.radius } };
}

impl Disc {
    /// The disc of this centre and radius.
    pub fn new(centre: Point, radius: u32) -> Disc
        requires { IsTrue (is_round (record { centre = centre; radius = radius })) }
        ensures { result ≡ record { centre = centre; radius = radius } }
    {
        Disc { centre, radius }
    }

    /// The middle of the disc.
    pub fn centre(&self) -> Point
        ensures centre { result ≡ self.now.centre }
        ensures lawful { IsTrue (is_round self.now) }
    {
        self.centre
    }

    /// How far the disc reaches from its centre.
    pub fn radius(&self) -> u32
        ensures radius { result ≡ self.now.radius }
        ensures lawful { IsTrue (is_round self.now) }
    {
        self.radius
    }

    /// A copy of the disc.
    pub(crate) fn copy(&self) -> Disc
        ensures same { result ≡ self.now }
        ensures lawful { IsTrue (is_round result) }
    {
        Disc::new(self.centre, self.radius)
    }

    /// Whether the disc holds the point.
    pub(crate) fn holds(&self, p: Point) -> bool
        ensures { result ≡ round_holds self.now p }
    {
        let (x, y) = (gap(self.centre.x, p.x), gap(self.centre.y, p.y));
        is_within(x, y, self.radius)
    }

    /// The least bounds of what the disc holds.
    pub(crate) fn bounds(&self) -> Bounds
        ensures { IsBounds (round_holds self.now) result }
    {
        Bounds {
            low: low_corner(self.centre, self.radius, self.radius),
            high: high_corner(self.centre, self.radius, self.radius),
        }
    }

    /// Makes `row` the row `y` of the disc.
    pub(crate) fn row_into(&self, y: i32, row: &mut Row) -> Result<(), OutOfMemory>
        ensures { OnOk result (IsRow (round_holds self.now) y row.new) }
    {
        let past = apart(self.centre.y, y);
        if past <= u64::from(self.radius) {
            let half = half_width(self.radius, past);
            row.set(less(self.centre.x, half), more(self.centre.x, half))?;
        } else {
            row.clear();
        }
        Ok(())
    }

    /// Whether the centre of the disc, moved by `d`, lies within reach.
    pub(crate) fn movable(&self, d: Point) -> bool
        ensures { result ≡ round_movable self.now d }
    {
        Point::movable(self.centre, d)
    }

    /// The disc moved by `d`.
    pub(crate) fn moved(&self, d: Point) -> Disc
        requires { IsTrue (round_movable self.now d) }
        ensures { result ≡ round_moved self.now d }
    {
        Disc {
            centre: self.centre.moved(d),
            ..*self
        }
    }
}

/// Whether two gaps are the sides of a right angle whose far side is at most a radius.
fn is_within(x: i64, y: i64, radius: u32) -> bool
    requires x { unsigned_abs x ≤ 2 ^ 32 }
    requires y { unsigned_abs y ≤ 2 ^ 32 }
    ensures { result ≡ int_le (x *ℤ x +ℤ y *ℤ y) (pos (radius * radius)) }
{
    let radius = i64::from(radius);
    product(x, x) + product(y, y) <= product(radius, radius)
}

/// How far a disc reaches to both sides at a height `past` its centre: a root, rounded down.
fn half_width(radius: u32, past: u64) -> u32
    requires radius { radius ≤ 10000000 }
    requires past { past ≤ radius }
    ensures low { result * result + past * past ≤ radius * radius }
    ensures high { radius * radius < (result + 1) * (result + 1) + past * past }
    ensures small { result ≤ 10000000 }
{
    let rest = square(u64::from(radius)) - square(past);
    rest.isqrt() as u32
}

fn square(n: u64) -> u64
    requires { n ≤ 10000000 }
    ensures { result ≡ n * n }
{
    n * n
}
