//! Ovals.

ghost use Rattle.std.specs.Prelude.{◌≡◌, ◌*◌, ◌≤◌, ◌<◌, ◌+◌, ◌^◌, nat_le, IsTrue, OnOk};
ghost use Rattle.gf_shape.specs.Oblong.{is_oblong, is_radius};
ghost use Rattle.gf_shape.specs.Rows.{IsRow};
ghost use Rattle.gf_shape.specs.ShapeLaws.{IsBounds};
ghost use Rattle.gf_shape.specs.ShapeMeaning.{oval_holds};
ghost use Rattle.gf_shape.specs.ShapeMoves.{oval_movable, oval_moved};

use crate::around::{apart, high_corner, less, low_corner, more};
use crate::disc::MOST_RADIUS;
use crate::products::square;
use crate::{Bounds, Point, Row};
use gf_base::OutOfMemory;
use std::marker::Model;

/// The points of an ellipse with level axes round a centre.
#[derive(Clone, Copy, Debug, PartialEq, Eq)]
pub struct Oval {
    centre: Point,
    rx: u32,
    ry: u32,
}

impl Model for Oval {
    ghost use Rattle.std.specs.Prelude.{IsTrue};
    ghost use Rattle.gf_shape.specs.Oblong.{Oblong, is_oblong};

    ghost Value = { Oblong };

    ghost view = { λ o. record { centre = o.centre; rx = o.rx; ry = o.ry } };

    ghost invariant = { λ o. IsTrue (is_oblong
        (record { centre = o.centre; rx = o.rx; ry = o.ry })) };

    ghost inverse = { λ o. record { centre = o.centre; rx = o.rx; ry = o.ry } };
}

impl Oval {
    /// The oval of this centre and these radii.
    pub fn new(centre: Point, rx: u32, ry: u32) -> Oval
        requires { IsTrue (is_oblong (record { centre = centre; rx = rx; ry = ry })) }
        ensures { result ≡ record { centre = centre; rx = rx; ry = ry } }
    {
        Oval { centre, rx, ry }
    }

    /// The middle of the oval.
    pub fn centre(&self) -> Point
        ensures centre { result ≡ self.now.centre }
        ensures lawful { IsTrue (is_oblong self.now) }
    {
        self.centre
    }

    /// How far the oval reaches from its centre to both sides.
    pub fn rx(&self) -> u32
        ensures radius { result ≡ self.now.rx }
        ensures lawful { IsTrue (is_oblong self.now) }
    {
        self.rx
    }

    /// How far the oval reaches from its centre upwards and downwards.
    pub fn ry(&self) -> u32
        ensures radius { result ≡ self.now.ry }
        ensures lawful { IsTrue (is_oblong self.now) }
    {
        self.ry
    }

    /// A copy of the oval.
    pub(crate) fn copy(&self) -> Oval
        ensures same { result ≡ self.now }
        ensures lawful { IsTrue (is_oblong result) }
    {
        Oval::new(self.centre, self.rx, self.ry)
    }

    /// Whether the oval holds the point.
    pub(crate) fn holds(&self, p: Point) -> bool
        ensures { result ≡ oval_holds self.now p }
    {
        let (x, y) = (apart(self.centre.x, p.x), apart(self.centre.y, p.y));
        is_within(x, y, self.rx, self.ry)
    }

    /// The least bounds of what the oval holds.
    pub(crate) fn bounds(&self) -> Bounds
        ensures { IsBounds (oval_holds self.now) result }
    {
        Bounds {
            low: low_corner(self.centre, self.rx, self.ry),
            high: high_corner(self.centre, self.rx, self.ry),
        }
    }

    /// Makes `row` the row `y` of the oval.
    pub(crate) fn row_into(&self, y: i32, row: &mut Row) -> Result<(), OutOfMemory>
        ensures { OnOk result (IsRow (oval_holds self.now) y row.new) }
    {
        let past = apart(self.centre.y, y);
        if past <= u64::from(self.ry) {
            let half = half_width(self.rx, self.ry, past);
            row.set(less(self.centre.x, half), more(self.centre.x, half))?;
        } else {
            row.clear();
        }
        Ok(())
    }

    /// Whether the centre of the oval, moved by `d`, lies within reach.
    pub(crate) fn movable(&self, d: Point) -> bool
        ensures { result ≡ oval_movable self.now d }
    {
        Point::movable(self.centre, d)
    }

    /// The oval moved by `d`.
    pub(crate) fn moved(&self, d: Point) -> Oval
        requires { IsTrue (oval_movable self.now d) }
        ensures { result ≡ oval_moved self.now d }
    {
        Oval {
            centre: self.centre.moved(d),
            ..*self
        }
    }
}

/// Whether a number is a radius.
pub(crate) fn is_radius(n: u32) -> bool
    ensures { result ≡ is_radius n }
{
    1 <= n && n <= MOST_RADIUS
}

/// Whether an oval of these radii holds what is `x` beside its centre and `y` above or below it.
fn is_within(x: u64, y: u64, rx: u32, ry: u32) -> bool
    requires x { x ≤ 2 ^ 32 }
    requires y { y ≤ 2 ^ 32 }
    requires rx { rx ≤ 10000000 }
    requires ry { ry ≤ 10000000 }
    ensures { result ≡ nat_le (x * x * (ry * ry) + y * y * (rx * rx)) (rx * rx * (ry * ry)) }
{
    let (rx, ry) = (u64::from(rx), u64::from(ry));
    squares(x, ry) + squares(y, rx) <= squares(rx, ry)
}

/// The square of a number times the square of a radius.
fn squares(n: u64, radius: u64) -> u128
    requires n { n ≤ 2 ^ 32 }
    requires radius { radius ≤ 10000000 }
    ensures value { result ≡ n * n * (radius * radius) }
    ensures small { result ≤ 2 ^ 112 }
{
    square(n) * square(radius)
}

/// How far an oval reaches to both sides at a height `past` its centre: a root, rounded down.
fn half_width(rx: u32, ry: u32, past: u64) -> u32
    requires rx { rx ≤ 10000000 }
    requires ry { ry ≤ 10000000 }
    requires some { 1 ≤ ry }
    requires past { past ≤ ry }
    ensures low { result * result * (ry * ry) + past * past * (rx * rx) ≤ rx * rx * (ry * ry) }
    ensures high { rx * rx * (ry * ry)
        < (result + 1) * (result + 1) * (ry * ry) + past * past * (rx * rx) }
    ensures small { result ≤ 10000000 }
{
    part(rx.into(), ry.into(), past).isqrt() as u32
}

/// The square of `rx` times the part of `ry` squared that is left past `past` squared, rounded
/// down.
fn part(rx: u64, ry: u64, past: u64) -> u64
    requires rx { rx ≤ 10000000 }
    requires ry { ry ≤ 10000000 }
    requires some { 1 ≤ ry }
    requires past { past ≤ ry }
    ensures low { result * (ry * ry) + past * past * (rx * rx) ≤ rx * rx * (ry * ry) }
    ensures high { rx * rx * (ry * ry) < (result + 1) * (ry * ry) + past * past * (rx * rx) }
    ensures small { result ≤ rx * rx }
{
    let rest = square(ry) - square(past);
    (square(rx) * rest / square(ry)) as u64
}
