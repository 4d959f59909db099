//! Whether two figures may change places in the order without being seen to.

ghost use Rattle.std.specs.Prelude.{◌≡◌, ◌↔◌, IsTrue, All, map};
ghost use Rattle.gf_take.specs.Matching.{are_apart, lie_beside};
ghost use Rattle.gf_take.specs.ShownDrawing.{AreApart, CanSwap};

use gf_figures::{Drawing, Figure};
use gf_objects::colour_of;
use gf_shape::{Bounds, Outline, Rgb, Shape};

pub(crate) fn same_colour(a: Rgb, b: Rgb) -> bool
    ensures { IsTrue result ↔ a ≡ b }
{
    a == b
}

/// Whether a figure of a drawing can be swapped with all of these.
pub(crate) fn can_pass(
    drawing: &Drawing<Outline>,
    figure: &Figure<Outline>,
    others: &[&Figure<Outline>],
) -> bool
    ensures { IsTrue result
        ↔ All (CanSwap drawing.now.table figure.now) (map (λ f. f.now) others.now) }
{
    for other in others {
        if !can_swap(drawing, figure, other) {
            return false;
        }
    }
    true
}

/// Whether two figures of a drawing have one colour, or lie apart.
fn can_swap(drawing: &Drawing<Outline>, figure: &Figure<Outline>, other: &Figure<Outline>) -> bool
    ensures { IsTrue result ↔ CanSwap drawing.now.table figure.now other.now }
{
    same_colour(colour_of(drawing, figure), colour_of(drawing, other))
        || lie_apart(&figure.shape, &other.shape)
}

/// Whether the bounds of two outlines do not meet.
fn lie_apart(a: &Outline, b: &Outline) -> bool
    ensures { IsTrue result ↔ AreApart a.now b.now }
{
    are_apart(a.bounds(), b.bounds())
}

/// Whether bounds do not meet.
fn are_apart(a: Bounds, b: Bounds) -> bool
    ensures { result ≡ are_apart a b }
{
    lie_beside(a.low.x, a.high.x, b.low.x, b.high.x)
        || lie_beside(a.low.y, a.high.y, b.low.y, b.high.y)
}

/// Whether two spans, each from a low to a high number, do not meet.
#[tactic(auto, using(std::proofs::lemmas::Int::ints), unfolding(crate::specs::Matching::lie_beside))]
fn lie_beside(low: i32, high: i32, other_low: i32, other_high: i32) -> bool
    ensures { result ≡ lie_beside low high other_low other_high }
{
    high < other_low || other_high < low
}
