//! The least bounds of figures.

ghost use Rattle.std.specs.Prelude.{◌≡◌, Option, None, Some};
ghost use Rattle.gf_fit.specs.FittedWindow.{AreBounds, held};
ghost use Rattle.gf_fit.specs.JoinedBounds.{joined, widened};

use gf_figures::Figure;
use gf_shape::{Bounds, Shape};

/// The least bounds of all points that figures hold, in one pass over the figures.
pub(crate) fn bounds_of<S: Shape>(figures: &[Figure<S>]) -> Option<Bounds>
    ensures { AreBounds (held S.holds figures.now) result }
{
    let mut bounds = None;
    for figure in figures {
        bounds = Some(widened(bounds, figure.shape.bounds()));
    }
    bounds
}

/// Bounds widened to further ones.
fn widened(bounds: Option<Bounds>, more: Bounds) -> Bounds
    ensures { result ≡ widened bounds more }
{
    match bounds {
        Some(bounds) => joined(bounds, more),
        None => more,
    }
}

/// The least bounds around two.
fn joined(a: Bounds, b: Bounds) -> Bounds
    ensures { result ≡ joined a b }
{
    Bounds {
        low: a.low.least(b.low),
        high: a.high.most(b.high),
    }
}
