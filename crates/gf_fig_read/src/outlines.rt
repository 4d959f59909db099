//! The outlines of polylines and ellipses.

ghost use Rattle.std.specs.Prelude.{◌≡◌, ◌≤◌, true, length, All, Some, IfOk, IsTrue};
ghost use Rattle.gf_plane.specs.Reach.{is_within_reach};
ghost use Rattle.gf_fig_tokens.specs.Fields.{StepsAs, points};
ghost use Rattle.gf_fig_read.specs.Outlines.{same_point, is_closed, count, chain, ellipse};
ghost use Rattle.gf_fig_read.specs.Stepping.{Recalls};

use gf_fig_tokens::{FigFault, Tokens};
use gf_shape::{Chain, Disc, Outline, Oval, Point};
use std::alloc::Global;

/// The fields of an ellipse behind its style, a circle where it is to be round.
#[tactic(auto, unfolding(crate::specs::Outlines::ellipse))]
pub(crate) fn ellipse(tokens: &mut Tokens<'_>, round: bool) -> Result<Outline, FigFault>
    ensures { StepsAs result tokens.new (ellipse round tokens.old) }
{
    tokens.whole()?;
    let zero = tokens.decimal()?;
    if !(round || zero) {
        return Err(FigFault::Angle);
    }
    let centre = tokens.point()?;
    let rx = tokens.natural(1, 10_000_000, FigFault::Radius)?;
    let (least, most) = if round { (rx, rx) } else { (1, 10_000_000) };
    let ry = tokens.natural(least, most, FigFault::Radius)?;
    tokens.whole()?;
    tokens.whole()?;
    tokens.whole()?;
    tokens.whole()?;
    Ok(if round {
        Outline::Disc(Disc::new(centre, rx))
    } else {
        Outline::Oval(Oval::new(centre, rx, ry))
    })
}

/// The fields of a polyline from its join style on: how many points follow.
#[tactic(auto, unfolding(crate::specs::Outlines::count))]
fn count(tokens: &mut Tokens<'_>, boxed: bool) -> Result<u32, FigFault>
    ensures read { StepsAs result tokens.new (count boxed tokens.old) }
    ensures least { IfOk result (λ n. 4 ≤ n) }
    ensures most { IfOk result (λ n. n ≤ 65536) }
    ensures five { IfOk result (λ n. boxed ≡ true → n ≡ 5) }
{
    let (least, most) = if boxed { (5, 5) } else { (4, 65_536) };
    tokens.whole()?;
    tokens.whole()?;
    tokens.whole()?;
    tokens.natural(0, 0, FigFault::Arrow)?;
    tokens.natural(0, 0, FigFault::Arrow)?;
    tokens.natural(least, most, FigFault::Count)
}

fn points(alloc: Global, tokens: &mut Tokens<'_>, count: u32) -> Result<Vec<Point>, FigFault>
    ensures read { Recalls (λ v. v.items) result tokens.new (points count tokens.old) }
    ensures len { IfOk result (λ v. length v.items ≡ count) }
    ensures within { IfOk result (λ v. All (λ p. IsTrue (is_within_reach p)) v.items) }
{
    let mut points = Vec::new(alloc);
    for _ in 0..count {
        let point = tokens.point()?;
        points.push(point)?;
    }
    Ok(points)
}

/// Whether the last point is the first.
fn is_closed(points: &[Point]) -> bool
    ensures { result ≡ is_closed points.now }
{
    match (points.last(), points.first()) {
        (Some(last), Some(first)) => is_same(*last, *first),
        _ => false,
    }
}

fn is_same(p: Point, q: Point) -> bool
    ensures { result ≡ same_point (Some p) (Some q) }
{
    p.x == q.x && p.y == q.y
}

#[tactic(auto, using(crate::proofs::RingLemmas::ring_from), unfolding(crate::specs::Outlines::chain))]
pub(crate) fn chain(
    alloc: Global,
    tokens: &mut Tokens<'_>,
    boxed: bool,
) -> Result<Outline, FigFault>
    ensures { Recalls (λ o. o) result tokens.new (chain boxed tokens.old) }
{
    let count = count(tokens, boxed)?;
    let points = points(alloc, tokens, count)?;
    if is_closed(&points) {
        Ok(Outline::Chain(Chain::new(boxed, points)))
    } else {
        Err(FigFault::Open)
    }
}
