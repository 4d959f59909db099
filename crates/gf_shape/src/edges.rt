//! Edges between points, and what a row of them holds.

ghost use Rattle.std.specs.Prelude.{◌≡◌, ◌∷◌};
ghost use Rattle.gf_shape.specs.Edges.{climbs_past, crosses_left, is_between, is_on_edge};
ghost use Rattle.gf_shape.specs.Edges.{is_on_line, side};
ghost use Rattle.gf_shape.specs.FigureMeaning.{chain_holds};

use crate::Point;
use crate::products::{gap, product};

/// Whether the closed chain of a point and those after it holds `p`: one pass over its edges.
pub(crate) fn path_holds(first: Point, rest: &[Point], p: Point) -> bool
    ensures { result ≡ chain_holds (first ∷ rest.now) p }
{
    let mut from = first;
    let mut odd = false;
    for to in rest {
        if is_on_edge(p, from, *to) {
            return true;
        }
        if crosses_left(p, from, *to) {
            odd = !odd;
        }
        from = *to;
    }
    odd
}

fn is_on_edge(d: Point, a: Point, b: Point) -> bool
    ensures { result ≡ is_on_edge d (a, b) }
{
    is_on_line(d, a, b) && is_between(a.x, d.x, b.x) && is_between(a.y, d.y, b.y)
}

/// Whether the edge crosses the ray from `d` to the left.
fn crosses_left(d: Point, a: Point, b: Point) -> bool
    ensures { result ≡ crosses_left d (a, b) }
{
    let side = side(a, b, d);
    climbs_past(d, a, b) && side < 0 || climbs_past(d, b, a) && 0 < side
}

#[tactic(auto, using(std::proofs::lemmas::Int::ints))]
pub(crate) fn climbs_past(d: Point, a: Point, b: Point) -> bool
    ensures { result ≡ climbs_past d (a, b) }
{
    a.y <= d.y && !(b.y <= d.y)
}

#[tactic(auto, using(std::proofs::lemmas::Int::ints), unfolding(crate::specs::Edges::is_between))]
fn is_between(a: i32, m: i32, b: i32) -> bool
    ensures { result ≡ is_between a m b }
{
    a <= m && m <= b || b <= m && m <= a
}

#[tactic(auto, using(std::proofs::lemmas::Int::ints), unfolding(crate::specs::Edges::is_on_line))]
fn is_on_line(d: Point, a: Point, b: Point) -> bool
    ensures { result ≡ is_on_line d (a, b) }
{
    side(a, b, d) == 0
}

/// On which side of the line from `a` to `b` the point `d` lies.
fn side(a: Point, b: Point, d: Point) -> i128
    ensures { result ≡ side (a, b) d }
{
    let climb = product(gap(a.x, b.x), gap(a.y, d.y));
    let reach = product(gap(a.y, b.y), gap(a.x, d.x));
    climb - reach
}
