//! The edges of a chain between two heights.

ghost use Rattle.std.specs.Prelude.{◌≡◌, ◌++◌, ◌%◌, ◌≤ℤ◌, ℤ, Bool, true, IsTrue, All, IfOk, OnOk};
ghost use Rattle.std.specs.Prelude.{length};
ghost use Rattle.gf_spans.specs.declared.span.Span.{Span as TheSpan};
ghost use Rattle.gf_spans.specs.Spans.{is_in_span};
ghost use Rattle.gf_plane.specs.declared.point.Point.{Point};
ghost use Rattle.gf_shape.specs.FigureMeaning.{chain_holds};
ghost use Rattle.gf_plane.specs.Reach.{is_within_reach};
ghost use Rattle.gf_shape.specs.Rows.{IsRow};
ghost use Rattle.gf_scanline.specs.declared.edge.Edge.{Edge as TheEdge};
ghost use Rattle.gf_scanline.specs.Between.{between_along, between_of};
ghost use Rattle.gf_scanline.specs.Reaching.{IsAcross};
ghost use Rattle.gf_scanline.specs.Telling.{TellsRow, crossings_at};

use crate::{Edge, EdgeRow};
use gf_base::OutOfMemory;
use gf_shape::{Chain, Point};
use gf_spans::Span;
use std::alloc::Global;
use std::marker::Model;

/// The edges of a chain that come between two heights.
#[derive(Drop)]
pub struct Edges {
    edges: Vec<Edge>,
}

impl Model for Edges {
    ghost use Rattle.std.specs.Prelude.{All, List};
    ghost use Rattle.gf_scanline.specs.declared.edge.Edge.{Edge};
    ghost use Rattle.gf_scanline.specs.Between.{IsWithinReach};

    ghost Value = { List Edge };

    ghost view = { λ e. e.edges.items };

    ghost invariant = { λ e. All IsWithinReach e.edges.items };
}

impl Edges {
    /// The edges of a chain that come between `low` and `high`. They determine its rows from `low`
    /// to `high`.
    pub fn between(alloc: Global, chain: &Chain, low: i32, high: i32) -> Result<Edges, OutOfMemory>
        ensures { IfOk result (λ edges. (y : ℤ) → low ≤ℤ y → y ≤ℤ high
            → TellsRow (chain_holds chain.now.points) y edges) }
    {
        let points = chain.points();
        let mut edges = Vec::new(alloc);
        add_along(points[0], &points[1..], low, high, &mut edges)?;
        Ok(Edges { edges })
    }

    /// How many edges there are.
    pub fn len(&self) -> usize
        ensures { result ≡ length self.now }
    {
        self.edges.len()
    }

    /// The span from the leftmost point of the edges to the rightmost: their rows lie in it.
    pub fn reach(&self) -> Span
        ensures { (holds : Point → Bool) (x y : ℤ) → TellsRow holds y self.now
            → holds (record { x = x; y = y }) ≡ true → is_in_span x result ≡ true }
    {
        reach(&self.edges)
    }

    /// Makes `row` the row `y` of each set of points whose row the edges determine.
    pub fn row_into(&self, y: i32, row: &mut EdgeRow) -> Result<(), OutOfMemory>
        requires { length (crossings_at y self.now) % 2 ≡ 0 }
        ensures { OnOk result ((holds : Point → Bool) → TellsRow holds y self.now
            → IsRow holds y row.new) }
    {
        row.set(&self.edges, y)?;
        Ok(())
    }
}

/// Adds those edges of a path that come between two heights.
fn add_along(
    first: Point,
    rest: &[Point],
    low: i32,
    high: i32,
    edges: &mut Vec<Edge>,
) -> Result<(), OutOfMemory>
    requires first { IsTrue (is_within_reach first) }
    requires rest { All (λ p. IsTrue (is_within_reach p)) rest.now }
    ensures { OnOk result (edges.new.items
        ≡ edges.old.items ++ between_along low high first rest.now) }
{
    let mut from = first;
    for to in rest {
        add(Edge { from, to: *to }, low, high, edges)?;
        from = *to;
    }
    Ok(())
}

/// Adds an edge, where it comes between two heights.
fn add(edge: Edge, low: i32, high: i32, edges: &mut Vec<Edge>) -> Result<(), OutOfMemory>
    ensures { OnOk result (edges.new.items ≡ edges.old.items ++ between_of low high edge) }
{
    if edge.comes_between(low, high) {
        edges.push(edge)?;
    }
    Ok(())
}

/// The span from the leftmost point of edges to the rightmost; no numbers where there are no edges.
fn reach(edges: &[Edge]) -> Span
    ensures { All (IsAcross result) edges.now }
{
    let mut all = Span {
        first: i32::MAX,
        last: i32::MIN,
    };
    for edge in edges {
        all = across(all, *edge);
    }
    all
}

/// A span that an edge widens.
fn across(span: Span, edge: Edge) -> Span
    ensures edge { IsAcross result edge }
    ensures wider { (result.first ≤ℤ span.first) × (span.last ≤ℤ result.last) }
{
    Span {
        first: least(span.first, edge.from.x, edge.to.x),
        last: greatest(span.last, edge.from.x, edge.to.x),
    }
}

#[tactic(auto, using(std::proofs::lemmas::Int::ints, std::proofs::lemmas::Int::clamps))]
fn least(a: i32, b: i32, c: i32) -> i32
    ensures { (result ≤ℤ a) × (result ≤ℤ b) × (result ≤ℤ c) }
{
    a.min(b).min(c)
}

#[tactic(auto, using(std::proofs::lemmas::Int::ints, std::proofs::lemmas::Int::clamps))]
fn greatest(a: i32, b: i32, c: i32) -> i32
    ensures { (a ≤ℤ result) × (b ≤ℤ result) × (c ≤ℤ result) }
{
    a.max(b).max(c)
}
