//! Pieces: what a band has of a layer.

ghost use Rattle.std.specs.Prelude.{◌≡◌, ℕ, ℤ, ◌≤ℤ◌, Bool, true, ◌&&◌, int_le, IfOk};
ghost use Rattle.std.specs.Prelude.{IfSome, None};
ghost use Rattle.gf_scanline.specs.Telling.{TellsRow};
ghost use Rattle.gf_spans.specs.Spans.{is_in_span};
ghost use Rattle.gf_plane.specs.declared.point.Point.{Point};
ghost use Rattle.gf_shape.specs.Rows.{IsRow};
ghost use Rattle.gf_shape.specs.ShapeLaws.{IsBounds};
ghost use Rattle.gf_scanline.specs.Bands.{HasRow};
ghost use Rattle.gf_scanline.specs.Layers.{IsLayer};
ghost use Rattle.gf_scanline.specs.Pieces.{IsPiece, IsUnseen, reaches};

use crate::{Band, Columns, Edges, Layer, Workspace};
use gf_base::OutOfMemory;
use gf_shape::{Bounds, Shape, Span};
use std::alloc::Global;

/// What a band has of a layer: bounds, and the columns that it may be seen in. Of a polygon it has
/// the edges that come between the rows.
#[derive(Drop)]
pub(crate) struct Piece<'l, 'a, S> {
    pub layer: &'l Layer<'a, S>,
    pub bounds: Bounds,
    pub columns: Columns,
    pub edges: Option<Edges>,
}

/// What a band has of a layer.
pub(crate) fn piece_of<'l, 'a, S: Shape>(
    alloc: Global,
    layer: &'l Layer<'a, S>,
    band: Band,
) -> Result<Option<Piece<'l, 'a, S>>, OutOfMemory>
    requires { IsLayer S.holds layer.now }
    ensures layer { IfOk result (λ found. IfSome found (λ p. p.layer.now ≡ layer.now)) }
    ensures some { IfOk result (λ found.
        IfSome found (λ p. (j : ℕ) → HasRow band j → IsPiece S.holds band.window j p)) }
    ensures none { IfOk result (λ found. found ≡ None → IsUnseen S.holds band layer.now) }
{
    let bounds = layer.bounds;
    let window = band.window();
    let low = window.line(band.top());
    let high = window.line(band.last());
    if !reaches(bounds, low, high) {
        return Ok(None);
    }
    let columns = window.columns(across(bounds));
    if columns.to <= columns.from {
        return Ok(None);
    }
    let edges = edges(alloc, layer, low, high)?;
    let columns = window.columns(reach(bounds, &edges));
    Ok(Some(Piece {
        layer,
        bounds,
        columns,
        edges,
    }))
}

/// Whether bounds reach a height from `low` to `high`.
#[tactic(auto, using(std::proofs::lemmas::Int::ints))]
pub(crate) fn reaches(bounds: Bounds, low: i32, high: i32) -> bool
    ensures { result ≡ reaches low high bounds }
{
    bounds.low.y <= high && low <= bounds.high.y
}

/// How far a shape reaches to the left and to the right, in a row that its edges determine. The
/// span is within the bounds, and within the reach of the edges where there are some.
fn reach(bounds: Bounds, edges: &Option<Edges>) -> Span
    ensures { (holds : Point → Bool) (x y : ℤ) → IsBounds holds bounds
        → IfSome edges.now (λ es. TellsRow holds y es) → holds (record { x = x; y = y }) ≡ true
        → is_in_span x result ≡ true }
{
    match edges {
        Some(edges) => edges.reach(),
        None => across(bounds),
    }
}

/// The span from the left of bounds to their right.
fn across(bounds: Bounds) -> Span
    ensures { result ≡ record { first = bounds.low.x; last = bounds.high.x } }
{
    Span {
        first: bounds.low.x,
        last: bounds.high.x,
    }
}

/// The edges of a layer's chain that come between two heights, if it has one.
fn edges<S: Shape>(
    alloc: Global,
    layer: &Layer<'_, S>,
    low: i32,
    high: i32,
) -> Result<Option<Edges>, OutOfMemory>
    requires { IsLayer S.holds layer.now }
    ensures { IfOk result (λ found. IfSome found (λ es. (y : ℤ) → low ≤ℤ y → y ≤ℤ high
        → TellsRow (S.holds layer.now.shape.now) y es)) }
{
    match &layer.chain {
        Some(chain) => {
            let edges = Edges::between(alloc, chain, low, high)?;
            Ok(Some(edges))
        }
        None => Ok(None),
    }
}

/// The spans of a piece in the row `y`.
pub(crate) fn spans<'r, S: Shape>(
    piece: &Piece<'_, '_, S>,
    y: i32,
    space: &'r mut Workspace,
) -> Result<&'r [Span], OutOfMemory>
    requires { IfSome piece.now.edges (λ es.
        TellsRow (S.holds piece.now.layer.now.shape.now) y es) }
    ensures { IfOk result (λ spans. IsRow (S.holds piece.now.layer.now.shape.now) y spans.now) }
{
    if let Some(edges) = &piece.edges {
        edges.row_into(y, &mut space.told)?;
        return Ok(space.told.spans());
    }
    piece.layer.shape.row_into(y, &mut space.found)?;
    Ok(space.found.spans())
}
