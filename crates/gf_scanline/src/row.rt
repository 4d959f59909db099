//! A row of pieces, painted from the front.

ghost use Rattle.std.specs.Prelude.{◌≡◌, ℕ, ◌<◌, OnOk, All};
ghost use Rattle.std.specs.List.{list_any};
ghost use Rattle.gf_spans.specs.Spans.{is_in_span};
ghost use Rattle.gf_plane.specs.declared.colour.Rgb.{Rgb};
ghost use Rattle.gf_plane.specs.White.{white};
ghost use Rattle.gf_scanline.specs.Strips.{IsPainted, over};
ghost use Rattle.gf_scanline.specs.Windows.{column};
ghost use Rattle.gf_scanline.specs.Layers.{layer_over, row_colours};
ghost use Rattle.gf_scanline.specs.Pieces.{IsPiece, layers_of};

use crate::piece::{Piece, reaches, spans};
use crate::{Brush, Strip, Window, Workspace};
use gf_base::OutOfMemory;
use gf_shape::{Shape, Span};

/// Paints the pieces of row `j`, until no column is free.
pub(crate) fn paint_pieces<'l, S: Shape>(
    pieces: &[Piece<'l, '_, S>],
    window: Window,
    j: usize,
    strip: &mut Strip<'l>,
    space: &mut Workspace,
) -> Result<(), OutOfMemory>
    requires row { j < window.height }
    requires pieces { All (IsPiece S.holds window j) pieces.now }
    ensures { OnOk result ((target : ℕ → Rgb)
        → IsPainted target (row_colours S.holds (layers_of pieces.now) window j) window.width
        strip.old
        → IsPainted target (λ _. white) window.width strip.new) }
{
    for piece in pieces {
        if strip.is_covered() {
            return Ok(());
        }
        paint_piece(piece, window, j, strip, space)?;
    }
    Ok(())
}

/// Paints a piece, where one of its columns is free.
fn paint_piece<'l, S: Shape>(
    piece: &Piece<'l, '_, S>,
    window: Window,
    j: usize,
    strip: &mut Strip<'l>,
    space: &mut Workspace,
) -> Result<(), OutOfMemory>
    requires row { j < window.height }
    requires piece { IsPiece S.holds window j piece.now }
    ensures { OnOk result ((target behind : ℕ → Rgb)
        → IsPainted target (layer_over S.holds window j behind piece.now.layer.now)
        window.width strip.old → IsPainted target behind window.width strip.new) }
{
    let y = window.line(j);
    if !reaches(piece.bounds, y, y) {
        return Ok(());
    }
    if !strip.has_free(piece.columns) {
        return Ok(());
    }
    let spans = spans(piece, y, space)?;
    let layer = piece.layer;
    paint_spans(spans, window, &layer.brush, strip)?;
    Ok(())
}

/// Paints the columns that lie in spans.
fn paint_spans<'l>(
    spans: &[Span],
    window: Window,
    brush: &'l Brush,
    strip: &mut Strip<'l>,
) -> Result<(), OutOfMemory>
    ensures { OnOk result ((target behind : ℕ → Rgb)
        → IsPainted target (over (λ k. list_any (is_in_span (column window k)) spans.now)
        brush.now behind) window.width strip.old → IsPainted target behind window.width strip.new) }
{
    for span in spans {
        paint_span(*span, window, brush, strip)?;
    }
    Ok(())
}

fn paint_span<'l>(
    span: Span,
    window: Window,
    brush: &'l Brush,
    strip: &mut Strip<'l>,
) -> Result<(), OutOfMemory>
    ensures { OnOk result ((target behind : ℕ → Rgb)
        → IsPainted target (over (λ k. is_in_span (column window k) span) brush.now behind)
        window.width strip.old → IsPainted target behind window.width strip.new) }
{
    strip.paint(window.columns(span), brush)?;
    Ok(())
}
