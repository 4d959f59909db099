//! Columns in one colour, in whatever order they were painted.

ghost use Rattle.std.specs.Prelude.{ℕ, IfOk, OnOk};
ghost use Rattle.std.specs.List.Sorted.{IsNonDecreasingBy, IsPermutation};
ghost use Rattle.gf_plane.specs.declared.colour.Rgb.{Rgb};
ghost use Rattle.gf_scanline.specs.Segments.{AreSegmentsOf, views};
ghost use Rattle.gf_scanline.specs.Strokes.{AreStrokesOf};

use crate::{Brush, Columns, Stroke};
use gf_base::OutOfMemory;
use std::alloc::Global;

/// Columns in one colour.
#[derive(Clone, Copy)]
pub(crate) struct Segment<'b> {
    pub columns: Columns,
    pub brush: &'b Brush,
}

/// Puts the segments in order, from the left.
pub(crate) fn sort(segments: &mut Vec<Segment<'_>>) -> Result<(), OutOfMemory>
    ensures permutation { OnOk result (IsPermutation segments.old.items segments.new.items) }
    ensures sorted { OnOk result (IsNonDecreasingBy (λ s. s.columns.from) segments.new.items) }
{
    segments.sort_by_key(|segment| segment.columns.from)?;
    Ok(())
}

/// The strokes of a row that the segments cover, from the left.
pub(crate) fn strokes_of<'b>(
    alloc: Global,
    segments: &[Segment<'b>],
) -> Result<Vec<Stroke<'b>>, OutOfMemory>
    requires { IsNonDecreasingBy (λ s. s.columns.from) segments.now }
    ensures { IfOk result (λ strokes. (target : ℕ → Rgb) (n : ℕ)
        → AreSegmentsOf target n (views segments.now) → AreStrokesOf target n strokes.items) }
{
    let mut strokes = Vec::with_capacity(alloc, segments.len())?;
    let mut at = 0;
    for segment in segments {
        if at < segment.columns.to {
            at = segment.columns.to;
            strokes.push(Stroke {
                to: at,
                brush: segment.brush,
            })?;
        }
    }
    Ok(strokes)
}
