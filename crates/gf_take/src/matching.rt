//! Whether visible versions show the figures of a drawing.

ghost use Rattle.std.specs.Prelude.{◌≡◌, ◌↔◌, ◌<◌, true, false, IfOk, IfSome, IfNone, IsTrue, All};
ghost use Rattle.std.specs.Prelude.{length, map};
ghost use Rattle.gf_figures.specs.DrawingColour.{from_front};
ghost use Rattle.gf_shape.specs.Outlines.{any_outline};
ghost use Rattle.gf_take.specs.Matching.{AreShown, AreTraced, IsLikeAt, IsTraced};
ghost use Rattle.gf_take.specs.Matching.{TakesLike, TakesNone};

use crate::looks::looks;
use crate::swapping::can_pass;
use gf_base::OutOfMemory;
use gf_figures::{Drawing, Figure};
use gf_shape::{AnyShape, Outline, Rgb, Shape};
use gf_versions::Placed;
use std::alloc::Global;

/// Whether ranked versions show the figures of a drawing. Each version in turn takes the first
/// figure from the front that it looks like, of those that are left.
pub(crate) fn show_figures(
    alloc: Global,
    items: &[Placed<AnyShape>],
    drawing: &Drawing<Outline>,
) -> Result<bool, OutOfMemory>
    ensures { IfOk result (λ shown. IsTrue shown
        ↔ AreShown drawing.now.table (from_front drawing.now.figures) items.now) }
{
    let mut left = drawing.front_to_back(alloc)?;
    for item in items {
        if !take_out(alloc, item, drawing, &mut left)? {
            return Ok(false);
        }
    }
    Ok(left.is_empty())
}

/// Whether ranked versions look like the figures of a drawing from the front, one like the other.
pub(crate) fn look_alike(
    alloc: Global,
    items: &[Placed<AnyShape>],
    drawing: &Drawing<Outline>,
) -> Result<bool, OutOfMemory>
    ensures { IfOk result (λ alike. IsTrue alike
        ↔ AreTraced drawing.now.table items.now (from_front drawing.now.figures)) }
{
    let figures = drawing.front_to_back(alloc)?;
    if figures.len() != items.len() {
        return Ok(false);
    }
    for position in 0..items.len() {
        if !is_like(alloc, &items[position], drawing, figures[position])? {
            return Ok(false);
        }
    }
    Ok(true)
}

/// Whether a version looks like a figure of a drawing.
pub(crate) fn is_like(
    alloc: Global,
    item: &Placed<AnyShape>,
    drawing: &Drawing<Outline>,
    figure: &Figure<Outline>,
) -> Result<bool, OutOfMemory>
    ensures { IfOk result (λ same. IsTrue same ↔ IsTraced drawing.now.table
        (any_outline item.now.shape) item.now.colour figure.now) }
{
    let outline = item.shape.outline(alloc)?;
    looks(alloc, &outline, item.colour, drawing, figure)
}

/// Takes out the first figure that a version looks like, where it can be swapped with all before
/// it.
fn take_out(
    alloc: Global,
    item: &Placed<AnyShape>,
    drawing: &Drawing<Outline>,
    left: &mut Vec<&Figure<Outline>>,
) -> Result<bool, OutOfMemory>
    ensures some { IfOk result (λ taken. taken ≡ true → TakesLike drawing.now.table item.now
        (map (λ f. f.now) left.old.items) (map (λ f. f.now) left.new.items)) }
    ensures none { IfOk result (λ taken. taken ≡ false → TakesNone drawing.now.table item.now
        (map (λ f. f.now) left.old.items)) }
{
    let outline = item.shape.outline(alloc)?;
    let Some(position) = first_like(alloc, &outline, item.colour, drawing, left)? else {
        return Ok(false);
    };
    if !can_pass(drawing, left[position], &left[..position]) {
        return Ok(false);
    }
    let _ = left.remove(position);
    Ok(true)
}

/// The position of the first figure that a version of this outline and colour looks like.
fn first_like(
    alloc: Global,
    outline: &Outline,
    colour: Rgb,
    drawing: &Drawing<Outline>,
    figures: &[&Figure<Outline>],
) -> Result<Option<usize>, OutOfMemory>
    ensures some { IfOk result (λ position. IfSome position
        (IsLikeAt drawing.now.table outline.now colour (map (λ f. f.now) figures.now))) }
    ensures within { IfOk result (λ position. IfSome position (λ k. k < length figures.now)) }
    ensures none { IfOk result (λ position. IfNone position
        (All (λ f. ¬ (IsTraced drawing.now.table outline.now colour f))
        (map (λ f. f.now) figures.now))) }
{
    for position in 0..figures.len() {
        if looks(alloc, outline, colour, drawing, figures[position])? {
            return Ok(Some(position));
        }
    }
    Ok(None)
}
