//! Whether a visible version looks like a figure.

ghost use Rattle.std.specs.Prelude.{◌≡◌, ◌↔◌, IfOk, IsTrue};
ghost use Rattle.gf_take.specs.Matching.{BecomeAlike, IsTraced};

use crate::swapping::same_colour;
use gf_base::OutOfMemory;
use gf_figures::{Drawing, Figure};
use gf_objects::{colour_of, form_of, place_of};
use gf_ops::same_form;
use gf_shape::{Outline, Point, Rgb};
use std::alloc::Global;

/// Whether a version of this outline and colour looks like a figure of a drawing.
pub(crate) fn looks(
    alloc: Global,
    outline: &Outline,
    colour: Rgb,
    drawing: &Drawing<Outline>,
    figure: &Figure<Outline>,
) -> Result<bool, OutOfMemory>
    ensures { IfOk result (λ same. IsTrue same
        ↔ IsTraced drawing.now.table outline.now colour figure.now) }
{
    if !become_alike(alloc, outline, &figure.shape)? {
        return Ok(false);
    }
    Ok(same_colour(colour, colour_of(drawing, figure)))
}

/// Whether an outline becomes the object that another outline becomes.
fn become_alike(alloc: Global, own: &Outline, other: &Outline) -> Result<bool, OutOfMemory>
    ensures { IfOk result (λ same. IsTrue same ↔ BecomeAlike own.now other.now) }
{
    if !same_place(place_of(own), place_of(other)) {
        return Ok(false);
    }
    let form = form_of(alloc, own)?;
    let other = form_of(alloc, other)?;
    Ok(same_form(&form, &other))
}

fn same_place(a: Point, b: Point) -> bool
    ensures { IsTrue result ↔ a ≡ b }
{
    a == b
}
