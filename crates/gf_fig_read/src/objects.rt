//! The objects of a FIG text.

ghost use Rattle.std.specs.Prelude.{◌≡◌, ◌≤◌, ◌==◌, ◌∷◌, nat_le, OnOk, IfErr, IsTrue};
ghost use Rattle.std.specs.Prelude.{is_some, is_none};
ghost use Rattle.gf_figures.specs.Colours.{colour_in, rgb_of};
ghost use Rattle.gf_fig_read.specs.Objects.{colour_object, figure_object, object};
ghost use Rattle.gf_fig_read.specs.Outlines.{chain, ellipse};
ghost use Rattle.gf_fig_read.specs.Stepping.{with_figure};
ghost use Rattle.gf_fig_tokens.specs.declared.faults.FigFault.TheVariants as fault;
ghost use Rattle.gf_fig_read.specs.Stepping.{AddsObject};

use crate::outlines::{chain, ellipse};
use crate::styles::{Style, style_of};
use gf_fig_tokens::{FigFault, Tokens, whole};
use gf_figures::{Drawing, Figure};
use gf_shape::Outline;
use std::alloc::Global;

/// Whether the table has no colour under a number.
#[tactic(auto, using(crate::proofs::NumberLemmas::rgb_of_number))]
fn is_free(drawing: &Drawing<Outline>, number: u16) -> bool
    requires { 32 ≤ number }
    ensures { result ≡ is_none (colour_in drawing.now.table number) }
{
    drawing.rgb(number).is_none()
}

/// Adds the colour whose fields follow.
#[tactic(auto, unfolding(crate::specs::Objects::colour_object))]
fn add_colour(tokens: &mut Tokens<'_>, drawing: &mut Drawing<Outline>) -> Result<(), FigFault>
    ensures { AddsObject result drawing.new tokens.new (colour_object drawing.old tokens.old) }
{
    if !drawing.figures().is_empty() {
        return Err(FigFault::LateColour);
    }
    let number = tokens.natural(32, 543, FigFault::Range)? as u16;
    if !is_free(drawing, number) {
        return Err(FigFault::ColourTwice);
    }
    let colour = tokens.colour()?;
    drawing.add_colour(number, colour)?;
    Ok(())
}

/// Adds a figure of this style and outline.
fn add_figure(drawing: &mut Drawing<Outline>, style: Style, shape: Outline) -> Result<(), FigFault>
    requires known { IsTrue (is_some (rgb_of drawing.old.table style.colour)) }
    requires depth { style.depth ≤ 999 }
    ensures ok { OnOk result (drawing.new ≡ with_figure drawing.old style shape) }
    ensures err { IfErr result (λ f. f ≡ fault.OutOfMemory) }
{
    let figure = Figure {
        shape,
        colour: style.colour,
        depth: style.depth,
    };
    drawing.add_figure(figure)?;
    Ok(())
}

/// Adds the ellipse whose fields follow.
#[tactic(auto, unfolding(crate::specs::Objects::figure_object))]
fn add_ellipse(tokens: &mut Tokens<'_>, drawing: &mut Drawing<Outline>) -> Result<(), FigFault>
    ensures { AddsObject result drawing.new tokens.new
        (figure_object 1 4 (λ t. ellipse (nat_le 3 t)) drawing.old tokens.old) }
{
    let style = style_of(tokens, 1, 4, drawing)?;
    let ellipse = ellipse(tokens, 3 <= style.sub_type)?;
    add_figure(drawing, style, ellipse)
}

/// Adds the polyline whose fields follow.
#[tactic(auto, unfolding(crate::specs::Objects::figure_object))]
fn add_polyline(
    alloc: Global,
    tokens: &mut Tokens<'_>,
    drawing: &mut Drawing<Outline>,
) -> Result<(), FigFault>
    ensures { AddsObject result drawing.new tokens.new
        (figure_object 2 3 (λ t. chain (t == 2)) drawing.old tokens.old) }
{
    let style = style_of(tokens, 2, 3, drawing)?;
    let chain = chain(alloc, tokens, style.sub_type == 2)?;
    add_figure(drawing, style, chain)
}

/// Adds the object that begins with the token `code`.
#[tactic(auto, unfolding(crate::specs::Objects::object, gf_fig_tokens::specs::Fields::natural))]
pub(crate) fn add_object(
    alloc: Global,
    code: &[u8],
    tokens: &mut Tokens<'_>,
    drawing: &mut Drawing<Outline>,
) -> Result<(), FigFault>
    ensures { AddsObject result drawing.new tokens.new
        (object drawing.old (code.now ∷ tokens.old)) }
{
    match whole(code) {
        None => Err(FigFault::Token),
        Some(0) => add_colour(tokens, drawing),
        Some(1) => add_ellipse(tokens, drawing),
        Some(2) => add_polyline(alloc, tokens, drawing),
        Some(_) => Err(FigFault::Object),
    }
}
