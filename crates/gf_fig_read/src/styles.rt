//! What a polyline and an ellipse begin with.

ghost use Rattle.std.specs.Prelude.{◌≡◌, ◌≤◌, IfOk, IsTrue, is_some};
ghost use Rattle.gf_figures.specs.Colours.{rgb_of};
ghost use Rattle.gf_fig_read.specs.Styles.{is_known, known_colour, filling, style};
ghost use Rattle.gf_fig_tokens.specs.Fields.{StepsAs};

use gf_fig_tokens::{FigFault, Tokens};
use gf_figures::Drawing;
use gf_shape::Outline;

/// What a polyline and an ellipse begin with.
#[derive(Clone, Copy)]
pub(crate) struct Style {
    pub(crate) sub_type: u32,
    pub(crate) colour: u16,
    pub(crate) depth: u16,
}

#[tactic(auto, using(std::proofs::lemmas::Int::ints))]
fn is_known(drawing: &Drawing<Outline>, n: i64) -> bool
    ensures { result ≡ is_known drawing.now.table n }
{
    0 <= n && n <= 543 && drawing.rgb(n as u16).is_some()
}

#[tactic(auto, using(std::proofs::lemmas::Int::ints), unfolding(crate::specs::Styles::known_colour))]
fn known_colour(tokens: &mut Tokens<'_>, drawing: &Drawing<Outline>) -> Result<u16, FigFault>
    ensures read { StepsAs result tokens.new (known_colour drawing.now.table tokens.old) }
    ensures known { IfOk result (λ n. IsTrue (is_some (rgb_of drawing.now.table n))) }
{
    let n = tokens.whole()?;
    if is_known(drawing, n) {
        Ok(n as u16)
    } else {
        Err(FigFault::NoColour)
    }
}

#[tactic(auto, unfolding(crate::specs::Styles::filling))]
fn filling(tokens: &mut Tokens<'_>, drawing: &Drawing<Outline>) -> Result<u16, FigFault>
    ensures read { StepsAs result tokens.new (filling drawing.now.table tokens.old) }
    ensures known { IfOk result (λ n. IsTrue (is_some (rgb_of drawing.now.table n))) }
{
    tokens.whole()?;
    tokens.natural(0, 0, FigFault::Outline)?;
    tokens.whole()?;
    known_colour(tokens, drawing)
}

#[tactic(auto, unfolding(crate::specs::Styles::style))]
pub(crate) fn style_of(
    tokens: &mut Tokens<'_>,
    least: u32,
    most: u32,
    drawing: &Drawing<Outline>,
) -> Result<Style, FigFault>
    ensures read { StepsAs result tokens.new (style least most drawing.now.table tokens.old) }
    ensures known { IfOk result (λ s. IsTrue (is_some (rgb_of drawing.now.table s.colour))) }
    ensures depth { IfOk result (λ s. s.depth ≤ 999) }
{
    let sub_type = tokens.natural(least, most, FigFault::SubType)?;
    let colour = filling(tokens, drawing)?;
    let depth = tokens.natural(0, 999, FigFault::Depth)?;
    tokens.whole()?;
    tokens.natural(20, 20, FigFault::Fill)?;
    tokens.decimal()?;
    Ok(Style {
        sub_type,
        colour,
        depth: depth as u16,
    })
}
