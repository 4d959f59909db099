//! The layers of a drawing.

ghost use Rattle.std.specs.Prelude.{◌≡◌, All, IfOk, IfSome, map};
ghost use Rattle.gf_plane.specs.declared.point.Point.{Point};
ghost use Rattle.gf_figures.specs.DrawingColour.{drawing_colour, figure_colour};
ghost use Rattle.gf_scanline.specs.Layers.{IsChainOf, IsLayer, layered};
ghost use Rattle.gf_scanline.specs.Seen.{seen, seen_figure};

use crate::{Brush, Layer};
use gf_base::OutOfMemory;
use gf_figures::{Drawing, Figure};
use gf_shape::{Chain, Outline, Shape, WHITE};
use std::alloc::Global;
use std::marker::Model;

/// Layers over a white ground, the foremost first.
#[derive(Drop)]
pub struct Layers<'a, S: Shape> {
    pub(crate) layers: Vec<Layer<'a, S>>,
    pub(crate) ground: Brush,
}

impl<'a, S: Shape> Model for Layers<'a, S> {
    ghost use Rattle.std.specs.Prelude.{List};
    ghost use Rattle.gf_scanline.specs.declared.layer.Layer.{Layer};
    ghost use Rattle.gf_scanline.specs.Layers.{AreLayers};

    ghost Value = { List (Layer S) };

    ghost view = { λ l. l.layers.items };

    ghost invariant = { λ l. AreLayers S.holds l.layers.items l.ground };
}

impl<'a, S: Shape> Layers<'a, S> {
    /// The layers of a drawing, one for each figure.
    pub fn new(alloc: Global, drawing: &'a Drawing<S>) -> Result<Layers<'a, S>, OutOfMemory>
        ensures { IfOk result (λ ls. (p : Point)
            → layered S.holds ls p
            ≡ drawing_colour S.holds drawing.now.table drawing.now.figures p) }
    {
        let figures = drawing.front_to_back(alloc)?;
        let layers = layers_of(alloc, drawing, &figures)?;
        let ground = Brush::new(alloc, WHITE)?;
        Ok(Layers { layers, ground })
    }
}

/// A layer for each figure, in their order.
fn layers_of<'a, S: Shape>(
    alloc: Global,
    drawing: &'a Drawing<S>,
    figures: &[&'a Figure<S>],
) -> Result<Vec<Layer<'a, S>>, OutOfMemory>
    ensures seen { IfOk result (λ ls. map seen ls.items
        ≡ map (λ f. seen_figure drawing.now.table f.now) figures.now) }
    ensures layers { IfOk result (λ ls. All (IsLayer S.holds) ls.items) }
{
    let mut layers = Vec::new(alloc);
    for figure in figures {
        let layer = layer(alloc, drawing, figure)?;
        layers.push(layer)?;
    }
    Ok(layers)
}

/// The layer of a figure.
fn layer<'a, S: Shape>(
    alloc: Global,
    drawing: &'a Drawing<S>,
    figure: &'a Figure<S>,
) -> Result<Layer<'a, S>, OutOfMemory>
    ensures seen { IfOk result (λ l. seen l ≡ seen_figure drawing.now.table figure.now) }
    ensures layer { IfOk result (IsLayer S.holds) }
{
    let colour = drawing.figure_colour(figure);
    let brush = Brush::new(alloc, colour)?;
    let chain = chain(alloc, &figure.shape)?;
    Ok(Layer {
        shape: &figure.shape,
        brush,
        bounds: figure.shape.bounds(),
        chain,
    })
}

/// The chain of a shape that is a polygon.
fn chain<S: Shape>(alloc: Global, shape: &S) -> Result<Option<Chain>, OutOfMemory>
    ensures { IfOk result (IsChainOf (S.holds shape.now)) }
{
    let outline = shape.outline(alloc)?;
    match outline {
        Outline::Chain(chain) => Ok(polygon(chain)),
        Outline::Disc(_) | Outline::Oval(_) => Ok(None),
    }
}

/// A chain that is no box.
fn polygon(chain: Chain) -> Option<Chain>
    ensures { IfSome result (λ polygon. polygon ≡ chain) }
{
    if chain.boxed() {
        return None;
    }
    Some(chain)
}
