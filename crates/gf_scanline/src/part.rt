//! What a band has of layers.

ghost use Rattle.std.specs.Prelude.{◌≡◌, ℕ, ◌+◌, ◌≤◌, ◌++◌, ◌∷◌, OnOk, IfOk, All, List};
ghost use Rattle.gf_scanline.specs.declared.layer.Layer.{Layer as TheLayer};
ghost use Rattle.gf_scanline.specs.Bands.{HasRow};
ghost use Rattle.gf_scanline.specs.Layers.{IsLayer, layered};
ghost use Rattle.gf_scanline.specs.Picture.{ShowsRow};
ghost use Rattle.gf_scanline.specs.Pieces.{AreSeen, IsPiece, layers_of};

use crate::piece::{Piece, piece_of};
use crate::row::paint_pieces;
use crate::{Band, Layer, Layers, Strip, Stroke, Workspace};
use gf_base::OutOfMemory;
use gf_shape::Shape;
use std::alloc::Global;
use std::marker::Model;

/// What a band has of layers, ready to be painted row by row.
#[derive(Drop)]
pub struct Part<'l, 'a, S: Shape> {
    layers: &'l Layers<'a, S>,
    band: Band,
    pieces: Vec<Piece<'l, 'a, S>>,
}

impl<'l, 'a, S: Shape> Model for Part<'l, 'a, S> {
    ghost use Rattle.gf_scanline.specs.Parts.{IsPart, PartView};

    ghost Value = { PartView S };

    ghost view = { λ p. record { layers = p.layers.now; band = p.band } };

    ghost invariant = { λ p. IsPart S.holds p.layers.now p.band p.pieces.items };
}

impl<'a, S: Shape> Layers<'a, S> {
    /// What a band has of the layers. These are the layers whose bounds meet the band's rows, with
    /// the edges of polygons that come between the rows.
    pub fn part<'l>(&'l self, alloc: Global, band: Band) -> Result<Part<'l, 'a, S>, OutOfMemory>
        ensures { IfOk result (λ part. part ≡ record { layers = self.now; band = band }) }
    {
        let pieces = pieces_of(alloc, &self.layers, band)?;
        Ok(Part {
            layers: self,
            band,
            pieces,
        })
    }
}

impl<'l, 'a, S: Shape> Part<'l, 'a, S> {
    /// What row `j` shows: of each column the colour of the foremost layer that holds its point.
    ///
    /// `strip` and `space` lend their memory.
    pub fn row(
        &self,
        j: usize,
        strip: &mut Strip<'l>,
        space: &mut Workspace,
    ) -> Result<Vec<Stroke<'l>>, OutOfMemory>
        requires { HasRow self.now.band j }
        ensures { IfOk result (λ strokes.
            ShowsRow (layered S.holds self.now.layers) self.now.band.window j strokes.items) }
    {
        let window = self.band.window();
        strip.begin(window);
        paint_pieces(&self.pieces, window, j, strip, space)?;
        let layers = self.layers;
        let strokes = strip.finish(window, &layers.ground)?;
        Ok(strokes)
    }

    /// Which row is the first one of the part.
    pub fn top(&self) -> usize
        ensures top { result ≡ self.now.band.top }
        ensures within { self.now.band.top + self.now.band.count ≤ 4096 }
    {
        let _ = self.band.count();
        self.band.top()
    }

    /// Recalls that the rows of a part end above row 4,096, as [`crate::Window::recall_sides`] does.
    pub fn recall_rows(&self)
        ensures { self.now.band.top + self.now.band.count ≤ 4096 }
    {
        let _ = self.top();
    }

    /// How many rows the part has.
    pub fn count(&self) -> usize
        ensures { result ≡ self.now.band.count }
    {
        self.band.count()
    }
}

/// The pieces of layers in a band.
fn pieces_of<'l, 'a, S: Shape>(
    alloc: Global,
    layers: &'l [Layer<'a, S>],
    band: Band,
) -> Result<Vec<Piece<'l, 'a, S>>, OutOfMemory>
    requires { All (IsLayer S.holds) layers.now }
    ensures pieces { IfOk result (λ ps. (j : ℕ) → HasRow band j
        → All (IsPiece S.holds band.window j) ps.items) }
    ensures seen { IfOk result (λ ps. AreSeen S.holds band layers.now (layers_of ps.items)) }
{
    let mut pieces = Vec::new(alloc);
    for layer in layers {
        add_piece(alloc, layer, band, &mut pieces)?;
    }
    Ok(pieces)
}

/// Adds the piece of a layer, where it has one.
fn add_piece<'l, 'a, S: Shape>(
    alloc: Global,
    layer: &'l Layer<'a, S>,
    band: Band,
    pieces: &mut Vec<Piece<'l, 'a, S>>,
) -> Result<(), OutOfMemory>
    requires { IsLayer S.holds layer.now }
    ensures pieces { OnOk result ((j : ℕ) → HasRow band j
        → All (IsPiece S.holds band.window j) pieces.old.items
        → All (IsPiece S.holds band.window j) pieces.new.items) }
    ensures seen { OnOk result ((rest : List (TheLayer S))
        → AreSeen S.holds band (layers_of pieces.old.items ++ layer.now ∷ rest)
        (layers_of pieces.new.items ++ rest)) }
{
    if let Some(piece) = piece_of(alloc, layer, band)? {
        pieces.push(piece)?;
    }
    Ok(())
}
