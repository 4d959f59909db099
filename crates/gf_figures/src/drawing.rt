//! Drawings.

ghost use Rattle.std.specs.Prelude.{◌≡◌, ℕ, None, [], ◌∷◌, ◌++◌, IfOk, OnOk, OnErr, map, reverse};
ghost use Rattle.std.specs.Prelude.{option_copied, IsPermutation};
ghost use Rattle.std.specs.List.Sorted.{IsNonDecreasingBy};
ghost use Rattle.gf_plane.specs.declared.point.Point.{Point};
ghost use Rattle.gf_figures.specs.Colours.{colour_in, rgb_of, standard_colours};
ghost use Rattle.gf_figures.specs.DrawingState.{IsFreeNumber, IsLawfulDrawing, IsLawfulFigure};
ghost use Rattle.gf_figures.specs.DrawingColour.{drawing_colour, figure_colour, figures_at};
ghost use Rattle.gf_figures.specs.DrawingColour.{from_front, front_colour};
ghost use Rattle.gf_figures.specs.FrontMost.{front_at, is_no_deeper, nearer_at};

use crate::{ColourTable, Figure};
use gf_base::OutOfMemory;
use gf_shape::{Point, Rgb, Shape, WHITE};
use std::alloc::Global;
use std::marker::Model;

/// Figures over a white ground, with the table of their colours.
#[derive(Drop)]
pub struct Drawing<S> {
    table: ColourTable,
    figures: Vec<Figure<S>>,
}

impl<S> Model for Drawing<S> {
    ghost use Rattle.gf_figures.specs.DrawingState.{DrawingState};

    ghost Value = { DrawingState S };

    ghost view = { λ d. record { table = d.table; figures = d.figures.items } };

    ghost use Rattle.gf_figures.specs.DrawingState.{IsLawfulDrawing};

    ghost invariant = { λ d. IsLawfulDrawing (record
        { table = d.table; figures = d.figures.items }) };
}

impl<S: Shape> Drawing<S> {
    /// The drawing of no figures.
    pub fn new(alloc: Global) -> Drawing<S>
        ensures { result ≡ record { table = []; figures = [] } }
    {
        Drawing {
            table: ColourTable::new(alloc),
            figures: Vec::new(alloc),
        }
    }

    /// The table of the drawing's colours.
    pub fn colours(&self) -> &ColourTable
        ensures table { result.now ≡ self.now.table }
        ensures lawful { IsLawfulDrawing self.now }
    {
        &self.table
    }

    /// The figures in file order.
    pub fn figures(&self) -> &[Figure<S>]
        ensures figures { result.now ≡ self.now.figures }
        ensures lawful { IsLawfulDrawing self.now }
    {
        &self.figures
    }

    /// The figures from the front to the back: by their depths, and of one depth the last one
    /// first.
    pub fn front_to_back(&self, alloc: Global) -> Result<Vec<&Figure<S>>, OutOfMemory>
        ensures order { IfOk result (λ figures.
            map (λ f. f.now) figures.items ≡ from_front self.now.figures) }
        ensures colours { IfOk result (λ figures. (p : Point)
            → front_colour S.holds self.now.table (map (λ f. f.now) figures.items) p
            ≡ drawing_colour S.holds self.now.table self.now.figures p) }
    {
        let mut figures = reversed(alloc, &self.figures)?;
        sort_by_depth(&mut figures)?;
        Ok(figures)
    }

    /// The colour under a number: a standard one, or one of the table.
    pub fn rgb(&self, number: u16) -> Option<Rgb>
        ensures { result ≡ rgb_of self.now.table number }
    {
        standard_colour(number).or(self.table.colour(number))
    }

    /// The colour of a figure by its number, white if the number has none.
    pub fn figure_colour(&self, figure: &Figure<S>) -> Rgb
        ensures { result ≡ figure_colour self.now.table figure.now }
    {
        self.rgb(figure.colour).unwrap_or(WHITE)
    }

    /// The colour at a point, in one pass over the figures.
    pub fn colour_at(&self, p: Point) -> Rgb
        ensures { result ≡ drawing_colour S.holds self.now.table self.now.figures p }
    {
        match front_at(&self.figures, p) {
            Some(figure) => self.figure_colour(figure),
            None => WHITE,
        }
    }

    /// Adds a colour at the end of the table.
    pub fn add_colour(&mut self, number: u16, colour: Rgb) -> Result<(), OutOfMemory>
        requires { IsFreeNumber self.old.table number }
        ensures ok { OnOk result (self.new
            ≡ record self.old { table = self.old.table ++ (number, colour) ∷ [] }) }
        ensures err { OnErr result (self.new ≡ self.old) }
    {
        self.table.add(number, colour)?;
        Ok(())
    }

    /// Adds a figure at the end of the file.
    pub fn add_figure(&mut self, figure: Figure<S>) -> Result<(), OutOfMemory>
        requires { IsLawfulFigure self.old.table figure }
        ensures ok { OnOk result (self.new
            ≡ record self.old { figures = self.old.figures ++ figure ∷ [] }) }
        ensures err { OnErr result (self.new ≡ self.old) }
    {
        self.figures.push(figure)?;
        Ok(())
    }
}

/// The colour that every file has under a number.
fn standard_colour(number: u16) -> Option<Rgb>
    ensures { result ≡ colour_in standard_colours number }
{
    let (r, g, b) = match number {
        0 => (0, 0, 0),
        1 => (0, 0, 255),
        2 => (0, 255, 0),
        3 => (0, 255, 255),
        4 => (255, 0, 0),
        5 => (255, 0, 255),
        6 => (255, 255, 0),
        7 => (255, 255, 255),
        _ => return None,
    };
    Some(Rgb { r, g, b })
}

/// The figure in front of all that hold a point.
fn front_at<'a, S: Shape>(figures: &'a [Figure<S>], p: Point) -> Option<&'a Figure<S>>
    ensures { option_copied result ≡ front_at S.holds p figures.now }
{
    let mut front = None;
    for figure in figures {
        front = nearer_at(front, figure, p);
    }
    front
}

/// The figure in front at a point, where one more comes next in the file.
fn nearer_at<'a, S: Shape>(
    front: Option<&'a Figure<S>>,
    figure: &'a Figure<S>,
    p: Point,
) -> Option<&'a Figure<S>>
    ensures { option_copied result ≡ nearer_at S.holds p (option_copied front.entry) figure.now }
{
    if figure.shape.holds(p) && is_no_deeper(figure.depth, front) {
        Some(figure)
    } else {
        front
    }
}

/// Whether a depth is no greater than that of the figure in front, if there is one.
fn is_no_deeper<S>(depth: u16, front: Option<&Figure<S>>) -> bool
    ensures { result ≡ is_no_deeper (λ f. f.depth) depth (option_copied front.entry) }
{
    match front {
        Some(figure) => depth <= figure.depth,
        None => true,
    }
}

/// Figures, the last one first.
fn reversed<S>(alloc: Global, figures: &[Figure<S>]) -> Result<Vec<&Figure<S>>, OutOfMemory>
    ensures { IfOk result (λ v. map (λ f. f.now) v.items ≡ reverse figures.now) }
{
    let reversed = figures.iter().rev().collect(alloc)?;
    Ok(reversed)
}

/// Sorts figures by their depths, and keeps the order of those of one depth.
fn sort_by_depth<S>(figures: &mut Vec<&Figure<S>>) -> Result<(), OutOfMemory>
    ensures sorted { OnOk result (IsNonDecreasingBy (λ f. f.now.depth) figures.new.items) }
    ensures same { IsPermutation figures.old.items figures.new.items }
    ensures stable { (depth : ℕ) → OnOk result (figures_at (map (λ f. f.now) figures.new.items)
        depth ≡ figures_at (map (λ f. f.now) figures.old.items) depth) }
{
    figures.sort_by_key(|figure| figure.depth)?;
    Ok(())
}
