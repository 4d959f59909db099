//! The questions on drawings: what is asked, `of`, and the drawing.

ghost use Rattle.std.specs.Prelude.{◌≡◌, ◌≤◌, is_none};
ghost use Rattle.gf_figures.specs.Colours.{colour_in};

use crate::compiled::{boxes, circles, of_history};
use crate::outlines::drawn;
use crate::shapes::{any, first};
use gf_drawing::compile;
use gf_fig_write::{fig_bytes, write_fig};
use gf_figures::{ColourTable, Drawing, Figure, outlines_paint_as_their_shapes};
use gf_shape::{AnyShape, Bounds, Outline, Rgb, Shape};
use gf_streams::{Tape, WriteError};
use gf_versions::Ranked;
use std::alloc::Global;
use test_kit::Answers;
use test_kit::notation::{colour, points};

/// The drawing that a question names.
#[derive(Drop)]
pub(crate) struct Drawings;

impl Answers for Drawings {
    fn answer(&mut self, alloc: Global, question: &str) -> Option<String> {
        outlines_paint_as_their_shapes::<AnyShape>();
        let (question, drawing) = question.split_once(" of ")?;
        let (kind, parts) = first(drawing);
        match kind {
            "figures" => of_drawing(alloc, &built::<AnyShape>(alloc, parts)?, question),
            "outlines" => of_drawing(alloc, &built::<Outline>(alloc, parts)?, question),
            "history" => of_ranked(alloc, of_history(alloc, parts)?, question),
            "boxes" => of_ranked(alloc, boxes(alloc, parts)?, question),
            "circles" => of_ranked(alloc, circles(alloc, parts)?, question),
            _ => None,
        }
    }
}

/// Shapes that a drawing may be built of.
trait FromShape: Shape {
    /// The shape itself, or its outline.
    fn from_shape(alloc: Global, shape: AnyShape) -> Option<Self>;
}

impl FromShape for AnyShape {
    fn from_shape(_alloc: Global, shape: AnyShape) -> Option<AnyShape> {
        Some(shape)
    }
}

impl FromShape for Outline {
    fn from_shape(alloc: Global, shape: AnyShape) -> Option<Outline> {
        shape.outline(alloc).ok()
    }
}

/// `32 is ff0000, box 0,0 10 10 in 32 at 5`: colours of the table, and figures at their depths.
fn built<S: FromShape>(alloc: Global, parts: &str) -> Option<Drawing<S>> {
    let mut drawing = Drawing::new(alloc);
    for part in parts.split(", ") {
        if let Some((number, rgb)) = part.split_once(" is ") {
            add_colour(&mut drawing, number.parse().ok()?, colour(rgb)?)?;
        } else if !part.is_empty() {
            add_figure(alloc, &mut drawing, part)?;
        }
    }
    Some(drawing)
}

/// Whether the table has no colour under a number.
#[tactic(auto, using(gf_fig_read::proofs::NumberLemmas::rgb_of_number))]
fn is_free<S: Shape>(drawing: &Drawing<S>, number: u16) -> bool
    requires { 32 ≤ number }
    ensures { result ≡ is_none (colour_in drawing.now.table number) }
{
    drawing.rgb(number).is_none()
}

fn add_colour<S: Shape>(drawing: &mut Drawing<S>, number: u16, colour: Rgb) -> Option<()> {
    if 32 <= number && number <= 543 && is_free(drawing, number) {
        drawing.add_colour(number, colour).ok()
    } else {
        None
    }
}

/// Adds a figure such as `box 0,0 10 10 in 32 at 5`.
fn add_figure<S: FromShape>(alloc: Global, drawing: &mut Drawing<S>, text: &str) -> Option<()> {
    let (shape, style) = text.split_once(" in ")?;
    let (colour, depth) = style.split_once(" at ")?;
    let (colour, depth): (u16, u16) = (colour.parse().ok()?, depth.parse().ok()?);
    let shape = S::from_shape(alloc, any(alloc, shape)?)?;
    if drawing.rgb(colour).is_some() && depth <= 999 {
        let figure = Figure {
            shape,
            colour,
            depth,
        };
        drawing.add_figure(figure).ok()
    } else {
        None
    }
}

/// The answer of the drawing of these versions, or why there is none.
fn of_ranked<S: Shape>(alloc: Global, ranked: Ranked<S>, question: &str) -> Option<String> {
    if question == "versions" {
        return format!(in alloc; "{}", ranked.len()).ok();
    }
    match compile(alloc, ranked) {
        Ok(drawing) => of_drawing(alloc, &drawing, question),
        Err(fault) => format!(in alloc; "{fault}").ok(),
    }
}

/// The answer of a drawing.
pub(crate) fn of_drawing<S: Shape>(
    alloc: Global,
    drawing: &Drawing<S>,
    question: &str,
) -> Option<String> {
    let (verb, rest) = first(question);
    match verb {
        "number" => entry(alloc, drawing.rgb(rest.parse().ok()?)),
        "table" => table(alloc, drawing.colours()),
        "seen" => seen(alloc, drawing, rest),
        "read" => read(alloc, drawing, rest),
        "bounds" => bounds(alloc, drawing.figures()),
        "figures" => figures(alloc, drawing.figures()),
        "ends" => ends(alloc, drawing),
        "text" => format!(in alloc; "{}", fig_bytes(alloc, drawing).ok()?.escape_ascii()).ok(),
        "written" => written(alloc, drawing, rest.parse().ok()),
        "fronts" => fronts(alloc, drawing),
        _ => None,
    }
}

/// A colour, where there is one.
fn entry(alloc: Global, colour: Option<Rgb>) -> Option<String> {
    match colour {
        Some(Rgb { r, g, b }) => format!(in alloc; "{r:02x}{g:02x}{b:02x}").ok(),
        None => String::from_str(alloc, "none").ok(),
    }
}

/// How many colours a table has, whether it has none, and its first three.
fn table(alloc: Global, table: &ColourTable) -> Option<String> {
    let empty = if table.is_empty() { ", empty" } else { "" };
    let mut text = format!(in alloc; "{}{empty}:", table.len()).ok()?;
    for i in 0..3 {
        let word = match table.at(i) {
            Some((number, Rgb { r, g, b })) => {
                format!(in alloc; " {number} {r:02x}{g:02x}{b:02x}").ok()?
            }
            None => String::from_str(alloc, " none").ok()?,
        };
        text.push_str(word.as_str()).ok()?;
    }
    Some(text)
}

/// The colours at points.
fn seen<S: Shape>(alloc: Global, drawing: &Drawing<S>, places: &str) -> Option<String> {
    let mut text = String::new(alloc);
    for point in &points(alloc, places)? {
        let Rgb { r, g, b } = drawing.colour_at(*point);
        let word = format!(in alloc; " {r:02x}{g:02x}{b:02x}").ok()?;
        text.push_str(word.as_str()).ok()?;
    }
    Some(text)
}

/// How many colours and figures there are, and the colours at points.
fn read<S: Shape>(alloc: Global, drawing: &Drawing<S>, places: &str) -> Option<String> {
    let seen = seen(alloc, drawing, places)?;
    let (colours, figures) = (drawing.colours().len(), drawing.figures().len());
    format!(in alloc; "{colours} {figures}{seen}").ok()
}

/// The figures in file order: each one's colour, depth and bounds.
fn bounds<S: Shape>(alloc: Global, figures: &[Figure<S>]) -> Option<String> {
    let mut text = String::new(alloc);
    for figure in figures {
        let Bounds { low, high } = figure.shape.bounds();
        let (colour, depth) = (figure.colour, figure.depth);
        let line = format!(in alloc;
            "{colour} at {depth}: {},{} to {},{}; ",
            low.x, low.y, high.x, high.y
        )
        .ok()?;
        text.push_str(line.as_str()).ok()?;
    }
    Some(text)
}

/// The figures in file order: each one's colour, depth and outline.
fn figures<S: Shape>(alloc: Global, figures: &[Figure<S>]) -> Option<String> {
    let mut text = String::new(alloc);
    for figure in figures {
        let outline = figure.shape.outline(alloc).ok()?;
        let outline = drawn(alloc, &outline)?;
        let line = format!(in alloc; "{} at {}: {outline}; ", figure.colour, figure.depth).ok()?;
        text.push_str(line.as_str()).ok()?;
    }
    Some(text)
}

/// How many figures a drawing has, the last depth, and the last number of its table.
fn ends<S: Shape>(alloc: Global, drawing: &Drawing<S>) -> Option<String> {
    let figures = drawing.figures();
    let depth = match figures.last() {
        Some(figure) => figure.depth,
        None => 0,
    };
    let colours = drawing.colours();
    let number = match colours.at(colours.len().saturating_sub(1)) {
        Some((number, _)) => number,
        None => 0,
    };
    format!(in alloc; "{} to depth {depth} and number {number}", figures.len()).ok()
}

fn word(written: Result<(), WriteError>) -> &'static str {
    match written {
        Ok(()) => "written",
        Err(WriteError::WriteFailed) => "write failed",
        Err(WriteError::OutOfMemory) => "out of memory",
    }
}

/// How the text is written into this much room, and what stands there.
fn written<S: Shape>(alloc: Global, drawing: &Drawing<S>, room: Option<u64>) -> Option<String> {
    let mut tape = Tape::new(alloc, room);
    let how = word(write_fig(alloc, drawing, &mut tape));
    format!(in alloc; "{how}: {}", tape.bytes().escape_ascii()).ok()
}

/// In how many rooms a front of the text stands: each front in a room that is too small, and the
/// whole text in one that is just large enough.
fn fronts<S: Shape>(alloc: Global, drawing: &Drawing<S>) -> Option<String> {
    let whole = fig_bytes(alloc, drawing).ok()?;
    let mut count = 0u64;
    for room in 0..=whole.len() {
        let mut tape = Tape::new(alloc, Some(room as u64));
        let is_written = write_fig(alloc, drawing, &mut tape).is_ok();
        if tape.bytes() == &whole[..room] && is_written == (room == whole.len()) {
            count = count.saturating_add(1);
        }
    }
    format!(in alloc; "{count} fronts of {} bytes", whole.len()).ok()
}
