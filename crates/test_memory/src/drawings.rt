//! Trials of drawings and of FIG texts: the red box, two versions of a box, and the drawing of
//! nothing.

ghost use Rattle.std.specs.Prelude.{◌≡◌};

use crate::examples::{MOVED, RED_BOX_MADE, is_text, red_box, site};
use crate::trial::{Came, Marks};
use gf_base::OutOfMemory;
use gf_drawing::CompileFault;
use gf_fig_read::{FigError, FigFault};
use gf_fig_write::fig_bytes as text_of;
use gf_figures::{Drawing, Figure};
use gf_shape::{AnyShape, Outline, Rect, Shape};
use gf_streams::{Tape, WriteError};
use gf_visible::ranked;
use std::alloc::Global;
use test_kit::{EMPTY_FIG, RED, RED_BOX_FIG, at};

pub(crate) const NAMES: &str = "
compile
add_colour
add_figure
front_to_back may do without
fig_bytes
write_fig
write_fig_cut
read_fig
read_fig_box
";

/// What comes of the trial of this name, if there is one.
pub(crate) fn tried(alloc: Global, name: &str, marks: &mut Marks) -> Option<Came> {
    let came = match name {
        "compile" => compile(alloc, marks),
        "add_colour" => add_colour(alloc, marks),
        "add_figure" => add_figure(alloc, marks),
        "front_to_back" => front_to_back(alloc, marks),
        "fig_bytes" => fig_bytes(alloc, marks),
        "write_fig" => write_fig(alloc, marks, None, (Ok(()), EMPTY_FIG)),
        "write_fig_cut" => write_fig(alloc, marks, Some(20), (Err(WriteError::WriteFailed), CUT)),
        "read_fig" => read_fig(alloc, marks, EMPTY_FIG),
        "read_fig_box" => read_fig(alloc, marks, RED_BOX_FIG),
        _ => return None,
    };
    Some(came.unwrap_or(Came::TooEarly))
}

fn compile(alloc: Global, marks: &mut Marks) -> Option<Came> {
    let site = site(alloc, RED_BOX_MADE)?;
    let used = ranked(alloc, site.history()).ok()?;
    let same = ranked(alloc, site.history()).ok()?;
    marks.begin();
    let first = gf_drawing::compile(alloc, used);
    marks.end();
    Some(match first {
        Err(CompileFault::OutOfMemory) => {
            let next = gf_drawing::compile(alloc, same);
            Came::after_memory(true, is_compiled(alloc, next))
        }
        first => Came::first(is_compiled(alloc, first)),
    })
}

fn is_compiled(alloc: Global, answer: Result<Drawing<AnyShape>, CompileFault>) -> bool {
    match answer {
        Ok(drawing) => is_text(text_of(alloc, &drawing), RED_BOX_FIG),
        Err(_) => false,
    }
}

fn add_colour(alloc: Global, marks: &mut Marks) -> Option<Came> {
    let mut drawing: Drawing<Rect> = Drawing::new(alloc);
    marks.begin();
    let first = drawing.add_colour(32, RED);
    marks.end();
    Some(match first {
        Err(OutOfMemory) => {
            let is_kept = drawing.colours().is_empty() && drawing.rgb(32).is_none();
            let next = drawing.add_colour(32, RED);
            Came::after_memory(is_kept, next.is_ok() && has_red(&drawing))
        }
        Ok(()) => Came::first(has_red(&drawing)),
    })
}

fn has_red(drawing: &Drawing<Rect>) -> bool {
    drawing.colours().at(0) == Some((32, RED)) && drawing.rgb(32) == Some(RED)
}

/// The figure of a box, in a colour and at a depth.
fn figure(shape: Rect, colour: u16, depth: u16) -> Figure<Rect>
    ensures { result ≡ record { shape = shape; colour = colour; depth = depth } }
{
    Figure {
        shape,
        colour,
        depth,
    }
}

fn add_figure(alloc: Global, marks: &mut Marks) -> Option<Came> {
    let rect = red_box()?;
    let mut drawing = Drawing::new(alloc);
    drawing.add_colour(32, RED).ok()?;
    marks.begin();
    let first = drawing.add_figure(figure(rect, 32, 0));
    marks.end();
    Some(match first {
        Err(OutOfMemory) => {
            let is_kept = drawing.figures().is_empty() && has_red(&drawing);
            let next = drawing.add_figure(figure(rect, 32, 0));
            let is_right = next.is_ok() && is_text(text_of(alloc, &drawing), RED_BOX_FIG);
            Came::after_memory(is_kept, is_right)
        }
        Ok(()) => Came::first(is_text(text_of(alloc, &drawing), RED_BOX_FIG)),
    })
}

/// The FIG text of a box of which one site moved both versions.
const MOVED_FIG: &str =
    "#FIG 3.2\nLandscape\nCenter\nMetric\nA4\n100.00\nSingle\n-2\n1200 2\n0 32 #00ff00\n0 33 #0000ff\n2 2 0 0 32 32 0 -1 20 0.000 0 0 -1 0 0 5\n\t 200 0 210 0 210 10 200 10 200 0\n2 2 0 0 33 33 1 -1 20 0.000 0 0 -1 0 0 5\n\t 200 0 210 0 210 10 200 10 200 0\n";

fn moved(alloc: Global) -> Option<Drawing<AnyShape>> {
    let site = site(alloc, MOVED)?;
    let ranked = ranked(alloc, site.history()).ok()?;
    gf_drawing::compile(alloc, ranked).ok()
}

fn fig_bytes(alloc: Global, marks: &mut Marks) -> Option<Came> {
    let drawing = moved(alloc)?;
    marks.begin();
    let first = gf_fig_write::fig_bytes(alloc, &drawing);
    marks.end();
    Some(match first {
        Err(OutOfMemory) => {
            let next = gf_fig_write::fig_bytes(alloc, &drawing);
            Came::after_memory(true, is_text(next, MOVED_FIG))
        }
        first => Came::first(is_text(first, MOVED_FIG)),
    })
}

/// A box before another one, of two colours that every file has.
fn two_boxes(alloc: Global) -> Option<Drawing<Rect>> {
    let rect = Rect::new(at(0, 0), 10, 10).ok()?;
    let mut drawing = Drawing::new(alloc);
    drawing.add_figure(figure(rect, 1, 6)).ok()?;
    drawing.add_figure(figure(rect, 2, 5)).ok()?;
    Some(drawing)
}

fn front_to_back(alloc: Global, marks: &mut Marks) -> Option<Came> {
    let drawing = two_boxes(alloc)?;
    marks.begin();
    let first = drawing.front_to_back(alloc);
    marks.end();
    Some(match first {
        Err(OutOfMemory) => { Came::after_memory(true, are_in_front(drawing.front_to_back(alloc))) }
        first => Came::first(are_in_front(first)),
    })
}

fn are_in_front(answer: Result<Vec<&Figure<Rect>>, OutOfMemory>) -> bool {
    match answer {
        Ok(figures) => match figures.as_slice() {
            [front, back] => front.depth == 5 && back.depth == 6,
            _ => false,
        },
        Err(OutOfMemory) => false,
    }
}

const CUT: &str = "#FIG 3.2\nLandscape\nC";

/// What a write answers, and what the tape then holds.
type Written<'t> = (Result<(), WriteError>, &'t str);

/// Writes the drawing of nothing onto a tape of this limit.
fn write_fig(
    alloc: Global,
    marks: &mut Marks,
    limit: Option<u64>,
    want: Written<'_>,
) -> Option<Came> {
    let drawing: Drawing<Rect> = Drawing::new(alloc);
    let mut tape = Tape::new(alloc, limit);
    marks.begin();
    let first = gf_fig_write::write_fig(alloc, &drawing, &mut tape);
    marks.end();
    let taken = tape.bytes();
    if is_written((first, taken), want) {
        return Some(Came::first(true));
    }
    let mut next_tape = Tape::new(alloc, limit);
    let next = gf_fig_write::write_fig(alloc, &drawing, &mut next_tape);
    let is_right = is_written((next, next_tape.bytes()), want);
    Some(match first {
        Err(WriteError::OutOfMemory) => Came::after_memory(taken.is_empty(), is_right),
        Err(WriteError::WriteFailed) => {
            Came::after_write(EMPTY_FIG.as_bytes().starts_with(taken), is_right)
        }
        Ok(()) => Came::first(false),
    })
}

fn is_written(written: (Result<(), WriteError>, &[u8]), want: Written<'_>) -> bool {
    written.0 == want.0 && written.1 == want.1.as_bytes()
}

/// Reads a text that is written as it was read.
fn read_fig(alloc: Global, marks: &mut Marks, text: &str) -> Option<Came> {
    marks.begin();
    let first = gf_fig_read::read_fig(alloc, text.as_bytes());
    marks.end();
    Some(match first {
        Err(error) if error.fault == FigFault::OutOfMemory => {
            let next = gf_fig_read::read_fig(alloc, text.as_bytes());
            Came::after_memory(error.object == 0, is_read(alloc, next, text))
        }
        first => Came::first(is_read(alloc, first, text)),
    })
}

fn is_read(alloc: Global, answer: Result<Drawing<Outline>, FigError>, text: &str) -> bool {
    match answer {
        Ok(drawing) => is_text(text_of(alloc, &drawing), text),
        Err(_) => false,
    }
}
