//! Frames, and the windows that fit histories and FIG texts, worked out from the rules: margins,
//! step and middle.

use crate::named::lines;
use gf_fit::{Frame, Range, Window};
use gf_gate::OpenGate;
use gf_streams::{Reel, Tape};
use gf_studio::{Extent, Format, Picture, paint_run, picture_run, repaint_run};
use std::alloc::Global;
use std::thread::Threads;
use test_kit::{Answers, EMPTY_FIG};

/// `100 80`: width and height.
fn frame(text: &str) -> Option<Result<Frame, Range>> {
    let (width, height) = text.trim().split_once(' ')?;
    Some(Frame::new(width.parse().ok()?, height.parse().ok()?))
}

/// Whether there is a frame of a width and a height.
#[derive(Drop)]
pub(crate) struct Frames;

impl Answers for Frames {
    fn answer(&mut self, alloc: Global, question: &str) -> Option<String> {
        let text = match frame(question)? {
            Ok(_) => "a frame",
            Err(Range) => "out of range",
        };
        String::from_str(alloc, text).ok()
    }
}

/// The window in which the rest of a question, behind `;`, is painted.
pub(crate) fn told<T: Threads + Sync>(
    rt: &T,
    alloc: Global,
    format: Format,
    question: &str,
) -> Option<String> {
    let (sides, shown) = question.split_once(';')?;
    let frame = frame(sides)?.ok()?;
    let input = match format {
        Format::Lines => lines(alloc, shown)?,
        Format::Fig => fig(alloc, shown)?,
    };
    fitted(rt, alloc, format, frame, &input)
}

/// The FIG text of polygons, which have a `,` between them.
fn fig(alloc: Global, polygons: &str) -> Option<Vec<u8>> {
    let mut input = Vec::from_slice(alloc, EMPTY_FIG.as_bytes()).ok()?;
    for points in polygons.split(',') {
        if !points.trim().is_empty() {
            push_polygon(alloc, &mut input, points.trim())?;
        }
    }
    Some(input)
}

/// Appends a polygon, as FIG has it.
fn push_polygon(alloc: Global, input: &mut Vec<u8>, points: &str) -> Option<()> {
    let count = points.split_whitespace().count() / 2;
    let lines = format!(in alloc;
        "2 3 0 0 4 4 0 -1 20 0.000 0 0 -1 0 0 {count}\n\t {points}\n"
    ).ok()?;
    input.extend_from_slice(lines.as_bytes()).ok()
}

/// The window's corner and step, and how many operations wait where some do. Behind these stands
/// what is amiss where the picture, or this number, is not as painted in this window.
fn fitted<T: Threads + Sync>(
    rt: &T,
    alloc: Global,
    format: Format,
    frame: Frame,
    input: &[u8],
) -> Option<String> {
    let mut fitted = Tape::new(alloc, None);
    let picture = Picture {
        format,
        extent: Extent::Fitted(frame),
    };
    let mut source = Reel::new(input, None);
    let painted = picture_run(rt, alloc, &mut source, &mut fitted, picture, 2, &OpenGate).ok()?;
    let mut plain = Tape::new(alloc, None);
    let waiting = plainly(rt, alloc, format, input, painted.window, &mut plain)?;
    let is_same = fitted.bytes() == plain.bytes() && painted.waiting == waiting;
    window_told(alloc, painted.window, waiting, is_same)
}

/// Paints the window. The answer is how many operations wait.
fn plainly<T: Threads + Sync>(
    rt: &T,
    alloc: Global,
    format: Format,
    input: &[u8],
    window: Window,
    plain: &mut Tape,
) -> Option<usize> {
    let mut source = Reel::new(input, None);
    match format {
        Format::Lines => paint_run(rt, alloc, &mut source, plain, window, 1, &OpenGate).ok(),
        Format::Fig => {
            repaint_run(rt, alloc, &mut source, plain, window, 1, &OpenGate).ok()?;
            Some(0)
        }
    }
}

fn window_told(alloc: Global, window: Window, waiting: usize, is_same: bool) -> Option<String> {
    let _ = window.height();
    let (x, y, step) = (window.x(), window.line(0), window.step());
    let amiss = if is_same { "" } else { ", but another picture" };
    if waiting == 0 {
        return format!(in alloc; "{x} {y} {step}{amiss}").ok();
    }
    format!(in alloc; "{x} {y} {step}{amiss}, {waiting} wait").ok()
}
