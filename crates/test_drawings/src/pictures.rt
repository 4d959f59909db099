//! The questions on pictures: a drawing, `;`, a window, and how many workers paint it.

ghost use Rattle.std.specs.Prelude.{◌≤◌};

use crate::pieces::text;
use crate::shapes::first;
use gf_fig_read::read_fig;
use gf_figures::Drawing;
use gf_raster::{OpenGate, Raster, Window, paint, ppm_to};
use gf_shape::{Outline, Point, Range, Rgb};
use gf_streams::{Tape, WriteError};
use std::alloc::Global;
use std::thread::Threads;

/// The picture that a question names.
pub(crate) fn told<T: Threads + Sync>(rt: &T, alloc: Global, question: &str) -> Option<String> {
    let (front, window) = question.split_once(" ; ")?;
    let (window, workers) = window.rsplit_once(' ')?;
    let workers: u8 = workers.parse().ok()?;
    match window_of(window)? {
        Ok(window) => shown(rt, alloc, front, window, workers.clamp(1, 16)),
        Err(Range) => String::from_str(alloc, "Range").ok(),
    }
}

/// `-5 0 1 3 2`: x, y, step, width and height.
fn window_of(text: &str) -> Option<Result<Window, Range>> {
    let (x, rest) = first(text);
    let (y, rest) = first(rest);
    let (step, size) = first(rest);
    let (width, height) = first(size);
    Some(Window::new(
        x.parse().ok()?,
        y.parse().ok()?,
        step.parse().ok()?,
        width.parse().ok()?,
        height.parse().ok()?,
    ))
}

/// `box`: the pixels; `600 box`: the PPM, into this much room. `alike box`: how many pixels have
/// another colour than the drawing at their point.
fn shown<T: Threads + Sync>(
    rt: &T,
    alloc: Global,
    front: &str,
    window: Window,
    workers: u8,
) -> Option<String>
    requires { (1 ≤ workers) × (workers ≤ 16) }
{
    match front.split_once(' ') {
        Some(("alike", name)) => {
            let drawing = drawing(alloc, name)?;
            let raster = painted(rt, alloc, &drawing, window, workers)?;
            let count = count_unlike(&drawing, window, raster.bytes());
            format!(in alloc; "{count} of {}", raster.bytes().len() / 3).ok()
        }
        Some((room, name)) => {
            let mut tape = Tape::new(alloc, Some(room.parse().ok()?));
            let drawing = drawing(alloc, name)?;
            let how = written(rt, alloc, &drawing, window, workers, &mut tape);
            let bytes = tape.bytes();
            format!(in alloc; "{how} {}{}", bytes.len(), spelt(alloc, bytes)?).ok()
        }
        None => {
            let drawing = drawing(alloc, front)?;
            runs(
                alloc,
                painted(rt, alloc, &drawing, window, workers)?.bytes(),
            )
        }
    }
}

/// The drawing of the figures of this name.
fn drawing(alloc: Global, name: &str) -> Option<Drawing<Outline>> {
    let pieces = format!(in alloc; "empty / {name}").ok()?;
    let text = text(alloc, pieces.as_str())?;
    read_fig(alloc, text.as_bytes()).ok()
}

fn painted<T: Threads + Sync>(
    rt: &T,
    alloc: Global,
    drawing: &Drawing<Outline>,
    window: Window,
    workers: u8,
) -> Option<Raster>
    requires { (1 ≤ workers) × (workers ≤ 16) }
{
    paint(rt, alloc, drawing, window, workers, &OpenGate).ok()
}

/// How the picture was written.
fn written<T: Threads + Sync>(
    rt: &T,
    alloc: Global,
    drawing: &Drawing<Outline>,
    window: Window,
    workers: u8,
    tape: &mut Tape,
) -> &'static str
    requires { (1 ≤ workers) × (workers ≤ 16) }
{
    match ppm_to(rt, alloc, drawing, window, workers, &OpenGate, tape) {
        Ok(()) => "written",
        Err(WriteError::WriteFailed) => "write failed",
        Err(WriteError::OutOfMemory) => "out of memory",
    }
}

fn count_unlike(drawing: &Drawing<Outline>, window: Window, bytes: &[u8]) -> u64 {
    let _ = window.height();
    let start = Point {
        x: window.x(),
        y: window.line(0),
    };
    let mut at = start;
    let mut column = 0u32;
    let mut count = 0u64;
    for pixel in bytes.chunks_exact(3) {
        let Rgb { r, g, b } = drawing.colour_at(at);
        if [r, g, b] != [pixel[0], pixel[1], pixel[2]] {
            count = count.saturating_add(1);
        }
        at.x = at.x.wrapping_add(window.step() as i32);
        column = column.wrapping_add(1);
        if column == window.width() {
            column = 0;
            at.x = start.x;
            at.y = at.y.wrapping_add(window.step() as i32);
        }
    }
    count
}

/// Runs of equal pixels, as `2 ff0000 1 ffffff`.
fn runs(alloc: Global, bytes: &[u8]) -> Option<String> {
    let mut text = String::new(alloc);
    let mut last = [0, 0, 0];
    let mut count = 0u64;
    for pixel in bytes.chunks_exact(3) {
        let pixel = [pixel[0], pixel[1], pixel[2]];
        if count != 0 && pixel != last {
            push_run(alloc, count, last, &mut text)?;
            count = 0;
        }
        last = pixel;
        count = count.saturating_add(1);
    }
    push_run(alloc, count, last, &mut text)?;
    Some(text)
}

fn push_run(alloc: Global, count: u64, pixel: [u8; 3], text: &mut String) -> Option<()> {
    let [r, g, b] = pixel;
    let run = format!(in alloc; " {count} {r:02x}{g:02x}{b:02x}").ok()?;
    text.push_str(run.as_str()).ok()
}

/// The three lines before the pixels, the pixels as runs of one colour, and what is left of a
/// pixel.
fn spelt(alloc: Global, bytes: &[u8]) -> Option<String> {
    let (header, pixels) = bytes.split_at(header_len(bytes).min(bytes.len()));
    let mut text = format!(in alloc; " {}", header.escape_ascii()).ok()?;
    if !pixels.is_empty() {
        text.push_str(runs(alloc, pixels)?.as_str()).ok()?;
    }
    let whole = pixels.len() - pixels.len() % 3;
    if whole < pixels.len() {
        let rest = format!(in alloc; " {}", pixels[whole..].escape_ascii()).ok()?;
        text.push_str(rest.as_str()).ok()?;
    }
    Some(text)
}

/// How many bytes the first three lines have.
fn header_len(bytes: &[u8]) -> usize {
    let mut lines = 0u8;
    let mut len = 0usize;
    for byte in bytes {
        if lines == 3 {
            break;
        }
        if *byte == b'\n' {
            lines = lines.saturating_add(1);
        }
        len = len.saturating_add(1);
    }
    len
}
