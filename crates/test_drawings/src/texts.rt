//! The questions on FIG texts: what is asked, `of`, and the pieces of the text.

use crate::drawings::of_drawing;
use crate::pieces::text;
use crate::shapes::first;
use gf_fig_faults::drawing_faults;
use gf_fig_named::{Named, read_names};
use gf_fig_read::{
    every_text_reads_as_one_drawing_or_fails_once, fault_line, object_line, read_fig,
};
use gf_ops::Clock;
use gf_shape::Rgb;
use std::alloc::Global;
use test_kit::notation::push_ids;
use test_kit::{Answers, RED, at};

/// The text that a question spells.
#[derive(Drop)]
pub(crate) struct Texts;

impl Answers for Texts {
    fn answer(&mut self, alloc: Global, question: &str) -> Option<String> {
        every_text_reads_as_one_drawing_or_fails_once();
        let (question, pieces) = question.split_once(" of ")?;
        let text = text(alloc, pieces)?;
        of_text(alloc, text.as_bytes(), question)
    }
}

/// The answer of a FIG text, or of the drawing that it reads as.
fn of_text(alloc: Global, text: &[u8], question: &str) -> Option<String> {
    let (verb, rest) = first(question);
    match verb {
        "bytes" => format!(in alloc; "{}", text.len()).ok(),
        "fault" => fault(alloc, text),
        "line" => reported(alloc, text),
        "object" => line(alloc, object_line(alloc, text, rest.parse().ok()?).ok()?),
        "cuts" => cuts(alloc, text, rest),
        "replaced" => replaced(alloc, text),
        "faults" => faults(alloc, text),
        "names" => names(alloc, text),
        _ => of_drawing(alloc, &read_fig(alloc, text).ok()?, question),
    }
}

/// The object and the first fault of a text. Of a drawing, how many colours and figures it has.
fn fault(alloc: Global, text: &[u8]) -> Option<String> {
    match read_fig(alloc, text) {
        Err(error) => format!(in alloc; "{} {}", error.object, error.fault).ok(),
        Ok(drawing) => {
            let (colours, figures) = (drawing.colours().len(), drawing.figures().len());
            format!(in alloc; "{colours} colours, {figures} figures").ok()
        }
    }
}

/// The line at which the fault of a text is reported.
fn reported(alloc: Global, text: &[u8]) -> Option<String> {
    let error = read_fig(alloc, text).err()?;
    line(alloc, fault_line(alloc, text, error).ok()?)
}

fn line(alloc: Global, line: Option<u64>) -> Option<String> {
    match line {
        Some(line) => format!(in alloc; "{line}").ok(),
        None => String::from_str(alloc, "none").ok(),
    }
}

/// `8 to 50`: the answer that all fronts of these lengths have, or the first other one.
fn cuts(alloc: Global, text: &[u8], lengths: &str) -> Option<String> {
    let (from, to) = lengths.split_once(" to ")?;
    let (from, to): (usize, usize) = (from.parse().ok()?, to.parse().ok()?);
    let want = fault(alloc, text.get(..from)?)?;
    for len in from..=to {
        let answer = fault(alloc, text.get(..len)?)?;
        if answer.as_str() != want.as_str() {
            return format!(in alloc; "{want}, but {answer} at {len}").ok();
        }
    }
    Some(want)
}

/// How many texts with another byte in one place have faults just where they don't read.
fn replaced(alloc: Global, text: &[u8]) -> Option<String> {
    let mut agree = 0u64;
    for byte in [0u8, b'#', b'-', b'9'] {
        for k in 0..text.len() {
            let mut other = Vec::from_slice(alloc, text).ok()?;
            other[k] = byte;
            if is_answered(alloc, &other)? {
                agree = agree.saturating_add(1);
            }
        }
    }
    format!(in alloc; "{agree} agree").ok()
}

/// Whether the text has no faults and reads, with a colour at the origin, or else has some.
fn is_answered(alloc: Global, text: &[u8]) -> Option<bool> {
    let has_faults = !drawing_faults(alloc, text).ok()?.as_slice().is_empty();
    match read_fig(alloc, text) {
        Err(_) => Some(has_faults),
        Ok(drawing) => {
            let colour = drawing.colour_at(at(0, 0));
            Some(!has_faults && (colour == RED || colour == WHITE))
        }
    }
}

const WHITE: Rgb = Rgb {
    r: 255,
    g: 255,
    b: 255,
};

/// All faults of a drawing, and what to do.
fn faults(alloc: Global, text: &[u8]) -> Option<String> {
    let faults = drawing_faults(alloc, text).ok()?;
    if faults.as_slice().is_empty() {
        return String::from_str(alloc, "none").ok();
    }
    let told = format!(in alloc; "{faults}").ok()?;
    told.as_str().replace(alloc, "\n", r"\n").ok()
}

/// What was known, and the names of the figures.
fn names(alloc: Global, text: &[u8]) -> Option<String> {
    let names = read_names(alloc, text).ok()?;
    let mut told = known(alloc, names.known)?;
    for named in &names.figures {
        match named {
            Some(named) => push_named(alloc, &mut told, named)?,
            None => told.push_str("; none").ok()?,
        }
    }
    Some(told)
}

fn known(alloc: Global, known: Option<Clock>) -> Option<String> {
    let Some(clock) = known else {
        return String::from_str(alloc, "unknown").ok();
    };
    let counts = clock.0;
    let mut text = String::from_str(alloc, "known").ok()?;
    for count in counts {
        let word = format!(in alloc; " {count}").ok()?;
        text.push_str(word.as_str()).ok()?;
    }
    Some(text)
}

/// Appends a figure's name, such as `; 1.6 at 60 with [ 2.1 ]`.
fn push_named(alloc: Global, text: &mut String, named: &Named) -> Option<()> {
    let front = format!(in alloc; "; {} at {} with ", named.name.object.0, named.depth).ok()?;
    text.push_str(front.as_str()).ok()?;
    push_ids(alloc, text, named.name.telling.as_slice())
}
