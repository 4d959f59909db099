//! The words of refusals.

use gf_base::OutOfMemory;
use gf_drawing::CompileFault;
use gf_fig_read::{FigError, FigFault};
use gf_shape::{PolygonError, Range};
use std::alloc::Global;
use std::fmt::Display;
use test_kit::Answers;

/// The texts of the values of a type.
#[derive(Drop)]
pub(crate) struct Refusals;

impl Answers for Refusals {
    fn answer(&mut self, alloc: Global, question: &str) -> Option<String> {
        match question {
            "Range" => texts(alloc, &[Range]),
            "OutOfMemory" => texts(alloc, &[OutOfMemory]),
            "PolygonError" => texts(
                alloc,
                &[
                    PolygonError::Count,
                    PolygonError::Range,
                    PolygonError::OutOfMemory,
                ],
            ),
            "CompileFault" => texts(
                alloc,
                &[
                    CompileFault::TooManyVersions,
                    CompileFault::TooManyColours,
                    CompileFault::OutOfMemory,
                ],
            ),
            "FigError" => texts(alloc, &[sub_type_of_the_first()]),
            "FigFault" => texts(alloc, &FIG_FAULTS),
            _ => None,
        }
    }
}

fn sub_type_of_the_first() -> FigError {
    FigError {
        fault: FigFault::SubType,
        object: 1,
    }
}

const FIG_FAULTS: [FigFault; 20] = [
    FigFault::Version,
    FigFault::Header,
    FigFault::Resolution,
    FigFault::Token,
    FigFault::Cut,
    FigFault::Object,
    FigFault::SubType,
    FigFault::Outline,
    FigFault::Fill,
    FigFault::Arrow,
    FigFault::Count,
    FigFault::Open,
    FigFault::Radius,
    FigFault::Range,
    FigFault::LateColour,
    FigFault::ColourTwice,
    FigFault::NoColour,
    FigFault::Depth,
    FigFault::Angle,
    FigFault::OutOfMemory,
];

fn texts<T: Display>(alloc: Global, values: &[T]) -> Option<String> {
    let mut text = String::new(alloc);
    for value in values {
        let word = format!(in alloc; "{value}, ").ok()?;
        text.push_str(word.as_str()).ok()?;
    }
    Some(text)
}
