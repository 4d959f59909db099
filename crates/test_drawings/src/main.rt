//! Worked examples of shapes, of drawings and of pictures, by public calls alone.
//!
//! - `shapes`, `trials`: shapes and their rows, at given heights and by trial;
//! - `drawings`, `compiled`: drawings, those of histories, and the FIG text that is written of them;
//! - `texts`: what is read of a FIG text, its faults, and the names of its figures;
//! - `pictures`, `fitted`, `named`: pixels and PPM, the windows that fit, and FIG texts with names.
//!
//! `painters` hands on what threads paint. `pieces` has what FIG texts are made of, `outlines` what
//! outlines are written as, and `refusals` the words of refusals. Standard input has a section of
//! rows for each subject.
#![tactic(auto)]

mod compiled;
mod drawings;
mod fitted;
mod named;
mod outlines;
mod painters;
mod pictures;
mod pieces;
mod refusals;
mod shapes;
mod texts;
mod trials;

use crate::drawings::Drawings;
use crate::fitted::Frames;
use crate::outlines::Outlines;
use crate::painters::{Call, Painted, Painters, told};
use crate::refusals::Refusals;
use crate::shapes::Shapes;
use crate::texts::Texts;
use crate::trials::Trials;
use gf_streams::{In, Out};
use std::alloc::{AllocError, Global};
use std::process::ExitCode;
use test_kit::{Subjects, answer_sections, ask_rows};

fn main(rt: HostRuntime) -> Result<ExitCode, AllocError> {
    let alloc = rt.alloc();
    let own = rt.clone()?;
    let call: Call = Box::new(
        alloc,
        move |alloc: Global, subject: &str, question: &str| told(&own, alloc, subject, question),
    )?;
    let painters = Painters { call };
    let mut input = In::new(rt.reader());
    let mut output = Out::new(rt.stdout());
    let mut examples = Examples { painters };
    let status = answer_sections(alloc, &mut input, &mut output, &mut examples);
    Ok(ExitCode::from(status))
}

/// Who answers for each subject.
#[derive(Drop)]
struct Examples {
    painters: Painters,
}

impl Subjects for Examples {
    fn ask(&mut self, alloc: Global, subject: &str, rows: &str) -> Option<String> {
        let painters = &self.painters;
        match subject {
            "boxes" | "circles" | "ellipses" | "polygons" | "shapes" | "rows" => {
                ask_rows(alloc, subject, rows, &mut Shapes)
            }
            "trials" => ask_rows(alloc, subject, rows, &mut Trials),
            "outlines" => ask_rows(alloc, subject, rows, &mut Outlines),
            "refusals" => ask_rows(alloc, subject, rows, &mut Refusals),
            "drawings" | "compiling" | "FIG written" => {
                ask_rows(alloc, subject, rows, &mut Drawings)
            }
            "FIG read" | "FIG cut" | "FIG faults" | "FIG lines" | "all faults" | "names" => {
                ask_rows(alloc, subject, rows, &mut Texts)
            }
            "frames" => ask_rows(alloc, subject, rows, &mut Frames),
            "pixels" | "pictures" | "fitted histories" | "fitted texts" | "named runs" => {
                ask_rows(alloc, subject, rows, &mut Painted { painters, subject })
            }
            _ => None,
        }
    }
}
