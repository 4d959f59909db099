//! Questions that stand alone: on lines, texts and faults, and on all small histories.

use crate::{faults, lines, small_aims, small_histories, text_lines};
use std::alloc::Global;
use test_kit::Answers;

/// Keeps nothing from one question to the next.
#[derive(Drop)]
pub(crate) struct Calls;

impl Answers for Calls {
    fn answer(&mut self, alloc: Global, question: &str) -> Option<String> {
        let (verb, text) = question.split_once(' ').unwrap_or((question, ""));
        match verb {
            "fault" => faults::answer(alloc, text),
            "each" => text_lines::each(alloc, text),
            "twos" => text_lines::twos(alloc, text),
            "histories" => small_histories::all(alloc),
            "histories_behind" => small_aims::all(alloc, text),
            _ => lines::answer(alloc, verb, text),
        }
    }
}
