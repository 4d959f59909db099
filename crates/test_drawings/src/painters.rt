//! Who answers for what threads paint.

use crate::{fitted, named, pictures};
use gf_studio::Format;
use std::alloc::Global;
use std::thread::Threads;
use test_kit::Answers;

/// The answer to a question of a subject, as [`told`] gives it.
pub(crate) type Call = Box<dyn Fn(Global, &str, &str) -> Option<String>>;

/// The call behind which threads paint: an `impl` of a trait can't ask that threads share a handle.
#[derive(Drop)]
pub(crate) struct Painters {
    pub(crate) call: Call,
    ghost callable: { IsAlwaysCallable call },
}

/// The pictures of a subject.
#[derive(Drop)]
pub(crate) struct Painted<'p> {
    pub(crate) painters: &'p Painters,
    pub(crate) subject: &'p str,
}

impl Answers for Painted<'_> {
    fn answer(&mut self, alloc: Global, question: &str) -> Option<String> {
        (self.painters.call)(alloc, self.subject, question)
    }
}

/// The answer to a question of a subject.
pub(crate) fn told<T: Threads + Sync>(
    rt: &T,
    alloc: Global,
    subject: &str,
    question: &str,
) -> Option<String> {
    match subject {
        "pixels" | "pictures" => pictures::told(rt, alloc, question),
        "fitted histories" => fitted::told(rt, alloc, Format::Lines, question),
        "fitted texts" => fitted::told(rt, alloc, Format::Fig, question),
        "named runs" => named::told(rt, alloc, question),
        _ => None,
    }
}
