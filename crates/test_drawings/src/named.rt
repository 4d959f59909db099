//! Operations to lines, and these to FIG texts whose figures are named.

use gf_json::op_line;
use gf_streams::{Reel, Tape};
use gf_studio::named_fig_run;
use std::alloc::Global;
use std::thread::Threads;
use test_kit::notation::operation;

/// The lines of operations, which have a `;` between them.
pub(crate) fn lines(alloc: Global, operations: &str) -> Option<Vec<u8>> {
    let mut input = Vec::new(alloc);
    for text in operations.split(';') {
        if !text.trim().is_empty() {
            push_line(alloc, &mut input, text.trim())?;
        }
    }
    Some(input)
}

/// Appends the line of an operation.
fn push_line(alloc: Global, input: &mut Vec<u8>, text: &str) -> Option<()> {
    let op = operation(alloc, text)?;
    let line = op_line(alloc, &op).ok()?;
    input.extend_from_slice(line.as_bytes()).ok()?;
    input.push(b'\n').ok()
}

/// The FIG text of the operations that a question tells.
pub(crate) fn told<T: Threads + Sync>(rt: &T, alloc: Global, question: &str) -> Option<String> {
    let input = lines(alloc, question)?;
    let mut sink = Tape::new(alloc, None);
    let mut source = Reel::new(&input, None);
    match named_fig_run(rt, alloc, &mut source, &mut sink, 1) {
        Ok(_) => format!(in alloc; "{}", sink.bytes().escape_ascii()).ok(),
        Err(error) => format!(in alloc; "{error}").ok(),
    }
}
