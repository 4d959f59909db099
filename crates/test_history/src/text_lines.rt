//! The lines of texts, each with its number.

use gf_streams::TextLines;
use std::alloc::Global;
use test_kit::notation::unescaped;

/// All lines of a text, one after another.
pub(crate) fn each(alloc: Global, text: &str) -> Option<String> {
    let mut told = String::new(alloc);
    let mut lines = lines_of(alloc, text)?;
    while let Some((number, line)) = lines.first() {
        push(alloc, &mut told, number, line)?;
        lines.advance();
    }
    escaped(alloc, &told)
}

/// The first lines of a text, by four blocks of two.
pub(crate) fn twos(alloc: Global, text: &str) -> Option<String> {
    let mut told = String::new(alloc);
    let mut lines = lines_of(alloc, text)?;
    for _ in 0..4 {
        let block = lines.block(alloc, 2).ok()?;
        for (number, line) in &block {
            push(alloc, &mut told, *number, line)?;
        }
        let count = block.len();
        drop(block);
        lines.advance_by(count);
    }
    escaped(alloc, &told)
}

fn lines_of(alloc: Global, text: &str) -> Option<TextLines> {
    let text = unescaped(alloc, text)?;
    Some(TextLines::new(text.as_bytes().to_vec(alloc).ok()?))
}

/// Adds a line and its number, ended by a bar.
fn push(alloc: Global, told: &mut String, number: u64, line: &[u8]) -> Option<()> {
    let line = std::str::from_utf8(line).ok()?;
    let line = format!(in alloc; "{number}:{line}|").ok()?;
    told.push_str(line.as_str()).ok()
}

fn escaped(alloc: Global, told: &String) -> Option<String> {
    told.as_str().replace(alloc, "\r", "\\r").ok()
}
