//! Tables of examples, and printed texts.

use std::alloc::Global;
use std::fmt::Display;
use std::test::Fail;

/// What answers the questions of a table.
pub trait Answers {
    /// The answer, or nothing where it can't read the question.
    fn answer(&mut self, alloc: Global, question: &str) -> Option<String>;
}

/// Asks each question of a table. A line is a question and, behind the first `|`, what is to be
/// answered. A line that begins with `//` says what the lines below it try.
pub fn ask<A: Answers>(alloc: Global, rows: &str, asked: &mut A) -> Result<(), Fail> {
    for row in rows.lines() {
        if let Some((question, want)) = row.split_once('|') {
            is_answer(row, want.trim(), asked.answer(alloc, question.trim()))?;
        } else if !row.is_empty() && !row.starts_with("// ") {
            return Err(Fail::new(format_args!("no row: {row}")));
        }
    }
    Ok(())
}

/// That the answer to the question of a row is what is to be answered.
pub fn is_answer(row: &str, want: &str, answer: Option<String>) -> Result<(), Fail> {
    match answer {
        Some(answer) => is_text(row, want, answer.as_str().trim()),
        None => Err(Fail::new(format_args!("no question: {row}"))),
    }
}

fn is_text(what: &str, want: &str, text: &str) -> Result<(), Fail> {
    if text == want {
        Ok(())
    } else {
        Err(Fail::new(format_args!("{text}, and not as in {what}")))
    }
}

/// That a value is printed as this text.
pub fn prints<T: Display + Drop>(alloc: Global, value: T, text: &str) -> Result<(), Fail> {
    let printed = format!(in alloc; "{value}")?;
    is_text(text, text, printed.as_str())
}
