//! Programs of worked examples, which read sections of rows and write what differs.
//!
//! A section begins with a line `== SUBJECT`. Below it stand rows as those of [`ask`](crate::ask).

use crate::Answers;
use gf_streams::{Sink, Source, read_input, write_whole};
use std::alloc::Global;

/// Who answers for which subject.
pub trait Subjects {
    /// Asks the rows of a subject, by [`ask_rows`]. An unknown subject has no report.
    fn ask(&mut self, alloc: Global, subject: &str, rows: &str) -> Option<String>;
}

/// Writes the reports on the sections of a source, and gives the status of the program.
pub fn answer_sections<R: Source, W: Sink, S: Subjects>(
    alloc: Global,
    source: &mut R,
    sink: &mut W,
    subjects: &mut S,
) -> u8 {
    match read_input(alloc, source) {
        Ok(bytes) => match told(alloc, &bytes, sink, subjects) {
            Some(()) => 0,
            None => 1,
        },
        Err(_) => 1,
    }
}

fn told<W: Sink, S: Subjects>(
    alloc: Global,
    bytes: &[u8],
    sink: &mut W,
    subjects: &mut S,
) -> Option<()> {
    let text = std::str::from_utf8(bytes).ok()?;
    for section in text.strip_prefix("== ")?.split("\n== ") {
        let (subject, rows) = section.split_once('\n').unwrap_or((section, ""));
        match subjects.ask(alloc, subject, rows) {
            Some(report) => write_whole(sink, report.as_bytes()).ok()?,
            None => {
                let line = format!(in alloc; "{subject}: nobody answers\n").ok()?;
                write_whole(sink, line.as_bytes()).ok()?;
            }
        }
    }
    Some(())
}

/// Asks the rows of a subject. The report has a line for each that is answered otherwise, for each
/// that can't be read, and for how many were asked.
pub fn ask_rows<A: Answers>(
    alloc: Global,
    subject: &str,
    rows: &str,
    asked: &mut A,
) -> Option<String> {
    let mut report = String::new(alloc);
    let mut count = 0u64;
    for row in rows.lines() {
        if let Some((question, want)) = row.split_once('|') {
            count = count.saturating_add(1);
            let answer = asked.answer(alloc, question.trim());
            let line = difference(alloc, subject, row, want.trim(), answer)?;
            report.push_str(line.as_str()).ok()?;
        } else if !row.is_empty() && !row.starts_with("// ") {
            let line = format!(in alloc; "{subject}: no row: {row}\n").ok()?;
            report.push_str(line.as_str()).ok()?;
        }
    }
    let line = format!(in alloc; "{subject}: {count} rows\n").ok()?;
    report.push_str(line.as_str()).ok()?;
    Some(report)
}

/// The line on a row that is answered otherwise, or not at all. There is none on another row.
fn difference(
    alloc: Global,
    subject: &str,
    row: &str,
    want: &str,
    answer: Option<String>,
) -> Option<String> {
    match answer {
        None => format!(in alloc; "{subject}: no question: {row}\n").ok(),
        Some(answer) => {
            let answer = answer.as_str().trim();
            if answer == want {
                Some(String::new(alloc))
            } else {
                format!(in alloc; "{subject}: {row}, and not: {answer}\n").ok()
            }
        }
    }
}
