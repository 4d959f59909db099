//! What is written to sinks, and how often a writer is called.

use gf_streams::{Out, Sink, SinkFault, Tape, write_all, write_whole};
use std::alloc::Global;
use std::io;
use std::io::Write;
use test_kit::Answers;

/// Takes at most some bytes a call, fails at one write or at each flush, and counts its calls.
#[derive(Drop)]
pub(crate) struct Writer {
    most: usize,
    failing_write: u32,
    flush_fails: bool,
    taken: usize,
    writes: u32,
    flushes: u32,
}

impl Writer {
    pub(crate) fn new(most: usize, failing_write: u32, flush_fails: bool) -> Self {
        Writer {
            most,
            failing_write,
            flush_fails,
            taken: 0,
            writes: 0,
            flushes: 0,
        }
    }
}

impl Write for Writer {
    fn write(&mut self, bytes: &[u8]) -> io::Result<usize> {
        self.writes = self.writes.saturating_add(1);
        if self.writes == self.failing_write {
            return Err(io::Error::from(io::ErrorKind::Other));
        }
        let count = bytes.len().min(self.most);
        self.taken = self.taken.saturating_add(count);
        Ok(count)
    }

    fn flush(&mut self) -> io::Result<()> {
        self.flushes = self.flushes.saturating_add(1);
        if self.flush_fails {
            return Err(io::Error::from(io::ErrorKind::Other));
        }
        Ok(())
    }
}

impl Answers for Writer {
    fn answer(&mut self, alloc: Global, question: &str) -> Option<String> {
        let (verb, text) = question.split_once(' ').unwrap_or((question, ""));
        match verb {
            "new" => {
                *self = writer_of(text)?;
                String::from_str(alloc, "ok").ok()
            }
            "tape" => tape(alloc, text),
            "tape_whole" => tape_whole(alloc, text),
            "vector_whole" => vector_whole(alloc, text),
            _ => called(alloc, self, verb, text.as_bytes()),
        }
    }
}

/// `4 2 false`: the most bytes a call, the write that fails, and whether each flush does.
fn writer_of(text: &str) -> Option<Writer> {
    let (most, failures) = text.split_once(' ')?;
    let (failing_write, flush_fails) = failures.split_once(' ')?;
    Some(Writer::new(
        most.parse().ok()?,
        failing_write.parse().ok()?,
        flush_fails.parse().ok()?,
    ))
}

/// What a call answers. Behind it stand all bytes taken, writes and flushes until then.
fn called(alloc: Global, writer: &mut Writer, verb: &str, bytes: &[u8]) -> Option<String> {
    let mut out = Out::new(&mut *writer);
    let answer = match verb {
        "write" => counted(alloc, out.write(bytes)),
        "flush" => done(alloc, out.flush()),
        "all" => done(alloc, write_all(&mut out, bytes)),
        "whole" => done(alloc, write_whole(&mut out, bytes)),
        _ => None,
    };
    let answer = answer?;
    let Writer {
        taken,
        writes,
        flushes,
        ..
    } = writer;
    format!(in alloc; "{answer}, {taken} in {writes}, {flushes} flushes").ok()
}

fn counted(alloc: Global, answer: Result<usize, SinkFault>) -> Option<String> {
    match answer {
        Ok(count) => format!(in alloc; "{count}").ok(),
        Err(_) => String::from_str(alloc, "fault").ok(),
    }
}

fn done(alloc: Global, answer: Result<(), SinkFault>) -> Option<String> {
    let word = if answer.is_ok() { "ok" } else { "fault" };
    String::from_str(alloc, word).ok()
}

/// A number of bytes, or `none`.
fn limit(text: &str) -> Option<Option<u64>> {
    match text {
        "none" => Some(None),
        _ => Some(Some(text.parse().ok()?)),
    }
}

/// What a tape of this limit answers to four pieces, and what it holds then.
fn tape(alloc: Global, text: &str) -> Option<String> {
    let mut tape = Tape::new(alloc, limit(text)?);
    let mut told = String::new(alloc);
    for piece in ["ab", "cd", "", "ef"] {
        let answer = counted(alloc, tape.write(piece.as_bytes()))?;
        told.push_str(answer.as_str()).ok()?;
        told.push_str(" ").ok()?;
    }
    held(alloc, told.as_str().trim(), tape.bytes())
}

fn held(alloc: Global, told: &str, bytes: &[u8]) -> Option<String> {
    let held = std::str::from_utf8(bytes).ok()?;
    format!(in alloc; "{told} '{held}'").ok()
}

/// What the write of a whole text onto a tape of this limit answers, and what it holds then.
fn tape_whole(alloc: Global, text: &str) -> Option<String> {
    let (most, written) = text.split_once(' ')?;
    let mut tape = Tape::new(alloc, limit(most)?);
    let answer = done(alloc, write_whole(&mut tape, written.as_bytes()))?;
    held(alloc, answer.as_str(), tape.bytes())
}

/// What the write of a whole text onto a vector answers, and what it holds then.
fn vector_whole(alloc: Global, text: &str) -> Option<String> {
    let mut written = Vec::new(alloc);
    let answer = done(
        alloc,
        write_whole(&mut Out::new(&mut written), text.as_bytes()),
    )?;
    held(alloc, answer.as_str(), &written)
}
