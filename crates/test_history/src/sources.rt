//! What is read from sources, and how often a reader is called.

use gf_streams::{In, Reel, Source, SourceFault, read_input};
use std::alloc::Global;
use std::io;
use std::io::Read;
use test_kit::Answers;

/// Gives a number of bytes `a`, at most `most` a read, and fails at one read.
#[derive(Drop)]
pub(crate) struct Reader {
    left: usize,
    most: usize,
    failing_read: u32,
    reads: u32,
}

impl Reader {
    pub(crate) fn new(left: usize, most: usize, failing_read: u32) -> Self {
        Reader {
            left,
            most,
            failing_read,
            reads: 0,
        }
    }
}

impl Read for Reader {
    fn read(&mut self, buffer: &mut [u8]) -> io::Result<usize> {
        self.reads = self.reads.saturating_add(1);
        if self.reads == self.failing_read {
            return Err(io::Error::from(io::ErrorKind::Other));
        }
        let count = buffer.len().min(self.most).min(self.left);
        buffer[..count].fill(b'a');
        self.left = self.left.saturating_sub(count);
        Ok(count)
    }
}

impl Answers for Reader {
    fn answer(&mut self, alloc: Global, question: &str) -> Option<String> {
        let (verb, text) = question.split_once(' ').unwrap_or((question, ""));
        match verb {
            "new" => {
                *self = reader_of(text)?;
                String::from_str(alloc, "ok").ok()
            }
            "read" => read(alloc, &mut In::new(&mut *self), text),
            "reads" => format!(in alloc; "{}", self.reads).ok(),
            "whole" => {
                let text = whole(alloc, &mut In::new(&mut *self))?;
                format!(in alloc; "{text}, {} left after {}", self.left, self.reads).ok()
            }
            "length" => {
                let text = length(alloc, &mut In::new(&mut *self))?;
                format!(in alloc; "{text}, {} left", self.left).ok()
            }
            _ => of_reel(alloc, verb, text),
        }
    }
}

/// `6 4 2`: the bytes that it gives, the most a read, and the read that fails.
fn reader_of(text: &str) -> Option<Reader> {
    let (left, rest) = text.split_once(' ')?;
    let (most, failing_read) = rest.split_once(' ')?;
    Some(Reader::new(
        left.parse().ok()?,
        most.parse().ok()?,
        failing_read.parse().ok()?,
    ))
}

/// What the read of at most this many bytes gives, and all that the buffer holds then.
fn read<R: Source>(alloc: Global, source: &mut R, text: &str) -> Option<String> {
    let mut buffer = *b".....";
    let room: usize = text.parse().ok()?;
    match source.read(buffer.get_mut(..room)?) {
        Ok(count) => {
            let held = std::str::from_utf8(&buffer).ok()?;
            format!(in alloc; "{count} {held}").ok()
        }
        Err(_) => String::from_str(alloc, "fault").ok(),
    }
}

/// What the read of a whole source gives, in quotes, or why there is nothing.
fn whole<R: Source>(alloc: Global, source: &mut R) -> Option<String> {
    match read_input(alloc, source) {
        Ok(bytes) => {
            let text = std::str::from_utf8(&bytes).ok()?;
            format!(in alloc; "'{text}'").ok()
        }
        Err(error) => format!(in alloc; "{error}").ok(),
    }
}

/// How many bytes the read of a whole source gives, or why there are none.
fn length<R: Source>(alloc: Global, source: &mut R) -> Option<String> {
    match read_input(alloc, source) {
        Ok(bytes) => format!(in alloc; "{}", bytes.len()).ok(),
        Err(error) => format!(in alloc; "{error}").ok(),
    }
}

/// The answers of a reel, which fails after a number of bytes or never.
fn of_reel(alloc: Global, verb: &str, text: &str) -> Option<String> {
    let (number, held) = text.split_once(' ').unwrap_or((text, ""));
    let fail_after = match number {
        "never" => None,
        _ => Some(number.parse().ok()?),
    };
    let mut reel = Reel::new(held.as_bytes(), fail_after);
    match verb {
        "reel" => four_reads(alloc, &mut reel),
        "reel_read" => read(alloc, &mut reel, "4"),
        "reel_none" => read(alloc, &mut reel, "0"),
        "reel_whole" => whole(alloc, &mut reel),
        _ => None,
    }
}

/// What a source answers to four reads of at most four bytes.
fn four_reads<R: Source>(alloc: Global, source: &mut R) -> Option<String> {
    let mut told = String::new(alloc);
    for _ in 0..4 {
        let mut buffer = [0u8; 4];
        let answer = counted(alloc, source.read(&mut buffer))?;
        told.push_str(answer.as_str()).ok()?;
    }
    Some(told)
}

fn counted(alloc: Global, answer: Result<usize, SourceFault>) -> Option<String> {
    match answer {
        Ok(count) => format!(in alloc; "{count} ").ok(),
        Err(_) => String::from_str(alloc, "fault ").ok(),
    }
}
