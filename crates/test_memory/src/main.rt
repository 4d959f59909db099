//! Tries the call that the one word names on its worked example, or each call without a word.
//!
//! A trial marks on standard error where its call begins and ends. Memory can thus be refused to
//! the call alone. After a refusal the trial compares all with what it was, and calls again.
#![tactic(auto)]

mod drawings;
mod examples;
mod history;
mod pictures;
mod sessions;
mod shapes;
mod sites;
mod trial;
mod versions;

use crate::trial::{Came, Marks};
use gf_streams::{Out, Sink, write_all};
use std::alloc::Global;
use std::process::ExitCode;
use std::sync::Wait;
use std::thread::Threads;

const USAGE: &[u8] = b"usage: test_memory [CALL]\n";

fn main(rt: HostRuntime) -> ExitCode {
    let alloc = rt.alloc();
    let mut output = Out::new(rt.stdout());
    let Some(words) = words(&rt) else {
        return told(Came::TooEarly, &mut output);
    };
    let came = match words.as_slice() {
        [_] => return all(&rt, alloc, &mut output),
        [_, name] => tried(&rt, alloc, name.as_str(), &mut Marks::on(rt.stderr())),
        _ => None,
    };
    match came {
        Some(came) => told(came, &mut output),
        None => misused(&mut Out::new(rt.stderr())),
    }
}

fn words(rt: &HostRuntime) -> Option<Vec<String>> {
    std::env::args(rt).ok()?.collect(rt.alloc()).ok()
}

/// The trial of the call of this name, if there is one.
fn tried<T: Threads + Wait + Sync>(
    rt: &T,
    alloc: Global,
    name: &str,
    marks: &mut Marks,
) -> Option<Came> {
    if let Some(came) = shapes::tried(alloc, name, marks) {
        return Some(came);
    }
    if let Some(came) = history::tried(alloc, name, marks) {
        return Some(came);
    }
    if let Some(came) = sites::tried(alloc, name, marks) {
        return Some(came);
    }
    if let Some(came) = versions::tried(alloc, name, marks) {
        return Some(came);
    }
    if let Some(came) = drawings::tried(alloc, name, marks) {
        return Some(came);
    }
    if let Some(came) = pictures::tried(rt, alloc, name, marks) {
        return Some(came);
    }
    sessions::tried(rt, alloc, name, marks)
}

/// Tries each call, without marks, and prints what came of it.
fn all<T: Threads + Wait + Sync, W: Sink>(rt: &T, alloc: Global, output: &mut W) -> ExitCode {
    let mut are_right = true;
    for names in [
        shapes::NAMES,
        history::NAMES,
        sites::NAMES,
        versions::NAMES,
        drawings::NAMES,
        pictures::NAMES,
        sessions::NAMES,
    ] {
        for line in names.trim().lines() {
            are_right = listed(rt, alloc, line, output) && are_right;
        }
    }
    status(are_right)
}

/// Tries the call of a line of names. The line has a word behind the name where the call may do
/// without some of its memory.
fn listed<T: Threads + Wait + Sync, W: Sink>(
    rt: &T,
    alloc: Global,
    line: &str,
    output: &mut W,
) -> bool {
    let (name, note) = line.split_once(' ').unwrap_or((line, ""));
    let came = tried(rt, alloc, name, &mut Marks::none()).unwrap_or(Came::Wrong);
    let _ = write_all(output, name.as_bytes());
    let _ = write_all(output, b": ");
    let _ = write_all(output, came.text().as_bytes());
    if !note.is_empty() {
        let _ = write_all(output, b"; ");
        let _ = write_all(output, note.as_bytes());
    }
    let _ = write_all(output, b"\n");
    came.is_right()
}

fn told<W: Sink>(came: Came, output: &mut W) -> ExitCode {
    let _ = write_all(output, came.text().as_bytes());
    let _ = write_all(output, b"\n");
    status(came.is_right())
}

fn status(is_right: bool) -> ExitCode {
    ExitCode::from(if is_right { 0 } else { 1 })
}

fn misused<E: Sink>(errors: &mut E) -> ExitCode {
    let _ = write_all(errors, USAGE);
    ExitCode::from(2)
}
