//! Commands about a history.

use gf_ops::{AddFault, History, OpFault, conflicts, direct_conflict};
use std::alloc::Global;
use test_kit::notation::{id, operation};

/// What the history says to a further operation, which it adds where it can.
pub(crate) fn add(alloc: Global, history: &mut History, text: &str) -> Option<String> {
    let op = operation(alloc, text)?;
    if !op.in_range() {
        return None;
    }
    history.room().ok()?;
    added(alloc, history.add(op))
}

/// What the history says to an operation before it is added.
pub(crate) fn check(alloc: Global, history: &History, text: &str) -> Option<String> {
    let op = operation(alloc, text)?;
    if !op.in_range() {
        return String::from_str(alloc, "out of range").ok();
    }
    checked(alloc, history.check(&op))
}

fn added(alloc: Global, answer: Result<(), AddFault>) -> Option<String> {
    match answer {
        Ok(()) => String::from_str(alloc, "ok").ok(),
        Err(fault) => format!(in alloc; "{fault}").ok(),
    }
}

fn checked(alloc: Global, answer: Result<(), OpFault>) -> Option<String> {
    match answer {
        Ok(()) => String::from_str(alloc, "ok").ok(),
        Err(fault) => format!(in alloc; "{fault}").ok(),
    }
}

/// How many operations of a site the history has.
pub(crate) fn count(alloc: Global, history: &History, text: &str) -> Option<String> {
    let site: u8 = text.parse().ok()?;
    format!(in alloc; "{}", history.count(site)).ok()
}

/// What the history has under an id.
pub(crate) fn get(alloc: Global, history: &History, text: &str) -> Option<String> {
    match history.get(id(text)?) {
        Some(op) => format!(in alloc; "{}", op.id).ok(),
        None => String::from_str(alloc, "none").ok(),
    }
}

/// Whether two operations of the history conflict, and whether directly.
pub(crate) fn standing(alloc: Global, history: &History, text: &str) -> Option<String> {
    let (first, second) = text.split_once(' ')?;
    let a = history.get(id(first)?)?;
    let b = history.get(id(second)?)?;
    if a.in_range() && b.in_range() {
        told_standing(alloc, conflicts(history, a, b), direct_conflict(a, b))
    } else {
        None
    }
}

fn told_standing(alloc: Global, conflict: bool, direct: bool) -> Option<String> {
    let word = match (conflict, direct) {
        (true, true) => "directly",
        (true, false) => "by aims",
        (false, false) => "no",
        (false, true) => "directly alone",
    };
    String::from_str(alloc, word).ok()
}
