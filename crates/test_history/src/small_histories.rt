//! All histories of at most four changes of a box by two sites, in each order that they may have,
//! against the definition of versions.

use crate::version_commands::text_of;
use gf_listing::groups_of;
use gf_ops::{AddFault, Form, History, ObjectId, Op, OpId, Value, conflicts};
use std::alloc::Global;
use test_kit::notation::push_ids;
use test_kit::{BLUE, GREEN, changed, create};

pub(crate) const BOX: OpId = OpId { site: 1, seq: 1 };

/// A colour or a layer.
pub(crate) fn value(code: u32) -> Value {
    match code {
        0 => Value::Colour(BLUE),
        1 => Value::Colour(GREEN),
        _ => Value::Layer(3),
    }
}

/// The change of the box 1.1 with a code below 30: either site gives it one of three values. The
/// change knows a number of operations of the other site.
fn coded(alloc: Global, code: u32, history: &History) -> Op {
    let known = code / 2 % 5;
    let first = history.count(1);
    let second = history.count(2);
    let (site, own, past) = if code % 2 == 0 {
        (1, first, [first, known, 0, 0, 0, 0, 0, 0])
    } else {
        (2, second, [known, second, 0, 0, 0, 0, 0, 0])
    };
    let seq = own.saturating_add(1);
    changed(alloc, OpId { site, seq }, past, BOX, value(code / 10))
}

/// Adds an operation, if it is valid.
fn adds(history: &mut History, op: Op) -> Result<bool, AddFault> {
    if !op.in_range() || history.check(&op).is_err() {
        return Ok(false);
    }
    history.add(op)?;
    Ok(true)
}

/// The history of the box 1.1 and the changes with these codes, if it is valid.
fn small(alloc: Global, codes: &[u32]) -> Result<Option<History>, AddFault> {
    let mut history = History::new(alloc);
    adds(&mut history, create(1, 1, [0; 8], Form::Rect(10, 10)))?;
    for code in codes {
        let op = coded(alloc, *code, &history);
        if !adds(&mut history, op)? {
            return Ok(None);
        }
    }
    Ok(Some(history))
}

fn in_conflict(history: &History, a: &Op, b: &Op) -> bool {
    a.in_range() && b.in_range() && conflicts(history, a, b)
}

/// Whether the set has the operation with this index.
pub(crate) fn holds(set: u32, index: usize) -> bool {
    (set >> (index % 32)) & 1 == 1
}

/// For each operation of a history, the set of those that conflict with it.
fn rivals(alloc: Global, history: &History) -> Option<Vec<u32>> {
    let ops = history.ops();
    let mut rivals = Vec::new(alloc);
    for op in ops {
        let mut set = 0;
        for (index, other) in ops.iter().enumerate() {
            if in_conflict(history, op, other) {
                set |= 1 << (index % 32);
            }
        }
        rivals.push(set).ok()?;
    }
    Some(rivals)
}

/// Whether the set has exactly the operations that conflict with none of it.
fn is_version(rivals: &[u32], set: u32) -> bool {
    for (index, rivals) in rivals.iter().enumerate() {
        if holds(set, index) == (rivals & set != 0) {
            return false;
        }
    }
    true
}

/// The ids of the operations of a set, rising, as the text of a group.
fn version(alloc: Global, ops: &[Op], set: u32) -> Option<String> {
    let mut ids = Vec::new(alloc);
    for (index, op) in ops.iter().enumerate() {
        if holds(set, index) {
            ids.push(op.id).ok()?;
        }
    }
    ids.sort().ok()?;
    let mut text = String::new(alloc);
    push_ids(alloc, &mut text, ids.as_slice())?;
    Some(text)
}

/// How many versions the box has, found by trying all sets of at most five operations. Nothing
/// where a version is missing in the text.
fn found(alloc: Global, history: &History, text: &str) -> Option<usize> {
    let ops = history.ops();
    let rivals = rivals(alloc, history)?;
    let mut count: usize = 0;
    for set in 0..32 {
        if set < 1 << (ops.len() % 32) && is_version(&rivals, set) {
            if !text.contains(version(alloc, ops, set)?.as_str()) {
                return None;
            }
            count = count.saturating_add(1);
        }
    }
    Some(count)
}

/// Whether the groups of the box are exactly its versions.
pub(crate) fn agrees(alloc: Global, history: &History) -> Option<bool> {
    let groups = groups_of(alloc, history, ObjectId(BOX)).ok()?;
    let text = text_of(alloc, &groups)?;
    let found = found(alloc, history, text.as_str());
    Some(found == Some(groups.as_slice().len()))
}

/// How many operations the history of these codes has, or 0 where there is none. Nothing where its
/// groups are other than its versions.
fn tried(alloc: Global, codes: &[u32]) -> Option<usize> {
    let Some(history) = small(alloc, codes).ok()? else {
        return Some(0);
    };
    if agrees(alloc, &history)? {
        Some(history.ops().len())
    } else {
        None
    }
}

/// The most operations of a history of at most four changes. Nothing where one has other groups
/// than versions.
pub(crate) fn all(alloc: Global) -> Option<String> {
    let mut most = 0;
    for first in 0..30 {
        most = behind_first(alloc, first)?.max(most);
    }
    format!(in alloc; "{most}").ok()
}

fn behind_first(alloc: Global, first: u32) -> Option<usize> {
    let mut most = tried(alloc, &[first])?;
    if most != 0 {
        for second in 0..30 {
            most = behind_second(alloc, first, second)?.max(most);
        }
    }
    Some(most)
}

fn behind_second(alloc: Global, first: u32, second: u32) -> Option<usize> {
    let mut most = tried(alloc, &[first, second])?;
    if most != 0 {
        for third in 0..30 {
            most = behind_third(alloc, first, second, third)?.max(most);
        }
    }
    Some(most)
}

fn behind_third(alloc: Global, first: u32, second: u32, third: u32) -> Option<usize> {
    let mut most = tried(alloc, &[first, second, third])?;
    if most != 0 {
        for fourth in 0..30 {
            most = tried(alloc, &[first, second, third, fourth])?.max(most);
        }
    }
    Some(most)
}
