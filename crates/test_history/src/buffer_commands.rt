//! Commands about a buffer before a history.

use crate::script::Scene;
use gf_causal::{Buffer, OfferFault, Offered};
use gf_ops::{AddFault, History, OpFault, OpId};
use std::alloc::Global;
use test_kit::notation::{id, operation};

/// What the buffer says to an operation, and how many it holds then.
pub(crate) fn offer(alloc: Global, scene: &mut Scene, text: &str) -> Option<String> {
    let answer = scene.buffer.offer(operation(alloc, text)?, &scene.history);
    said(alloc, answer, scene.buffer.held())
}

fn said(alloc: Global, answer: Result<Offered, OfferFault>, held: usize) -> Option<String> {
    match answer {
        Ok(Offered::Held) => format!(in alloc; "Held, {held}").ok(),
        Ok(Offered::Already) => format!(in alloc; "Already, {held}").ok(),
        Err(fault) => format!(in alloc; "{fault}, {held}").ok(),
    }
}

/// How many operations the buffer holds.
pub(crate) fn held(alloc: Global, buffer: &Buffer) -> Option<String> {
    format!(in alloc; "{}", buffer.held()).ok()
}

/// What is ready first, which is taken out, and how many stay.
pub(crate) fn take(alloc: Global, buffer: &mut Buffer, history: &History) -> Option<String> {
    let first = first_id(buffer, history);
    let taken = taken_id(buffer, history);
    if first == taken {
        left(alloc, taken, buffer.held())
    } else {
        None
    }
}

fn first_id(buffer: &Buffer, history: &History) -> Option<OpId> {
    Some(buffer.first_ready(history)?.id)
}

fn taken_id(buffer: &mut Buffer, history: &History) -> Option<OpId> {
    Some(buffer.take_ready(history)?.id)
}

fn left(alloc: Global, taken: Option<OpId>, held: usize) -> Option<String> {
    match taken {
        Some(id) => format!(in alloc; "{id}, {held}").ok(),
        None => format!(in alloc; "none, {held}").ok(),
    }
}

/// What is taken out under an id, and how many stay.
pub(crate) fn take_out(alloc: Global, buffer: &mut Buffer, text: &str) -> Option<String> {
    let taken = taken_under(buffer, id(text)?);
    left(alloc, taken, buffer.held())
}

fn taken_under(buffer: &mut Buffer, id: OpId) -> Option<OpId> {
    Some(buffer.take(id)?.id)
}

/// What is taken of a buffer that holds this operation alone, and how many stay.
pub(crate) fn alone(alloc: Global, history: &History, text: &str) -> Option<String> {
    let mut buffer = Buffer::new(alloc);
    match buffer.offer(operation(alloc, text)?, history) {
        Ok(Offered::Held) => take(alloc, &mut buffer, history),
        Ok(Offered::Already) | Err(_) => None,
    }
}

/// What is ready first, which is taken out, and what the history says to it.
pub(crate) fn deliver(alloc: Global, scene: &mut Scene) -> Option<String> {
    let next = scene.buffer.take_ready(&scene.history)?;
    let id = next.id;
    let checked = scene.history.check(&next);
    let added = scene.history.add(next);
    if agree(&checked, &added) {
        delivered(alloc, id, added)
    } else {
        None
    }
}

/// Whether an operation is added where the check finds no fault, and else refused for this fault.
fn agree(checked: &Result<(), OpFault>, added: &Result<(), AddFault>) -> bool {
    match (checked, added) {
        (Ok(()), Ok(())) => true,
        (Err(found), Err(AddFault::Op(refused))) => found == refused,
        _ => false,
    }
}

fn delivered(alloc: Global, id: OpId, answer: Result<(), AddFault>) -> Option<String> {
    match answer {
        Ok(()) => format!(in alloc; "{id} ok").ok(),
        Err(fault) => format!(in alloc; "{id} {fault}").ok(),
    }
}

/// What the buffer says to the first of `count` operations of site 1, and how many it holds then.
/// They are offered from the last one on.
pub(crate) fn backwards(alloc: Global, scene: &mut Scene, count: u32) -> Option<String> {
    let mut answer = None;
    for later in 0..count {
        let before = count - later - 1;
        answer = offer_next(alloc, scene, before);
    }
    answer
}

/// What the buffer says to the operation of site 1 that knows `before` of its own.
fn offer_next(alloc: Global, scene: &mut Scene, before: u32) -> Option<String> {
    let seq = before.checked_add(1)?;
    let text = format!(in alloc; "1.{seq} after {before}: circle 1").ok()?;
    offer(alloc, scene, text.as_str())
}

/// How many are delivered, one after another, and how many stay.
pub(crate) fn deliver_all(alloc: Global, scene: &mut Scene) -> Option<String> {
    let mut count = 0u32;
    for _ in 0..10_000u32 {
        if deliver(alloc, scene).is_none() {
            break;
        }
        count = count.saturating_add(1);
    }
    format!(in alloc; "{count}, {}", scene.buffer.held()).ok()
}
