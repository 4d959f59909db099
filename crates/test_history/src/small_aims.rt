//! All histories of few changes with aims by two sites, in each order that they may have, against
//! the definition of versions.

use crate::rounds::add;
use crate::small_histories::{BOX, agrees, holds, value};
use gf_ops::{Change, Clock, Form, History, Ids, ObjectId, Op, OpId};
use gf_site::Site;
use std::alloc::Global;
use test_kit::create;

/// A change has a code below this one.
const CODES: u32 = 384;

/// The codes of a blue by site 1 and a green by site 2, neither of which knows the other.
const TWO_COLOURS: [u32; 2] = [0, 11];

/// The ids of the operations of a set, rising; none where the history has fewer operations.
fn aim(alloc: Global, history: &History, set: u32) -> Option<Ids> {
    if set >> (history.ops().len() % 32) != 0 {
        return None;
    }
    let mut ids = Vec::new(alloc);
    for (index, op) in history.ops().iter().enumerate() {
        if holds(set, index) {
            ids.push(op.id).ok()?;
        }
    }
    ids.sort().ok()?;
    Some(Ids::new(ids))
}

/// The site of a code, how many operations it has, and how much it knows of the other site.
fn known(code: u32, history: &History) -> (u8, u32, [u32; 8]) {
    let other = code / 2 % 4;
    let first = history.count(1);
    let second = history.count(2);
    if code % 2 == 0 {
        (1, first, [first, other, 0, 0, 0, 0, 0, 0])
    } else {
        (2, second, [other, second, 0, 0, 0, 0, 0, 0])
    }
}

/// The change of the box 1.1 with this code: site 1 or 2 gives it one of three values. The change
/// aims at a set of the first four operations, and knows a number of the other site's.
fn coded(alloc: Global, code: u32, history: &History) -> Option<Op> {
    let (site, own, past) = known(code, history);
    let seq = own.saturating_add(1);
    Some(Op {
        id: OpId { site, seq },
        past: Clock(past),
        change: Change::Set {
            object: ObjectId(BOX),
            value: value(code / 8 % 3),
            aim: aim(alloc, history, code / 24)?,
        },
    })
}

/// The site with one more change, if it is valid.
fn with(alloc: Global, site: &Site, code: u32) -> Option<Site> {
    let op = coded(alloc, code, site.history())?;
    if !op.in_range() || site.history().check(&op).is_err() {
        return None;
    }
    let mut next = site.copy(alloc).ok()?;
    add(&mut next, op)?;
    Some(next)
}

/// A site with the box 1.1 and these changes.
fn started(alloc: Global, codes: &[u32]) -> Option<Site> {
    let mut site = Site::new(alloc, 1);
    add(&mut site, create(1, 1, [0; 8], Form::Rect(10, 10)))?;
    for code in codes {
        site = with(alloc, &site, *code)?;
    }
    Some(site)
}

/// How many histories one more change makes. Nothing where one has other groups than versions.
fn ends(alloc: Global, site: &Site) -> Option<u32> {
    let mut count = 0u32;
    for code in 0..CODES {
        if let Some(next) = with(alloc, site, code) {
            if !agrees(alloc, next.history())? {
                return None;
            }
            count = count.saturating_add(1);
        }
    }
    Some(count)
}

/// How many histories two more changes make.
fn double_ends(alloc: Global, site: &Site) -> Option<u32> {
    let mut count = 0u32;
    for code in 0..CODES {
        if let Some(next) = with(alloc, site, code) {
            count = count.saturating_add(ends(alloc, &next)?);
        }
    }
    Some(count)
}

/// How many histories one and two changes behind a box make, or behind a box of two colours.
pub(crate) fn all(alloc: Global, text: &str) -> Option<String> {
    match text {
        "a box" => counted(alloc, &started(alloc, &[])?),
        "two colours" => counted(alloc, &started(alloc, &TWO_COLOURS)?),
        _ => None,
    }
}

fn counted(alloc: Global, site: &Site) -> Option<String> {
    let one = ends(alloc, site)?;
    let two = double_ends(alloc, site)?;
    format!(in alloc; "{one}, {two}").ok()
}
