//! The visible versions of histories, and some that are made by themselves.

use crate::shapes::first;
use gf_ops::{Form, History, Ids, ObjectId, OpId, Start};
use gf_shape::{AnyShape, Circle, Outline, Rgb, Shape};
use gf_versions::{Placed, Ranked, VersionKey};
use gf_visible::ranked;
use std::alloc::Global;
use test_kit::notation::operation;
use test_kit::{RED, at, created, plain};

/// The versions of a history, whose operations have a `;` between them.
pub(crate) fn of_history(alloc: Global, operations: &str) -> Option<Ranked<AnyShape>> {
    let mut history = History::new(alloc);
    for text in operations.split("; ") {
        let op = operation(alloc, text)?;
        if !op.in_range() {
            return None;
        }
        history.add(op).ok()?;
    }
    ranked(alloc, &history).ok()
}

/// `1001 513 true`: so many boxes of so many colours, and whether the last one shows.
pub(crate) fn boxes(alloc: Global, text: &str) -> Option<Ranked<AnyShape>> {
    let (count, rest) = first(text);
    let (colours, last_shown) = first(rest);
    let (count, colours): (u16, u16) = (count.parse().ok()?, colours.parse().ok()?);
    let last_shown: bool = last_shown.parse().ok()?;
    let mut history = History::new(alloc);
    for i in 0..count {
        let colour = nth_colour(i.min(colours.saturating_sub(1)));
        add_box(&mut history, colour, i < count - 1 || last_shown)?;
    }
    ranked(alloc, &history).ok()
}

/// The n-th of some colours.
fn nth_colour(n: u16) -> Rgb {
    Rgb {
        r: (n / 256) as u8,
        g: (n % 256) as u8,
        b: 0,
    }
}

/// Adds a box at the origin, 10 by 10.
fn add_box(history: &mut History, colour: Rgb, shown: bool) -> Option<()> {
    let start = Start {
        colour,
        shown,
        ..plain(Form::Rect(10, 10))
    };
    let before = history.count(1);
    let id = OpId {
        site: 1,
        seq: before.saturating_add(1),
    };
    let op = created(id, [before, 0, 0, 0, 0, 0, 0, 0], start);
    if !op.in_range() {
        return None;
    }
    history.add(op).ok()
}

/// `2 1`: outlines of red circles around the origin with these radii.
pub(crate) fn circles(alloc: Global, radii: &str) -> Option<Ranked<Outline>> {
    let mut items = Vec::new(alloc);
    for radius in radii.split_whitespace() {
        items.push(circle(alloc, radius.parse().ok()?)?).ok()?;
    }
    Some(Ranked { items })
}

/// The outline of a circle, as the version 1.radius.
fn circle(alloc: Global, radius: u32) -> Option<Placed<Outline>> {
    let id = OpId {
        site: 1,
        seq: radius,
    };
    let ops = Ids::new(Vec::from_array(alloc, [id]).ok()?);
    let shape = Circle::new(at(0, 0), radius).ok()?.outline(alloc).ok()?;
    let key = VersionKey {
        layer: 0,
        object: ObjectId(id),
        ops,
    };
    Some(Placed {
        key,
        shape,
        colour: RED,
    })
}
