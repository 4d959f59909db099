//! Commands about the versions of a history: its groups, how they are ranked, what they look like,
//! and aims at them.

use gf_base::OutOfMemory;
use gf_groups::{GroupFault, Groups};
use gf_inspect::aimed_at;
use gf_listing::{Versions, groups_of};
use gf_ops::{Change, Form, History, ObjectId, OpId};
use gf_shape::{AnyShape, Bounds, Point, Rgb, Shape};
use gf_table::IndexedHistory;
use gf_versions::{Placed, Ranked, Version, VersionKey, settle};
use gf_visible::ranked;
use std::alloc::Global;
use test_kit::notation::{change, id, point, push_ids, yes};

/// The groups of an object.
pub(crate) fn groups(alloc: Global, history: &History, text: &str) -> Option<String> {
    let object = ObjectId(id(text)?);
    match groups_of(alloc, history, object) {
        Ok(groups) if are_of(&groups, object) => text_of(alloc, &groups),
        Ok(_) => None,
        Err(fault) => format!(in alloc; "{fault}").ok(),
    }
}

fn are_of(groups: &Groups, object: ObjectId) -> bool {
    for group in groups.as_slice() {
        if group.object != object {
            return false;
        }
    }
    true
}

/// How many groups an object has.
pub(crate) fn versions(alloc: Global, history: &History, text: &str) -> Option<String> {
    let groups = groups_of(alloc, history, ObjectId(id(text)?)).ok()?;
    format!(in alloc; "{}", groups.as_slice().len()).ok()
}

/// The groups of each object, in the order of the creations.
fn all_groups(alloc: Global, history: &History) -> Option<Vec<Groups>> {
    let indexed = IndexedHistory::of(alloc, history).ok()?;
    let mut found = Vec::new(alloc);
    for op in history.ops() {
        if let Change::Create(_) = op.change {
            let groups = Versions::of(&indexed).groups(alloc, ObjectId(op.id)).ok()?;
            found.push(groups).ok()?;
        }
    }
    Some(found)
}

/// The groups of all objects.
pub(crate) fn all(alloc: Global, history: &History) -> Option<String> {
    let mut text = String::new(alloc);
    for groups in &all_groups(alloc, history)? {
        push_groups(alloc, &mut text, groups)?;
    }
    Some(text)
}

/// How many groups all objects have.
pub(crate) fn total(alloc: Global, history: &History) -> Option<String> {
    let mut count: usize = 0;
    for groups in &all_groups(alloc, history)? {
        count = count.saturating_add(groups.as_slice().len());
    }
    format!(in alloc; "{count}").ok()
}

/// What tells the first ids from those behind `against`.
pub(crate) fn telling(alloc: Global, history: &History, text: &str) -> Option<String> {
    let (members, others) = text.split_once(" against ")?;
    let members = ids(alloc, members)?;
    let others = ids(alloc, others)?;
    let found = gf_names::telling(alloc, history, &members, &others).ok()?;
    let mut text = String::new(alloc);
    push_ids(alloc, &mut text, found.as_slice())?;
    Some(text)
}

/// `1.1 2.1`.
fn ids(alloc: Global, text: &str) -> Option<Vec<OpId>> {
    let mut ids = Vec::new(alloc);
    for word in text.split_whitespace() {
        ids.push(id(word)?).ok()?;
    }
    Some(ids)
}

/// Each group in brackets, by the ids of its operations.
pub(crate) fn text_of(alloc: Global, groups: &Groups) -> Option<String> {
    let mut text = String::new(alloc);
    push_groups(alloc, &mut text, groups)?;
    Some(text)
}

fn push_groups(alloc: Global, text: &mut String, groups: &Groups) -> Option<()> {
    for group in groups.as_slice() {
        push_ids(alloc, text, group.ops.as_slice())?;
    }
    Some(())
}

/// The ranked versions by object and operations, topmost first, each above the next.
pub(crate) fn ranking(alloc: Global, history: &History) -> Option<String> {
    let ranked = ranked(alloc, history).ok()?;
    if !falls(&ranked) {
        return None;
    }
    let mut text = String::new(alloc);
    for item in &ranked.items {
        push_key(alloc, &mut text, &item.key)?;
    }
    Some(text)
}

/// Whether each item is above the next, and all are counted.
fn falls(ranked: &Ranked<AnyShape>) -> bool {
    let items = ranked.items.as_slice();
    let Some((mut above, below)) = items.split_first() else {
        return ranked.is_empty() && ranked.len() == 0;
    };
    for item in below {
        if above.key <= item.key {
            return false;
        }
        above = item;
    }
    !ranked.is_empty() && ranked.len() == items.len()
}

fn push_key(alloc: Global, text: &mut String, key: &VersionKey) -> Option<()> {
    let object = format!(in alloc; "{}", key.object.0).ok()?;
    text.push_str(object.as_str()).ok()?;
    push_ids(alloc, text, key.ops.as_slice())
}

/// The layer, the colour and the bounds of the ranked version of this index.
pub(crate) fn looks(alloc: Global, history: &History, text: &str) -> Option<String> {
    let ranked = ranked(alloc, history).ok()?;
    let index: usize = text.parse().ok()?;
    look(alloc, ranked.items.get(index)?)
}

fn look(alloc: Global, item: &Placed<AnyShape>) -> Option<String> {
    let Bounds { low, high } = item.shape.bounds();
    let mut text = paint(alloc, item.key.layer, item.colour)?;
    let bounds = format!(in alloc; ", from {},{} to {},{}", low.x, low.y, high.x, high.y).ok()?;
    text.push_str(bounds.as_str()).ok()?;
    Some(text)
}

fn paint(alloc: Global, layer: u16, colour: Rgb) -> Option<String> {
    let Rgb { r, g, b } = colour;
    format!(in alloc; "layer {layer}, colour {r:02x}{g:02x}{b:02x}").ok()
}

/// Whether the topmost version holds a point.
pub(crate) fn covers(alloc: Global, history: &History, text: &str) -> Option<String> {
    let ranked = ranked(alloc, history).ok()?;
    let held = ranked.items.first()?.shape.holds(point(text)?);
    String::from_str(alloc, yes(held)).ok()
}

/// Of `10,10: 1.1 layer 7 aim 1.1 1.2`, whether a value that is aimed at the point makes this
/// change.
pub(crate) fn aimed(alloc: Global, history: &History, text: &str) -> Option<String> {
    let (place, what) = text.split_once(": ")?;
    let Change::Set { value, .. } = change(alloc, what)? else {
        return None;
    };
    let found = aimed_at(alloc, history, point(place)?, value).ok()?;
    match found {
        Some(found) => String::from_str(alloc, yes(found == change(alloc, what)?)).ok(),
        None => String::from_str(alloc, "none").ok(),
    }
}

/// The settled values of the first group of the object that was made first.
pub(crate) fn settled(alloc: Global, history: &History) -> Option<String> {
    let maker = history.ops().first()?;
    settled_text(
        alloc,
        &first_version(alloc, history, ObjectId(maker.id)).ok()??,
    )
}

fn first_version(
    alloc: Global,
    history: &History,
    object: ObjectId,
) -> Result<Option<Version>, GroupFault> {
    let groups = groups_of(alloc, history, object)?;
    let groups = groups.as_slice();
    if groups.len() == 0 {
        return Ok(None);
    }
    match settle(alloc, history, &groups[0]) {
        Ok(version) => Ok(Some(version)),
        Err(OutOfMemory) => Err(GroupFault::OutOfMemory),
    }
}

fn settled_text(alloc: Global, version: &Version) -> Option<String> {
    let mut text = paint(alloc, version.key.layer, version.colour)?;
    push_values(alloc, &mut text, version)?;
    push_key(alloc, &mut text, &version.key)?;
    Some(text)
}

fn push_values(alloc: Global, text: &mut String, version: &Version) -> Option<()> {
    let Form::Circle(radius) = version.form else {
        return None;
    };
    let Point { x, y } = version.place;
    let shown = version.shown;
    let values = format!(in alloc; ", circle {radius}, place {x},{y}, shown {shown}: ").ok()?;
    text.push_str(values.as_str()).ok()
}
