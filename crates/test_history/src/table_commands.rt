//! Commands about a table: the groups that it lists, and the visible versions within a bound.

ghost use Rattle.std.specs.Prelude.{◌≤◌, IfSome};

use crate::version_commands::text_of;
use gf_drawing::compile;
use gf_figures::Drawing;
use gf_groups::{GroupFault, Groups, is_made};
use gf_listing::{ListGroups, Versions};
use gf_ops::ObjectId;
use gf_shape::AnyShape;
use gf_site::Site;
use gf_versions::Ranked;
use gf_visible::{ranked_with, ranked_within, visible_groups};
use std::alloc::Global;
use test_kit::notation::{id, push_ids};

/// The groups of an object, by the table.
pub(crate) fn groups(alloc: Global, site: &Site, text: &str) -> Option<String> {
    let object = ObjectId(id(text)?);
    told(alloc, Versions::of(site.indexed()).groups(alloc, object))
}

/// The groups of an object, by a copy of the table.
pub(crate) fn copied(alloc: Global, site: &Site, text: &str) -> Option<String> {
    let object = ObjectId(id(text)?);
    let copy = site.table().copy(alloc).ok()?;
    told(alloc, copy.groups(alloc, site.history(), object))
}

/// The ids of the operations on an object, rising.
pub(crate) fn operations(alloc: Global, site: &Site, text: &str) -> Option<String> {
    let object = ObjectId(id(text)?);
    let mut ids = Vec::new(alloc);
    for op in Versions::of(site.indexed()).operations(alloc, object).ok()? {
        ids.push(op.id).ok()?;
    }
    ids.sort().ok()?;
    let mut text = String::new(alloc);
    push_ids(alloc, &mut text, &ids)?;
    Some(text)
}

fn told(alloc: Global, groups: Result<Groups, GroupFault>) -> Option<String> {
    match groups {
        Ok(groups) => text_of(alloc, &groups),
        Err(fault) => format!(in alloc; "{fault}").ok(),
    }
}

/// How many visible versions an object has, as `1.1 within 4`, or that they are more.
pub(crate) fn visible(alloc: Global, site: &Site, text: &str) -> Option<String> {
    let (object, most) = text.split_once(" within ")?;
    let object = ObjectId(id(object)?);
    if !is_made(site.history(), object) {
        return None;
    }
    match visible_groups(alloc, &Versions::of(site.indexed()), object, bound(most)?).ok()? {
        Some(groups) => number(alloc, groups.len()),
        None => more(alloc),
    }
}

/// A bound that a listing may have.
fn bound(text: &str) -> Option<usize>
    ensures { IfSome result (λ most. most ≤ 1000) }
{
    let most: usize = text.parse().ok()?;
    if most <= 1_000 { Some(most) } else { None }
}

fn number(alloc: Global, count: usize) -> Option<String> {
    format!(in alloc; "{count}").ok()
}

fn more(alloc: Global) -> Option<String> {
    String::from_str(alloc, "more").ok()
}

/// How many versions of all objects are visible.
pub(crate) fn total(alloc: Global, site: &Site) -> Option<String> {
    let ranked = ranked_with(alloc, site.history(), site.table()).ok()?;
    number(alloc, ranked.len())
}

/// How many versions of all objects are visible, or that they are more than this.
pub(crate) fn ranking(alloc: Global, site: &Site, text: &str) -> Option<String> {
    match ranked_within(alloc, &Versions::of(site.indexed()), bound(text)?).ok()? {
        Some(ranked) => number(alloc, ranked.len()),
        None => more(alloc),
    }
}

/// The figures of the drawing of at most this many versions, the last one's depth, and the colours.
pub(crate) fn drawn(alloc: Global, site: &Site, text: &str) -> Option<String> {
    match ranked_within(alloc, &Versions::of(site.indexed()), bound(text)?).ok()? {
        Some(ranked) => drawing(alloc, ranked),
        None => more(alloc),
    }
}

fn drawing(alloc: Global, ranked: Ranked<AnyShape>) -> Option<String> {
    match compile(alloc, ranked) {
        Ok(drawing) => drawing_text(alloc, &drawing),
        Err(fault) => format!(in alloc; "{fault}").ok(),
    }
}

fn drawing_text(alloc: Global, drawing: &Drawing<AnyShape>) -> Option<String> {
    let mut last = 0;
    for figure in drawing.figures() {
        last = figure.depth.max(last);
    }
    let figures = drawing.figures().len();
    let colours = drawing.colours().len();
    format!(in alloc; "{figures} figures to depth {last}, {colours} colours").ok()
}
