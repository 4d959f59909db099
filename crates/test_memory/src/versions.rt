//! Trials of versions: the red box, and a box to which two sites give a colour.

ghost use Rattle.gf_groups.specs.Versions.{IsVersionGroup};

use crate::examples::{BOX, RED_BOX_MADE, TWO_COLOURS, are_groups, are_told, is_text, site};
use crate::trial::{Came, Marks};
use gf_base::OutOfMemory;
use gf_groups::{Group, GroupFault, is_made};
use gf_inspect::VersionName;
use gf_json::Notation;
use gf_listing::{ListGroups, Versions};
use gf_ops::{Change, History, ObjectId, OpId, Value};
use gf_shape::{AnyShape, Bounds, Shape};
use gf_table::IndexedHistory;
use gf_versions::{Placed, Ranked, Version};
use std::alloc::Global;
use test_kit::{RED, at};

pub(crate) const NAMES: &str = "
groups_of may do without
indexed may do without
table_groups may do without
visible_groups may do without
versions_count may do without
settle
ranked may do without
ranked_with may do without
ranked_within may do without
versions may do without
versions_with may do without
top_at may do without
top_at_with may do without
aimed_at may do without
lines
top_line
";

/// What comes of the trial of this name, if there is one.
pub(crate) fn tried(alloc: Global, name: &str, marks: &mut Marks) -> Option<Came> {
    let came = match name {
        "groups_of" => groups_of(alloc, marks),
        "indexed" => indexed(alloc, marks),
        "table_groups" => table_groups(alloc, marks),
        "visible_groups" => visible_groups(alloc, marks),
        "versions_count" => versions_count(alloc, marks),
        "settle" => settle(alloc, marks),
        "ranked" => ranked(alloc, marks),
        "ranked_with" => ranked_with(alloc, marks),
        "ranked_within" => ranked_within(alloc, marks),
        "versions" => versions(alloc, marks),
        "versions_with" => versions_with(alloc, marks),
        "top_at" => top_at(alloc, marks),
        "top_at_with" => top_at_with(alloc, marks),
        "aimed_at" => aimed_at(alloc, marks),
        "lines" => lines(alloc, marks),
        "top_line" => top_line(alloc, marks),
        _ => return None,
    };
    Some(came.unwrap_or(Came::TooEarly))
}

/// A box to which three sites give a colour, two of them the same.
const THREE_SETTERS: &str = "\
1.1: box 10 10, colour ff0000
1.2 after 1: 1.1 colour 0000ff
3.1 after 1: 1.1 colour 0000ff
2.1 after 1: 1.1 colour 00ff00";

const THEIR_GROUPS: &str = "[ 1.1 1.2 3.1 ][ 1.1 2.1 ]";

fn groups_of(alloc: Global, marks: &mut Marks) -> Option<Came> {
    let site = site(alloc, THREE_SETTERS)?;
    marks.begin();
    let first = gf_listing::groups_of(alloc, site.history(), ObjectId(BOX));
    marks.end();
    Some(match first {
        Err(GroupFault::OutOfMemory) => {
            let next = gf_listing::groups_of(alloc, site.history(), ObjectId(BOX));
            Came::after_memory(true, are_groups(alloc, next, THEIR_GROUPS))
        }
        first => Came::first(are_groups(alloc, first, THEIR_GROUPS)),
    })
}

fn indexed(alloc: Global, marks: &mut Marks) -> Option<Came> {
    let site = site(alloc, THREE_SETTERS)?;
    marks.begin();
    let first = IndexedHistory::of(alloc, site.history());
    marks.end();
    Some(match first {
        Err(OutOfMemory) => {
            let next = IndexedHistory::of(alloc, site.history());
            Came::after_memory(true, are_indexed(alloc, next))
        }
        first => Came::first(are_indexed(alloc, first)),
    })
}

fn are_indexed(alloc: Global, answer: Result<IndexedHistory, OutOfMemory>) -> bool {
    match answer {
        Ok(indexed) => {
            let groups = Versions::of(&indexed).groups(alloc, ObjectId(BOX));
            are_groups(alloc, groups, THEIR_GROUPS)
        }
        Err(OutOfMemory) => false,
    }
}

fn table_groups(alloc: Global, marks: &mut Marks) -> Option<Came> {
    let site = site(alloc, THREE_SETTERS)?;
    marks.begin();
    let first = site.table().groups(alloc, site.history(), ObjectId(BOX));
    marks.end();
    Some(match first {
        Err(GroupFault::OutOfMemory) => {
            let next = site.table().groups(alloc, site.history(), ObjectId(BOX));
            Came::after_memory(true, are_groups(alloc, next, THEIR_GROUPS))
        }
        first => Came::first(are_groups(alloc, first, THEIR_GROUPS)),
    })
}

fn visible_groups(alloc: Global, marks: &mut Marks) -> Option<Came> {
    let site = site(alloc, THREE_SETTERS)?;
    let object = ObjectId(BOX);
    if !is_made(site.history(), object) {
        return None;
    }
    marks.begin();
    let first = gf_visible::visible_groups(alloc, &Versions::of(site.indexed()), object, 2);
    marks.end();
    Some(match first {
        Err(OutOfMemory) => {
            let next = gf_visible::visible_groups(alloc, &Versions::of(site.indexed()), object, 2);
            Came::after_memory(true, are_visible(alloc, next))
        }
        first => Came::first(are_visible(alloc, first)),
    })
}

fn are_visible(alloc: Global, answer: Result<Option<Vec<Group>>, OutOfMemory>) -> bool {
    match answer {
        Ok(Some(groups)) => are_told(alloc, groups.as_slice(), THEIR_GROUPS),
        _ => false,
    }
}

fn versions_count(alloc: Global, marks: &mut Marks) -> Option<Came> {
    let site = site(alloc, THREE_SETTERS)?;
    let object = ObjectId(BOX);
    if !is_made(site.history(), object) {
        return None;
    }
    marks.begin();
    let first = Versions::of(site.indexed()).count(alloc, object);
    marks.end();
    Some(match first {
        Err(OutOfMemory) => {
            let next = Versions::of(site.indexed()).count(alloc, object);
            Came::after_memory(true, matches!(next, Ok(2)))
        }
        first => Came::first(matches!(first, Ok(2))),
    })
}

fn settle(alloc: Global, marks: &mut Marks) -> Option<Came> {
    let site = site(alloc, RED_BOX_MADE)?;
    settle_first(alloc, marks, site.history()).ok()?
}

/// Settles the first group of the box.
fn settle_first(
    alloc: Global,
    marks: &mut Marks,
    history: &History,
) -> Result<Option<Came>, GroupFault> {
    let groups = gf_listing::groups_of(alloc, history, ObjectId(BOX))?;
    let groups = groups.as_slice();
    if groups.len() > 0 {
        Ok(settle_group(alloc, marks, history, &groups[0]))
    } else {
        Ok(None)
    }
}

fn settle_group(alloc: Global, marks: &mut Marks, history: &History, group: &Group) -> Option<Came>
    requires { IsVersionGroup history.now.ops group.now }
{
    marks.begin();
    let first = gf_versions::settle(alloc, history, group);
    marks.end();
    Some(match first {
        Err(OutOfMemory) => {
            let next = gf_versions::settle(alloc, history, group);
            Came::after_memory(true, is_settled(alloc, next))
        }
        first => Came::first(is_settled(alloc, first)),
    })
}

const RED_VERSION: &str =
    "version 1.1 [1.1] box place 100 200 size 300 400 colour ff0000 layer 0 shown\n";

fn is_settled(alloc: Global, answer: Result<Version, OutOfMemory>) -> bool {
    match answer {
        Ok(version) => {
            is_text(
                gf_inspect::lines(alloc, Notation::Words, std::slice::from_ref(&version)),
                RED_VERSION,
            )
        }
        Err(OutOfMemory) => false,
    }
}

fn ranked(alloc: Global, marks: &mut Marks) -> Option<Came> {
    let site = site(alloc, RED_BOX_MADE)?;
    marks.begin();
    let first = gf_visible::ranked(alloc, site.history());
    marks.end();
    Some(match first {
        Err(OutOfMemory) => {
            let next = gf_visible::ranked(alloc, site.history());
            Came::after_memory(true, is_red_box(next.ok()))
        }
        first => Came::first(is_red_box(first.ok())),
    })
}

fn ranked_with(alloc: Global, marks: &mut Marks) -> Option<Came> {
    let site = site(alloc, RED_BOX_MADE)?;
    marks.begin();
    let first = gf_visible::ranked_with(alloc, site.history(), site.table());
    marks.end();
    Some(match first {
        Err(OutOfMemory) => {
            let next = gf_visible::ranked_with(alloc, site.history(), site.table());
            Came::after_memory(true, is_red_box(next.ok()))
        }
        first => Came::first(is_red_box(first.ok())),
    })
}

fn ranked_within(alloc: Global, marks: &mut Marks) -> Option<Came> {
    let site = site(alloc, RED_BOX_MADE)?;
    marks.begin();
    let first = gf_visible::ranked_within(alloc, &Versions::of(site.indexed()), 1);
    marks.end();
    Some(match first {
        Err(OutOfMemory) => {
            let next = gf_visible::ranked_within(alloc, &Versions::of(site.indexed()), 1);
            Came::after_memory(true, is_red_box(next.ok().flatten()))
        }
        first => Came::first(is_red_box(first.ok().flatten())),
    })
}

fn is_red_box(answer: Option<Ranked<AnyShape>>) -> bool {
    match answer {
        Some(ranked) => ranked.len() == 1 && are_red_box(ranked.items.as_slice()),
        None => false,
    }
}

fn are_red_box(items: &[Placed<AnyShape>]) -> bool {
    let want = Bounds {
        low: at(100, 200),
        high: at(400, 600),
    };
    for item in items {
        let is_red = item.colour == RED && item.key.layer == 0;
        if !is_red || item.key.ops.as_slice() != [BOX].as_slice() || item.shape.bounds() != want {
            return false;
        }
    }
    true
}

const TWO_VERSIONS: &str = "\
version 1.1 [1.1 2.1] box place 0 0 size 10 10 colour 00ff00 layer 0 shown
version 1.1 [1.1 1.2] box place 0 0 size 10 10 colour 0000ff layer 0 shown
";

fn are_versions(alloc: Global, answer: Result<Vec<Version>, GroupFault>) -> bool {
    match answer {
        Ok(versions) => is_text(
            gf_inspect::lines(alloc, Notation::Words, &versions),
            TWO_VERSIONS,
        ),
        Err(_) => false,
    }
}

fn versions(alloc: Global, marks: &mut Marks) -> Option<Came> {
    let site = site(alloc, TWO_COLOURS)?;
    marks.begin();
    let first = gf_inspect::versions(alloc, site.history(), ObjectId(BOX));
    marks.end();
    Some(match first {
        Err(GroupFault::OutOfMemory) => {
            let next = gf_inspect::versions(alloc, site.history(), ObjectId(BOX));
            Came::after_memory(true, are_versions(alloc, next))
        }
        first => Came::first(are_versions(alloc, first)),
    })
}

fn versions_with(alloc: Global, marks: &mut Marks) -> Option<Came> {
    let site = site(alloc, TWO_COLOURS)?;
    marks.begin();
    let first = gf_inspect::versions_with(alloc, &Versions::of(site.indexed()), ObjectId(BOX));
    marks.end();
    Some(match first {
        Err(GroupFault::OutOfMemory) => {
            let next = gf_inspect::versions_with(
                alloc,
                &Versions::of(site.indexed()),
                ObjectId(BOX),
            );
            Came::after_memory(true, are_versions(alloc, next))
        }
        first => Came::first(are_versions(alloc, first)),
    })
}

fn top_at(alloc: Global, marks: &mut Marks) -> Option<Came> {
    let site = site(alloc, TWO_COLOURS)?;
    marks.begin();
    let first = gf_inspect::top_at(alloc, site.history(), at(10, 10));
    marks.end();
    Some(match first {
        Err(OutOfMemory) => {
            let next = gf_inspect::top_at(alloc, site.history(), at(10, 10));
            Came::after_memory(true, is_green(alloc, next))
        }
        first => Came::first(is_green(alloc, first)),
    })
}

fn top_at_with(alloc: Global, marks: &mut Marks) -> Option<Came> {
    let site = site(alloc, TWO_COLOURS)?;
    marks.begin();
    let first = gf_inspect::top_at_with(alloc, &Versions::of(site.indexed()), at(10, 10));
    marks.end();
    Some(match first {
        Err(OutOfMemory) => {
            let next = gf_inspect::top_at_with(alloc, &Versions::of(site.indexed()), at(10, 10));
            Came::after_memory(true, is_green(alloc, next))
        }
        first => Came::first(is_green(alloc, first)),
    })
}

const TOP_LINE: &str = "top 10 10 is 1.1 [1.1 2.1]\n";

fn is_green(alloc: Global, answer: Result<Option<VersionName>, OutOfMemory>) -> bool {
    match answer {
        Ok(name) => is_text(
            gf_inspect::top_line(alloc, Notation::Words, at(10, 10), name.as_ref()),
            TOP_LINE,
        ),
        Err(OutOfMemory) => false,
    }
}

fn aimed_at(alloc: Global, marks: &mut Marks) -> Option<Came> {
    let site = site(alloc, TWO_COLOURS)?;
    marks.begin();
    let first = gf_inspect::aimed_at(alloc, site.history(), at(10, 10), Value::Shown(false));
    marks.end();
    Some(match first {
        Err(OutOfMemory) => {
            let value = Value::Shown(false);
            let next = gf_inspect::aimed_at(alloc, site.history(), at(10, 10), value);
            Came::after_memory(true, is_aimed(&next))
        }
        first => Came::first(is_aimed(&first)),
    })
}

/// The operations of the version that is on top.
const TOP: [OpId; 2] = [BOX, OpId { site: 2, seq: 1 }];

/// Whether a change hides the version that is on top.
fn is_aimed(answer: &Result<Option<Change>, OutOfMemory>) -> bool {
    match answer {
        Ok(Some(Change::Set { object, value, aim })) => {
            *object == ObjectId(BOX)
                && *value == Value::Shown(false)
                && aim.as_slice() == TOP.as_slice()
        }
        _ => false,
    }
}

fn lines(alloc: Global, marks: &mut Marks) -> Option<Came> {
    let site = site(alloc, TWO_COLOURS)?;
    let versions = gf_inspect::versions(alloc, site.history(), ObjectId(BOX)).ok()?;
    marks.begin();
    let first = gf_inspect::lines(alloc, Notation::Words, &versions);
    marks.end();
    Some(match first {
        Err(OutOfMemory) => {
            let next = gf_inspect::lines(alloc, Notation::Words, &versions);
            Came::after_memory(true, is_text(next, TWO_VERSIONS))
        }
        first => Came::first(is_text(first, TWO_VERSIONS)),
    })
}

fn top_line(alloc: Global, marks: &mut Marks) -> Option<Came> {
    let site = site(alloc, TWO_COLOURS)?;
    let name = gf_inspect::top_at(alloc, site.history(), at(10, 10)).ok()?;
    marks.begin();
    let first = gf_inspect::top_line(alloc, Notation::Words, at(10, 10), name.as_ref());
    marks.end();
    Some(match first {
        Err(OutOfMemory) => {
            let next = gf_inspect::top_line(alloc, Notation::Words, at(10, 10), name.as_ref());
            Came::after_memory(true, is_text(next, TOP_LINE))
        }
        first => Came::first(is_text(first, TOP_LINE)),
    })
}
