//! At which operations a change is aimed, so that it is meant for some versions alone.

use crate::ranks::ShownVersions;
use gf_base::OutOfMemory;
use gf_names::{aim_at, telling};
use gf_ops::{Ids, OpId};
use gf_table::IndexedHistory;
use gf_versions::VersionKey;
use std::alloc::Global;

/// The greatest number of operations in an aim.
pub(crate) const MOST_AIMED: usize = 1_000;

/// What tells a version from the others of its object that are shown: operations of the version,
/// rising by id.
pub(crate) fn told_from(
    alloc: Global,
    shown: ShownVersions<'_>,
    key: &VersionKey,
) -> Result<Ids, OutOfMemory> {
    let mut others = Vec::new(alloc);
    for rank in shown.of_object(key.object) {
        match shown.versions.get(rank.index) {
            Some(other) if other.key.ops != key.ops => {
                others.extend_from_slice(other.key.ops.as_slice())?;
            }
            Some(_) | None => {}
        }
    }
    telling(alloc, shown.history.history(), key.ops.as_slice(), &others)
}

/// The aim that no version of an object has but this one: what tells it from all operations on the
/// object, and what these are aimed at.
pub(crate) fn aim_to_keep(
    alloc: Global,
    history: &IndexedHistory,
    key: &VersionKey,
) -> Result<Ids, OutOfMemory> {
    let ops = history.history().ops();
    let mut others = Vec::new(alloc);
    for position in history.table().positions(key.object) {
        if let Some(op) = ops.get(*position) {
            others.push(op.id)?;
        }
    }
    let told = telling(alloc, history.history(), key.ops.as_slice(), &others)?;
    aim_at(alloc, history.history(), told.as_slice())
}

/// What is left of ids when each is left out, in order, without which the rest is still in none of
/// these lists.
pub(crate) fn fewest(
    alloc: Global,
    ids: &Ids,
    others: &[&[OpId]],
) -> Result<Vec<OpId>, OutOfMemory> {
    let mut kept = Vec::new(alloc);
    kept.extend_from_slice(ids.as_slice())?;
    for id in ids.as_slice() {
        let rest = without(alloc, &kept, *id)?;
        if !is_in_one(others, &rest) {
            kept = rest;
        }
    }
    Ok(kept)
}

/// Whether one of these lists has all of these ids.
fn is_in_one(lists: &[&[OpId]], ids: &[OpId]) -> bool {
    for list in lists {
        if has_all(list, ids) {
            return true;
        }
    }
    false
}

/// The ids without one of them.
fn without(alloc: Global, ids: &[OpId], left_out: OpId) -> Result<Vec<OpId>, OutOfMemory> {
    let mut rest = Vec::new(alloc);
    for id in ids {
        if *id != left_out {
            rest.push(*id)?;
        }
    }
    Ok(rest)
}

/// Whether a list, rising by id, has all of these ids.
pub(crate) fn has_all(list: &[OpId], ids: &[OpId]) -> bool {
    for id in ids {
        if list.binary_search(id).is_err() {
            return false;
        }
    }
    true
}
