//! The changes that show hidden versions again.

use crate::Target;
use crate::aiming::{MOST_AIMED, aim_to_keep};
use crate::comparing::{is_alike, is_of_kind};
use crate::matching::is_named;
use crate::ranks::{Rank, ranks_by_object, ranks_of};
use gf_base::OutOfMemory;
use gf_ops::{Change, ObjectId};
use gf_shape::AnyShape;
use gf_table::IndexedHistory;
use gf_versions::{Placed, Version};
use std::alloc::Global;

/// The object that each figure names, where none of these versions, which are shown, has the name.
pub fn objects_not_shown(
    alloc: Global,
    shown: &[Placed<AnyShape>],
    targets: &[Target],
) -> Result<Vec<Option<ObjectId>>, OutOfMemory> {
    let ranks = ranks_by_object(alloc, shown)?;
    let mut objects = Vec::with_capacity(alloc, targets.len())?;
    for figure in targets {
        objects.push(object_not_shown(shown, &ranks, figure))?;
    }
    Ok(objects)
}

/// The object that a figure names, where no version that is shown has the name.
fn object_not_shown(
    shown: &[Placed<AnyShape>],
    ranks: &[Rank],
    figure: &Target,
) -> Option<ObjectId> {
    let Some(named) = &figure.name else {
        return None;
    };
    let object = named.name.object;
    for rank in ranks_of(ranks, object) {
        match shown.get(rank.index) {
            Some(version) if is_named(&version.key, named) => return None,
            Some(_) | None => {}
        }
    }
    Some(object)
}

/// The change that shows a hidden version again, if the figure names one of these, which are of one
/// object.
pub fn showing_again(
    alloc: Global,
    history: &IndexedHistory,
    versions: &[Version],
    figure: &Target,
) -> Result<Option<Change>, OutOfMemory> {
    let Some(version) = hidden_for(versions, figure) else {
        return Ok(None);
    };
    let aim = aim_to_keep(alloc, history, &version.key)?;
    if MOST_AIMED < aim.as_slice().len() {
        return Ok(None);
    }
    Ok(Some(Change::set_shown(version.key.object, true, aim)))
}

/// The first hidden version that has the figure's name and looks like it. If no version is shown,
/// else the first one that has the name and is of the figure's kind: it then becomes the figure.
fn hidden_for<'a>(versions: &'a [Version], figure: &Target) -> Option<&'a Version> {
    let Some(named) = &figure.name else {
        return None;
    };
    let mut other = None;
    let mut is_shown = false;
    for version in versions {
        if version.shown {
            is_shown = true;
        } else if is_named(&version.key, named) {
            if is_alike(version, &figure.start) {
                return Some(version);
            }
            if other.is_none() && is_of_kind(version, &figure.start) {
                other = Some(version);
            }
        }
    }
    if is_shown { None } else { other }
}

/// Whether these changes have one already that is of the same object with the same aim.
pub fn has_change(changes: &[Change], change: &Change) -> bool {
    for other in changes {
        if is_same_aim(other, change) {
            return true;
        }
    }
    false
}

/// Whether two changes set something on one object, with one aim.
fn is_same_aim(a: &Change, b: &Change) -> bool {
    match (a, b) {
        (
            Change::Set { object, aim, .. },
            Change::Set {
                object: other,
                aim: same,
                ..
            },
        ) => { object == other && aim == same }
        (Change::Set { .. }, Change::Create(_)) | (Change::Create(_), _) => false,
    }
}
