//! The changes that keep some versions of an object.

ghost use Rattle.std.specs.Prelude.{◌≡◌, ◌≢◌, ◌∷◌, ◌++◌, [], ◌==◌, IfOk, IfErr, length};
ghost use Rattle.std.specs.List.{AllZip};
ghost use Rattle.gf_groups.specs.Versions.{IsMade};
ghost use Rattle.gf_keep.specs.Keeping.{AreKeeping, AreKept, IsShowing, hiding};
ghost use Rattle.gf_keep.specs.KeepFaults.{RefusesKeep};
ghost use Rattle.gf_keep.specs.KeepSteps.{AreIdsOn, AreOfObject, AreShowings};

use crate::aiming::{aim_to_keep, ids_on};
use crate::visible::kept_groups;
use crate::{Keep, KeepFault};
use gf_base::OutOfMemory;
use gf_groups::{Group, is_made};
use gf_ops::{Change, History, Ids, ObjectId, OpId};
use std::alloc::Global;

/// The changes that keep versions of an object behind a history. The first one hides the object
/// without an aim. Then one shows each kept version, in the order of their ids. It aims at what
/// tells the version from all operations on the object, and at what these aim at.
///
/// The visible versions of the object are made first. Each member of a kept version is compared
/// with each operation on the object.
pub fn keeping(alloc: Global, history: &History, keep: &Keep) -> Result<Vec<Change>, KeepFault>
    ensures changes { IfOk result (λ changes. AreKeeping history.now.ops keep.now changes.items) }
    ensures refused { IfErr result (RefusesKeep history.now.ops keep.now) }
{
    if !is_made(history, keep.object) {
        return Err(KeepFault::NoObject);
    }
    let kept = kept_in(alloc, history, keep)?;
    match changes_of(alloc, history, keep.object, &kept) {
        Ok(changes) => Ok(changes),
        Err(OutOfMemory) => Err(KeepFault::OutOfMemory),
    }
}

/// The versions that are kept, at least one.
fn kept_in(alloc: Global, history: &History, keep: &Keep) -> Result<Vec<Group>, KeepFault>
    requires { IsMade history.now.ops keep.now.object }
    ensures kept { IfOk result (λ groups. AreKept history.now.ops keep.now groups.items) }
    ensures some { IfOk result (λ groups. groups.items ≢ []) }
    ensures refused { IfErr result (RefusesKeep history.now.ops keep.now) }
{
    let Some(groups) = kept_groups(alloc, history, keep)? else {
        return Err(KeepFault::Range);
    };
    if is_none(&groups) {
        return Err(KeepFault::NoVersion);
    }
    Ok(groups)
}

/// Whether there is no group.
fn is_none(groups: &[Group]) -> bool
    ensures { result ≡ (length groups.now == 0) }
{
    groups.is_empty()
}

/// The change that hides the object, and behind it one that shows each group.
fn changes_of(
    alloc: Global,
    history: &History,
    object: ObjectId,
    groups: &[Group],
) -> Result<Vec<Change>, OutOfMemory>
    requires { AreOfObject object groups.now }
    ensures { IfOk result (λ changes. AreShowings history.now.ops object groups.now changes.items) }
{
    let others = ids_on(alloc, history, object)?;
    let mut changes = Vec::new(alloc);
    changes.push(Change::set_shown(object, false, Ids::new(Vec::new(alloc))))?;
    for group in groups {
        let aim = aim_to_keep(alloc, history, group, &others)?;
        changes.push(Change::set_shown(object, true, aim))?;
    }
    Ok(changes)
}
