//! The versions of one object, topmost first.

ghost use Rattle.std.specs.Prelude.{◌≡◌, ◌↔◌, Contains, Err, IfOk, OnOk};
ghost use Rattle.std.specs.List.Sorted.{IsPermutation, IsSorted};
ghost use Rattle.gf_groups.specs.declared.faults.GroupFault.{GroupFault};
ghost use Rattle.gf_groups.specs.declared.group.Group.{Group};
ghost use Rattle.gf_groups.specs.Versions.{IsMade, IsVersionGroup};
ghost use Rattle.gf_inspect.specs.ObjectVersions.{AreVersionsOf};
ghost use Rattle.gf_inspect.specs.Falling.{falling_cmp, IsSettledFalling};

use gf_base::OutOfMemory;
use gf_groups::{Group, GroupFault};
use gf_listing::{Versions, groups_of};
use gf_ops::{History, ObjectId};
use gf_versions::{Version, settle_all};
use std::alloc::Global;

/// All versions of an object with their settled values, hidden ones too, topmost first.
pub fn versions(
    alloc: Global,
    history: &History,
    object: ObjectId,
) -> Result<Vec<Version>, GroupFault>
    ensures versions { IfOk result (λ versions.
        AreVersionsOf history.now.ops object versions.items) }
    ensures no_object { result ≡ Err GroupFault.NoObject ↔ (¬ IsMade history.now.ops object) }
{
    history.recall_valid();
    let groups = groups_of(alloc, history, object)?;
    match settled(alloc, history, groups.as_slice()) {
        Ok(versions) => Ok(versions),
        Err(OutOfMemory) => Err(GroupFault::OutOfMemory),
    }
}

/// The versions that [`versions`] gives, of a history with its versions.
pub fn versions_with(
    alloc: Global,
    versions: &Versions<'_>,
    object: ObjectId,
) -> Result<Vec<Version>, GroupFault>
    ensures versions { IfOk result (λ found. AreVersionsOf versions.now object found.items) }
    ensures no_object { result ≡ Err GroupFault.NoObject ↔ (¬ IsMade versions.now object) }
{
    let groups = versions.groups(alloc, object)?;
    match settled(alloc, versions.history(), groups.as_slice()) {
        Ok(versions) => Ok(versions),
        Err(OutOfMemory) => Err(GroupFault::OutOfMemory),
    }
}

/// The versions with these groups, each above those after it.
fn settled(alloc: Global, history: &History, groups: &[Group]) -> Result<Vec<Version>, OutOfMemory>
    requires { (g : Group) → Contains groups.now g → IsVersionGroup history.now.ops g }
    ensures { IfOk result (λ versions. IsSettledFalling history.now.ops groups.now versions.items) }
{
    let mut versions = settle_all(alloc, history, groups)?;
    sort(&mut versions)?;
    Ok(versions)
}

/// Puts each version above those after it.
fn sort(versions: &mut Vec<Version>) -> Result<(), OutOfMemory>
    ensures moved { IsPermutation versions.old.items versions.new.items }
    ensures sorted { OnOk result (IsSorted falling_cmp versions.new.items) }
{
    versions.sort_by(|v, w| w.key.cmp(&v.key))?;
    Ok(())
}
