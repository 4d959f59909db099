//! The versions of an object, from its largest compatible sets.

ghost use Rattle.std.specs.Prelude.{◌↔◌, IfOk, IsTrue, OnOk};
ghost use Rattle.std.specs.List.Sorted.{IsPermutation, IsSorted};
ghost use Rattle.gf_groups.specs.Growing.{conflict_at};
ghost use Rattle.gf_table.specs.Positions.{positions_on};
ghost use Rattle.gf_maximal.specs.LargestSets.{AreLargestSets};
ghost use Rattle.gf_groups.specs.Versions.{IsMade, AreVersions, group_cmp};

use crate::listing::add_groups;
use crate::{Group, Groups};
use gf_base::OutOfMemory;
use gf_maximal::Numbers;
use gf_ops::{Change, History, ObjectId};
use std::alloc::Global;

/// Whether the history has an operation that made the object.
pub fn is_made(history: &History, object: ObjectId) -> bool
    ensures { IsTrue result ↔ IsMade history.now.ops object }
{
    history.recall_valid();
    match history.get(object.0) {
        Some(maker) => matches!(maker.change, Change::Create(_)),
        None => false,
    }
}

/// The versions of an object that the history made, from the largest compatible sets of the
/// positions of its operations.
pub fn groups_from(
    alloc: Global,
    history: &History,
    object: ObjectId,
    sets: Vec<Numbers>,
) -> Result<Groups, OutOfMemory>
    requires made { IsMade history.now.ops object }
    requires table { AreLargestSets (conflict_at history.now.ops)
        (positions_on history.now.ops object) sets.items }
    ensures { IfOk result (λ groups. AreVersions history.now.ops object groups) }
{
    history.recall_valid();
    let mut groups = Vec::new(alloc);
    add_groups(alloc, history, object, sets, &mut groups)?;
    sort_groups(&mut groups)?;
    Ok(Groups::new(groups))
}

/// Puts groups in the order of their ids.
pub fn sort_groups(groups: &mut Vec<Group>) -> Result<(), OutOfMemory>
    ensures moved { IsPermutation groups.old.items groups.new.items }
    ensures sorted { OnOk result (IsSorted group_cmp groups.new.items) }
{
    groups.sort_by(|a, b| a.ops.as_slice().cmp(b.ops.as_slice()))?;
    Ok(())
}
