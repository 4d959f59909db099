//! What hides an object, and who changed what is hidden without knowing it.

ghost use Rattle.std.specs.Prelude.{◌≡◌, ◌↔◌, [], length, Contains, IfOk, IsTrue, flat_map, map};
ghost use Rattle.std.specs.BTreeSet.{contains};
ghost use Rattle.gf_ops.specs.declared.op.OpId.{OpId};
ghost use Rattle.gf_ops.specs.OperationOrder.{id_cmp};
ghost use Rattle.gf_groups.specs.declared.group.Group.{Group};
ghost use Rattle.gf_listing.specs.Listed.{AreOn};
ghost use Rattle.gf_visible.specs.ShownVersions.{AreVisibleOn};
ghost use Rattle.gf_status.specs.ObjectStatuses.{TellsHidings};
ghost use Rattle.gf_status.specs.Setters.{where_none};
ghost use Rattle.gf_status.specs.UnseenChanges.{AreUnseen};

use crate::ids::ids_of;
use crate::setters::{lasts, setters};
use crate::unseen::{hidings, unknowing};
use gf_base::OutOfMemory;
use gf_groups::Group;
use gf_ops::{Attr, History, Ids, ObjectId, Op, OpId, id_set};
use std::alloc::Global;
use std::collections::BTreeSet;

/// What is told of the hidings of an object.
#[derive(Drop)]
pub(crate) struct Hidden {
    pub(crate) hidings: Ids,
    pub(crate) changed: Ids,
}

/// What is told of the hidings of an object with these visible versions. All operations on the
/// object are given.
pub(crate) fn hidden_of(
    alloc: Global,
    history: &History,
    object: ObjectId,
    all: &[&Op],
    groups: &[Group],
) -> Result<Hidden, OutOfMemory>
    requires all { AreOn history.now.ops object (map (λ a. a.now) all.now) }
    requires groups { AreVisibleOn history.now.ops object groups.now }
    ensures hidings { IfOk result (λ found.
        TellsHidings history.now.ops object (length groups.now) found.hidings) }
    ensures changed { IfOk result (λ found. AreUnseen history.now.ops object found.changed) }
{
    let found = setters(alloc, all, Attr::Shown)?;
    let last = lasts(alloc, history, &found)?;
    let seen = members_of(alloc, groups)?;
    let changed = unknowing(alloc, history, &seen, &found, &last, all)?;
    let changed = ids_of(alloc, &changed)?;
    let hiding = hidings(alloc, &last)?;
    let hidings = ids_of(alloc, &hiding)?;
    Ok(Hidden {
        hidings: where_none(alloc, groups, hidings),
        changed,
    })
}

/// The ids, if there is no group.
fn where_none(alloc: Global, groups: &[Group], ids: Ids) -> Ids
    ensures { result ≡ where_none groups.now ids }
{
    match groups {
        [] => ids,
        [_, ..] => Ids::new(Vec::new(alloc)),
    }
}

/// The ids of the operations of these groups.
fn members_of(alloc: Global, groups: &[Group]) -> Result<BTreeSet<OpId>, OutOfMemory>
    ensures { IfOk result (λ seen. (i : OpId) → IsTrue (contains id_cmp seen i)
        ↔ Contains (flat_map (λ (g : Group). g.ops) groups.now) i) }
{
    let ids = listed(alloc, groups)?;
    let seen = id_set(alloc, &ids)?;
    Ok(seen)
}

/// The ids of the operations of these groups, one group after the other.
fn listed(alloc: Global, groups: &[Group]) -> Result<Vec<OpId>, OutOfMemory>
    ensures { IfOk result (λ ids.
        ids.items ≡ flat_map (λ (g : Group). g.ops) groups.now) }
{
    let mut ids = Vec::new(alloc);
    for group in groups {
        ids.extend_from_slice(group.ops.as_slice())?;
    }
    Ok(ids)
}
