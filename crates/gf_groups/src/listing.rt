//! Groups of positions as groups of ids.

ghost use Rattle.std.specs.Prelude.{◌≡◌, ◌++◌, All, map, IfOk, OnOk};
ghost use Rattle.std.specs.List.Sorted.{IsStrictlySortedBy};
ghost use Rattle.std.specs.Ordering.{nat_cmp};
ghost use Rattle.gf_maximal.specs.LargestSets.{IsRising};
ghost use Rattle.gf_groups.specs.GroupedPositions.{group_at, id_at, ids_at, rising_ids};

use crate::Group;
use gf_base::OutOfMemory;
use gf_maximal::Numbers;
use gf_ops::{History, Ids, ObjectId, Op, OpId};
use std::alloc::Global;

/// The id of the operation at this position.
fn id_at(ops: &[Op], position: usize) -> Option<OpId>
    ensures { result ≡ id_at ops.now position }
{
    ops.get(position).map(|op| op.id)
}

/// The ids of the operations at these positions.
fn ids_at(alloc: Global, ops: &[Op], positions: &[usize]) -> Result<Vec<OpId>, OutOfMemory>
    ensures { IfOk result (λ ids. ids.items ≡ ids_at ops.now positions.now) }
{
    Ok(
        positions
            .iter()
            .filter_map(|position| id_at(ops, *position))
            .collect(alloc)?,
    )
}

/// The ids of the operations at these positions, rising.
pub fn rising_ids(alloc: Global, history: &History, positions: &[usize]) -> Result<Ids, OutOfMemory>
    requires { IsStrictlySortedBy nat_cmp positions.now }
    ensures { IfOk result (λ ids. ids ≡ rising_ids history.now.ops positions.now) }
{
    let mut ids = ids_at(alloc, history.ops(), positions)?;
    ids.sort()?;
    Ok(Ids::new(ids))
}

/// Adds the groups of the operations at the positions of each set.
pub fn add_groups(
    alloc: Global,
    history: &History,
    object: ObjectId,
    sets: Vec<Numbers>,
    groups: &mut Vec<Group>,
) -> Result<(), OutOfMemory>
    requires { All IsRising sets.items }
    ensures { OnOk result (groups.new.items
        ≡ groups.old.items ++ map (group_at history.now.ops object) sets.items) }
{
    for set in sets {
        let ops = rising_ids(alloc, history, &set.to_vec(alloc)?)?;
        groups.push(Group { object, ops })?;
    }
    Ok(())
}
