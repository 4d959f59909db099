//! The table of positions by object, which grows by one operation at a time.

ghost use Rattle.std.specs.Prelude.{◌≡◌, ◌∷◌, [], ◌++◌, cond, IfOk, OnOk, OnErr};
ghost use Rattle.std.specs.BTreeMap.{insert_entry, is_at};
ghost use Rattle.gf_ops.specs.declared.op.ObjectId.{ObjectId};
ghost use Rattle.gf_ops.specs.Accepted.{IsAccepted};
ghost use Rattle.gf_ops.specs.Limits.{IsInRange};
ghost use Rattle.gf_table.specs.Positions.{object_cmp};
ghost use Rattle.gf_table.specs.Standing.{StandsFor, positions_of};

use crate::positions::Positions;
use gf_base::OutOfMemory;
use gf_ops::{History, ObjectId, Op};
use std::alloc::Global;
use std::collections::BTreeMap;
use std::marker::Model;

/// For each object of a history the positions of the operations on it. The table is seen as the
/// list of objects with these positions.
#[derive(Drop)]
pub struct GroupTable {
    alloc: Global,
    objects: BTreeMap<ObjectId, Positions>,
}

impl Model for GroupTable {
    ghost use Rattle.std.specs.Prelude.{List, ℕ};
    ghost use Rattle.gf_ops.specs.declared.op.ObjectId.{ObjectId};

    ghost Value = { List (ObjectId × List ℕ) };

    ghost view = { λ t. t.objects.entries };
}

impl GroupTable {
    /// The table of the empty history.
    pub fn new(alloc: Global) -> GroupTable
        ensures { StandsFor [] result }
    {
        GroupTable {
            alloc,
            objects: BTreeMap::new(alloc),
        }
    }

    /// A copy of the table.
    pub fn copy(&self, alloc: Global) -> Result<GroupTable, OutOfMemory>
        ensures { IfOk result (λ copy. copy ≡ self.now) }
    {
        let mut objects = BTreeMap::new(alloc);
        for (object, positions) in &self.objects {
            let positions = positions.copy(alloc)?;
            put(&mut objects, *object, positions)?;
        }
        Ok(GroupTable { alloc, objects })
    }

    /// Adds an operation that the history may add. All memory is there before anything changes.
    pub fn add(&mut self, history: &History, op: &Op) -> Result<(), OutOfMemory>
        requires in_range { IsInRange op.now }
        requires accepted { IsAccepted history.now.ops op.now }
        requires stands { StandsFor history.now.ops self.old }
        ensures ok { OnOk result (StandsFor (history.now.ops ++ op.now ∷ []) self.new) }
        ensures err { OnErr result (self.new ≡ self.old) }
    {
        let position = history.ops().len();
        push_position(self.alloc, &mut self.objects, op.object(), position)
    }

    /// The positions of the operations on an object, rising; none where there is no operation.
    pub fn positions(&self, object: ObjectId) -> &[usize]
        ensures { result.now ≡ positions_of self.now object }
    {
        positions_at(&self.objects, object)
    }
}

/// The positions of an object in their order; none where nothing was pushed.
pub fn positions_at(objects: &BTreeMap<ObjectId, Positions>, object: ObjectId) -> &[usize]
    ensures { result.now ≡ positions_of objects.now.entries object }
{
    match objects.get(&object) {
        Some(positions) => positions.as_slice(),
        None => &[],
    }
}

/// Appends a position to those of an object.
pub fn push_position(
    alloc: Global,
    objects: &mut BTreeMap<ObjectId, Positions>,
    object: ObjectId,
    position: usize,
) -> Result<(), OutOfMemory>
    ensures ok { OnOk result ((o : ObjectId) → positions_of objects.new.entries o
        ≡ cond (is_at (object_cmp object) o)
        (positions_of objects.old.entries object ++ position ∷ [])
        (positions_of objects.old.entries o)) }
    ensures err { OnErr result (objects.new.entries ≡ objects.old.entries) }
{
    if let Some(positions) = objects.get_mut(&object) {
        return positions.push(position);
    }
    let mut positions = Positions::new(alloc);
    positions.push(position)?;
    put(objects, object, positions)
}

/// Puts the positions under the object.
fn put(
    objects: &mut BTreeMap<ObjectId, Positions>,
    object: ObjectId,
    positions: Positions,
) -> Result<(), OutOfMemory>
    ensures ok { OnOk result (objects.new.entries
        ≡ insert_entry object_cmp objects.old.entries object positions) }
    ensures puts { OnOk result ((o : ObjectId) → positions_of objects.new.entries o
        ≡ cond (is_at (object_cmp object) o) positions (positions_of objects.old.entries o)) }
    ensures err { OnErr result (objects.new.entries ≡ objects.old.entries) }
{
    match objects.insert(object, positions) {
        Ok(_) => Ok(()),
        Err(_) => Err(OutOfMemory),
    }
}
