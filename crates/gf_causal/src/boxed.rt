//! Operations by id, each in a box of its own.

ghost use Rattle.std.specs.Prelude.{◌≡◌, [], length, map, IfOk, OnOk, OnErr, option_copied};
ghost use Rattle.std.specs.BTreeMap.{insert_entry, is_at};
ghost use Rattle.std.specs.List.Sorted.{IsStrictlySortedBy};
ghost use Rattle.std.specs.Map.{keys_of, lookup, remove_entry, values_of};
ghost use Rattle.gf_ops.specs.OperationOrder.{id_cmp};

use gf_base::OutOfMemory;
use gf_ops::{Op, OpId};
use std::alloc::Global;
use std::collections::BTreeMap;
use std::marker::Model;

/// Operations by id, each in a box of its own, so that empty places in the tree are small.
#[derive(Drop)]
pub(crate) struct BoxedOps {
    alloc: Global,
    boxes: BTreeMap<OpId, Box<Op>>,
}

impl Model for BoxedOps {
    ghost use Rattle.std.specs.Prelude.{List};
    ghost use Rattle.gf_ops.specs.declared.op.Op.{Op};
    ghost use Rattle.gf_ops.specs.declared.op.OpId.{OpId};
    ghost use Rattle.gf_causal.specs.Keeping.{opened};

    ghost Value = { List (OpId × Op) };

    ghost view = { λ s. opened s.boxes.entries };
}

impl BoxedOps {
    /// No operations.
    pub(crate) fn new(alloc: Global) -> BoxedOps
        ensures { result ≡ [] }
    {
        BoxedOps {
            alloc,
            boxes: BTreeMap::new(alloc),
        }
    }

    /// A copy of the operations.
    pub(crate) fn copy(&self, alloc: Global) -> Result<BoxedOps, OutOfMemory>
        ensures { IfOk result (λ copy. copy ≡ self.now) }
    {
        let mut ops = BoxedOps::new(alloc);
        for (id, op) in &self.boxes {
            let op = op.copy(alloc)?;
            ops.insert(*id, op)?;
        }
        Ok(ops)
    }

    /// How many operations there are.
    pub(crate) fn len(&self) -> usize
        ensures { result ≡ length self.now }
    {
        self.boxes.len()
    }

    /// The operation under the id.
    pub(crate) fn get(&self, id: OpId) -> Option<&Op>
        ensures { option_copied result ≡ lookup (is_at (id_cmp id)) self.now }
    {
        let op = self.boxes.get(&id)?;
        Some(&**op)
    }

    /// The operations in the order of their ids.
    pub(crate) fn list(&self, alloc: Global) -> Result<Vec<&Op>, OutOfMemory>
        ensures { IfOk result (λ ops. map (λ a. a.now) ops.items ≡ values_of self.now) }
    {
        let mut ops = Vec::new(alloc);
        for (_, op) in &self.boxes {
            ops.push(&**op)?;
        }
        Ok(ops)
    }

    /// Puts the operation under the id.
    pub(crate) fn insert(&mut self, id: OpId, op: Op) -> Result<(), OutOfMemory>
        ensures ok { OnOk result (self.new ≡ insert_entry id_cmp self.old id op) }
        ensures err { OnErr result (self.new ≡ self.old) }
        ensures rising { OnOk result (IsStrictlySortedBy id_cmp (keys_of self.new)) }
    {
        let Ok(op) = Box::new(self.alloc, op) else {
            return Err(OutOfMemory);
        };
        match self.boxes.insert(id, op) {
            Ok(_) => Ok(()),
            Err(_) => Err(OutOfMemory),
        }
    }

    /// Takes out the operation under the id.
    pub(crate) fn remove(&mut self, id: OpId) -> Option<Op>
        ensures taken { result ≡ lookup (is_at (id_cmp id)) self.old }
        ensures left { self.new ≡ remove_entry (is_at (id_cmp id)) self.old }
        ensures rising { IsStrictlySortedBy id_cmp (keys_of self.new) }
    {
        let op = self.boxes.remove(&id)?;
        Some(Box::into_inner(op))
    }
}
