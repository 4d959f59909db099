//! Operations by id.

ghost use Rattle.std.specs.Prelude.{◌≡◌, ◌∷◌, [], length, map, IfOk, OnOk, OnErr};
ghost use Rattle.std.specs.Prelude.{option_copied};
ghost use Rattle.std.specs.BTreeMap.{insert_entry, is_at};
ghost use Rattle.std.specs.List.Sorted.{IsStrictlySortedBy};
ghost use Rattle.std.specs.Map.{keys_of, lookup, remove_entry, values_of};
ghost use Rattle.gf_ops.specs.OperationOrder.{id_cmp};
ghost use Rattle.gf_causal.specs.Keeping.{entry_of};

use crate::boxed::BoxedOps;
use gf_base::OutOfMemory;
use gf_ops::{Op, OpId};
use std::alloc::Global;
use std::marker::Model;

/// Operations by id.
#[derive(Drop)]
pub(crate) struct OpsById {
    alloc: Global,
    // An operation lies here while it is alone, as lines in causal order do for a moment. The
    // memory stays for the next one.
    alone: Vec<Op>,
    // Several operations lie here.
    many: BoxedOps,
}

impl Model for OpsById {
    ghost use Rattle.std.specs.Prelude.{List};
    ghost use Rattle.gf_ops.specs.declared.op.Op.{Op};
    ghost use Rattle.gf_ops.specs.declared.op.OpId.{OpId};
    ghost use Rattle.gf_causal.specs.KeptEntries.{entries_of};

    ghost Value = { List (OpId × Op) };

    ghost view = { λ s. entries_of s.alone.items s.many };
}

impl OpsById {
    /// No operations.
    pub(crate) fn new(alloc: Global) -> OpsById
        ensures { result ≡ [] }
    {
        OpsById {
            alloc,
            alone: Vec::new(alloc),
            many: BoxedOps::new(alloc),
        }
    }

    /// A copy of the operations.
    pub(crate) fn copy(&self, alloc: Global) -> Result<OpsById, OutOfMemory>
        ensures { IfOk result (λ copy. copy ≡ self.now) }
    {
        let Some(op) = self.alone.first() else {
            let many = self.many.copy(alloc)?;
            return Ok(OpsById {
                alloc,
                alone: Vec::new(alloc),
                many,
            });
        };
        let op = op.copy(alloc)?;
        let mut alone = Vec::new(alloc);
        alone.push(op)?;
        Ok(OpsById {
            alloc,
            alone,
            many: BoxedOps::new(alloc),
        })
    }

    /// How many operations there are.
    pub(crate) fn len(&self) -> usize
        ensures { result ≡ length self.now }
    {
        match self.alone.first() {
            Some(_) => 1,
            None => self.many.len(),
        }
    }

    /// The operation under the id.
    pub(crate) fn get(&self, id: OpId) -> Option<&Op>
        ensures { option_copied result ≡ lookup (is_at (id_cmp id)) self.now }
    {
        match self.alone.first() {
            Some(op) if is_under(op, id) => Some(op),
            Some(_) => None,
            None => self.many.get(id),
        }
    }

    /// The operations in the order of their ids.
    pub(crate) fn list(&self, alloc: Global) -> Result<Vec<&Op>, OutOfMemory>
        ensures { IfOk result (λ ops. map (λ a. a.now) ops.items ≡ values_of self.now) }
    {
        let Some(op) = self.alone.first() else {
            return self.many.list(alloc);
        };
        let mut ops = Vec::new(alloc);
        ops.push(op)?;
        Ok(ops)
    }

    /// Puts the operation under its id.
    pub(crate) fn insert(&mut self, op: Op) -> Result<(), OutOfMemory>
        ensures ok { OnOk result (self.new ≡ insert_entry id_cmp self.old op.id op) }
        ensures err { OnErr result (self.new ≡ self.old) }
        ensures rising { OnOk result (IsStrictlySortedBy id_cmp (keys_of self.new)) }
    {
        match self.alone.first() {
            Some(first) => {
                self.many = both(self.alloc, first, op)?;
                self.alone.clear();
                Ok(())
            }
            None => {
                if self.many.len() == 0 {
                    self.alone.push(op)?;
                    Ok(())
                } else {
                    self.many.insert(op.id, op)
                }
            }
        }
    }

    /// Takes out the operation under the id.
    pub(crate) fn remove(&mut self, id: OpId) -> Option<Op>
        ensures taken { result ≡ lookup (is_at (id_cmp id)) self.old }
        ensures left { self.new ≡ remove_entry (is_at (id_cmp id)) self.old }
        ensures rising { IsStrictlySortedBy id_cmp (keys_of self.new) }
    {
        match self.alone.first() {
            Some(op) => {
                if !is_under(op, id) {
                    return None;
                }
            }
            None => return self.many.remove(id),
        }
        self.many = BoxedOps::new(self.alloc);
        let op = self.alone.remove(0);
        self.alone.clear();
        Some(op)
    }
}

/// Whether the operation stands under the id.
fn is_under(op: &Op, id: OpId) -> bool
    ensures { result ≡ is_at (id_cmp id) op.now.id }
{
    op.id == id
}

/// Both operations, where the second comes in the place of a first one under its id.
fn both(alloc: Global, first: &Op, second: Op) -> Result<BoxedOps, OutOfMemory>
    ensures ops { IfOk result (λ ops. ops
        ≡ insert_entry id_cmp (entry_of first.now ∷ []) second.id second) }
    ensures rising { IfOk result (λ ops. IsStrictlySortedBy id_cmp (keys_of ops)) }
{
    let mut ops = BoxedOps::new(alloc);
    let first = first.copy(alloc)?;
    ops.insert(first.id, first)?;
    ops.insert(second.id, second)?;
    Ok(ops)
}
