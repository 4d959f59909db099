//! Operations that wait for what they know.

ghost use Rattle.std.specs.Prelude.{◌≡◌, ◌≢◌, ◌↔◌, [], length, map, Contains, Ok, Err, IfOk};
ghost use Rattle.std.specs.Prelude.{IfSome};
ghost use Rattle.std.specs.Prelude.{Some, None, IfNone, OnOk, OnErr};
ghost use Rattle.gf_ops.specs.declared.op.Op.{Op};
ghost use Rattle.gf_ops.specs.Limits.{IsInRange};
ghost use Rattle.gf_causal.specs.declared.buffer.Offered.{Offered};
ghost use Rattle.gf_causal.specs.declared.faults.OfferFault.{OfferFault};
ghost use Rattle.gf_causal.specs.HeldOperations.{AreHeld, IsFree, IsClash, IsKnown, IsNew, Adds};
ghost use Rattle.gf_causal.specs.HeldOperations.{IsFirstReady};
ghost use Rattle.gf_causal.specs.Keeping.{Among, IsStanding};
ghost use Rattle.gf_causal.specs.Ready.{IsReady, NoneIsReady};

use crate::OfferFault;
use crate::by_id::OpsById;
use crate::ready::knows_no_more;
use crate::standing::{Standing, compare, in_history, join};
use gf_base::OutOfMemory;
use gf_ops::{History, Op, OpId};
use std::alloc::Global;
use std::marker::Model;

/// What an offer that was not refused came to.
#[derive(Clone, Copy, Debug, PartialEq, Eq)]
pub enum Offered {
    /// The same operation is held, or in the history.
    Already,
    /// The operation is held from now on.
    Held,
}

/// Operations that wait until a history has what they know, seen as their list, rising by id.
#[derive(Drop)]
pub struct Buffer {
    ops: OpsById,
}

impl Model for Buffer {
    ghost use Rattle.std.specs.Prelude.{List};
    ghost use Rattle.std.specs.Map.{values_of};
    ghost use Rattle.gf_ops.specs.declared.op.Op.{Op};
    ghost use Rattle.gf_causal.specs.Keeping.{IsKept};

    ghost Value = { List Op };

    ghost view = { λ s. values_of s.ops };

    ghost invariant = { λ s. IsKept s.ops };
}

impl Buffer {
    /// The empty buffer.
    pub fn new(alloc: Global) -> Buffer
        ensures { result ≡ [] }
    {
        Buffer {
            ops: OpsById::new(alloc),
        }
    }

    /// A copy of the buffer.
    pub fn copy(&self, alloc: Global) -> Result<Buffer, OutOfMemory>
        ensures { IfOk result (λ copy. copy ≡ self.now) }
    {
        Ok(Buffer {
            ops: self.ops.copy(alloc)?,
        })
    }

    /// Holds an operation that is neither held nor in the history.
    pub fn offer(&mut self, op: Op, history: &History) -> Result<Offered, OfferFault>
        ensures range { result ≡ Err OfferFault.Range ↔ (¬ (IsInRange op)) }
        ensures clash { result ≡ Err OfferFault.Clash
            ↔ (IsInRange op × IsClash self.old history.now.ops op) }
        ensures already { result ≡ Ok Offered.Already
            ↔ (IsInRange op × IsKnown self.old history.now.ops op) }
        ensures held { result ≡ Ok Offered.Held
            → IsInRange op × IsNew self.old history.now.ops op × Adds self.old op self.new }
        ensures out_of_memory { result ≡ Err OfferFault.OutOfMemory
            → IsInRange op × IsNew self.old history.now.ops op }
        ensures same { result ≢ Ok Offered.Held → self.new ≡ self.old }
    {
        if !op.in_range() {
            return Err(OfferFault::Range);
        }
        match self.standing(&op, history) {
            Standing::Other => Err(OfferFault::Clash),
            Standing::Same => Ok(Offered::Already),
            Standing::Free => {
                if self.hold(op).is_err() {
                    return Err(OfferFault::OutOfMemory);
                }
                Ok(Offered::Held)
            }
        }
    }

    /// The held operation that is ready, with the least id of all such. Only the next number of
    /// each site is looked up.
    pub fn first_ready(&self, history: &History) -> Option<&Op>
        ensures found { IfSome result (λ op. IsFirstReady self.now history.now.ops op.now) }
        ensures in_range { IfSome result (λ op. IsInRange op.now) }
        ensures none { IfNone result (NoneIsReady history.now.ops self.now) }
    {
        if self.ops.len() == 0 {
            return None;
        }
        // Each held operation is in range, so of one of these sites.
        for site in 1..9 {
            if let Some(op) = self.ready_of(site, history) {
                return Some(op);
            }
        }
        None
    }

    /// Takes out what `first_ready` gives, and nothing else.
    pub fn take_ready(&mut self, history: &History) -> Option<Op>
        ensures found { IfSome result (IsFirstReady self.old history.now.ops) }
        ensures in_range { IfSome result IsInRange }
        ensures taken { IfSome result (λ op. Adds self.new op self.old) }
        ensures none { IfNone result (NoneIsReady history.now.ops self.old) }
        ensures same { IfNone result (self.new ≡ self.old) }
    {
        let id = self.first_ready(history)?.id;
        self.take(id)
    }

    /// Takes out the held operation under this id, and nothing else.
    pub fn take(&mut self, id: OpId) -> Option<Op>
        ensures held { (op : Op) → Contains self.old op → op.id ≡ id
            → (result ≡ Some op) × Adds self.new op self.old }
        ensures free { IsFree self.old id → (result ≡ None) × (self.new ≡ self.old) }
    {
        self.ops.remove(id)
    }

    /// How many operations are held.
    pub fn held(&self) -> usize
        ensures held { result ≡ length self.now }
        ensures valid { AreHeld self.now }
    {
        self.ops.len()
    }

    /// The held operations, rising by id.
    pub fn ops(&self, alloc: Global) -> Result<Vec<&Op>, OutOfMemory>
        ensures ops { IfOk result (λ ops. map (λ a. a.now) ops.items ≡ self.now) }
        ensures valid { AreHeld self.now }
    {
        self.ops.list(alloc)
    }

    /// The held operation under this id.
    fn find(&self, id: OpId) -> Option<&Op>
        ensures found { IfSome result (λ op. Contains self.now op.now × (op.now.id ≡ id)) }
        ensures none { IfNone result (IsFree self.now id) }
    {
        self.ops.get(id)
    }

    /// What is held under the id of the operation.
    fn among_held(&self, op: &Op) -> Standing
        ensures { Among self.now op.now result }
    {
        // The ids of held operations are distinct.
        let _ = &self.ops;
        compare(self.find(op.id), op)
    }

    /// What is held or in the history under the id of the operation.
    fn standing(&self, op: &Op, history: &History) -> Standing
        ensures { IsStanding self.now history.now.ops op.now result }
    {
        join(self.among_held(op), in_history(history, op))
    }

    /// Puts an operation at its place.
    fn hold(&mut self, op: Op) -> Result<(), OutOfMemory>
        requires range { IsInRange op }
        requires free { IsFree self.old op.id }
        ensures ok { OnOk result (Adds self.old op self.new) }
        ensures err { OnErr result (self.new ≡ self.old) }
    {
        self.ops.insert(op)?;
        Ok(())
    }

    /// The held operation of this site that is ready.
    fn ready_of(&self, site: u8, history: &History) -> Option<&Op>
        ensures found { IfSome result (λ op. Contains self.now op.now
            × IsReady history.now.ops op.now × (op.now.id.site ≡ site)) }
        ensures none { IfNone result ((a : Op) → Contains self.now a → a.id.site ≡ site
            → ¬ (IsReady history.now.ops a)) }
    {
        // Each held operation is in range, so no number is lost.
        let _ = &self.ops;
        let seq = history.count(site).saturating_add(1);
        match self.find(OpId { site, seq }) {
            None => None,
            Some(op) => {
                if knows_no_more(op, history) {
                    Some(op)
                } else {
                    None
                }
            }
        }
    }
}
