//! A replica: a history with its table, and what waits.

ghost use Rattle.std.specs.Prelude.{◌≡◌, ◌≢◌, ◌↔◌, ◌<◌, ◌++◌, ◌∷◌, [], length, Some, Ok, Err};
ghost use Rattle.std.specs.Prelude.{Contains, IfOk, OnOk, OnErr, map};
ghost use Rattle.gf_ops.specs.declared.op.Op.{Op};
ghost use Rattle.gf_ops.specs.Limits.{IsInRange};
ghost use Rattle.gf_ops.specs.Accepted.{IsAccepted, AreAccepted};
ghost use Rattle.gf_ops.specs.ValidHistory.{IsValid};
ghost use Rattle.gf_causal.specs.declared.buffer.Offered.{Offered};
ghost use Rattle.gf_causal.specs.declared.faults.OfferFault.{OfferFault};
ghost use Rattle.gf_causal.specs.HeldOperations.{AreHeld};
ghost use Rattle.gf_table.specs.Standing.{StandsFor};
ghost use Rattle.gf_site.specs.Growth.{Grows};
ghost use Rattle.gf_site.specs.ReplicaState.{new_replica};
ghost use Rattle.gf_site.specs.ReplicaSteps.{HasNext, StepsOnce};
ghost use Rattle.gf_site.specs.Offers.{HasOtherThan, HasAlready, IsNewTo, ComesToHold};

use gf_base::OutOfMemory;
use gf_causal::{Buffer, OfferFault, Offered};
use gf_ops::{History, Op, OpFault, OpId};
use gf_table::{GroupTable, IndexedHistory};
use std::alloc::Global;
use std::marker::Model;
use std::mem;

/// What a step came to.
#[derive(Clone, Copy, Debug, PartialEq, Eq)]
pub enum Step {
    /// The operation under this id was added to the history.
    Applied(OpId),
    /// The operation under this id did not fit behind the history, and is forgotten.
    Dropped(OpId, OpFault),
    /// No held operation is ready.
    Idle,
}

/// A history with its table, and the operations held until they are ready.
#[derive(Drop)]
pub struct Replica {
    alloc: Global,
    history: IndexedHistory,
    buffer: Buffer,
}

impl Model for Replica {
    ghost use Rattle.gf_site.specs.ReplicaState.{ReplicaState};

    ghost Value = { ReplicaState };

    ghost view = { λ r. record { ops = r.history; held = r.buffer } };
}

impl Replica {
    /// The table of the positions of each object's operations.
    pub fn table(&self) -> &GroupTable
        ensures { StandsFor self.now.ops result.now }
    {
        self.history.table()
    }

    /// The history with its table.
    pub fn indexed(&self) -> &IndexedHistory
        ensures { result.now ≡ self.now.ops }
    {
        &self.history
    }
}

impl Replica {
    /// A replica that has and holds nothing.
    pub fn new(alloc: Global) -> Replica
        ensures { result ≡ new_replica }
    {
        Replica {
            alloc,
            history: IndexedHistory::new(alloc),
            buffer: Buffer::new(alloc),
        }
    }

    /// A copy of the replica.
    pub fn copy(&self, alloc: Global) -> Result<Replica, OutOfMemory>
        ensures { IfOk result (λ copy. copy ≡ self.now) }
    {
        Ok(Replica {
            alloc,
            history: self.history.copy(alloc)?,
            buffer: self.buffer.copy(alloc)?,
        })
    }

    /// Has the history of another replica from now on, and holds what it held. Answers the other one
    /// with the history that this had.
    pub(crate) fn take_history(&mut self, other: Replica) -> Replica
        ensures new { self.new ≡ record self.old { ops = other.ops } }
        ensures old { result ≡ record other { ops = self.old.ops } }
    {
        let history = mem::replace(&mut self.history, other.history);
        Replica {
            alloc: other.alloc,
            history,
            buffer: other.buffer,
        }
    }

    /// Comes to have and hold what another replica does, whose history begins with this one's.
    pub fn catch_up(&mut self, other: &Replica) -> Result<(), OutOfMemory>
        requires { Grows self.old.ops other.now.ops }
        ensures { OnOk result (self.new ≡ other.now) }
    {
        other.recall_state();
        let had = self.history.history().ops().len();
        self.add_all(&other.history().ops()[had..])?;
        self.buffer = other.buffer.copy(self.alloc)?;
        Ok(())
    }

    /// The history.
    pub fn history(&self) -> &History
        ensures ops { result.now.ops ≡ self.now.ops }
        ensures accepted { AreAccepted self.now.ops }
        ensures valid { IsValid self.now.ops }
    {
        let history = self.history.history();
        let _ = history.ops();
        history
    }

    /// Recalls what every replica keeps. A caller takes no more of the call than its clauses.
    pub fn recall_state(&self)
        ensures accepted { AreAccepted self.now.ops }
        ensures valid { IsValid self.now.ops }
        ensures held { AreHeld self.now.held }
    {
        let _ = self.history();
        let _ = self.held();
    }

    /// How many operations are held.
    pub fn held(&self) -> usize
        ensures held { result ≡ length self.now.held }
        ensures valid { AreHeld self.now.held }
    {
        self.buffer.held()
    }

    /// The held operations, rising by id.
    pub fn held_ops(&self, alloc: Global) -> Result<Vec<&Op>, OutOfMemory>
        ensures ops { IfOk result (λ ops. map (λ a. a.now) ops.items ≡ self.now.held) }
        ensures valid { AreHeld self.now.held }
    {
        self.buffer.ops(alloc)
    }

    /// Adds an operation that the history accepts. All memory is there before anything changes.
    pub fn add(&mut self, op: Op) -> Result<(), OutOfMemory>
        requires in_range { IsInRange op }
        requires accepted { IsAccepted self.old.ops op }
        ensures ok { OnOk result (self.new ≡ record self.old { ops = self.old.ops ++ op ∷ [] }) }
        ensures err { OnErr result (self.new ≡ self.old) }
    {
        self.history.add(op)
    }

    /// Adds operations that the history accepts, each behind those before it.
    pub fn add_all(&mut self, ops: &[Op]) -> Result<(), OutOfMemory>
        requires in_range { (a : Op) → Contains ops.now a → IsInRange a }
        requires accepted { AreAccepted (self.old.ops ++ ops.now) }
        ensures { OnOk result (self.new ≡ record self.old { ops = self.old.ops ++ ops.now }) }
    {
        for op in ops {
            let copy = op.copy(self.alloc)?;
            self.add(copy)?;
        }
        Ok(())
    }

    /// Holds an operation that is neither held nor in the history.
    pub fn receive(&mut self, op: Op) -> Result<Offered, OfferFault>
        ensures range { result ≡ Err OfferFault.Range ↔ (¬ (IsInRange op)) }
        ensures clash { result ≡ Err OfferFault.Clash ↔ HasOtherThan self.old op }
        ensures already { result ≡ Ok Offered.Already ↔ HasAlready self.old op }
        ensures held { result ≡ Ok Offered.Held → ComesToHold self.old op self.new }
        ensures out_of_memory { result ≡ Err OfferFault.OutOfMemory → IsNewTo self.old op }
        ensures same { result ≢ Ok Offered.Held → self.new ≡ self.old }
        ensures kept { self.new ≡ record self.old { held = self.new.held } }
    {
        self.buffer.offer(op, self.history.history())
    }

    /// Moves the ready held operation with the least id to the history, or forgets it where it
    /// doesn't fit. A copy goes to the history, so that want of memory leaves the held one.
    pub fn step(&mut self) -> Result<Step, OutOfMemory>
        ensures ok { IfOk result (λ step. StepsOnce self.old step self.new) }
        ensures out_of_memory { OnErr result (HasNext self.old) }
        ensures same { OnErr result (self.new ≡ self.old) }
    {
        let history = self.history.history();
        let Some(op) = self.buffer.first_ready(history) else {
            return Ok(Step::Idle);
        };
        let id = op.id;
        if let Err(fault) = history.check(op) {
            let _ = self.buffer.take(id);
            return Ok(Step::Dropped(id, fault));
        }
        self.history.add(op.copy(self.alloc)?)?;
        let _ = self.buffer.take(id);
        Ok(Step::Applied(id))
    }
}
