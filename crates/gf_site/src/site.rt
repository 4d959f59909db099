//! A site: what one designer has, and what waits there.

ghost use Rattle.std.specs.Prelude.{◌≡◌, ◌≢◌, ◌↔◌, ◌<◌, ◌++◌, ◌∷◌, [], length, IsTrue, Ok, Err};
ghost use Rattle.std.specs.Prelude.{Contains, IfOk, IfErr, OnOk, OnErr, map};
ghost use Rattle.gf_ops.specs.declared.op.Op.{Op};
ghost use Rattle.gf_ops.specs.Limits.{is_change, IsInRange};
ghost use Rattle.gf_ops.specs.OperationOrder.{IsSite, count_of};
ghost use Rattle.gf_ops.specs.Accepted.{IsNext, IsAccepted, AreAccepted};
ghost use Rattle.gf_ops.specs.ValidHistory.{IsValid};
ghost use Rattle.gf_causal.specs.declared.buffer.Offered.{Offered};
ghost use Rattle.gf_causal.specs.declared.faults.OfferFault.{OfferFault};
ghost use Rattle.gf_causal.specs.HeldOperations.{AreHeld};
ghost use Rattle.gf_table.specs.Standing.{StandsFor};
ghost use Rattle.gf_site.specs.SiteState.{at_site, new_site, replica_of, authored};
ghost use Rattle.gf_site.specs.ReplicaSteps.{HasNext};
ghost use Rattle.gf_site.specs.Events.{Refuses, Authors, Steps};
ghost use Rattle.gf_site.specs.Offers.{HasOtherThan, HasAlready, IsNewTo, ComesToHold};
ghost use Rattle.gf_site.specs.declared.faults.AuthorFault.TheVariants as fault;

use crate::{AuthorFault, Replica, Step};
use gf_base::OutOfMemory;
use gf_causal::{OfferFault, Offered};
use gf_ops::{Change, History, Op, OpFault, OpId};
use gf_table::{GroupTable, IndexedHistory};
use std::alloc::Global;
use std::marker::Model;

/// A replica under the number of a site, which makes operations of changes.
#[derive(Drop)]
pub struct Site {
    number: u8,
    replica: Replica,
    alloc: Global,
}

impl Model for Site {
    ghost use Rattle.gf_ops.specs.OperationOrder.{IsSite};
    ghost use Rattle.gf_site.specs.SiteState.{SiteState, at_site};

    ghost Value = { SiteState };

    ghost view = { λ s. at_site s.number s.replica };

    ghost invariant = { λ s. IsSite s.number };
}

impl Site {
    /// A site that has and holds nothing.
    pub fn new(alloc: Global, number: u8) -> Site
        requires { IsSite number }
        ensures { result ≡ new_site number }
    {
        Site::with_replica(alloc, number, Replica::new(alloc))
    }

    /// The table of the positions of each object's operations.
    pub fn table(&self) -> &GroupTable
        ensures { StandsFor self.now.ops result.now }
    {
        self.replica.table()
    }

    /// The history with its table.
    pub fn indexed(&self) -> &IndexedHistory
        ensures { result.now ≡ self.now.ops }
    {
        self.replica.indexed()
    }
}

impl Site {
    /// The site of this number that has and holds what the replica does.
    pub fn with_replica(alloc: Global, number: u8, replica: Replica) -> Site
        requires { IsSite number }
        ensures { result ≡ at_site number replica }
    {
        Site {
            number,
            replica,
            alloc,
        }
    }

    /// A copy of the site.
    pub fn copy(&self, alloc: Global) -> Result<Site, OutOfMemory>
        ensures { IfOk result (λ copy. copy ≡ self.now) }
    {
        Ok(Site {
            number: self.number,
            replica: self.replica.copy(alloc)?,
            alloc,
        })
    }

    /// The number of the site.
    pub fn number(&self) -> u8
        ensures number { result ≡ self.now.number }
        ensures site { IsSite self.now.number }
    {
        self.number
    }

    /// What the site has and holds.
    pub fn replica(&self) -> &Replica
        ensures { result.now ≡ replica_of self.now }
    {
        &self.replica
    }

    /// Gives the history of the site to a replica, which goes on holding what it held. Answers a
    /// replica with the history that this had.
    pub fn give_history(self, replica: &mut Replica) -> Replica
        ensures new { replica.new ≡ record replica.old { ops = self.ops } }
        ensures old { result.ops ≡ replica.old.ops }
    {
        replica.take_history(self.replica)
    }

    /// The history of the site.
    pub fn history(&self) -> &History
        ensures ops { result.now.ops ≡ self.now.ops }
        ensures accepted { AreAccepted self.now.ops }
        ensures valid { IsValid self.now.ops }
    {
        self.replica.history()
    }

    /// Recalls what every site keeps, as [`Replica::recall_state`] does.
    pub fn recall_state(&self)
        ensures number { IsSite self.now.number }
        ensures accepted { AreAccepted self.now.ops }
        ensures valid { IsValid self.now.ops }
        ensures held { AreHeld self.now.held }
    {
        self.replica.recall_state();
    }

    /// How many operations the site holds.
    pub fn held(&self) -> usize
        ensures held { result ≡ length self.now.held }
        ensures valid { AreHeld self.now.held }
    {
        self.replica.held()
    }

    /// The operations that the site holds, rising by id.
    pub fn held_ops(&self, alloc: Global) -> Result<Vec<&Op>, OutOfMemory>
        ensures ops { IfOk result (λ ops. map (λ a. a.now) ops.items ≡ self.now.held) }
        ensures valid { AreHeld self.now.held }
    {
        self.replica.held_ops(alloc)
    }

    /// Makes an operation of the change, adds it to the history, and answers a copy. All memory is
    /// there before anything changes.
    pub fn author(&mut self, change: Change) -> Result<Op, AuthorFault>
        ensures ok { IfOk result (λ op. Authors self.old change op self.new) }
        ensures err { IfErr result (Refuses self.old.number self.old.ops change) }
        ensures same { OnErr result (self.new ≡ self.old) }
    {
        let op = match made_op(self.replica.history(), self.number, change) {
            Ok(op) => op,
            Err(fault) => return Err(fault),
        };
        let Ok(copy) = op.copy(self.alloc) else {
            return Err(AuthorFault::OutOfMemory);
        };
        let Ok(()) = self.replica.add(op) else {
            return Err(AuthorFault::OutOfMemory);
        };
        Ok(copy)
    }

    /// Adds an operation that the history accepts. All memory is there before anything changes.
    pub fn add(&mut self, op: Op) -> Result<(), OutOfMemory>
        requires in_range { IsInRange op }
        requires accepted { IsAccepted self.old.ops op }
        ensures ok { OnOk result (self.new ≡ record self.old { ops = self.old.ops ++ op ∷ [] }) }
        ensures err { OnErr result (self.new ≡ self.old) }
    {
        self.replica.add(op)
    }

    /// Adds operations that the history accepts, each behind those before it.
    pub fn add_all(&mut self, ops: &[Op]) -> Result<(), OutOfMemory>
        requires in_range { (a : Op) → Contains ops.now a → IsInRange a }
        requires accepted { AreAccepted (self.old.ops ++ ops.now) }
        ensures { OnOk result (self.new ≡ record self.old { ops = self.old.ops ++ ops.now }) }
    {
        self.replica.add_all(ops)
    }

    /// Holds an operation that is neither held nor in the history.
    pub fn receive(&mut self, op: Op) -> Result<Offered, OfferFault>
        ensures range { result ≡ Err OfferFault.Range ↔ (¬ (IsInRange op)) }
        ensures clash { result ≡ Err OfferFault.Clash ↔ HasOtherThan (replica_of self.old) op }
        ensures already { result ≡ Ok Offered.Already ↔ HasAlready (replica_of self.old) op }
        ensures held { result ≡ Ok Offered.Held →
            ComesToHold (replica_of self.old) op (replica_of self.new) }
        ensures out_of_memory { result ≡ Err OfferFault.OutOfMemory →
            IsNewTo (replica_of self.old) op }
        ensures same { result ≢ Ok Offered.Held → self.new ≡ self.old }
        ensures kept { self.new ≡ record self.old { held = self.new.held } }
    {
        self.replica.receive(op)
    }

    /// Moves the ready held operation with the least id to the history, or forgets it where it
    /// doesn't fit. All memory is there before anything changes.
    pub fn step(&mut self) -> Result<Step, OutOfMemory>
        ensures ok { IfOk result (λ step. Steps self.old step self.new) }
        ensures out_of_memory { OnErr result (HasNext (replica_of self.old)) }
        ensures same { OnErr result (self.new ≡ self.old) }
    {
        self.replica.step()
    }
}

/// The operation that the site of this number makes of the change behind a history, which accepts
/// it. It may still be refused for want of memory.
fn made_op(history: &History, site: u8, change: Change) -> Result<Op, AuthorFault>
    requires site { IsSite site }
    ensures is { IfOk result (λ op. op ≡ authored site history.now.ops change) }
    ensures in_range { IfOk result IsInRange }
    ensures accepted { IfOk result (IsAccepted history.now.ops) }
    ensures memory { IfOk result (λ op. Refuses site history.now.ops change fault.OutOfMemory) }
    ensures err { IfErr result (Refuses site history.now.ops change) }
{
    if 10_000 <= history.count(site) {
        return Err(AuthorFault::Exhausted);
    }
    if !change.in_range() {
        return Err(AuthorFault::Range);
    }
    let op = next_op(history, site, change);
    match history.check(&op) {
        Ok(()) => Ok(op),
        Err(OpFault::BadClock) => unreachable!(),
        Err(OpFault::NoObject) => Err(AuthorFault::NoObject),
        Err(OpFault::WrongKind) => Err(AuthorFault::WrongKind),
        Err(OpFault::BadAim) => Err(AuthorFault::BadAim),
    }
}

/// The operation that the site of this number would make of the change behind a history. The
/// history accepts it, where the object is known and suits the value, and the aim has no fault.
fn next_op(history: &History, site: u8, change: Change) -> Op
    requires site { IsSite site }
    requires room { count_of history.now.ops site < 10000 }
    requires in_range { IsTrue (is_change change) }
    ensures is { result ≡ authored site history.now.ops change }
    ensures in_range { IsInRange result }
    ensures next { IsNext history.now.ops result }
{
    let _ = history.ops();
    Op {
        id: OpId {
            site,
            seq: history.count(site) + 1,
        },
        past: history.clock(),
        change,
    }
}
