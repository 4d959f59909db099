//! The history of a site.

ghost use Rattle.std.specs.Prelude.{◌≡◌, ◌≢◌, ◌<◌, ◌↔◌, ◌++◌, ◌∷◌, [], Contains, IsTrue, Ok, Err};
ghost use Rattle.std.specs.Prelude.{IsOk, IfOk, IfSome, IfNone, OnOk, OnErr};
ghost use Rattle.gf_ops.specs.declared.op.Op.{Op};
ghost use Rattle.gf_ops.specs.declared.history.History.{History};
ghost use Rattle.gf_ops.specs.Accepted.{CountsAtMost, IsNumbered, IsCausallyClosed, IsNext};
ghost use Rattle.gf_ops.specs.Accepted.{AreAccepted, IsAccepted, IsRefused};
ghost use Rattle.gf_ops.specs.Attribute.{kind_of, suits};
ghost use Rattle.gf_ops.specs.KnownObject.{Knows, KnowsSome, IsFounded, IsSuited};
ghost use Rattle.gf_ops.specs.Limits.{IsInRange};
ghost use Rattle.gf_ops.specs.OperationOrder.{clock_of, count_of};
ghost use Rattle.gf_ops.specs.Standing.{StandsAt};
ghost use Rattle.gf_ops.specs.ValidHistory.{IsWithin, IsValid};

use crate::copying::copy_ops;
use crate::{AddFault, Change, Clock, Form, ObjectId, Op, OpFault, OpId, Value, before};
use gf_base::OutOfMemory;
use std::alloc::Global;
use std::marker::Model;

/// A valid history: operations in the order in which they were added.
#[derive(Drop)]
pub struct History {
    ops: Vec<Op>,
    // Where each operation stands in `ops`: that of s.n in row n - 1, at s - 1.
    positions: Vec<[usize; 8]>,
    // How many operations of each site there are.
    counts: Clock,
}

impl Model for History {
    ghost use Rattle.std.specs.Prelude.{◌-◌, min, vec_len, vec_capacity};
    ghost use Rattle.gf_ops.specs.HistoryIndex.{IsHistory};
    ghost use Rattle.gf_ops.specs.HistoryState.{HistoryState};

    ghost Value = { HistoryState };

    ghost view = { λ h. record {
      ops = h.ops.items;
      room = min (vec_capacity h.ops - vec_len h.ops)
          (vec_capacity h.positions - vec_len h.positions);
    } };

    ghost invariant = { λ h. IsHistory h.ops.items h.positions.items h.counts };
}

impl History {
    /// The empty history.
    pub fn new(alloc: Global) -> History
        ensures { result.ops ≡ [] }
    {
        History {
            ops: Vec::new(alloc),
            positions: Vec::new(alloc),
            counts: Clock([0; 8]),
        }
    }

    /// A copy of the history. The copy may have room for fewer operations.
    pub fn copy(&self, alloc: Global) -> Result<History, OutOfMemory>
        ensures { IfOk result (λ copy. copy.ops ≡ self.now.ops) }
    {
        let ops = copy_ops(&self.ops, alloc)?;
        let mut positions = Vec::new(alloc);
        positions.extend_from_slice(&self.positions)?;
        Ok(History {
            ops,
            positions,
            counts: self.counts,
        })
    }

    /// How many operations of this site the history has.
    pub fn count(&self, site: u8) -> u32
        ensures { result ≡ count_of self.now.ops site }
    {
        if 1 <= site && site <= 8 {
            self.counts.0[usize::from(site) - 1]
        } else {
            0
        }
    }

    /// The clock that counts the history.
    pub fn clock(&self) -> Clock
        ensures { result ≡ clock_of self.now.ops }
    {
        Clock([
            self.count(1),
            self.count(2),
            self.count(3),
            self.count(4),
            self.count(5),
            self.count(6),
            self.count(7),
            self.count(8),
        ])
    }

    /// The operation under this id. The call takes constant time.
    pub fn get(&self, id: OpId) -> Option<&Op>
        ensures found { IfSome result (λ op. Contains self.now.ops op.now × (op.now.id ≡ id)) }
        ensures none { IfNone result ((op : Op) → Contains self.now.ops op → op.id ≢ id) }
    {
        match self.position(id) {
            Some(position) => self.ops.get(position),
            None => None,
        }
    }

    /// Where the operation under this id stands in the order of adding. The call takes constant
    /// time.
    pub fn position(&self, id: OpId) -> Option<usize>
        ensures found { IfSome result (λ k. StandsAt self.now.ops id k) }
        ensures none { IfNone result ((op : Op) → Contains self.now.ops op → op.id ≢ id) }
    {
        let _ = &self.ops;
        if 1 <= id.seq && id.seq <= self.count(id.site) {
            let row = &self.positions[id.seq as usize - 1];
            Some(row[usize::from(id.site) - 1])
        } else {
            None
        }
    }

    /// The operations in the order of adding.
    pub fn ops(&self) -> &[Op]
        ensures ops { result.now ≡ self.now.ops }
        ensures accepted { AreAccepted self.now.ops }
        ensures valid { IsValid self.now.ops }
    {
        &self.ops
    }

    /// Recalls that the history is valid. A caller takes no more of the call than its clause.
    pub fn recall_valid(&self)
        ensures { IsValid self.now.ops }
    {
        let _ = self.ops();
    }

    /// Recalls that each operation was accepted behind those before it, as
    /// [`History::recall_valid`] does.
    pub fn recall_accepted(&self)
        ensures { AreAccepted self.now.ops }
    {
        let _ = self.ops();
    }

    /// Whether the operation may be added now, with the first of its faults. The check looks up the
    /// last known operation of each site, and the creation of the changed object. Each id of the
    /// aim costs fewer than thirty look-ups. An id whose operation has an aim of its own costs a
    /// walk over both aims.
    pub fn check(&self, op: &Op) -> Result<(), OpFault>
        requires { IsInRange op.now }
        ensures ok { IsOk result ↔ IsAccepted self.now.ops op.now }
        ensures bad_clock { result ≡ Err OpFault.BadClock
            ↔ IsRefused self.now.ops op.now OpFault.BadClock }
        ensures no_object { result ≡ Err OpFault.NoObject
            ↔ IsRefused self.now.ops op.now OpFault.NoObject }
        ensures wrong_kind { result ≡ Err OpFault.WrongKind
            ↔ IsRefused self.now.ops op.now OpFault.WrongKind }
        ensures bad_aim { result ≡ Err OpFault.BadAim
            ↔ IsRefused self.now.ops op.now OpFault.BadAim }
    {
        if !self.is_next(op) {
            return Err(OpFault::BadClock);
        }
        self.check_change(op)?;
        if self.is_aimed(op) {
            Ok(())
        } else {
            Err(OpFault::BadAim)
        }
    }

    /// Whether the operation is the next one of its site.
    fn is_next(&self, op: &Op) -> bool
        requires { IsInRange op.now }
        ensures { IsTrue result ↔ IsNext self.now.ops op.now }
    {
        self.is_numbered(op) && self.has_known(&op.past) && self.is_closed(op)
    }

    /// Whether the operation has the next number of its site, and knows all of its site before it.
    fn is_numbered(&self, op: &Op) -> bool
        requires { IsInRange op.now }
        ensures { IsTrue result ↔ IsNumbered self.now.ops op.now }
    {
        let before = op.id.seq - 1;
        before == self.count(op.id.site) && before == op.past.0[usize::from(op.id.site) - 1]
    }

    /// Whether the history has all that the clock counts.
    fn has_known(&self, clock: &Clock) -> bool
        ensures { IsTrue result ↔ CountsAtMost clock.now self.now.ops }
    {
        clock.is_within(&self.counts)
    }

    /// Whether the operation's past has all that each operation in this past knew. The pasts of a
    /// site only grow, so the last operation of each site decides.
    fn is_closed(&self, op: &Op) -> bool
        requires within { CountsAtMost op.now.past self.now.ops }
        ensures { IsTrue result ↔ IsCausallyClosed self.now.ops op.now }
    {
        let _ = &self.ops;
        for site in 1..9 {
            let seq = op.past.0[usize::from(site) - 1];
            if let Some(last) = self.get(OpId { site, seq }) {
                if !last.past.is_within(&op.past) {
                    return false;
                }
            }
        }
        true
    }

    /// Whether the operation makes an object, or knows the one that it changes, and its value
    /// suits.
    fn check_change(&self, op: &Op) -> Result<(), OpFault>
        requires { IsInRange op.now }
        ensures ok { IsOk result ↔ IsSuited self.now.ops op.now op.now.change }
        ensures no_object { result ≡ Err OpFault.NoObject
            ↔ (¬ IsFounded self.now.ops op.now op.now.change) }
        ensures wrong_kind { result ≡ Err OpFault.WrongKind
            ↔ (IsFounded self.now.ops op.now op.now.change
            × (¬ IsSuited self.now.ops op.now op.now.change)) }
        ensures clock { result ≢ Err OpFault.BadClock }
        ensures aim { result ≢ Err OpFault.BadAim }
    {
        let _ = &self.ops;
        let Change::Set { object, value, .. } = &op.change else {
            return Ok(());
        };
        match self.known_form(op, *object) {
            Some(form) if suits(form, value) => Ok(()),
            Some(_) => Err(OpFault::WrongKind),
            None => Err(OpFault::NoObject),
        }
    }

    /// The form that the object was made with, if the operation knows that.
    fn known_form(&self, op: &Op, object: ObjectId) -> Option<&Form>
        requires { IsInRange op.now }
        ensures found { IfSome result (λ form.
            Knows self.now.ops op.now object (kind_of form.now)) }
        ensures none { IfNone result (¬ KnowsSome self.now.ops op.now object) }
    {
        let _ = &self.ops;
        let maker = self.get(object.0)?;
        if !before(maker, op) {
            return None;
        }
        match &maker.change {
            Change::Create(start) => Some(&start.form),
            Change::Set { .. } => None,
        }
    }

    /// Makes room, so that the next `add` is not refused for memory.
    pub fn room(&mut self) -> Result<(), OutOfMemory>
        ensures ok { OnOk result (0 < self.new.room) }
        ensures ops { self.new.ops ≡ self.old.ops }
        ensures full { OnErr result (self.old.room ≡ 0) }
        ensures err { OnErr result (self.new ≡ self.old) }
    {
        self.ops.reserve(1)?;
        self.positions.reserve(1)?;
        Ok(())
    }

    /// Adds the operation where `check` accepts it.
    pub fn add(&mut self, op: Op) -> Result<(), AddFault>
        requires { IsInRange op }
        ensures ok { OnOk result (IsAccepted self.old.ops op
            × (self.new.ops ≡ self.old.ops ++ op ∷ [])) }
        ensures bad_clock { result ≡ Err (AddFault.Op OpFault.BadClock)
            ↔ IsRefused self.old.ops op OpFault.BadClock }
        ensures no_object { result ≡ Err (AddFault.Op OpFault.NoObject)
            ↔ IsRefused self.old.ops op OpFault.NoObject }
        ensures wrong_kind { result ≡ Err (AddFault.Op OpFault.WrongKind)
            ↔ IsRefused self.old.ops op OpFault.WrongKind }
        ensures bad_aim { result ≡ Err (AddFault.Op OpFault.BadAim)
            ↔ IsRefused self.old.ops op OpFault.BadAim }
        ensures out_of_memory { result ≡ Err AddFault.OutOfMemory
            → IsAccepted self.old.ops op × (self.old.room ≡ 0) }
        ensures err { OnErr result (self.new ≡ self.old) }
        ensures valid { IsValid self.new.ops }
    {
        let _ = &self.ops;
        if let Err(fault) = self.check(&op) {
            return Err(AddFault::Op(fault));
        }
        if self.room().is_err() {
            return Err(AddFault::OutOfMemory);
        }
        self.push(op);
        Ok(())
    }

    /// Appends an operation that `check` accepts, where `room` made room for it.
    pub fn push(&mut self, op: Op)
        requires in_range { IsInRange op }
        requires accepted { IsAccepted self.old.ops op }
        requires room { 0 < self.old.room }
        ensures ops { self.new.ops ≡ self.old.ops ++ op ∷ [] }
        ensures valid { IsValid self.new.ops }
    {
        let row = op.id.seq as usize - 1;
        if row == self.positions.len() {
            self.positions.push_reserved([0; 8]);
        }
        let site = usize::from(op.id.site) - 1;
        self.positions[row][site] = self.ops.len();
        self.counts.0[site] = op.id.seq;
        self.ops.push_reserved(op);
    }
}

/// Whether objects of this form have such a value.
fn suits(form: &Form, value: &Value) -> bool
    ensures { result ≡ suits (kind_of form.now) value.now }
{
    match value {
        Value::Place(_) | Value::Colour(_) | Value::Layer(_) | Value::Shown(_) => true,
        Value::Points(_) => match form {
            Form::Polygon(_) => true,
            Form::Rect(_, _) | Form::Circle(_) | Form::Ellipse(_, _) => false,
        },
        Value::Size(width, height) => match form {
            Form::Rect(_, _) | Form::Ellipse(_, _) => true,
            Form::Circle(_) => width == height,
            Form::Polygon(_) => false,
        },
    }
}
