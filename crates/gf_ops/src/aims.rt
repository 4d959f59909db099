//! What an operation aims at.

ghost use Rattle.std.specs.Prelude.{◌≡◌, ◌↔◌, IsTrue};
ghost use Rattle.std.specs.List.{fold};
ghost use Rattle.gf_ops.specs.Aims.{IsAimed, MayAimAt};
ghost use Rattle.gf_ops.specs.AimTests.{after_id, IsWithinAim, FitsAim, MayAim, ConflictsAt};
ghost use Rattle.gf_ops.specs.AimTests.{ConflictsWithSome};
ghost use Rattle.gf_ops.specs.Attribute.{aim_of, object_of};
ghost use Rattle.gf_ops.specs.Limits.{IsInRange};
ghost use Rattle.gf_ops.specs.OperationOrder.{id_cmp, rises};

use crate::{Change, History, Op, OpId, before, direct_conflict};

impl Op {
    /// The ids that the operation aims at, rising: a creation aims at none.
    pub fn aim(&self) -> &[OpId]
        ensures { result.now ≡ aim_of self.now }
    {
        match &self.change {
            Change::Create(_) => &[],
            Change::Set { aim, .. } => aim.as_slice(),
        }
    }
}

/// The ids left after one was met: those behind the first, where the first is that one.
fn after_id<'a>(ids: &'a [OpId], id: OpId) -> &'a [OpId]
    ensures { result.now ≡ after_id ids.now id }
{
    match ids.split_first() {
        Some((first, rest)) => {
            if first.site == id.site && first.seq == id.seq {
                rest
            } else {
                ids
            }
        }
        None => ids,
    }
}

/// The ids left where they are met in the order of others.
fn left_of<'a>(ids: &'a [OpId], others: &[OpId]) -> &'a [OpId]
    ensures { result.now ≡ fold after_id ids.now others.now }
{
    let mut left = ids;
    for other in others {
        left = after_id(left, *other);
    }
    left
}

/// Whether the aim has each of these ids. Both lists rise, so one walk over the aim is enough.
fn is_within_aim(ids: &[OpId], aim: &[OpId]) -> bool
    requires ids { IsTrue (rises id_cmp ids.now) }
    requires aim { IsTrue (rises id_cmp aim.now) }
    ensures { IsTrue result ↔ IsWithinAim ids.now aim.now }
{
    left_of(ids, aim).is_empty()
}

/// Whether the aim of an operation in range has all that another one aims at.
fn aims_within(member: &Op, op: &Op) -> bool
    requires member { IsInRange member.now }
    requires op { IsInRange op.now }
    ensures { IsTrue result ↔ IsWithinAim (aim_of member.now) (aim_of op.now) }
{
    let ids = member.aim();
    ids.is_empty() || is_within_aim(ids, op.aim())
}

/// Whether two operations concern one object.
fn on_one_object(op: &Op, other: &Op) -> bool
    ensures { IsTrue result ↔ (object_of op.now ≡ object_of other.now) }
{
    op.object() == other.object()
}

/// Whether `member` is on the object of `op` and before it, and `op` aims at all that `member` aims
/// at.
fn fits(member: &Op, op: &Op) -> bool
    requires member { IsInRange member.now }
    requires op { IsInRange op.now }
    ensures { IsTrue result ↔ FitsAim op.now member.now }
{
    on_one_object(member, op) && before(member, op) && aims_within(member, op)
}

impl History {
    /// Whether the aim is valid: earlier operations of its object, closed under aims, of which no
    /// two conflict directly.
    pub(crate) fn is_aimed(&self, op: &Op) -> bool
        requires { IsInRange op.now }
        ensures { IsTrue result ↔ IsAimed self.now.ops op.now }
    {
        self.recall_valid();
        self.may_aim(op) && self.are_directly_compatible(op.aim())
    }

    /// Whether an operation may aim at each operation of its aim.
    fn may_aim(&self, op: &Op) -> bool
        requires { IsInRange op.now }
        ensures { IsTrue result ↔ MayAim self.now.ops op.now (aim_of op.now) }
    {
        for id in op.aim() {
            if !self.may_aim_at(op, *id) {
                return false;
            }
        }
        true
    }

    /// Whether the operation under this id exists, is earlier on the same object, and aims within
    /// the aim of `op`.
    fn may_aim_at(&self, op: &Op, id: OpId) -> bool
        requires { IsInRange op.now }
        ensures { IsTrue result ↔ MayAimAt self.now.ops op.now id }
    {
        self.recall_valid();
        match self.get(id) {
            Some(member) => fits(member, op),
            None => false,
        }
    }

    /// Whether an operation conflicts directly with one under these ids.
    pub(crate) fn conflicts_with(&self, op: &Op, ids: &[OpId]) -> bool
        requires { IsInRange op.now }
        ensures { IsTrue result ↔ ConflictsWithSome self.now.ops op.now ids.now }
    {
        for id in ids {
            if self.conflicts_with_one(op, *id) {
                return true;
            }
        }
        false
    }

    /// Whether an operation conflicts directly with the one under this id.
    pub(crate) fn conflicts_with_one(&self, op: &Op, id: OpId) -> bool
        requires { IsInRange op.now }
        ensures { IsTrue result ↔ ConflictsAt self.now.ops op.now id }
    {
        self.recall_valid();
        match self.get(id) {
            Some(member) => direct_conflict(op, member),
            None => false,
        }
    }
}
