//! The operations that changed what is not shown, and knew nothing of what hides it.

ghost use Rattle.std.specs.Prelude.{◌≡◌, ◌↔◌, ◌&&◌, All, Contains, IfOk, IsTrue, filter, map, not};
ghost use Rattle.std.specs.BTreeSet.{contains};
ghost use Rattle.std.specs.List.{list_all, list_any};
ghost use Rattle.gf_ops.specs.declared.op.Op.{Op};
ghost use Rattle.gf_ops.specs.declared.op.ObjectId.{ObjectId};
ghost use Rattle.gf_ops.specs.declared.change.Attr.TheVariants as attr;
ghost use Rattle.gf_ops.specs.Limits.{IsInRange};
ghost use Rattle.gf_ops.specs.OperationOrder.{id_cmp};
ghost use Rattle.gf_groups.specs.VersionList.{are_unordered, in_conflict, is_before};
ghost use Rattle.gf_status.specs.Setters.{AreLastOf, AreOf, AreSettersOn, AreThose, IsUnknowing};
ghost use Rattle.gf_status.specs.Setters.{hides, is_left_out, sets};
ghost use Rattle.gf_status.specs.UnseenChanges.{HidesBeside};

use crate::setters::{is_before, lasts};
use gf_base::OutOfMemory;
use gf_ops::{Attr, Change, History, Op, OpId, Value, conflicts};
use gf_versions::sets;
use std::alloc::Global;
use std::collections::BTreeSet;

/// Whether the change hides its object.
fn hides(change: &Change) -> bool
    ensures { result ≡ hides change.now }
{
    match change {
        Change::Create(start) => !start.shown,
        Change::Set {
            value: Value::Shown(shown),
            ..
        } => !*shown,
        Change::Set { .. } => false,
    }
}

/// The operations that hide, in their order.
pub(crate) fn hidings<'h>(alloc: Global, ops: &[&'h Op]) -> Result<Vec<&'h Op>, OutOfMemory>
    ensures { IfOk result (λ found. found.items ≡ filter (λ a. hides a.now.change) ops.now) }
{
    Ok(
        ops.iter()
            .copied()
            .filter(|op| hides(&op.change))
            .collect(alloc)?,
    )
}

fn in_conflict(history: &History, a: &Op, b: &Op) -> bool
    requires a { IsInRange a.now }
    requires b { IsInRange b.now }
    ensures { result ≡ in_conflict history.now.ops a.now b.now }
{
    conflicts(history, a, b)
}

/// Whether the operation conflicts with none of the others.
fn are_beside(history: &History, others: &[&Op], op: &Op) -> bool
    requires op { IsInRange op.now }
    requires others { All (λ a. IsInRange a.now) others.now }
    ensures { result ≡ list_all (λ a. not (in_conflict history.now.ops op.now a.now)) others.now }
{
    others.iter().all(|other| !in_conflict(history, op, other))
}

/// The others with which the operation does not conflict, in their order.
fn beside<'h>(
    alloc: Global,
    history: &History,
    others: &[&'h Op],
    op: &Op,
) -> Result<Vec<&'h Op>, OutOfMemory>
    requires op { IsInRange op.now }
    requires others { All (λ a. IsInRange a.now) others.now }
    ensures { IfOk result (λ found. found.items
        ≡ filter (λ a. not (in_conflict history.now.ops op.now a.now)) others.now) }
{
    Ok(
        others
            .iter()
            .copied()
            .filter(|other| !in_conflict(history, op, other))
            .collect(alloc)?,
    )
}

fn are_unordered(a: &Op, b: &Op) -> bool
    requires a { IsInRange a.now }
    requires b { IsInRange b.now }
    ensures { result ≡ are_unordered a.now b.now }
{
    !is_before(a, b) && !is_before(b, a)
}

/// Whether the operation and one of the others know nothing of each other.
fn some_unordered(op: &Op, others: &[&Op]) -> bool
    requires op { IsInRange op.now }
    requires others { All (λ a. IsInRange a.now) others.now }
    ensures { result ≡ list_any (λ a. are_unordered op.now a.now) others.now }
{
    others.iter().any(|other| are_unordered(op, other))
}

/// The last hidings among these setters of `Shown` with which the operation does not conflict. The
/// setters in `last` come before none of the others: where the operation conflicts with none of
/// these last setters, no other setter is asked.
fn hidings_beside<'h>(
    alloc: Global,
    history: &History,
    setters: &[&'h Op],
    last: &[&'h Op],
    op: &Op,
) -> Result<Vec<&'h Op>, OutOfMemory>
    requires setters { AreOf history.now.ops (map (λ a. a.now) setters.now) }
    requires last { AreLastOf (map (λ a. a.now) setters.now) (map (λ a. a.now) last.now) }
    requires op { Contains history.now.ops op.now }
    ensures within { IfOk result (λ found. AreOf history.now.ops (map (λ a. a.now) found.items)) }
    ensures exactly { IfOk result (λ found. (o : ObjectId)
        → AreSettersOn history.now.ops o (map (λ a. a.now) setters.now) → (b : Op)
        → Contains (map (λ a. a.now) found.items) b ↔ HidesBeside history.now.ops o op.now b) }
{
    history.recall_valid();
    if are_beside(history, last, op) {
        return hidings(alloc, last);
    }
    let found = beside(alloc, history, setters, op)?;
    let found = lasts(alloc, history, &found)?;
    hidings(alloc, &found)
}

/// Whether the operation neither shows nor hides, and no visible version has it.
fn is_left_out(seen: &BTreeSet<OpId>, op: &Op) -> bool
    ensures { result ≡ is_left_out seen.now op.now }
{
    !sets(op, Attr::Shown) && !seen.contains(&op.id)
}

/// Whether the operation is left out, and unordered with a last hiding beside it.
fn is_unknowing(
    alloc: Global,
    history: &History,
    seen: &BTreeSet<OpId>,
    setters: &[&Op],
    last: &[&Op],
    op: &Op,
) -> Result<bool, OutOfMemory>
    requires setters { AreOf history.now.ops (map (λ a. a.now) setters.now) }
    requires last { AreLastOf (map (λ a. a.now) setters.now) (map (λ a. a.now) last.now) }
    requires op { Contains history.now.ops op.now }
    ensures { IfOk result (λ answer. (o : ObjectId)
        → AreSettersOn history.now.ops o (map (λ a. a.now) setters.now)
        → IsTrue answer ↔ IsUnknowing history.now.ops o seen.now op.now) }
{
    history.recall_valid();
    if !is_left_out(seen, op) {
        return Ok(false);
    }
    let hidings = hidings_beside(alloc, history, setters, last, op)?;
    Ok(some_unordered(op, &hidings))
}

/// The operations that are left out, and unordered with a last hiding beside them.
pub(crate) fn unknowing<'h>(
    alloc: Global,
    history: &History,
    seen: &BTreeSet<OpId>,
    setters: &[&'h Op],
    last: &[&'h Op],
    all: &[&'h Op],
) -> Result<Vec<&'h Op>, OutOfMemory>
    requires all { AreOf history.now.ops (map (λ a. a.now) all.now) }
    requires setters { AreOf history.now.ops (map (λ a. a.now) setters.now) }
    requires last { AreLastOf (map (λ a. a.now) setters.now) (map (λ a. a.now) last.now) }
    ensures { IfOk result (λ found. (o : ObjectId)
        → AreSettersOn history.now.ops o (map (λ a. a.now) setters.now)
        → AreThose (IsUnknowing history.now.ops o seen.now) (map (λ a. a.now) all.now)
        (map (λ a. a.now) found.items)) }
{
    let mut found = Vec::new(alloc);
    for op in all {
        if is_unknowing(alloc, history, seen, setters, last, op)? {
            found.push(*op)?;
        }
    }
    Ok(found)
}
