//! What tells a group of operations from others.

ghost use Rattle.std.specs.Prelude.{◌≡◌, ◌↔◌, ◌⊎◌, ◌==◌, Contains, filter};
ghost use Rattle.std.specs.Prelude.{IfOk, OnOk, IsTrue};
ghost use Rattle.gf_ops.specs.AimTests.{ConflictsAt};
ghost use Rattle.gf_ops.specs.Limits.{IsInRange};
ghost use Rattle.gf_ops.specs.Version.{IsMember};
ghost use Rattle.gf_ops.specs.declared.op.OpId.{OpId};
ghost use Rattle.gf_names.specs.Telling.{AreTelling};
ghost use Rattle.gf_names.specs.LastConflict.{AreOfOneSite, IsAbove};
ghost use Rattle.gf_names.specs.LastConflict.{TellsLast, TellsFrom, TellsAt};

use crate::rising;
use gf_base::OutOfMemory;
use gf_ops::{History, Ids, Op, OpId, direct_conflict};
use std::alloc::Global;

/// What tells the members of a group from others. Against each of these it is the last member of
/// each site that conflicts directly with it. An id that the history lacks counts for nothing.
///
/// Each member is compared with each of the others. Where there are none, nothing is read.
pub fn telling(
    alloc: Global,
    history: &History,
    members: &[OpId],
    others: &[OpId],
) -> Result<Ids, OutOfMemory>
    ensures { IfOk result (λ ids. AreTelling history.now.ops members.now
        (IsMember history.now.ops others.now) ids) }
{
    history.recall_valid();
    if others.is_empty() {
        return rising(alloc, others);
    }
    let mut found = Vec::new(alloc);
    for site in 1..9 {
        let own = of_site(alloc, members, site)?;
        add_lasts(history, &own, others, &mut found)?;
    }
    rising(alloc, &found)
}

/// The ids of one site among others.
fn of_site(alloc: Global, ids: &[OpId], site: u8) -> Result<Vec<OpId>, OutOfMemory>
    ensures { IfOk result (λ own. own.items ≡ filter (λ i. i.site == site) ids.now) }
{
    Ok(
        ids.iter()
            .copied()
            .filter(|id| id.site == site)
            .collect(alloc)?,
    )
}

/// Adds the last of the ids that conflicts with each of the others.
fn add_lasts(
    history: &History,
    ids: &[OpId],
    others: &[OpId],
    found: &mut Vec<OpId>,
) -> Result<(), OutOfMemory>
    requires { AreOfOneSite ids.now }
    ensures { OnOk result ((i : OpId) → Contains found.new.items i ↔ (Contains found.old.items i
        ⊎ TellsFrom history.now.ops ids.now others.now i)) }
{
    for other in others {
        add_last(history, ids, *other, found)?;
    }
    Ok(())
}

/// Adds the last of the ids that conflicts with the operation under another one, if there is one.
fn add_last(
    history: &History,
    ids: &[OpId],
    other: OpId,
    found: &mut Vec<OpId>,
) -> Result<(), OutOfMemory>
    requires { AreOfOneSite ids.now }
    ensures { OnOk result ((i : OpId) → Contains found.new.items i ↔ (Contains found.old.items i
        ⊎ TellsAt history.now.ops ids.now other i)) }
{
    history.recall_valid();
    let Some(other) = history.get(other) else {
        return Ok(());
    };
    let Some(last) = last_conflict(history, ids, other) else {
        return Ok(());
    };
    found.push(last)?;
    Ok(())
}

/// Of the ids of one site, the last whose operation conflicts directly with another one.
fn last_conflict(history: &History, ids: &[OpId], other: &Op) -> Option<OpId>
    requires { IsInRange other.now }
    ensures { TellsLast history.now.ops ids.now other.now result }
{
    let mut last = None;
    for id in ids {
        if is_later(history, *id, last, other) {
            last = Some(*id);
        }
    }
    last
}

/// Whether an operation conflicts directly with the one under an id that has a higher number than
/// the one before, if there is one.
fn is_later(history: &History, id: OpId, last: Option<OpId>, other: &Op) -> bool
    requires { IsInRange other.now }
    ensures { IsTrue result ↔ (IsAbove id last × ConflictsAt history.now.ops other.now id) }
{
    is_above(id, last) && conflicts_at(history, other, id)
}

/// Whether an id has a higher number than the one before, if there is one.
fn is_above(id: OpId, last: Option<OpId>) -> bool
    ensures { IsTrue result ↔ IsAbove id last }
{
    match last {
        Some(last) => last.seq < id.seq,
        None => true,
    }
}

/// Whether an operation conflicts directly with the one under this id.
fn conflicts_at(history: &History, op: &Op, id: OpId) -> bool
    requires { IsInRange op.now }
    ensures { IsTrue result ↔ ConflictsAt history.now.ops op.now id }
{
    history.recall_valid();
    match history.get(id) {
        Some(member) => direct_conflict(op, member),
        None => false,
    }
}
