//! The aim at some operations.

ghost use Rattle.std.specs.Prelude.{◌↔◌, ◌⊎◌, Contains, IfOk, OnOk};
ghost use Rattle.gf_ops.specs.declared.op.OpId.{OpId};
ghost use Rattle.gf_names.specs.Aiming.{AreBroughtFrom, IsBrought, IsBroughtFrom};

use crate::rising;
use gf_base::OutOfMemory;
use gf_ops::{History, Ids, OpId};
use std::alloc::Global;

/// The ids with what their operations aim at, by site and then by number, each once. An id that the
/// history lacks brings nothing else.
pub fn aim_at(alloc: Global, history: &History, ids: &[OpId]) -> Result<Ids, OutOfMemory>
    ensures { IfOk result (AreBroughtFrom history.now.ops ids.now) }
{
    let mut found = Vec::new(alloc);
    add_all(history, ids, &mut found)?;
    rising(alloc, &found)
}

/// Adds ids with what their operations aim at.
fn add_all(history: &History, ids: &[OpId], found: &mut Vec<OpId>) -> Result<(), OutOfMemory>
    ensures { OnOk result ((i : OpId) → Contains found.new.items i ↔ (Contains found.old.items i
        ⊎ IsBroughtFrom history.now.ops ids.now i)) }
{
    for id in ids {
        add_one(history, *id, found)?;
    }
    Ok(())
}

/// Adds an id with what its operation aims at.
fn add_one(history: &History, id: OpId, found: &mut Vec<OpId>) -> Result<(), OutOfMemory>
    ensures { OnOk result ((i : OpId) → Contains found.new.items i ↔ (Contains found.old.items i
        ⊎ IsBrought history.now.ops id i)) }
{
    history.recall_valid();
    found.push(id)?;
    if let Some(op) = history.get(id) {
        found.extend_from_slice(op.aim())?;
    }
    Ok(())
}
