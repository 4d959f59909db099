//! The ids of operations.

ghost use Rattle.std.specs.Prelude.{◌≡◌, IfOk, map};
ghost use Rattle.gf_names.specs.RisingIds.{IsRisingOf};

use gf_base::OutOfMemory;
use gf_names::rising;
use gf_ops::{Ids, Op, OpId};
use std::alloc::Global;

/// The ids of the operations, rising, each once.
pub(crate) fn ids_of(alloc: Global, ops: &[&Op]) -> Result<Ids, OutOfMemory>
    ensures { IfOk result (IsRisingOf (map (λ a. a.now.id) ops.now)) }
{
    let ids = listed(alloc, ops)?;
    rising(alloc, &ids)
}

fn listed(alloc: Global, ops: &[&Op]) -> Result<Vec<OpId>, OutOfMemory>
    ensures { IfOk result (λ ids. ids.items ≡ map (λ a. a.now.id) ops.now) }
{
    Ok(ops.iter().map(|op| op.id).collect(alloc)?)
}
