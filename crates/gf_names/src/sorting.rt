//! Ids in their order.

ghost use Rattle.std.specs.Prelude.{◌≡◌, IfOk};
ghost use Rattle.gf_names.specs.RisingIds.{IsRisingOf};

use gf_base::OutOfMemory;
use gf_ops::{Ids, OpId, id_set};
use std::alloc::Global;
use std::collections::BTreeSet;

/// The given ids by site and then by number, each once.
pub fn rising(alloc: Global, ids: &[OpId]) -> Result<Ids, OutOfMemory>
    ensures { IfOk result (λ found. IsRisingOf ids.now found) }
{
    let set = id_set(alloc, ids)?;
    Ok(Ids::new(listed(alloc, &set)?))
}

/// The ids of a set as a list.
fn listed(alloc: Global, set: &BTreeSet<OpId>) -> Result<Vec<OpId>, OutOfMemory>
    ensures { IfOk result (λ ids. ids.items ≡ set.now.keys) }
{
    Ok(set.iter().copied().collect(alloc)?)
}
