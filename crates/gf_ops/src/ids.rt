//! Lists of operation ids.

ghost use Rattle.std.specs.Prelude.{◌≡◌, [], IfOk};
ghost use Rattle.std.specs.BTreeSet.{insert_key};
ghost use Rattle.std.specs.List.{fold};
ghost use Rattle.std.proofs.Common.{rules};
ghost use Rattle.std.specs.Cmp.Rules.{comparing};
ghost use Rattle.gf_ops.specs.OperationOrder.{id_cmp};
ghost use Rattle.gf_ops.specs.SameIds.{ids_eq};

use crate::OpId;
use gf_base::OutOfMemory;
use std::alloc::Global;
use std::collections::BTreeSet;
use std::marker::Model;

/// The ids of some operations, seen as their list.
#[derive(Drop)]
pub struct Ids {
    ids: Vec<OpId>,
}

impl Model for Ids {
    ghost use Rattle.std.specs.Prelude.{List};
    ghost use Rattle.gf_ops.specs.declared.op.OpId.{OpId};

    ghost Value = { List OpId };

    ghost view = { λ s. s.ids.items };
}

impl Ids {
    /// The given ids in their order.
    pub fn new(ids: Vec<OpId>) -> Ids
        ensures { result ≡ ids.items }
    {
        Ids { ids }
    }

    /// The ids in their order.
    pub fn as_slice(&self) -> &[OpId]
        ensures { result.now ≡ self.now }
    {
        &self.ids
    }

    /// A copy of the ids.
    pub fn copy(&self, alloc: Global) -> Result<Ids, OutOfMemory>
        ensures { IfOk result (λ ids. ids ≡ self.now) }
    {
        let mut ids = Vec::new(alloc);
        ids.extend_from_slice(self.as_slice())?;
        Ok(Ids::new(ids))
    }
}

/// The set of the given ids.
pub fn id_set(alloc: Global, ids: &[OpId]) -> Result<BTreeSet<OpId>, OutOfMemory>
    ensures { IfOk result (λ set. set.keys ≡ fold (insert_key id_cmp) [] ids.now) }
{
    let mut set = BTreeSet::new(alloc);
    for id in ids {
        set.insert(*id)?;
    }
    Ok(set)
}

impl PartialEq for Ids {
    ghost eq = { ids_eq };

    ghost laws = { Prim.search (comparing, rules) };

    fn eq(&self, other: &Ids) -> bool {
        self.ids == other.ids
    }
}

impl Eq for Ids {
    ghost laws = { Prim.search (comparing, rules) };
}
