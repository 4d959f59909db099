//! The ids of one list that another one lacks.

ghost use Rattle.std.specs.Prelude.{◌≡◌, ◌↔◌, ◌⊎◌, Contains, OnOk};
ghost use Rattle.std.specs.List.Sorted.{IsStrictlySortedBy};
ghost use Rattle.std.specs.Ordering.{is_lt};
ghost use Rattle.gf_ops.specs.OperationOrder.{id_cmp};
ghost use Rattle.gf_ops.specs.declared.op.OpId.{OpId};
ghost use Rattle.gf_names.specs.Lacking.{begins_with, from_id};

use gf_base::OutOfMemory;
use gf_ops::OpId;

/// Appends those of the ids that the other ones lack, by one walk over both.
pub fn push_lacking(out: &mut Vec<OpId>, ids: &[OpId], others: &[OpId]) -> Result<(), OutOfMemory>
    requires ids { IsStrictlySortedBy id_cmp ids.now }
    requires others { IsStrictlySortedBy id_cmp others.now }
    ensures { OnOk result ((i : OpId) → Contains out.new.items i ↔ (Contains out.old.items i
        ⊎ (Contains ids.now i × ¬ (Contains others.now i)))) }
{
    let mut rest = others;
    for id in ids {
        rest = from_id(rest, *id);
        if !begins_with(rest, *id) {
            out.push(*id)?;
        }
    }
    Ok(())
}

/// The ids from the first one on that does not come before this one.
fn from_id(ids: &[OpId], id: OpId) -> &[OpId]
    ensures { result.now ≡ from_id id ids.now }
{
    let mut rest = ids;
    while let [first, others @ ..] = rest {
        if !comes_before(*first, id) {
            return rest;
        }
        rest = others;
    }
    rest
}

/// Whether the first id comes before the other one, by site and then by number.
fn comes_before(id: OpId, other: OpId) -> bool
    ensures { result ≡ is_lt (id_cmp id other) }
{
    id.site < other.site || id.site == other.site && id.seq < other.seq
}

/// Whether the first of the ids is this one.
fn begins_with(ids: &[OpId], id: OpId) -> bool
    ensures { result ≡ begins_with id ids.now }
{
    match ids {
        [first, ..] => first.site == id.site && first.seq == id.seq,
        [] => false,
    }
}
