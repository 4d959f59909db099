//! Names of visible versions.

ghost use Rattle.std.specs.Prelude.{◌≡◌, ◌↔◌, ◌⊎◌, ◌<◌, ◌≤◌, ℕ, Contains, IfOk, IsTrue, OnOk};
ghost use Rattle.std.specs.Prelude.{length};
ghost use Rattle.std.specs.List.{AllZip};
ghost use Rattle.std.specs.List.Sorted.{IsStrictlySortedBy};
ghost use Rattle.gf_ops.specs.OperationOrder.{id_cmp};
ghost use Rattle.gf_ops.specs.declared.op.OpId.{OpId};
ghost use Rattle.gf_versions.specs.Ranking.{AreRanked};
ghost use Rattle.gf_fig_named.specs.NamedText.{IsNameOf};
ghost use Rattle.gf_fig_named.specs.Others.{AreLackedAmong, AreLackedAt, AreOfOne, AreOthers};
ghost use Rattle.gf_fig_named.specs.Others.{AreRising};
ghost use Rattle.gf_fig_named.specs.Others.{IsLackedOf, IsLead, IsNameAmong};
ghost use Rattle.gf_fig_named.specs.Places.{ArePlaces};

use crate::Places;
use gf_base::OutOfMemory;
use gf_names::{push_lacking, rising, telling};
use gf_ops::{History, Ids, ObjectId, OpId};
use gf_shape::AnyShape;
use gf_versions::{Placed, VersionKey};
use std::alloc::Global;

/// What a figure is called: its object, and the operations that tell its version from the other
/// visible ones of the object.
#[derive(Drop)]
pub struct Name {
    pub object: ObjectId,
    pub telling: Ids,
}

/// The first of items of one object that follow each other, and the ids of its object that it
/// lacks.
#[derive(Drop)]
struct Lead {
    first: usize,
    lacked: Ids,
}

/// A name for each of the visible versions, in their order. Versions of one object that follow each
/// other are compared with the first of them. This one is compared with all of its object, which
/// are found by the object.
pub fn names_of(
    alloc: Global,
    history: &History,
    items: &[Placed<AnyShape>],
) -> Result<Vec<Name>, OutOfMemory>
    requires { AreRanked history.now.ops items.now }
    ensures { IfOk result (λ names.
        AllZip (IsNameOf history.now.ops items.now) items.now names.items) }
{
    history.recall_valid();
    let places = Places::of(alloc, items)?;
    let mut names = Vec::new(alloc);
    let mut lead = Lead {
        first: 0,
        lacked: Ids::new(Vec::new(alloc)),
    };
    for index in 0..items.len() {
        lead = lead_of(alloc, items, &places, index, lead)?;
        let ids = items[lead.first].key.ops.as_slice();
        names.push(name_of(
            alloc,
            history,
            ids,
            lead.lacked.as_slice(),
            &items[index].key,
        )?)?;
    }
    Ok(names)
}

/// What leads the item at this index: the one before, if it is of the same object, or the item.
fn lead_of(
    alloc: Global,
    items: &[Placed<AnyShape>],
    places: &Places,
    index: usize,
    before: Lead,
) -> Result<Lead, OutOfMemory>
    requires rising { AreRising items.now }
    requires places { ArePlaces items.now (length items.now) places.now }
    requires within { index < length items.now }
    requires before { 1 ≤ index → IsLead items.now before }
    ensures lead { IfOk result (IsLead items.now) }
    ensures object { IfOk result (λ lead. AreOfOne items.now lead.first index) }
{
    if 0 < index && is_same(items[before.first].key.object, items[index].key.object) {
        return Ok(before);
    }
    let lacked = lacked_ids(alloc, items, places, index)?;
    Ok(Lead {
        first: index,
        lacked,
    })
}

fn is_same(object: ObjectId, other: ObjectId) -> bool
    ensures { IsTrue result ↔ object ≡ other }
{
    object == other
}

/// The ids of the items of its object that the item at this index lacks.
fn lacked_ids(
    alloc: Global,
    items: &[Placed<AnyShape>],
    places: &Places,
    index: usize,
) -> Result<Ids, OutOfMemory>
    requires rising { AreRising items.now }
    requires places { ArePlaces items.now (length items.now) places.now }
    requires within { index < length items.now }
    ensures { IfOk result (AreLackedAt items.now index) }
{
    let key = &items[index].key;
    let found = lacked_among(alloc, items, places.at(key.object), key)?;
    rising(alloc, &found)
}

/// The ids of the items at these places that a version of their object lacks, maybe more than once
/// each.
fn lacked_among(
    alloc: Global,
    items: &[Placed<AnyShape>],
    places: &[usize],
    key: &VersionKey,
) -> Result<Vec<OpId>, OutOfMemory>
    requires rising { AreRising items.now }
    requires within { (k : ℕ) → Contains places.now k → k < length items.now }
    requires key { IsStrictlySortedBy id_cmp key.now.ops }
    ensures { IfOk result (λ ids. AreLackedAmong items.now places.now key.now ids.items) }
{
    let mut ids = Vec::new(alloc);
    for place in places {
        push_lacked(&mut ids, &items[*place].key, key)?;
    }
    Ok(ids)
}

/// Appends the ids of one version that another one of the same object lacks.
fn push_lacked(out: &mut Vec<OpId>, other: &VersionKey, key: &VersionKey) -> Result<(), OutOfMemory>
    requires other { IsStrictlySortedBy id_cmp other.now.ops }
    requires key { IsStrictlySortedBy id_cmp key.now.ops }
    ensures { OnOk result ((i : OpId) → Contains out.new.items i ↔ (Contains out.old.items i
        ⊎ IsLackedOf key.now other.now i)) }
{
    if other.object != key.object {
        return Ok(());
    }
    push_lacking(out, other.ops.as_slice(), key.ops.as_slice())
}

/// The name of a version: what tells it from those that have these ids, or ids that those lack.
fn name_of(
    alloc: Global,
    history: &History,
    ids: &[OpId],
    lacked: &[OpId],
    key: &VersionKey,
) -> Result<Name, OutOfMemory>
    requires ids { IsStrictlySortedBy id_cmp ids.now }
    requires lacked { IsStrictlySortedBy id_cmp lacked.now }
    requires key { IsStrictlySortedBy id_cmp key.now.ops }
    ensures { IfOk result (IsNameAmong history.now.ops ids.now lacked.now key.now) }
{
    let others = others_of(alloc, ids, lacked, key.ops.as_slice())?;
    Ok(Name {
        object: key.object,
        telling: telling(alloc, history, key.ops.as_slice(), &others)?,
    })
}

/// Which of the ids and of the lacked ones a version with its own ids lacks.
fn others_of(
    alloc: Global,
    ids: &[OpId],
    lacked: &[OpId],
    own: &[OpId],
) -> Result<Vec<OpId>, OutOfMemory>
    requires ids { IsStrictlySortedBy id_cmp ids.now }
    requires lacked { IsStrictlySortedBy id_cmp lacked.now }
    requires own { IsStrictlySortedBy id_cmp own.now }
    ensures { IfOk result (λ others. AreOthers ids.now lacked.now own.now others.items) }
{
    let mut others = Vec::new(alloc);
    push_lacking(&mut others, ids, own)?;
    push_lacking(&mut others, lacked, own)?;
    Ok(others)
}
