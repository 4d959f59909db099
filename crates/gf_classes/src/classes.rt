//! The operations on an object in classes, with their aims.

ghost use Rattle.std.specs.Prelude.{◌≡◌, ◌+◌, ◌^◌, ◌<◌, [], length, All, IfOk, OnOk};
ghost use Rattle.std.specs.Prelude.{IfSome, Contains, Some, slice_index_or};
ghost use Rattle.gf_table.specs.Positions.{positions_on};
ghost use Rattle.gf_classes.specs.ConflictClasses.{AreClassesOf};
ghost use Rattle.gf_classes.specs.Own.{AreGiven};
ghost use Rattle.gf_classes.specs.ClassSlots.{AreCalm, AreMembers, AreSlots, IsCalm, IsOwnSlot};
ghost use Rattle.gf_classes.specs.ClassSlots.{IsSlot, KeepsJoints};

use crate::class_rows::all_rows;
use crate::direct::{Direct, direct_classes};
use crate::hiding::hiding_site;
use crate::joints::Joints;
use crate::own::{class_at, one_class, own_of};
use gf_base::OutOfMemory;
use gf_maximal::{Classes, Numbers};
use gf_ops::{History, ObjectId};
use std::alloc::Global;

/// The class, if there are no others among the own classes.
fn lone_class(
    alloc: Global,
    class: Option<usize>,
    own: &Numbers,
) -> Result<Option<usize>, OutOfMemory>
    requires { IfSome class (λ k. k + 1 < 2 ^ 64) }
    ensures { IfOk result (λ found. IfSome found (λ k. (class ≡ Some k)
        × ((l : _) → Contains own.now l → l ≡ k))) }
{
    let one = one_class(alloc, class)?;
    if own.is_within(&one) {
        Ok(class)
    } else {
        Ok(None)
    }
}

/// The class of an operation of this direct class that brings these ones. Joint classes stand
/// behind the direct ones, of which there are `first`.
fn own_slot(
    alloc: Global,
    first: usize,
    class: Option<usize>,
    own: Numbers,
    site: usize,
    joints: &mut Joints,
) -> Result<usize, OutOfMemory>
    requires class { IfSome class (λ k. k + 1 < 2 ^ 64) }
    requires first { first < 2 ^ 63 }
    ensures slot { IfOk result (λ slot. IsOwnSlot first class own site joints.new slot) }
    ensures kept { OnOk result (KeepsJoints joints.old joints.new) }
    ensures calm { OnOk result ((rows : _) → IsCalm rows own → AreCalm rows joints.old.owns
        → AreCalm rows joints.new.owns) }
{
    if let Some(class) = lone_class(alloc, class, &own)? {
        return Ok(class);
    }
    let index = joints.put(alloc, own, site)?;
    Ok(first + index)
}

/// The class of the operation with this index.
fn slot_of(
    alloc: Global,
    history: &History,
    positions: &[usize],
    direct: &Direct,
    index: usize,
    joints: &mut Joints,
) -> Result<usize, OutOfMemory>
    requires given { AreGiven history.now.ops positions.now direct.now }
    requires index { index < length positions.now }
    ensures slot { IfOk result (λ slot.
        IsSlot history.now.ops positions.now direct.now joints.new index slot) }
    ensures kept { OnOk result (KeepsJoints joints.old joints.new) }
    ensures calm { OnOk result (AreCalm direct.now.rows joints.old.owns
        → AreCalm direct.now.rows joints.new.owns) }
{
    let first = direct.rows().len();
    let op = &history.ops()[positions[index]];
    let class = class_at(direct, index);
    if op.aim().is_empty() {
        if let Some(class) = class {
            return Ok(class);
        }
    }
    let own = own_of(alloc, history, positions, direct, class, op.aim())?;
    own_slot(alloc, first, class, own, hiding_site(op), joints)
}

/// The class of each operation. Joint classes are added as they are met.
fn slots_of(
    alloc: Global,
    history: &History,
    positions: &[usize],
    direct: &Direct,
    joints: &mut Joints,
) -> Result<Vec<usize>, OutOfMemory>
    requires given { AreGiven history.now.ops positions.now direct.now }
    requires empty { joints.old.owns ≡ [] }
    ensures { IfOk result (λ slots. AreSlots history.now.ops positions.now direct.now joints.new
        slots.items (length positions.now)) }
{
    let mut slots = Vec::new(alloc);
    for index in 0..positions.len() {
        slots.push(slot_of(alloc, history, positions, direct, index, joints)?)?;
    }
    Ok(slots)
}

/// As many empty sets as `count` says.
fn empty_sets(alloc: Global, count: usize) -> Result<Vec<Numbers>, OutOfMemory>
    ensures count { IfOk result (λ sets. length sets.items ≡ count) }
    ensures empty { IfOk result (λ sets. (e : _) → slice_index_or sets.items e [] ≡ []) }
{
    let mut sets = Vec::new(alloc);
    for _ in 0..count {
        sets.push(Numbers::new(alloc))?;
    }
    Ok(sets)
}

/// The members of each class: the positions that have it.
fn members_of(
    alloc: Global,
    positions: &[usize],
    slots: &[usize],
    count: usize,
) -> Result<Vec<Numbers>, OutOfMemory>
    requires positions { All (λ n. n + 1 < 2 ^ 64) positions.now }
    requires slots { All (λ e. e < count) slots.now }
    requires same { length slots.now ≡ length positions.now }
    ensures { IfOk result (λ members. AreMembers positions.now slots.now
        (length positions.now) count members.items) }
{
    let mut members = empty_sets(alloc, count)?;
    for index in 0..positions.len() {
        members[slots[index]].join(positions[index])?;
    }
    Ok(members)
}

/// The operations on an object in classes, where their direct classes are known.
fn classes_over(
    alloc: Global,
    history: &History,
    positions: &[usize],
    direct: Direct,
) -> Result<Classes, OutOfMemory>
    requires { AreGiven history.now.ops positions.now direct }
    ensures { IfOk result (λ found. AreClassesOf history.now.ops positions.now found) }
{
    // The clauses of `ops` say that the history is valid, and its operations are a slice.
    let _ = history.ops();
    let mut joints = Joints::new(alloc);
    let slots = slots_of(alloc, history, positions, &direct, &mut joints)?;
    let rows = all_rows(alloc, direct.into_rows(), joints.owns())?;
    let members = members_of(alloc, positions, &slots, rows.len())?;
    Ok(Classes::new(members, rows))
}

/// The operations on an object in classes. All members of a class conflict with the same
/// operations. They hide the object at one site, or none of them hides it.
pub fn classes_of(
    alloc: Global,
    history: &History,
    object: ObjectId,
    positions: &[usize],
) -> Result<Classes, OutOfMemory>
    requires { positions.now ≡ positions_on history.now.ops object }
    ensures { IfOk result (λ found. AreClassesOf history.now.ops positions.now found) }
{
    let direct = direct_classes(alloc, history, object, positions)?;
    classes_over(alloc, history, positions, direct)
}
