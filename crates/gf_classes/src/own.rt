//! The direct classes of what an operation brings: of itself, and of what it aims at.

ghost use Rattle.std.specs.Prelude.{◌≡◌, ◌↔◌, ◌+◌, ◌^◌, ◌<◌, Contains, Some, IfOk, IfSome, OnOk};
ghost use Rattle.gf_maximal.specs.LargestSets.{IsRising};
ghost use Rattle.gf_classes.specs.Direct.{class_at};
ghost use Rattle.gf_classes.specs.Own.{AddsNamed, AreOwn, IsClassOf, IsNamed};

use crate::direct::Direct;
use gf_base::OutOfMemory;
use gf_maximal::Numbers;
use gf_ops::{History, OpId};
use std::alloc::Global;

/// The class of the operation with this index.
pub(crate) fn class_at(direct: &Direct, index: usize) -> Option<usize>
    ensures { result ≡ class_at direct.now index }
{
    match direct.classes().get(index) {
        Some(class) => *class,
        None => None,
    }
}

/// The class of the operation at a position.
fn class_of(positions: &[usize], direct: &Direct, position: usize) -> Option<usize>
    requires { IsRising positions.now }
    ensures some { IfSome result (λ k. IsClassOf positions.now direct.now position k) }
    ensures all { (k : _) → IsClassOf positions.now direct.now position k → result ≡ Some k }
{
    match positions.binary_search(&position) {
        Ok(index) => class_at(direct, index),
        Err(_) => None,
    }
}

/// The class of the operation that has this id.
fn class_named(history: &History, positions: &[usize], direct: &Direct, id: OpId) -> Option<usize>
    requires { IsRising positions.now }
    ensures some { IfSome result (λ k.
        IsNamed history.now.ops positions.now direct.now id k) }
    ensures all { (k : _)
        → IsNamed history.now.ops positions.now direct.now id k → result ≡ Some k }
{
    history.recall_valid();
    match history.position(id) {
        Some(position) => class_of(positions, direct, position),
        None => None,
    }
}

/// Adds the class of the operation that has this id.
fn add_named(
    history: &History,
    positions: &[usize],
    direct: &Direct,
    id: OpId,
    own: &mut Numbers,
) -> Result<(), OutOfMemory>
    requires rising { IsRising positions.now }
    requires bound { (k : _) → IsNamed history.now.ops positions.now direct.now id k
        → k + 1 < 2 ^ 64 }
    ensures { OnOk result
        (AddsNamed history.now.ops positions.now direct.now id own.old own.new) }
{
    match class_named(history, positions, direct, id) {
        Some(class) => own.join(class),
        None => Ok(()),
    }
}

/// The set of a class, or of none.
pub(crate) fn one_class(alloc: Global, class: Option<usize>) -> Result<Numbers, OutOfMemory>
    requires { IfSome class (λ k. k + 1 < 2 ^ 64) }
    ensures { IfOk result (λ own. (k : _) → Contains own k ↔ (class ≡ Some k)) }
{
    let mut own = Numbers::new(alloc);
    if let Some(class) = class {
        own.join(class)?;
    }
    Ok(own)
}

/// The class, and the classes of the operations that have these ids.
pub(crate) fn own_of(
    alloc: Global,
    history: &History,
    positions: &[usize],
    direct: &Direct,
    class: Option<usize>,
    ids: &[OpId],
) -> Result<Numbers, OutOfMemory>
    requires rising { IsRising positions.now }
    requires class { IfSome class (λ k. k + 1 < 2 ^ 64) }
    requires bound { (id : _) (k : _) → IsNamed history.now.ops positions.now direct.now id k
        → k + 1 < 2 ^ 64 }
    ensures { IfOk result (λ own.
        AreOwn history.now.ops positions.now direct.now class ids.now own) }
{
    let mut own = one_class(alloc, class)?;
    for id in ids {
        add_named(history, positions, direct, *id, &mut own)?;
    }
    Ok(own)
}
