//! How many objects the operations of a take are about.

ghost use Rattle.std.specs.Prelude.{◌≡◌, ◌↔◌, ◌∷◌, [], ◌++◌, Contains, IfOk, IsTrue, List, OnOk};
ghost use Rattle.gf_ops.specs.declared.op.Op.{Op};
ghost use Rattle.gf_take_run.specs.CountedChanges.{test_of};
ghost use Rattle.gf_take_run.specs.TakeSteps.{AreCounted};
ghost use Rattle.gf_take_run.specs.ToldNumbers.{AreObjects, alters, creates, hides};

use gf_base::OutOfMemory;
use gf_ops::{Change, ObjectId, Op, Value};
use std::alloc::Global;

/// How many objects operations change, hide and create.
#[derive(Clone, Copy)]
pub(crate) struct Counts {
    pub(crate) changed: usize,
    pub(crate) hidden: usize,
    pub(crate) drawn: usize,
}

/// Which changes are counted.
#[derive(Clone, Copy)]
pub(crate) enum Counted {
    Changed,
    Hidden,
    Drawn,
}

/// How many objects these operations change, hide and create.
pub(crate) fn counts_of(alloc: Global, ops: &[Op]) -> Result<Counts, OutOfMemory>
    ensures { IfOk result (AreCounted ops.now) }
{
    let changed = objects_of(alloc, ops, Counted::Changed)?.len();
    let hidden = objects_of(alloc, ops, Counted::Hidden)?.len();
    let drawn = objects_of(alloc, ops, Counted::Drawn)?.len();
    Ok(Counts {
        changed,
        hidden,
        drawn,
    })
}

/// The objects of which operations have such changes, each once.
fn objects_of(alloc: Global, ops: &[Op], counted: Counted) -> Result<Vec<ObjectId>, OutOfMemory>
    ensures { IfOk result (λ objects. AreObjects (test_of counted) ops.now objects.items) }
{
    let mut objects = Vec::new(alloc);
    for op in ops {
        push_object(&mut objects, counted, op)?;
    }
    Ok(objects)
}

/// Appends the object of an operation that has such a change, if it is not there.
fn push_object(objects: &mut Vec<ObjectId>, counted: Counted, op: &Op) -> Result<(), OutOfMemory>
    ensures { (ops : List Op) → AreObjects (test_of counted) ops objects.old.items
        → OnOk result (AreObjects (test_of counted) (ops ++ op.now ∷ []) objects.new.items) }
{
    if !is_counted(counted, &op.change) {
        return Ok(());
    }
    if has(objects, op.object()) {
        return Ok(());
    }
    objects.push(op.object())?;
    Ok(())
}

/// Whether the object is one of the objects.
fn has(objects: &[ObjectId], object: ObjectId) -> bool
    ensures { IsTrue result ↔ Contains objects.now object }
{
    objects.contains(&object)
}

fn is_counted(counted: Counted, change: &Change) -> bool
    ensures { result ≡ test_of counted change.now }
{
    match counted {
        Counted::Changed => alters(change),
        Counted::Hidden => hides(change),
        Counted::Drawn => creates(change),
    }
}

/// Whether a change gives an object another look or another layer.
fn alters(change: &Change) -> bool
    ensures { result ≡ alters change.now }
{
    match change {
        Change::Create(_) => false,
        Change::Set { value, .. } => match value {
            Value::Place(_) | Value::Points(_) | Value::Size(..) => true,
            Value::Colour(_) | Value::Layer(_) => true,
            Value::Shown(_) => false,
        },
    }
}

/// Whether a change hides an object.
fn hides(change: &Change) -> bool
    ensures { result ≡ hides change.now }
{
    match change {
        Change::Create(_) => false,
        Change::Set { value, .. } => match value {
            Value::Shown(shown) => !*shown,
            Value::Place(_) | Value::Points(_) | Value::Size(..) => false,
            Value::Colour(_) | Value::Layer(_) => false,
        },
    }
}

/// Whether a change creates an object.
fn creates(change: &Change) -> bool
    ensures { result ≡ creates change.now }
{
    match change {
        Change::Create(_) => true,
        Change::Set { .. } => false,
    }
}
