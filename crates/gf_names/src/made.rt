//! The objects of a history.

ghost use Rattle.std.specs.Prelude.{◌≡◌, IfOk, filter, is_some, map};
ghost use Rattle.gf_ops.specs.declared.op.Op.{Op};
ghost use Rattle.gf_ops.specs.Attribute.{made_kind};
ghost use Rattle.gf_names.specs.Objects.{AreObjects};

use crate::rising;
use gf_base::OutOfMemory;
use gf_ops::{Change, History, Ids, Op, OpId};
use std::alloc::Global;

/// The ids of all objects of a history, by site and then by number.
pub fn objects(alloc: Global, history: &History) -> Result<Ids, OutOfMemory>
    ensures { IfOk result (AreObjects history.now.ops) }
{
    let made = made(alloc, history)?;
    let found = rising(alloc, &made)?;
    Ok(found)
}

/// The ids of all objects, in the order of their creations.
fn made(alloc: Global, history: &History) -> Result<Vec<OpId>, OutOfMemory>
    ensures { IfOk result (λ ids. ids.items ≡ map (λ (a : Op). a.id)
        (filter (λ (a : Op). is_some (made_kind a.change)) history.now.ops)) }
{
    let mut ids = Vec::new(alloc);
    for op in history.ops() {
        if makes(op) {
            ids.push(op.id)?;
        }
    }
    Ok(ids)
}

/// Whether the operation makes an object.
fn makes(op: &Op) -> bool
    ensures { result ≡ is_some (made_kind op.now.change) }
{
    match &op.change {
        Change::Create(_) => true,
        Change::Set { .. } => false,
    }
}
