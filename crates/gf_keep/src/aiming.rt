//! What a change aims at that is meant for one version.

ghost use Rattle.std.specs.Prelude.{◌≡◌, ◌↔◌, IfOk, IsTrue};
ghost use Rattle.gf_ops.specs.Attribute.{object_of};
ghost use Rattle.gf_ops.specs.declared.op.OpId.{OpId};
ghost use Rattle.gf_keep.specs.Keeping.{AreAimedAt};
ghost use Rattle.gf_keep.specs.KeepSteps.{AreIdsOn};

use gf_base::OutOfMemory;
use gf_groups::Group;
use gf_names::{aim_at, telling};
use gf_ops::{History, Ids, ObjectId, Op, OpId};
use std::alloc::Global;

/// The ids of the operations on an object.
pub(crate) fn ids_on(
    alloc: Global,
    history: &History,
    object: ObjectId,
) -> Result<Vec<OpId>, OutOfMemory>
    ensures { IfOk result (λ ids. AreIdsOn history.now.ops object ids.items) }
{
    let mut ids = Vec::new(alloc);
    for op in history.ops() {
        if is_on(op, object) {
            ids.push(op.id)?;
        }
    }
    Ok(ids)
}

/// Whether an operation concerns an object.
fn is_on(op: &Op, object: ObjectId) -> bool
    ensures { IsTrue result ↔ (object_of op.now ≡ object) }
{
    op.object() == object
}

/// What tells the group from the operations on its object, with what that aims at.
pub(crate) fn aim_to_keep(
    alloc: Global,
    history: &History,
    group: &Group,
    others: &[OpId],
) -> Result<Ids, OutOfMemory>
    requires { AreIdsOn history.now.ops group.now.object others.now }
    ensures { IfOk result (λ ids. AreAimedAt history.now.ops group.now ids) }
{
    history.recall_valid();
    let marks = telling(alloc, history, group.ops.as_slice(), others)?;
    aim_at(alloc, history, marks.as_slice())
}
