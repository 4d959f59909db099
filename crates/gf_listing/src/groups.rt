//! The versions of an object of a plain history, or of one with a table beside it.

ghost use Rattle.std.specs.Prelude.{◌≡◌, ◌↔◌, Err, IfOk};
ghost use Rattle.gf_groups.specs.declared.faults.GroupFault.{GroupFault};
ghost use Rattle.gf_groups.specs.Versions.{AreVersions, IsMade};
ghost use Rattle.gf_table.specs.Standing.{StandsFor};

use crate::Versions;
use gf_base::OutOfMemory;
use gf_groups::{GroupFault, Groups, is_made};
use gf_ops::{History, ObjectId};
use gf_table::{GroupTable, IndexedHistory};
use std::alloc::Global;

/// What a table answers of the versions of the history that it stands for.
pub trait ListGroups {
    ghost use Rattle.std.specs.Prelude.{List};
    ghost use Rattle.gf_ops.specs.declared.op.Op.{Op};

    /// Whether the table stands for a history of these operations.
    ghost stands: { List Op → Self → Type 0 };

    /// The versions of an object, as [`Versions::groups`] gives them, of the history that the table
    /// stands for.
    fn groups(
        &self,
        alloc: Global,
        history: &History,
        object: ObjectId,
    ) -> Result<Groups, GroupFault>
        requires { stands history.now.ops self.now }
        ensures groups { IfOk result (λ groups. AreVersions history.now.ops object groups) }
        ensures no_object { result ≡ Err GroupFault.NoObject ↔ (¬ IsMade history.now.ops object) };
}

impl ListGroups for GroupTable {
    ghost stands = { StandsFor };

    fn groups(
        &self,
        alloc: Global,
        history: &History,
        object: ObjectId,
    ) -> Result<Groups, GroupFault> {
        Versions::new(history, self).groups(alloc, object)
    }
}

/// All versions of an object of a history alone, as [`Versions::groups`] gives them. The call first
/// copies the history into an [`IndexedHistory`], which those who ask again keep.
pub fn groups_of(alloc: Global, history: &History, object: ObjectId) -> Result<Groups, GroupFault>
    ensures groups { IfOk result (λ groups. AreVersions history.now.ops object groups) }
    ensures no_object { result ≡ Err GroupFault.NoObject ↔ (¬ IsMade history.now.ops object) }
{
    if !is_made(history, object) {
        return Err(GroupFault::NoObject);
    }
    match IndexedHistory::of(alloc, history) {
        Ok(indexed) => Versions::of(&indexed).groups(alloc, object),
        Err(OutOfMemory) => Err(GroupFault::OutOfMemory),
    }
}
