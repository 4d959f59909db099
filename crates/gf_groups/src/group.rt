//! Groups of operations.

ghost use Rattle.std.specs.Prelude.{◌≡◌};

use gf_ops::{Ids, ObjectId};
use std::marker::Model;

/// The operations of one version of an object, their ids rising.
#[derive(Drop)]
pub struct Group {
    pub object: ObjectId,
    pub ops: Ids,
}

/// Groups, seen as their list.
#[derive(Drop)]
pub struct Groups {
    groups: Vec<Group>,
}

impl Model for Groups {
    ghost use Rattle.std.specs.Prelude.{List};
    ghost use Rattle.gf_groups.specs.declared.group.Group.{Group};

    ghost Value = { List Group };

    ghost view = { λ s. s.groups.items };
}

impl Groups {
    /// The list of these groups.
    pub(crate) fn new(groups: Vec<Group>) -> Groups
        ensures { result ≡ groups.items }
    {
        Groups { groups }
    }

    /// The same groups as a plain list.
    pub fn into_vec(self) -> Vec<Group>
        ensures { result.items ≡ self }
    {
        self.groups
    }

    /// The groups in their order.
    pub fn as_slice(&self) -> &[Group]
        ensures { result.now ≡ self.now }
    {
        &self.groups
    }
}
