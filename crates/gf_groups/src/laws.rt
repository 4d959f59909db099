//! The laws of versions, each the contract of a function that does nothing.

ghost use Rattle.std.specs.Prelude.{◌≡◌, ◌↔◌, Contains, List, map};
ghost use Rattle.gf_ops.specs.declared.op.Op.{Op};
ghost use Rattle.gf_ops.specs.declared.op.OpId.{OpId};
ghost use Rattle.gf_ops.specs.declared.op.ObjectId.{ObjectId};
ghost use Rattle.gf_ops.specs.Attribute.{object_of};
ghost use Rattle.gf_ops.specs.Conflict.{Conflict};
ghost use Rattle.gf_ops.specs.ValidHistory.{IsValid};
ghost use Rattle.gf_ops.specs.Version.{IsVersion};
ghost use Rattle.gf_groups.specs.declared.group.Group.{Group};
ghost use Rattle.gf_groups.specs.Versions.{IsMade, AreVersions};
ghost use Rattle.gf_groups.specs.VersionList.{versions_of};

/// The versions of an object are a list that computes. These are the sublists of its rising ids
/// that are compatible and largest, in the order of a dictionary.
pub fn the_versions_are_a_list_that_computes()
    ensures { (h : List Op) (o : ObjectId) → IsMade h o → (groups : List Group)
        → AreVersions h o groups
        ↔ (groups ≡ map (λ g. record { object = o; ops = g }) (versions_of h o)) }
{}

/// No edit is lost: each operation of a valid history stands in a version of its object. One that
/// conflicts with no other one stands in every version.
pub fn each_operation_stands_in_a_version()
    ensures one { (h : List Op) → IsValid h → (a : Op) → Contains h a
        → (g : List OpId) × IsVersion h (object_of a) g × Contains g a.id }
    ensures every { (h : List Op) → IsValid h → (a : Op) → Contains h a
        → ((b : Op) → Contains h b → ¬ (Conflict h a b)) → (g : List OpId)
        → IsVersion h (object_of a) g → Contains g a.id }
{}
