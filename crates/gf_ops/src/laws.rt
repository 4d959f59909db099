//! Laws of the order of operations and of conflicts, each the contract of a function that does
//! nothing.

ghost use Rattle.std.specs.Prelude.{List, Contains, ◌⊎◌, ◌↔◌};
ghost use Rattle.gf_ops.specs.declared.op.Op.{Op};
ghost use Rattle.gf_ops.specs.DirectConflict.{DirectConflict};
ghost use Rattle.gf_ops.specs.declared.op.OpId.{OpId};
ghost use Rattle.gf_ops.specs.declared.op.ObjectId.{ObjectId};
ghost use Rattle.gf_ops.specs.Aims.{AimsAt, HasNoAims};
ghost use Rattle.gf_ops.specs.Attribute.{aim_of};
ghost use Rattle.gf_ops.specs.Conflict.{Conflict, ConflictsWithBrought, ConflictsByAim};
ghost use Rattle.gf_ops.specs.OperationOrder.{Precedes};
ghost use Rattle.gf_ops.specs.Version.{IsVersion, IsMember, IsLargestGroup};
ghost use Rattle.gf_ops.specs.ValidHistory.{IsValid};

/// On the operations of a valid history, `before` is a strict order.
pub fn before_is_a_strict_order()
    ensures irreflexive { (h : List Op) → IsValid h → (a : Op) → Contains h a → ¬ (Precedes a a) }
    ensures transitive { (h : List Op) → IsValid h → (a b c : Op) → Contains h a → Contains h b
        → Contains h c → Precedes a b → Precedes b c → Precedes a c }
{}

/// A direct conflict is one from both sides, and no operation conflicts directly with itself.
pub fn direct_conflict_is_symmetric_and_irreflexive()
    ensures symmetric { (a b : Op) → DirectConflict a b → DirectConflict b a }
    ensures irreflexive { (a : Op) → ¬ (DirectConflict a a) }
{}

/// A conflict is one from both sides. No operation of a valid history conflicts with itself, nor
/// with one that it aims at.
pub fn conflict_is_symmetric_and_irreflexive()
    ensures symmetric { (h : List Op) (a b : Op) → Conflict h a b → Conflict h b a }
    ensures irreflexive { (h : List Op) → IsValid h → (a : Op) → Contains h a
        → ¬ (Conflict h a a) }
    ensures own_aim { (h : List Op) → IsValid h → (a x : Op) → Contains h a → AimsAt h a x
        → ¬ (Conflict h a x) }
{}

/// What conflicts with an operation conflicts with each one that aims at it. What conflicts with an
/// operation but with nothing of its aim does so directly, itself or by its aim.
pub fn conflicts_come_from_aims()
    ensures carried { (h : List Op) → IsValid h → (a x b : Op) → Contains h a → AimsAt h a x
        → Conflict h x b → Conflict h a b }
    ensures parted { (h : List Op) (a b : Op) → Conflict h a b
        → ConflictsWithBrought h a b ⊎ ConflictsByAim h a b }
    ensures direct { (h : List Op) (a b : Op) → ConflictsWithBrought h a b → Conflict h a b }
{}

/// A version holds the aims of its members.
pub fn a_version_holds_the_aims_of_its_members()
    ensures { (h : List Op) → IsValid h → (o : ObjectId) (g : List OpId) → IsVersion h o g
        → (a : Op) → IsMember h g a → (i : OpId) → Contains (aim_of a) i → Contains g i }
{}

/// In a history without aims the versions are the largest groups without a direct conflict.
pub fn without_aims_conflicts_are_direct()
    ensures { (h : List Op) → HasNoAims h → (o : ObjectId) (g : List OpId)
        → IsVersion h o g ↔ IsLargestGroup DirectConflict h o g }
{}
