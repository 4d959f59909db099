//! What is said of an object depends on its operations alone, the contract of a function that does
//! nothing.

ghost use Rattle.std.specs.Prelude.{◌≢◌, ◌∷◌, [], ◌++◌, List};
ghost use Rattle.gf_shape.specs.declared.any_shape.AnyShape.{AnyShape};
ghost use Rattle.gf_ops.specs.declared.op.Op.{Op};
ghost use Rattle.gf_ops.specs.declared.op.OpId.{OpId};
ghost use Rattle.gf_ops.specs.declared.op.ObjectId.{ObjectId};
ghost use Rattle.gf_ops.specs.Attribute.{object_of};
ghost use Rattle.gf_ops.specs.ValidHistory.{IsValid};
ghost use Rattle.gf_ops.specs.Version.{IsVersion};
ghost use Rattle.gf_versions.specs.declared.key.Version.{Version};
ghost use Rattle.gf_versions.specs.declared.placed.Placed.{Placed};
ghost use Rattle.gf_versions.specs.Ranking.{IsPlaced};
ghost use Rattle.gf_versions.specs.VersionOf.{IsVersionOf};
ghost use Rattle.gf_kept.specs.SameOn.{HaveSameOn};

/// Valid histories with the same operations on an object have the same versions of it, with the
/// same values. One more operation leaves those of each other object.
pub fn the_operations_of_an_object_say_all_of_it()
    ensures group { (h k : List Op) → IsValid h → IsValid k → (o : ObjectId) → HaveSameOn o h k
        → (g : List OpId) → IsVersion h o g → IsVersion k o g }
    ensures version { (h k : List Op) → IsValid h → IsValid k → (v : Version)
        → HaveSameOn v.key.object h k → IsVersionOf h v → IsVersionOf k v }
    ensures placed { (h k : List Op) → IsValid h → IsValid k → (i : Placed AnyShape)
        → HaveSameOn i.key.object h k → IsPlaced h i → IsPlaced k i }
    ensures beside { (h : List Op) (a : Op) (o : ObjectId) → object_of a ≢ o
        → HaveSameOn o h (h ++ a ∷ []) }
{}
