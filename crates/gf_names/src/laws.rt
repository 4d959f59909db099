//! The law of names, the contract of a function that does nothing.

ghost use Rattle.std.specs.Prelude.{◌≡◌, List, Contains};
ghost use Rattle.gf_ops.specs.ValidHistory.{IsValid};
ghost use Rattle.gf_ops.specs.Version.{IsMember, IsVersion};
ghost use Rattle.gf_ops.specs.declared.op.ObjectId.{ObjectId};
ghost use Rattle.gf_ops.specs.declared.op.Op.{Op};
ghost use Rattle.gf_ops.specs.declared.op.OpId.{OpId};
ghost use Rattle.gf_names.specs.Telling.{AreTelling};

/// Let ids tell a version of an object from others, among them the members of a second version.
/// Where the second has all of these ids, both are one.
pub fn what_tells_a_version_is_in_no_other()
    ensures { (h : List Op) → IsValid h → (o : ObjectId) (g k : List OpId) → IsVersion h o g
        → IsVersion h o k → (others : List OpId) → ((i : OpId) → Contains k i → Contains others i)
        → (ids : List OpId) → AreTelling h g (IsMember h others) ids
        → ((i : OpId) → Contains ids i → Contains k i) → g ≡ k }
{}
