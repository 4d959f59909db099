//! The law of keeping, the contract of a function that does nothing.

ghost use Rattle.std.specs.Prelude.{◌≡◌, ◌↔◌, ℕ, List, ◌++◌};
ghost use Rattle.gf_groups.specs.declared.group.Group.{Group};
ghost use Rattle.gf_ops.specs.Accepted.{AreAccepted};
ghost use Rattle.gf_ops.specs.ValidHistory.{IsValid};
ghost use Rattle.gf_ops.specs.declared.change.Change.{Change};
ghost use Rattle.gf_ops.specs.declared.op.Op.{Op};
ghost use Rattle.gf_visible.specs.ShownVersions.{IsVisibleGroup};
ghost use Rattle.gf_keep.specs.Keeping.{AreKeeping, IsKept};
ghost use Rattle.gf_site.specs.MadeEach.{MakesEach};
ghost use Rattle.gf_keep.specs.MadeOf.{GoesOn, IsKeptOn};
ghost use Rattle.gf_keep.specs.declared.keep.Keep.{Keep};

/// Behind what a site makes to keep some versions of an object, these are its visible versions, and
/// no others. Each has its operations, the one that hides the object, and its own one that shows
/// it.
pub fn keeping_leaves_what_is_kept()
    ensures visible { (s : ℕ) (h : List Op) (k : Keep) (changes : List Change) (new : List Op)
        → AreAccepted h → IsValid h → AreKeeping h k changes → MakesEach s h changes new
        → (g : Group) → ((g.object ≡ k.object) × IsVisibleGroup (h ++ new) g) ↔ IsKeptOn h k new g }
    ensures each { (s : ℕ) (h : List Op) (k : Keep) (changes : List Change) (new : List Op)
        → AreAccepted h → IsValid h → AreKeeping h k changes → MakesEach s h changes new
        → (g : Group) → IsKept h k g → GoesOn h k new g }
{}
