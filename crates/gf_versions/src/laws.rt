//! Laws of versions and of the history's colour, each the contract of a function that does nothing.

ghost use Rattle.std.specs.Prelude.{◌≡◌, ◌↔◌, List, Contains};
ghost use Rattle.gf_plane.specs.declared.point.Point.{Point};
ghost use Rattle.gf_shape.specs.declared.any_shape.AnyShape.{AnyShape};
ghost use Rattle.gf_shape.specs.ShapeMeaning.{any_holds};
ghost use Rattle.gf_ops.specs.declared.op.Op.{Op};
ghost use Rattle.gf_ops.specs.declared.op.OpId.{OpId};
ghost use Rattle.gf_ops.specs.declared.op.ObjectId.{ObjectId};
ghost use Rattle.gf_ops.specs.declared.change.Attr.{Attr};
ghost use Rattle.gf_ops.specs.declared.change.Value.{Value};
ghost use Rattle.gf_ops.specs.SettledValue.{IsSettled};
ghost use Rattle.gf_ops.specs.ValidHistory.{IsValid};
ghost use Rattle.gf_ops.specs.Version.{IsVersion};
ghost use Rattle.gf_versions.specs.declared.key.Version.{Version};
ghost use Rattle.gf_versions.specs.declared.key.VersionKey.{VersionKey};
ghost use Rattle.gf_versions.specs.declared.placed.Placed.{Placed};
ghost use Rattle.gf_versions.specs.Above.{IsAbove, AreOrdered};
ghost use Rattle.gf_versions.specs.HistoryColour.{HistoryColour, HasOneColour};
ghost use Rattle.gf_versions.specs.Ranking.{AreRanked, first_colour};
ghost use Rattle.gf_versions.specs.VersionOf.{IsVersionOf};

/// Above is a strict total order of the versions of a valid history. Of two different ones, exactly
/// one is above the other.
pub fn versions_are_in_a_total_order()
    ensures irreflexive { (k : VersionKey) → ¬ (IsAbove k k) }
    ensures transitive { (k l m : VersionKey) → IsAbove k l → IsAbove l m → IsAbove k m }
    ensures total { (h : List Op) → IsValid h → (v w : Version) → IsVersionOf h v → IsVersionOf h w
        → AreOrdered v w }
{}

/// A version of a valid history settles each attribute to one value.
pub fn a_version_settles_each_attribute_once()
    ensures { (h : List Op) → IsValid h → (o : ObjectId) → (g : List OpId) → IsVersion h o g
        → (t : Attr) → (v w : Value) → IsSettled h g t v → IsSettled h g t w → v ≡ w }
{}

/// A valid history means one colour at each point.
pub fn one_colour_at_a_point()
    ensures { (h : List Op) → IsValid h → (p : Point) → HasOneColour h p }
{}

/// The first of the ranked versions that holds a point has the colour that the history means there.
pub fn the_first_that_holds_is_on_top()
    ensures { (h : List Op) (items : List (Placed AnyShape)) → AreRanked h items → (p : Point)
        → HistoryColour h p (first_colour any_holds items p) }
{}

/// Histories of the same operations have one ranked list. The order of the operations in a history
/// says nothing.
pub fn the_same_operations_rank_alike()
    ensures one { (h k : List Op) → ((a : Op) → Contains h a ↔ Contains k a)
        → (items others : List (Placed AnyShape)) → AreRanked h items → AreRanked k others
        → items ≡ others }
    ensures each { (h k : List Op) → ((a : Op) → Contains h a ↔ Contains k a)
        → (items : List (Placed AnyShape)) → AreRanked h items → AreRanked k items }
{}
