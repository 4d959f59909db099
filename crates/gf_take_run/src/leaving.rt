//! Whether changes leave what stands in a drawing.

ghost use Rattle.std.specs.Prelude.{◌≡◌, ◌↔◌, ◌<◌, ℕ, All, IfOk, IfSome, IsTrue, List, length};
ghost use Rattle.std.specs.Prelude.{true, false};
ghost use Rattle.gf_shape.specs.ShapeLaws.{IsLawful};
ghost use Rattle.std.specs.List.{AllZip};
ghost use Rattle.gf_ops.specs.declared.op.Op.{Op};
ghost use Rattle.gf_fig_named.specs.NamedFigures.{AreNamed};
ghost use Rattle.gf_fig_named.specs.Places.{ArePlaces};
ghost use Rattle.gf_fig_named.specs.NamedText.{IsNameOf};
ghost use Rattle.gf_versions.specs.Ranking.{AreRanked};
ghost use Rattle.gf_take_run.specs.LeftObjects.{LeavesStanding, changed_look, is_layer};
ghost use Rattle.gf_take_run.specs.LeavingSteps.{AreNamesAt, HasNoFigure, IsFigureAt, IsMeant};

use crate::reading::ReadDrawing;
use crate::showing::{has_version, is_of};
use gf_base::OutOfMemory;
use gf_fig_named::{Name, Places};
use gf_ops::{Change, Ids, ObjectId, Op, Value};
use gf_shape::AnyShape;
use gf_table::positions_at;
use gf_take::version_looks_like;
use gf_versions::Placed;
use std::alloc::Global;

/// Whether operations give nothing but layers to an object each of whose versions has in the
/// drawing a figure of its name that looks like it. Each version has its name and its place.
pub(crate) fn leave_standing(
    alloc: Global,
    shown: &[Placed<AnyShape>],
    places: &Places,
    own: &[Name],
    drawn: &ReadDrawing,
    ops: &[Op],
) -> Result<bool, OutOfMemory>
    requires long { length own.now ≡ length shown.now }
    requires places { ArePlaces shown.now (length shown.now) places.now }
    requires named { AreNamesAt drawn.now.names.items drawn.now.places.entries }
    requires lawful { All (λ f. IsLawful f.shape) drawn.now.drawing.figures }
    ensures { (h : List Op) (fig : List ℕ) → AreRanked h shown.now
        → AllZip (IsNameOf h shown.now) shown.now own.now
        → AreNamed fig drawn.now.drawing drawn.now.names.items
        → IfOk result (λ left. left ≡ true
        → All (λ a. LeavesStanding h fig drawn.now.drawing a.change) ops.now) }
{
    for op in ops {
        if !is_meant(alloc, shown, places, own, drawn, &op.change)? {
            return Ok(false);
        }
    }
    Ok(true)
}

/// Whether a change is of no more than a layer, or its object has no version among these, or one
/// that has no figure of its name that looks like it.
fn is_meant(
    alloc: Global,
    shown: &[Placed<AnyShape>],
    places: &Places,
    own: &[Name],
    drawn: &ReadDrawing,
    change: &Change,
) -> Result<bool, OutOfMemory>
    requires long { length own.now ≡ length shown.now }
    requires places { ArePlaces shown.now (length shown.now) places.now }
    requires named { AreNamesAt drawn.now.names.items drawn.now.places.entries }
    requires lawful { All (λ f. IsLawful f.shape) drawn.now.drawing.figures }
    ensures { IfOk result (λ meant. meant ≡ true → IsMeant drawn.now.drawing drawn.now.names.items
        shown.now own.now change.now) }
{
    match changed_look(change) {
        None => Ok(true),
        Some(object) => {
            if !has_version(shown, places, object) {
                return Ok(true);
            }
            lacks_figure(alloc, shown, places, own, drawn, object)
        }
    }
}

/// The object of which a change gives something else than a layer, if it is such a change.
fn changed_look(change: &Change) -> Option<ObjectId>
    ensures { result ≡ changed_look change.now }
{
    match change {
        Change::Create(_) => None,
        Change::Set { object, value, .. } => { if is_layer(value) { None } else { Some(*object) } }
    }
}

fn is_layer(value: &Value) -> bool
    ensures { result ≡ is_layer value.now }
{
    match value {
        Value::Layer(_) => true,
        Value::Place(_) | Value::Points(_) | Value::Size(..) => false,
        Value::Colour(_) | Value::Shown(_) => false,
    }
}

/// Whether a version of an object has no figure of its name that looks like it.
fn lacks_figure(
    alloc: Global,
    shown: &[Placed<AnyShape>],
    places: &Places,
    own: &[Name],
    drawn: &ReadDrawing,
    object: ObjectId,
) -> Result<bool, OutOfMemory>
    requires long { length own.now ≡ length shown.now }
    requires places { ArePlaces shown.now (length shown.now) places.now }
    requires named { AreNamesAt drawn.now.names.items drawn.now.places.entries }
    requires lawful { All (λ f. IsLawful f.shape) drawn.now.drawing.figures }
    ensures { IfOk result (λ lacks. lacks ≡ true → HasNoFigure drawn.now.drawing
        drawn.now.names.items shown.now own.now object) }
{
    for place in places.at(object) {
        let (item, name) = (&shown[*place], &own[*place]);
        if is_of(item, object) && !has_figure(alloc, item, name, drawn)? {
            return Ok(true);
        }
    }
    Ok(false)
}

/// Whether a figure has the name and looks like the version.
fn has_figure(
    alloc: Global,
    item: &Placed<AnyShape>,
    name: &Name,
    drawn: &ReadDrawing,
) -> Result<bool, OutOfMemory>
    requires lawful { All (λ f. IsLawful f.shape) drawn.now.drawing.figures }
    requires named { AreNamesAt drawn.now.names.items drawn.now.places.entries }
    ensures { IfOk result (λ has. has ≡ false → (k : ℕ)
        → ¬ (IsFigureAt drawn.now.drawing drawn.now.names.items item.now name.now k)) }
{
    for index in positions_at(&drawn.places, name.object) {
        if is_figure(alloc, item, name, drawn, *index)? {
            return Ok(true);
        }
    }
    Ok(false)
}

/// Whether the figure at an index has the name and looks like the version.
fn is_figure(
    alloc: Global,
    item: &Placed<AnyShape>,
    name: &Name,
    drawn: &ReadDrawing,
    index: usize,
) -> Result<bool, OutOfMemory>
    requires { All (λ f. IsLawful f.shape) drawn.now.drawing.figures }
    ensures { IfOk result (λ is. is ≡ false
        → ¬ (IsFigureAt drawn.now.drawing drawn.now.names.items item.now name.now index)) }
{
    let Some(Some(named)) = drawn.names.get(index) else {
        return Ok(false);
    };
    if !same_name(&named.name, name) {
        return Ok(false);
    }
    match drawn.drawing.figures().get(index) {
        Some(figure) => version_looks_like(alloc, item, &drawn.drawing, figure),
        None => Ok(false),
    }
}

fn same_name(a: &Name, b: &Name) -> bool
    ensures { IsTrue result ↔ a.now ≡ b.now }
{
    a.object == b.object && same_ids(&a.telling, &b.telling)
}

#[tactic(auto, using(gf_ops::proofs::SameLemmas::ids_decides))]
fn same_ids(a: &Ids, b: &Ids) -> bool
    ensures { IsTrue result ↔ a.now ≡ b.now }
{
    a == b
}
