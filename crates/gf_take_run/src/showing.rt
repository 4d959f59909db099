//! What a site shows, and what xfig does not keep of it.

ghost use Rattle.std.specs.Prelude.{◌≡◌, ◌≢◌, ◌↔◌, [], ℕ, All, IfErr, IfOk, IsTrue, List};
ghost use Rattle.std.specs.Prelude.{IfNone, IfSome, Option, length, true};
ghost use Rattle.gf_ops.specs.declared.op.Op.{Op};
ghost use Rattle.gf_versions.specs.Ranking.{AreRanked};
ghost use Rattle.gf_fig_named.specs.Places.{ArePlaces};
ghost use Rattle.gf_fig_named.specs.ThinPolygons.{AreThinOf};
ghost use Rattle.gf_fig_read.specs.Objects.{Drawn};
ghost use Rattle.gf_table.specs.Standing.{positions_of};
ghost use Rattle.gf_take_run.specs.ChangedObjects.{MayChange, name_begins};
ghost use Rattle.gf_take_run.specs.ShownItems.{HasNamesOf, IsFirstLine, IsOnItem, IsOnOne};
ghost use Rattle.gf_versions.specs.declared.ranking.TheConstants.{MOST_VERSIONS};
ghost use Rattle.gf_visible.specs.ShownVersions.{HasMoreVisible};
ghost use Rattle.gf_take_run.specs.TakeSteps.{AreListed, RefusesBase};

use crate::drawing_error::DrawingError;
use gf_base::OutOfMemory;
use gf_fig_named::{Named, Places, thin_polygons};
use gf_fig_tokens::cut_line;
use gf_kept::KeptSite;
use gf_ops::{Change, ObjectId, Op, push_id};
use gf_shape::AnyShape;
use gf_table::{Positions, positions_at, push_position};
use gf_versions::{Placed, Ranked};
use std::alloc::Global;
use std::collections::BTreeMap;

/// The visible versions of a site, topmost first.
#[derive(Drop)]
pub(crate) struct Shown {
    pub(crate) versions: Ranked<AnyShape>,
    /// The objects of polygons that xfig does not keep, one for each such version.
    pub(crate) thin: Vec<ObjectId>,
}

/// What a site shows, if it is no more than a drawing has.
pub(crate) fn shown_by(alloc: Global, base: &mut KeptSite) -> Result<Shown, DrawingError>
    ensures same { base.new ≡ base.old }
    ensures versions { IfOk result (λ shown. AreListed base.old.ops shown.versions) }
    ensures thin { IfOk result (λ shown. AreThinOf base.old.ops shown.thin.items) }
    ensures refused { (after : Option ℕ) (fig : List ℕ) (d : Drawn) → IfErr result
        (RefusesBase base.old.number after base.old.ops fig d) }
{
    match listed(alloc, base)? {
        None => Err(DrawingError::TooManyFigures),
        Some(versions) => {
            let thin = thin_polygons(alloc, &versions.items)?;
            Ok(Shown { versions, thin })
        }
    }
}

/// The visible versions of a site, if they are no more than a drawing has.
pub(crate) fn listed(
    alloc: Global,
    site: &mut KeptSite,
) -> Result<Option<Ranked<AnyShape>>, OutOfMemory>
    ensures same { site.new ≡ site.old }
    ensures some { IfOk result (λ found. IfSome found (AreListed site.old.ops)) }
    ensures none { IfOk result (λ found. IfNone found
        (HasMoreVisible site.old.ops MOST_VERSIONS)) }
{
    Ok(site.ranked(alloc)?)
}

/// Whether each operation creates an object, or is on one that has a version among these, which
/// stand at these places, or that the text names. The names are those that were read of the text.
pub(crate) fn are_on_shown(
    alloc: Global,
    fig: &[u8],
    names: &[Option<Named>],
    ops: &[Op],
    shown: &[Placed<AnyShape>],
    places: &Places,
) -> Result<bool, OutOfMemory>
    requires { ArePlaces shown.now (length shown.now) places.now }
    ensures { (h : List Op) → AreRanked h shown.now → IfOk result (λ on. on ≡ true
        → All (λ a. MayChange h fig.now a.change) ops.now) }
{
    let named = named_objects(alloc, fig, names)?;
    for op in ops {
        if !is_on_shown(&op.change, shown, places, &named) {
            return Ok(false);
        }
    }
    Ok(true)
}

/// Whether a change creates an object, or is of one that has a version among these, or that is one
/// of the named objects.
fn is_on_shown(
    change: &Change,
    shown: &[Placed<AnyShape>],
    places: &Places,
    named: &BTreeMap<ObjectId, Positions>,
) -> bool
    requires { ArePlaces shown.now (length shown.now) places.now }
    ensures { (fig : List ℕ) → HasNamesOf fig named.now.entries → result ≡ true
        → IsOnOne shown.now fig change.now }
{
    match change {
        Change::Create(_) => true,
        Change::Set { object, .. } => {
            has_version(shown, places, *object) || is_named(named, *object)
        }
    }
}

/// Whether an object has a version among these, which stand at these places.
pub(crate) fn has_version(shown: &[Placed<AnyShape>], places: &Places, object: ObjectId) -> bool
    requires { ArePlaces shown.now (length shown.now) places.now }
    ensures { IsTrue result ↔ IsOnItem shown.now object }
{
    for place in places.at(object) {
        if is_of(&shown[*place], object) {
            return true;
        }
    }
    false
}

/// Whether a version is one of an object.
pub(crate) fn is_of(item: &Placed<AnyShape>, object: ObjectId) -> bool
    ensures { IsTrue result ↔ (item.now.key.object ≡ object) }
{
    item.key.object == object
}

/// Whether an object is one of the named ones.
fn is_named(named: &BTreeMap<ObjectId, Positions>, object: ObjectId) -> bool
    ensures { result ≡ true → positions_of named.now.entries object ≢ [] }
{
    !positions_at(named, object).is_empty()
}

/// For each object that lines of a text name the indices of these names, which were read of the
/// text. The lines are looked for in the order of the names.
fn named_objects(
    alloc: Global,
    fig: &[u8],
    names: &[Option<Named>],
) -> Result<BTreeMap<ObjectId, Positions>, OutOfMemory>
    ensures { IfOk result (λ named. HasNamesOf fig.now named.entries) }
{
    let mut named = BTreeMap::new(alloc);
    let mut rest = fig;
    for (index, name) in names.iter().enumerate() {
        if let Some(name) = name {
            let object = name.name.object;
            let begins = name_begins(alloc, object)?;
            if let Some(after) = behind_line(rest, &begins) {
                push_position(alloc, &mut named, object, index)?;
                rest = after;
            }
        }
    }
    Ok(named)
}

/// How the line begins that names a figure of an object.
fn name_begins(alloc: Global, object: ObjectId) -> Result<Vec<u8>, OutOfMemory>
    ensures { IfOk result (λ text. text.items ≡ name_begins object) }
{
    let mut text = Vec::from_slice(alloc, b"# figgroup ")?;
    push_id(&mut text, object.0)?;
    text.extend_from_slice(b" at ")?;
    Ok(text)
}

/// What stands behind the first line of a text that begins so, if there is one.
fn behind_line<'a>(fig: &'a [u8], begins: &[u8]) -> Option<&'a [u8]>
    ensures { IfSome result (λ after. IsFirstLine fig.now begins.now after.now) }
{
    let mut rest = fig;
    while let Some((line, after)) = cut_line(rest) {
        if line.starts_with(begins) {
            return Some(after);
        }
        rest = after;
    }
    None
}
