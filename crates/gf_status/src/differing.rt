//! The attributes whose values differ among the visible versions of an object.

ghost use Rattle.std.specs.Prelude.{◌≡◌, ◌↔◌, Contains, IfOk, map, option_map};
ghost use Rattle.gf_ops.specs.declared.op.Op.{Op};
ghost use Rattle.gf_ops.specs.Version.{IsMember};
ghost use Rattle.gf_groups.specs.declared.group.Group.{Group};
ghost use Rattle.gf_groups.specs.Versions.{IsVersionGroup};
ghost use Rattle.gf_visible.specs.ShownVersions.{AreVisibleOn};
ghost use Rattle.gf_status.specs.Differing.{AreDifferences, AreGivers, attributes};
ghost use Rattle.gf_status.specs.Differing.{version_value};
ghost use Rattle.gf_ops.specs.Attribute.{form_value, value_as};
ghost use Rattle.gf_ops.specs.declared.change.Attr.TheVariants as attr;
ghost use Rattle.gf_ops.specs.declared.change.Value.TheVariants as value;
ghost use Rattle.std.specs.List.{list_any};
ghost use Rattle.gf_status.specs.Setters.{IsLastIn, IsLastInOne, are_others, some_differ};

use crate::ids::ids_of;
use crate::setters::{lasts, setters};
use gf_base::OutOfMemory;
use gf_groups::Group;
use gf_ops::{Attr, Form, History, Ids, Op, OpId, Points};
use gf_versions::{Version, settle_all};
use std::alloc::Global;

/// The attributes that a status compares. `Shown` is none of them, since visible versions are all
/// shown.
const ATTRIBUTES: [Attr; 5] = [
    Attr::Place,
    Attr::Points,
    Attr::Size,
    Attr::Colour,
    Attr::Layer,
];

/// An attribute that differs among an object's visible versions, and the operations that give its
/// values there, rising by id.
#[derive(Drop)]
pub struct Difference {
    pub attribute: Attr,
    pub givers: Ids,
}

/// The attributes that differ among the visible versions with these groups, in the order of
/// [`Attr`].
pub(crate) fn differences(
    alloc: Global,
    history: &History,
    groups: &[Group],
) -> Result<Vec<Difference>, OutOfMemory>
    requires { (g : Group) → Contains groups.now g → IsVersionGroup history.now.ops g }
    ensures { IfOk result (λ found. (o : _) → AreVisibleOn history.now.ops o groups.now
        → AreDifferences history.now.ops o attributes found.items) }
{
    differing_of(alloc, history, groups, &ATTRIBUTES)
}

/// The attributes that differ among the visible versions with these groups.
fn differing_of(
    alloc: Global,
    history: &History,
    groups: &[Group],
    attributes: &[Attr],
) -> Result<Vec<Difference>, OutOfMemory>
    requires { (g : Group) → Contains groups.now g → IsVersionGroup history.now.ops g }
    ensures { IfOk result (λ found. (o : _) → AreVisibleOn history.now.ops o groups.now
        → AreDifferences history.now.ops o attributes.now found.items) }
{
    history.recall_valid();
    let versions = settle_all(alloc, history, groups)?;
    let mut found = Vec::new(alloc);
    for attribute in attributes {
        if some_differ(*attribute, &versions) {
            let givers = givers(alloc, history, groups, *attribute)?;
            found.push(Difference {
                attribute: *attribute,
                givers,
            })?;
        }
    }
    Ok(found)
}

/// Whether one of the versions has another value of the attribute than the first.
fn some_differ(attribute: Attr, versions: &[Version]) -> bool
    ensures { result ≡ some_differ attribute versions.now }
{
    match versions {
        [] => false,
        [first, rest @ ..] => some_other(attribute, first, rest),
    }
}

/// Whether one of the others has another value of the attribute.
fn some_other(attribute: Attr, first: &Version, others: &[Version]) -> bool
    ensures { result ≡ list_any (λ w. are_others (version_value first.now attribute)
        (version_value w attribute)) others.now }
{
    others
        .iter()
        .any(|other| differ_in(attribute, first, other))
}

/// Whether two versions of an object have different values of the attribute.
fn differ_in(attribute: Attr, first: &Version, other: &Version) -> bool
    ensures { result ≡ are_others (version_value first.now attribute)
        (version_value other.now attribute) }
{
    match attribute {
        Attr::Place => first.place != other.place,
        Attr::Points => points_differ(&first.form, &other.form),
        Attr::Size => sizes_differ(&first.form, &other.form),
        Attr::Colour => first.colour != other.colour,
        Attr::Layer => first.key.layer != other.key.layer,
        Attr::Shown => first.shown != other.shown,
    }
}

/// Whether one form is a polygon and the other is none, or both are and have different points.
fn points_differ(first: &Form, other: &Form) -> bool
    ensures { result ≡ are_others (value_as (form_value first.now) attr.Points)
        (value_as (form_value other.now) attr.Points) }
{
    match (points(first), points(other)) {
        (Some(points), Some(others)) => points != others,
        (None, None) => false,
        (Some(_), None) | (None, Some(_)) => true,
    }
}

/// The points of the form, if it is a polygon.
fn points(form: &Form) -> Option<&Points>
    ensures { option_map (λ p. value.Points p.now) result
        ≡ value_as (form_value form.now) attr.Points }
{
    match form {
        Form::Polygon(points) => Some(points),
        Form::Rect(_, _) | Form::Circle(_) | Form::Ellipse(_, _) => None,
    }
}

/// Whether one form has a size and the other has none, or both have different sizes.
fn sizes_differ(first: &Form, other: &Form) -> bool
    ensures { result ≡ are_others (value_as (form_value first.now) attr.Size)
        (value_as (form_value other.now) attr.Size) }
{
    match (size(first), size(other)) {
        (Some((width, height)), Some((other_width, other_height))) => {
            !(width == other_width && height == other_height)
        }
        (None, None) => false,
        (Some(_), None) | (None, Some(_)) => true,
    }
}

/// The two numbers of the form's size, if its kind has one.
fn size(form: &Form) -> Option<(u32, u32)>
    ensures { option_map (λ s. value.Size s.0 s.1) result
        ≡ value_as (form_value form.now) attr.Size }
{
    match form {
        Form::Rect(width, height) => Some((*width, *height)),
        Form::Circle(radius) => Some((*radius, *radius)),
        Form::Ellipse(rx, ry) => Some((*rx, *ry)),
        Form::Polygon(_) => None,
    }
}

/// The ids of the operations that give the attribute its value in one of the groups, rising.
fn givers(
    alloc: Global,
    history: &History,
    groups: &[Group],
    attribute: Attr,
) -> Result<Ids, OutOfMemory>
    ensures { IfOk result (λ ids. (o : _) → AreVisibleOn history.now.ops o groups.now
        → AreGivers history.now.ops o attribute ids) }
{
    let found = giving(alloc, history, groups, attribute)?;
    let ids = ids_of(alloc, &found)?;
    Ok(ids)
}

/// The operations that give the attribute its value in one of the groups.
fn giving<'h>(
    alloc: Global,
    history: &'h History,
    groups: &[Group],
    attribute: Attr,
) -> Result<Vec<&'h Op>, OutOfMemory>
    ensures { IfOk result (λ found. (a : Op) → Contains (map (λ r. r.now) found.items) a
        ↔ IsLastInOne history.now.ops attribute groups.now a) }
{
    let mut found = Vec::new(alloc);
    for group in groups {
        let mut more = last_setters(alloc, history, group, attribute)?;
        found.append(&mut more)?;
    }
    Ok(found)
}

/// The operations that give the attribute its value in the group.
fn last_setters<'h>(
    alloc: Global,
    history: &'h History,
    group: &Group,
    attribute: Attr,
) -> Result<Vec<&'h Op>, OutOfMemory>
    ensures { IfOk result (λ found. (a : Op) → Contains (map (λ r. r.now) found.items) a
        ↔ IsLastIn history.now.ops attribute group.now.ops a) }
{
    let members = members(alloc, history, group.ops.as_slice())?;
    let found = setters(alloc, &members, attribute)?;
    let last = lasts(alloc, history, &found)?;
    Ok(last)
}

/// The operations under these ids.
fn members<'h>(
    alloc: Global,
    history: &'h History,
    ids: &[OpId],
) -> Result<Vec<&'h Op>, OutOfMemory>
    ensures { IfOk result (λ found. (a : Op) → Contains (map (λ r. r.now) found.items) a
        ↔ IsMember history.now.ops ids.now a) }
{
    history.recall_valid();
    let mut found = Vec::new(alloc);
    for id in ids {
        if let Some(op) = history.get(*id) {
            found.push(op)?;
        }
    }
    Ok(found)
}
