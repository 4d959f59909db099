//! The settled values of versions.

ghost use Rattle.std.specs.Prelude.{◌≡◌, Contains, IfOk};
ghost use Rattle.gf_ops.specs.ValidHistory.{IsValid};
ghost use Rattle.gf_groups.specs.declared.group.Group.{Group};
ghost use Rattle.gf_groups.specs.Versions.{IsVersionGroup};
ghost use Rattle.gf_versions.specs.ListedVersions.{AreSettled};
ghost use Rattle.gf_versions.specs.Settling.{HasAttribute, IsFormOf, IsLastSetter};
ghost use Rattle.gf_versions.specs.VersionOf.{IsVersionOf};

use crate::giving::{colour, layer, place, points, sets, shown, size};
use crate::{Version, VersionKey};
use gf_base::OutOfMemory;
use gf_groups::Group;
use gf_ops::{Attr, Change, Form, History, Ids, Op, OpId, before};
use std::alloc::Global;

/// The version of this group, each attribute with the value that its last setter gives it.
pub fn settle(alloc: Global, history: &History, group: &Group) -> Result<Version, OutOfMemory>
    requires { IsVersionGroup history.now.ops group.now }
    ensures object { IfOk result (λ version. version.key.object ≡ group.now.object) }
    ensures ops { IfOk result (λ version. version.key.ops ≡ group.now.ops) }
    ensures version { IfOk result (λ version. IsVersionOf history.now.ops version) }
{
    Ok(Version {
        key: VersionKey {
            layer: layer(last_setter(history, group, Attr::Layer)),
            object: group.object,
            ops: group.ops.copy(alloc)?,
        },
        form: settled_form(alloc, history, group)?,
        place: place(last_setter(history, group, Attr::Place)),
        colour: colour(last_setter(history, group, Attr::Colour)),
        shown: shown(last_setter(history, group, Attr::Shown)),
    })
}

/// The versions of these groups, in the order of the groups.
pub fn settle_all(
    alloc: Global,
    history: &History,
    groups: &[Group],
) -> Result<Vec<Version>, OutOfMemory>
    requires { (g : Group) → Contains groups.now g → IsVersionGroup history.now.ops g }
    ensures { IfOk result (λ versions. AreSettled history.now.ops groups.now versions.items) }
{
    let mut versions = Vec::new(alloc);
    for group in groups {
        versions.push(settle(alloc, history, group)?)?;
    }
    Ok(versions)
}

/// The form of the group's object, of the kind that it was made with, with the settled size or
/// points.
fn settled_form(alloc: Global, history: &History, group: &Group) -> Result<Form, OutOfMemory>
    requires { IsVersionGroup history.now.ops group.now }
    ensures { IfOk result (λ form. IsFormOf history.now.ops group.now form) }
{
    let Change::Create(start) = &maker(history, group).change else {
        unreachable!()
    };
    match &start.form {
        Form::Rect(_, _) => {
            let (width, height) = size(last_setter(history, group, Attr::Size));
            Ok(Form::Rect(width, height))
        }
        Form::Circle(_) => {
            let (radius, _) = size(last_setter(history, group, Attr::Size));
            Ok(Form::Circle(radius))
        }
        Form::Ellipse(_, _) => {
            let (rx, ry) = size(last_setter(history, group, Attr::Size));
            Ok(Form::Ellipse(rx, ry))
        }
        Form::Polygon(_) => {
            let points = points(last_setter(history, group, Attr::Points));
            Ok(Form::Polygon(points.copy(alloc)?))
        }
    }
}

/// A last operation of the group that sets this attribute of its object.
fn last_setter<'a>(history: &'a History, group: &Group, attribute: Attr) -> &'a Op
    requires version { IsVersionGroup history.now.ops group.now }
    requires has { HasAttribute history.now.ops group.now.object attribute }
    ensures { IsLastSetter history.now.ops group.now.ops attribute result.now }
{
    let mut last = maker(history, group);
    for id in group.ops.as_slice() {
        if let Some(op) = history.get(*id) {
            if sets(op, attribute) && before(last, op) {
                last = op;
            }
        }
    }
    last
}

/// The creation of the group's object.
fn maker<'a>(history: &'a History, group: &Group) -> &'a Op
    requires { IsVersionGroup history.now.ops group.now }
    ensures contained { Contains history.now.ops result.now }
    ensures id { result.now.id ≡ group.now.object.0 }
    ensures valid { IsValid history.now.ops }
{
    history.recall_valid();
    match history.get(group.object.0) {
        Some(op) => op,
        None => unreachable!(),
    }
}
