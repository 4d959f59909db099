//! The members of a written line, part by part.

ghost use Rattle.std.specs.Prelude.{◌≡◌, OnOk};
ghost use Rattle.serde_json.specs.View.{view, members_view};
ghost use Rattle.gf_json.specs.WrittenLines.{attribute_word};
ghost use Rattle.gf_json.specs.WrittenMembers.{put_all, look_members, form_members};
ghost use Rattle.gf_json.specs.WrittenMembers.{shape_members, set_members, aim_members};

use crate::writing::values::{
    colour_data, ids_data, name_data, point_data, points_data, size_data, value_data,
};
use gf_ops::{Form, Ids, ObjectId, Start};
use serde_json::{Map, Value, put};
use std::alloc::{AllocError, Global};

/// Puts the members that the line of each new object has.
pub(crate) fn put_look(
    alloc: Global,
    members: &mut Map<String, Value>,
    start: &Start,
) -> Result<(), AllocError>
    ensures { OnOk result (members_view members.new.entries
        ≡ put_all (look_members start.now) (members_view members.old.entries)) }
{
    put(members, alloc, "colour", colour_data(alloc, start.colour)?)?;
    put(members, alloc, "layer", Value::from(start.layer))?;
    put(members, alloc, "place", point_data(alloc, start.place)?)?;
    put(members, alloc, "shown", Value::from(start.shown))
}

/// Puts the kind of a form, and its size or its points.
pub fn put_form(
    alloc: Global,
    members: &mut Map<String, Value>,
    form: &Form,
) -> Result<(), AllocError>
    ensures { OnOk result (members_view members.new.entries
        ≡ put_all (form_members form.now) (members_view members.old.entries)) }
{
    match form {
        Form::Rect(width, height) => {
            let size = size_data(alloc, *width, *height)?;
            put_shape(alloc, members, "box", "size", size)
        }
        Form::Polygon(points) => {
            let points = points_data(alloc, points)?;
            put_shape(alloc, members, "polygon", "points", points)
        }
        Form::Circle(radius) => {
            let size = size_data(alloc, *radius, *radius)?;
            put_shape(alloc, members, "circle", "size", size)
        }
        Form::Ellipse(rx, ry) => {
            let size = size_data(alloc, *rx, *ry)?;
            put_shape(alloc, members, "ellipse", "size", size)
        }
    }
}

fn put_shape(
    alloc: Global,
    members: &mut Map<String, Value>,
    kind: &str,
    key: &str,
    shape: Value,
) -> Result<(), AllocError>
    ensures { OnOk result (members_view members.new.entries
        ≡ put_all (shape_members kind.now key.now (view shape))
        (members_view members.old.entries)) }
{
    put(members, alloc, "kind", Value::try_from_str(alloc, kind)?)?;
    put(members, alloc, key, shape)
}

/// Puts the members that each line of a change to an attribute has.
pub(crate) fn put_setting(
    alloc: Global,
    members: &mut Map<String, Value>,
    object: ObjectId,
    value: &gf_ops::Value,
    aim: &Ids,
) -> Result<(), AllocError>
    ensures { OnOk result (members_view members.new.entries
        ≡ put_all (set_members object value.now aim.now) (members_view members.old.entries)) }
{
    put(members, alloc, "object", name_data(alloc, object.0)?)?;
    let word = Value::try_from_str(alloc, attribute_word(value))?;
    put(members, alloc, "set", word)?;
    put(members, alloc, "to", value_data(alloc, value)?)?;
    put_aim(alloc, members, aim)
}

/// Puts the key of the aim, if that has ids.
fn put_aim(alloc: Global, members: &mut Map<String, Value>, aim: &Ids) -> Result<(), AllocError>
    ensures { OnOk result (members_view members.new.entries
        ≡ put_all (aim_members aim.now) (members_view members.old.entries)) }
{
    if aim.as_slice().is_empty() {
        return Ok(());
    }
    put(members, alloc, "aim", ids_data(alloc, aim)?)
}

/// The word for the attribute of a value.
fn attribute_word(value: &gf_ops::Value) -> &str
    ensures { result.now ≡ attribute_word value.now }
{
    match value {
        gf_ops::Value::Place(_) => "place",
        gf_ops::Value::Points(_) => "points",
        gf_ops::Value::Size(_, _) => "size",
        gf_ops::Value::Colour(_) => "colour",
        gf_ops::Value::Layer(_) => "layer",
        gf_ops::Value::Shown(_) => "shown",
    }
}
