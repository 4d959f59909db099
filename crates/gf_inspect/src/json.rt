//! The texts of versions and of what is on top, as JSON.

ghost use Rattle.std.specs.Prelude.{◌≡◌, ◌++◌, IfOk, OnOk, option_copied};
ghost use Rattle.serde_json.specs.View.{view, members_view};
ghost use Rattle.gf_json.specs.Notations.{json_line};
ghost use Rattle.gf_json.specs.WrittenMembers.{put_all};
ghost use Rattle.gf_inspect.specs.VersionJson.{many_data, name_members, top_data, version_data};

use crate::VersionName;
use gf_base::OutOfMemory;
use gf_json::{colour_data, ids_data, name_data, point_data, push_line, put_form};
use gf_ops::ObjectId;
use gf_shape::Point;
use gf_versions::{MOST_VERSIONS, Version};
use serde_json::{Map, Value, put};
use std::alloc::{AllocError, Global};

/// The line of what is on top at a point: a version, or none.
pub(crate) fn top_json(
    alloc: Global,
    point: Point,
    name: Option<&VersionName>,
) -> Result<Vec<u8>, OutOfMemory>
    ensures { IfOk result (λ text.
        text.items ≡ json_line (top_data point (option_copied name.entry))) }
{
    let mut out = Vec::new(alloc);
    push_line(&mut out, alloc, &top_data(alloc, point, name)?)?;
    Ok(out)
}

fn top_data(alloc: Global, point: Point, name: Option<&VersionName>) -> Result<Value, AllocError>
    ensures { IfOk result (λ v. view v ≡ top_data point (option_copied name.entry)) }
{
    let mut members = Map::new(alloc);
    put(&mut members, alloc, "at", point_data(alloc, point)?)?;
    put_name(alloc, &mut members, name)?;
    Ok(Value::Object(members))
}

/// Puts the object and the ids of a version, if there is one.
fn put_name(
    alloc: Global,
    members: &mut Map<String, Value>,
    name: Option<&VersionName>,
) -> Result<(), AllocError>
    ensures { OnOk result (members_view members.new.entries
        ≡ put_all (name_members (option_copied name.entry)) (members_view members.old.entries)) }
{
    match name {
        Some(name) => {
            put(members, alloc, "object", name_data(alloc, name.object.0)?)?;
            put(members, alloc, "operations", ids_data(alloc, &name.ops)?)
        }
        None => Ok(()),
    }
}

/// Appends that an object has more versions than are listed.
pub(crate) fn push_many(
    out: &mut Vec<u8>,
    alloc: Global,
    object: ObjectId,
) -> Result<(), AllocError>
    ensures { OnOk result (out.new.items ≡ out.old.items ++ json_line (many_data object)) }
{
    push_line(out, alloc, &many_data(alloc, object)?)
}

fn many_data(alloc: Global, object: ObjectId) -> Result<Value, AllocError>
    ensures { IfOk result (λ v. view v ≡ many_data object) }
{
    let mut members = Map::new(alloc);
    put(&mut members, alloc, "object", name_data(alloc, object.0)?)?;
    put(
        &mut members,
        alloc,
        "versions",
        Value::from(MOST_VERSIONS + 1),
    )?;
    Ok(Value::Object(members))
}

/// Appends the line of a version.
pub(crate) fn push_version(
    out: &mut Vec<u8>,
    alloc: Global,
    version: &Version,
) -> Result<(), AllocError>
    ensures { OnOk result (out.new.items ≡ out.old.items ++ json_line (version_data version.now)) }
{
    push_line(out, alloc, &version_data(alloc, version)?)
}

fn version_data(alloc: Global, version: &Version) -> Result<Value, AllocError>
    ensures { IfOk result (λ v. view v ≡ version_data version.now) }
{
    let mut members = Map::new(alloc);
    put(
        &mut members,
        alloc,
        "colour",
        colour_data(alloc, version.colour)?,
    )?;
    put(&mut members, alloc, "layer", Value::from(version.key.layer))?;
    put(
        &mut members,
        alloc,
        "object",
        name_data(alloc, version.key.object.0)?,
    )?;
    put(
        &mut members,
        alloc,
        "operations",
        ids_data(alloc, &version.key.ops)?,
    )?;
    put(
        &mut members,
        alloc,
        "place",
        point_data(alloc, version.place)?,
    )?;
    put(&mut members, alloc, "shown", Value::from(version.shown))?;
    put_form(alloc, &mut members, &version.form)?;
    Ok(Value::Object(members))
}
