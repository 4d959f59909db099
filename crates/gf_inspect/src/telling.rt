//! The texts of versions and of what is on top, in words or as JSON.

ghost use Rattle.std.specs.Prelude.{◌≡◌, ◌++◌, IfOk, OnOk, flat_map, option_copied};
ghost use Rattle.gf_groups.specs.Versions.{IsMade};
ghost use Rattle.gf_inspect.specs.Told.{TellsObject, TellsObjects, is_left_out, told_many};
ghost use Rattle.gf_inspect.specs.Told.{told_top, told_version};

use crate::{VersionName, json, texts, versions_with};
use gf_base::OutOfMemory;
use gf_groups::GroupFault;
use gf_json::Notation;
use gf_listing::Versions;
use gf_names::objects;
use gf_ops::ObjectId;
use gf_shape::Point;
use gf_versions::{MOST_VERSIONS, Version};
use std::alloc::{AllocError, Global};

/// A line for each version, in their order. It has object, ids, kind, place, size or points,
/// colour, layer, and whether the version is shown.
pub fn lines(
    alloc: Global,
    notation: Notation,
    versions: &[Version],
) -> Result<Vec<u8>, OutOfMemory>
    ensures { IfOk result (λ text. text.items ≡ flat_map (told_version notation) versions.now) }
{
    let mut out = Vec::new(alloc);
    push_versions(&mut out, alloc, notation, versions)?;
    Ok(out)
}

/// The line of what is on top at a point: a version, or the ground.
pub fn top_line(
    alloc: Global,
    notation: Notation,
    point: Point,
    name: Option<&VersionName>,
) -> Result<Vec<u8>, OutOfMemory>
    ensures { IfOk result (λ text. text.items
        ≡ told_top notation point (option_copied name.entry)) }
{
    match notation {
        Notation::Words => texts::top_line(alloc, point, name),
        Notation::Json => json::top_json(alloc, point, name),
    }
}

/// The lines of the versions of all objects, rising by id, or only of those with several versions.
/// Of an object with more than 1,000 a line says this instead.
pub fn object_lines(
    alloc: Global,
    notation: Notation,
    versions: &Versions<'_>,
    several: bool,
) -> Result<Vec<u8>, OutOfMemory>
    ensures { IfOk result (λ text. TellsObjects notation versions.now several text.items) }
{
    let ids = objects(alloc, versions.history())?;
    let mut out = Vec::new(alloc);
    for id in ids.as_slice() {
        let more = lines_of(alloc, notation, versions, several, ObjectId(*id))?;
        out.extend_from_slice(&more)?;
    }
    Ok(out)
}

/// The lines of an object that the history made; none where only those of several versions are
/// asked for, and it has one.
fn lines_of(
    alloc: Global,
    notation: Notation,
    versions: &Versions<'_>,
    several: bool,
    object: ObjectId,
) -> Result<Vec<u8>, OutOfMemory>
    requires { IsMade versions.now object }
    ensures { IfOk result (λ text. TellsObject notation versions.now several object text.items) }
{
    let count = versions.count(alloc, object)?;
    if is_left_out(several, count) {
        return Ok(Vec::new(alloc));
    }
    if MOST_VERSIONS < count {
        let text = many(alloc, notation, object)?;
        return Ok(text);
    }
    match versions_with(alloc, versions, object) {
        Ok(found) => {
            let text = lines(alloc, notation, &found)?;
            Ok(text)
        }
        // The object was made, so that this is never so.
        Err(GroupFault::NoObject) => Ok(Vec::new(alloc)),
        Err(GroupFault::OutOfMemory) => Err(OutOfMemory),
    }
}

/// Whether only objects with several versions are asked for, and one with this count has no more
/// than one.
fn is_left_out(several: bool, count: usize) -> bool
    ensures { result ≡ is_left_out several count }
{
    several && count <= 1
}

/// The line that an object has more versions than are listed.
fn many(alloc: Global, notation: Notation, object: ObjectId) -> Result<Vec<u8>, OutOfMemory>
    ensures { IfOk result (λ text. text.items ≡ told_many notation object) }
{
    let mut out = Vec::new(alloc);
    match notation {
        Notation::Words => texts::push_many(&mut out, object)?,
        Notation::Json => json::push_many(&mut out, alloc, object)?,
    }
    Ok(out)
}

/// Appends a line for each version.
fn push_versions(
    out: &mut Vec<u8>,
    alloc: Global,
    notation: Notation,
    versions: &[Version],
) -> Result<(), AllocError>
    ensures { OnOk result (out.new.items
        ≡ out.old.items ++ flat_map (told_version notation) versions.now) }
{
    for version in versions {
        push_version(out, alloc, notation, version)?;
    }
    Ok(())
}

/// Appends the line of a version.
fn push_version(
    out: &mut Vec<u8>,
    alloc: Global,
    notation: Notation,
    version: &Version,
) -> Result<(), AllocError>
    ensures { OnOk result (out.new.items ≡ out.old.items ++ told_version notation version.now) }
{
    match notation {
        Notation::Words => texts::push_version(out, version),
        Notation::Json => json::push_version(out, alloc, version),
    }
}
