//! The texts of versions and of what is on top, in words.

ghost use Rattle.std.specs.Prelude.{◌≡◌, ◌++◌, IfOk, OnOk, option_copied};
ghost use Rattle.gf_inspect.specs.VersionLines.{ids_text, name_text};
ghost use Rattle.gf_inspect.specs.VersionLines.{point_text, corner_text, kind_word, size_text};
ghost use Rattle.gf_inspect.specs.VersionLines.{points_text, measure_text, colour_text, layer_text};
ghost use Rattle.gf_inspect.specs.VersionLines.{shown_word, form_text, look_text, version_line};
ghost use Rattle.gf_inspect.specs.VersionLines.{many_line, top_text, top_line};

use crate::VersionName;
use gf_base::{OutOfMemory, push_number};
use gf_ops::{Form, ObjectId, OpId, push_id, push_spaced_ids};
use gf_plane::push_hex_rgb;
use gf_shape::{Point, Rgb};
use gf_versions::Version;
use std::alloc::{AllocError, Global};

/// The line of what is on top at a point: a version, or white.
pub(crate) fn top_line(
    alloc: Global,
    point: Point,
    name: Option<&VersionName>,
) -> Result<Vec<u8>, OutOfMemory>
    ensures { IfOk result (λ text. text.items ≡ top_line point (option_copied name.entry)) }
{
    let mut out = Vec::new(alloc);
    out.extend_from_slice(b"top ")?;
    push_point(&mut out, point)?;
    out.extend_from_slice(b" is ")?;
    push_top(&mut out, name)?;
    out.push(b'\n')?;
    Ok(out)
}

/// Appends that an object has more versions than are listed.
#[tactic(auto, unfolding(crate::specs::VersionLines::many_line))]
pub(crate) fn push_many(out: &mut Vec<u8>, object: ObjectId) -> Result<(), AllocError>
    ensures { OnOk result (out.new.items ≡ out.old.items ++ many_line object) }
{
    out.extend_from_slice(b"object ")?;
    push_id(out, object.0)?;
    out.extend_from_slice(b" has more than 1000 versions\n")
}

fn push_top(out: &mut Vec<u8>, name: Option<&VersionName>) -> Result<(), AllocError>
    ensures { OnOk result (out.new.items ≡ out.old.items ++ top_text (option_copied name.entry)) }
{
    match name {
        Some(name) => push_name(out, name.object, name.ops.as_slice()),
        None => out.extend_from_slice(b"white"),
    }
}

/// Appends the line of a version.
#[tactic(auto, unfolding(crate::specs::VersionLines::version_line))]
pub(crate) fn push_version(out: &mut Vec<u8>, version: &Version) -> Result<(), AllocError>
    ensures { OnOk result (out.new.items ≡ out.old.items ++ version_line version.now) }
{
    out.extend_from_slice(b"version ")?;
    push_name(out, version.key.object, version.key.ops.as_slice())?;
    push_form(out, version)?;
    push_look(out, version)?;
    out.push(b'\n')?;
    Ok(())
}

/// Appends the kind, the place and the size or the points.
#[tactic(auto, unfolding(crate::specs::VersionLines::form_text))]
fn push_form(out: &mut Vec<u8>, version: &Version) -> Result<(), AllocError>
    ensures { OnOk result (out.new.items ≡ out.old.items ++ form_text version.now) }
{
    out.push(b' ')?;
    out.extend_from_slice(kind_word(&version.form))?;
    out.extend_from_slice(b" place ")?;
    push_point(out, version.place)?;
    push_measure(out, &version.form)
}

/// Appends the size, or the points.
fn push_measure(out: &mut Vec<u8>, form: &Form) -> Result<(), AllocError>
    ensures { OnOk result (out.new.items ≡ out.old.items ++ measure_text form.now) }
{
    match form {
        Form::Rect(width, height) => push_size(out, *width, *height),
        Form::Circle(radius) => push_size(out, *radius, *radius),
        Form::Ellipse(rx, ry) => push_size(out, *rx, *ry),
        Form::Polygon(points) => push_points(out, points.as_slice()),
    }
}

fn push_size(out: &mut Vec<u8>, width: u32, height: u32) -> Result<(), AllocError>
    ensures { OnOk result (out.new.items ≡ out.old.items ++ size_text width height) }
{
    out.extend_from_slice(b" size ")?;
    push_number(out, width)?;
    out.push(b' ')?;
    push_number(out, height)
}

fn push_points(out: &mut Vec<u8>, points: &[Point]) -> Result<(), AllocError>
    ensures { OnOk result (out.new.items ≡ out.old.items ++ points_text points.now) }
{
    out.extend_from_slice(b" points")?;
    for point in points {
        push_corner(out, *point)?;
    }
    Ok(())
}

/// Appends the colour, the layer and whether it is shown.
#[tactic(auto, unfolding(crate::specs::VersionLines::look_text))]
fn push_look(out: &mut Vec<u8>, version: &Version) -> Result<(), AllocError>
    ensures { OnOk result (out.new.items ≡ out.old.items ++ look_text version.now) }
{
    push_colour(out, version.colour)?;
    push_layer(out, version.key.layer)?;
    out.push(b' ')?;
    out.extend_from_slice(shown_word(version.shown))
}

fn push_colour(out: &mut Vec<u8>, c: Rgb) -> Result<(), AllocError>
    ensures { OnOk result (out.new.items ≡ out.old.items ++ colour_text c) }
{
    out.extend_from_slice(b" colour ")?;
    push_hex_rgb(out, c)
}

fn push_layer(out: &mut Vec<u8>, layer: u16) -> Result<(), AllocError>
    ensures { OnOk result (out.new.items ≡ out.old.items ++ layer_text layer) }
{
    out.extend_from_slice(b" layer ")?;
    push_number(out, layer)
}

/// Appends an object, and the ids of a version in brackets.
#[tactic(auto, unfolding(crate::specs::VersionLines::name_text))]
fn push_name(out: &mut Vec<u8>, object: ObjectId, ops: &[OpId]) -> Result<(), AllocError>
    ensures { OnOk result (out.new.items ≡ out.old.items ++ name_text object ops.now) }
{
    push_id(out, object.0)?;
    out.extend_from_slice(b" [")?;
    push_ids(out, ops)?;
    out.push(b']')?;
    Ok(())
}

fn push_ids(out: &mut Vec<u8>, ids: &[OpId]) -> Result<(), AllocError>
    ensures { OnOk result (out.new.items ≡ out.old.items ++ ids_text ids.now) }
{
    match ids {
        [] => Ok(()),
        [first, rest @ ..] => {
            push_id(out, *first)?;
            push_spaced_ids(out, rest)
        }
    }
}

fn push_point(out: &mut Vec<u8>, p: Point) -> Result<(), AllocError>
    ensures { OnOk result (out.new.items ≡ out.old.items ++ point_text p) }
{
    push_number(out, p.x)?;
    out.push(b' ')?;
    push_number(out, p.y)
}

/// Appends a blank, and both coordinates of a corner.
fn push_corner(out: &mut Vec<u8>, p: Point) -> Result<(), AllocError>
    ensures { OnOk result (out.new.items ≡ out.old.items ++ corner_text p) }
{
    out.push(b' ')?;
    push_number(out, p.x)?;
    out.push(b',')?;
    push_number(out, p.y)
}

fn kind_word(form: &Form) -> &'static [u8]
    ensures { result.now ≡ kind_word form.now }
{
    match form {
        Form::Rect(_, _) => b"box",
        Form::Circle(_) => b"circle",
        Form::Ellipse(_, _) => b"ellipse",
        Form::Polygon(_) => b"polygon",
    }
}

fn shown_word(shown: bool) -> &'static [u8]
    ensures { result.now ≡ shown_word shown }
{
    if shown { b"shown" } else { b"hidden" }
}
