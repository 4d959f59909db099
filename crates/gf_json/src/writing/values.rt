//! The values of a written line.

ghost use Rattle.std.specs.Prelude.{◌≡◌, IfOk, OnOk, length, map, string_bytes};
ghost use Rattle.gf_plane.specs.HexDigits.{hex_rgb};
ghost use Rattle.serde_json.specs.View.{view};
ghost use Rattle.gf_json.specs.WrittenValues.{natural_data, pair_data, name_data, ids_data};
ghost use Rattle.gf_json.specs.WrittenValues.{clock_data, point_data, points_data, size_data};
ghost use Rattle.gf_json.specs.WrittenValues.{colour_data, value_data};

use gf_ops::{Clock, Ids, OpId, Points};
use gf_plane::{Point, Rgb};
use serde_json::{Value, json};
use std::alloc::{AllocError, Global};

/// A name, as `[1,6]`.
pub fn name_data(alloc: Global, name: OpId) -> Result<Value, AllocError>
    ensures { IfOk result (λ v. view v ≡ name_data name) }
{
    pair_data(alloc, Value::from(name.site), Value::from(name.seq))
}

/// An array of the ids.
pub fn ids_data(alloc: Global, ids: &Ids) -> Result<Value, AllocError>
    ensures { IfOk result (λ v. view v ≡ ids_data ids.now) }
{
    let values = name_values(alloc, ids.as_slice())?;
    Ok(Value::Array(values))
}

fn name_values(alloc: Global, ids: &[OpId]) -> Result<Vec<Value>, AllocError>
    ensures { IfOk result (λ vs. map view vs.items ≡ map name_data ids.now) }
{
    let mut values = Vec::new(alloc);
    for id in ids {
        values.push(name_data(alloc, *id)?)?;
    }
    Ok(values)
}

pub(crate) fn clock_data(alloc: Global, clock: &Clock) -> Result<Value, AllocError>
    ensures value { IfOk result (λ v. view v ≡ clock_data clock.now) }
    ensures eight { OnOk result (length clock.now.0 ≡ 8) }
{
    let entries = entries(alloc, &clock.0)?;
    Ok(Value::Array(entries))
}

fn entries(alloc: Global, numbers: &[u32]) -> Result<Vec<Value>, AllocError>
    ensures { IfOk result (λ vs. map view vs.items ≡ map natural_data numbers.now) }
{
    let mut values = Vec::new(alloc);
    for number in numbers {
        values.push(Value::from(*number))?;
    }
    Ok(values)
}

/// A point, as `[10,-5]`.
pub fn point_data(alloc: Global, point: Point) -> Result<Value, AllocError>
    ensures { IfOk result (λ v. view v ≡ point_data point) }
{
    pair_data(alloc, Value::from(point.x), Value::from(point.y))
}

pub(crate) fn points_data(alloc: Global, points: &Points) -> Result<Value, AllocError>
    ensures { IfOk result (λ v. view v ≡ points_data points.now) }
{
    let values = point_values(alloc, points.as_slice())?;
    Ok(Value::Array(values))
}

fn point_values(alloc: Global, points: &[Point]) -> Result<Vec<Value>, AllocError>
    ensures { IfOk result (λ vs. map view vs.items ≡ map point_data points.now) }
{
    let mut values = Vec::new(alloc);
    for point in points {
        values.push(point_data(alloc, *point)?)?;
    }
    Ok(values)
}

pub(crate) fn size_data(alloc: Global, width: u32, height: u32) -> Result<Value, AllocError>
    ensures { IfOk result (λ v. view v ≡ size_data width height) }
{
    pair_data(alloc, Value::from(width), Value::from(height))
}

/// An array of two values.
fn pair_data(alloc: Global, first: Value, second: Value) -> Result<Value, AllocError>
    ensures { IfOk result (λ v. view v ≡ pair_data (view first) (view second)) }
{
    json!(in alloc; [first, second])
}

/// A colour, as `"ff8000"`.
pub fn colour_data(alloc: Global, colour: Rgb) -> Result<Value, AllocError>
    ensures { IfOk result (λ v. view v ≡ colour_data colour) }
{
    let text = hex_rgb(alloc, colour)?;
    Ok(Value::String(text))
}

/// Six hexadecimal digits in lower case.
#[tactic(auto, using(std::proofs::lemmas::Fmt::hex_byte))]
fn hex_rgb(alloc: Global, colour: Rgb) -> Result<String, AllocError>
    ensures { IfOk result (λ s. string_bytes s ≡ hex_rgb colour) }
{
    format!(in alloc; "{:02x}{:02x}{:02x}", colour.r, colour.g, colour.b)
}

/// The value in the form of its attribute.
pub(crate) fn value_data(alloc: Global, value: &gf_ops::Value) -> Result<Value, AllocError>
    ensures { IfOk result (λ v. view v ≡ value_data value.now) }
{
    match value {
        gf_ops::Value::Place(point) => point_data(alloc, *point),
        gf_ops::Value::Points(points) => points_data(alloc, points),
        gf_ops::Value::Size(width, height) => size_data(alloc, *width, *height),
        gf_ops::Value::Colour(colour) => colour_data(alloc, *colour),
        gf_ops::Value::Layer(layer) => Ok(Value::from(*layer)),
        gf_ops::Value::Shown(shown) => Ok(Value::from(*shown)),
    }
}
