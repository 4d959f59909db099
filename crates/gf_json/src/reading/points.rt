//! The points of a polygon: every element is checked before any memory is taken.

ghost use Rattle.std.specs.Prelude.{◌≡◌, ◌⊎◌, All, Some, Err, IfOk, map, option_map};
ghost use Rattle.std.specs.Prelude.{option_and_then};
ghost use Rattle.std.specs.Option.{ok_or};
ghost use Rattle.std.specs.List.{list_all};
ghost use Rattle.serde_json.specs.View.{view, items_view};
ghost use Rattle.gf_ops.specs.Limits.{is_near, is_polygon};
ghost use Rattle.gf_json.specs.LineForms as form;
ghost use Rattle.gf_json.specs.Limited.{limited, IsKept};

use crate::LineError;
use crate::reading::values::{elements, point};
use gf_ops::Points;
use gf_plane::Point;
use serde_json::Value;
use std::alloc::{AllocError, Global};

/// The points of a polygon.
pub(crate) fn points(alloc: Global, value: Option<&Value>) -> Result<Option<Points>, LineError>
    ensures { (result ≡ Err LineError.OutOfMemory)
        ⊎ (result ≡ limited is_polygon
        (option_and_then (form.all form.point) (option_map (λ v. view v.now) value.entry))) }
{
    match elements(value) {
        Some(values) => points_of(alloc, values),
        None => Err(LineError::Field),
    }
}

/// The points of the elements of an array.
fn points_of(alloc: Global, values: &[Value]) -> Result<Option<Points>, LineError>
    ensures { (result ≡ Err LineError.OutOfMemory)
        ⊎ (result ≡ limited is_polygon
        (form.each form.point (form.elements (items_view values.now)))) }
{
    if !is_polygon(values)? {
        return Ok(None);
    }
    match near_points(alloc, values) {
        Ok(points) => Ok(Some(Points::new(points))),
        Err(AllocError) => Err(LineError::OutOfMemory),
    }
}

/// Whether the values, which have to be points, are as many as a polygon may have, each near.
#[tactic(auto, using(crate::proofs::ArrayLemmas::lengths))]
fn is_polygon(values: &[Value]) -> Result<bool, LineError>
    ensures { result ≡ ok_or (option_map is_polygon
        (form.each form.point (form.elements (items_view values.now)))) LineError.Field }
{
    let near = are_near(values)?;
    Ok(3 <= values.len() && values.len() <= 64 && near)
}

/// Whether each value, which has to be a point, is near.
fn are_near(values: &[Value]) -> Result<bool, LineError>
    ensures { result ≡ ok_or (option_map (list_all is_near)
        (form.each form.point (form.elements (items_view values.now)))) LineError.Field }
{
    let mut near = true;
    for value in values {
        let point = point(Some(value))?;
        near = near && point.is_some();
    }
    Ok(near)
}

/// The points that the values are.
fn near_points(alloc: Global, values: &[Value]) -> Result<Vec<Point>, AllocError>
    requires { All (λ v. IsKept is_near (form.point (view v))) values.now }
    ensures { IfOk result (λ ps. map (λ v. form.point (view v)) values.now ≡ map Some ps.items) }
{
    let mut points = Vec::new(alloc);
    points.reserve(values.len())?;
    for value in values {
        points.push(near_point(value))?;
    }
    Ok(points)
}

/// The point that a value is.
fn near_point(value: &Value) -> Point
    requires { IsKept is_near (form.point (view value.now)) }
    ensures { form.point (view value.now) ≡ Some result }
{
    let Ok(Some(point)) = point(Some(value)) else {
        unreachable!();
    };
    point
}
