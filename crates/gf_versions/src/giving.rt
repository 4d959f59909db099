//! What an operation gives to the attributes of its object.

ghost use Rattle.std.specs.Prelude.{◌≡◌, IsSome, Some, is_some};
ghost use Rattle.gf_ops.specs.declared.change.Attr.{Attr};
ghost use Rattle.gf_ops.specs.declared.change.Value.{Value};
ghost use Rattle.gf_ops.specs.Attribute.{value_given};

use gf_ops::{Attr, Change, Form, Op, Points, Value};
use gf_shape::{Point, Rgb};

/// Whether the operation gives the attribute a value.
pub fn sets(op: &Op, attribute: Attr) -> bool
    ensures { result ≡ is_some (value_given op.now attribute) }
{
    match &op.change {
        Change::Create(start) => match (attribute, &start.form) {
            (Attr::Place | Attr::Colour | Attr::Layer | Attr::Shown, _) => true,
            (Attr::Points, Form::Polygon(_)) => true,
            (Attr::Points, Form::Rect(_, _) | Form::Circle(_) | Form::Ellipse(_, _)) => false,
            (Attr::Size, Form::Rect(_, _) | Form::Circle(_) | Form::Ellipse(_, _)) => true,
            (Attr::Size, Form::Polygon(_)) => false,
        },
        Change::Set { value, .. } => value.attribute() == attribute,
    }
}

/// The place that the operation gives.
pub(crate) fn place(op: &Op) -> Point
    requires { IsSome (value_given op.now Attr.Place) }
    ensures { value_given op.now Attr.Place ≡ Some (Value.Place result) }
{
    match &op.change {
        Change::Create(start) => start.place,
        Change::Set {
            value: Value::Place(place),
            ..
        } => *place,
        Change::Set { .. } => unreachable!(),
    }
}

/// The points that the operation gives.
pub(crate) fn points(op: &Op) -> &Points
    requires { IsSome (value_given op.now Attr.Points) }
    ensures { value_given op.now Attr.Points ≡ Some (Value.Points result.now) }
{
    match &op.change {
        Change::Create(start) => match &start.form {
            Form::Polygon(points) => points,
            Form::Rect(_, _) | Form::Circle(_) | Form::Ellipse(_, _) => unreachable!(),
        },
        Change::Set {
            value: Value::Points(points),
            ..
        } => points,
        Change::Set { .. } => unreachable!(),
    }
}

/// The size that the operation gives: a width and a height, a radius twice, or two radii.
pub(crate) fn size(op: &Op) -> (u32, u32)
    requires { IsSome (value_given op.now Attr.Size) }
    ensures { value_given op.now Attr.Size ≡ Some (Value.Size result.0 result.1) }
{
    match &op.change {
        Change::Create(start) => match &start.form {
            Form::Rect(width, height) => (*width, *height),
            Form::Circle(radius) => (*radius, *radius),
            Form::Ellipse(rx, ry) => (*rx, *ry),
            Form::Polygon(_) => unreachable!(),
        },
        Change::Set {
            value: Value::Size(width, height),
            ..
        } => (*width, *height),
        Change::Set { .. } => unreachable!(),
    }
}

/// The colour that the operation gives.
pub(crate) fn colour(op: &Op) -> Rgb
    requires { IsSome (value_given op.now Attr.Colour) }
    ensures { value_given op.now Attr.Colour ≡ Some (Value.Colour result) }
{
    match &op.change {
        Change::Create(start) => start.colour,
        Change::Set {
            value: Value::Colour(colour),
            ..
        } => *colour,
        Change::Set { .. } => unreachable!(),
    }
}

/// The layer that the operation gives.
pub(crate) fn layer(op: &Op) -> u16
    requires { IsSome (value_given op.now Attr.Layer) }
    ensures { value_given op.now Attr.Layer ≡ Some (Value.Layer result) }
{
    match &op.change {
        Change::Create(start) => start.layer,
        Change::Set {
            value: Value::Layer(layer),
            ..
        } => *layer,
        Change::Set { .. } => unreachable!(),
    }
}

/// Whether the operation shows its object.
pub(crate) fn shown(op: &Op) -> bool
    requires { IsSome (value_given op.now Attr.Shown) }
    ensures { value_given op.now Attr.Shown ≡ Some (Value.Shown result) }
{
    match &op.change {
        Change::Create(start) => start.shown,
        Change::Set {
            value: Value::Shown(shown),
            ..
        } => *shown,
        Change::Set { .. } => unreachable!(),
    }
}
