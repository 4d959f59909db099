//! Whether two operations, or two forms, are one.

ghost use Rattle.std.specs.Prelude.{◌≡◌, ◌↔◌, IsTrue};

use crate::{Change, Form, Ids, Op, Points, Start, Value};

/// Whether two operations agree in everything.
pub fn same_op(a: &Op, b: &Op) -> bool
    ensures { IsTrue result ↔ a.now ≡ b.now }
{
    same_name(a, b) && same_past(a, b) && same_change(&a.change, &b.change)
}

fn same_name(a: &Op, b: &Op) -> bool
    ensures { IsTrue result ↔ a.now.id ≡ b.now.id }
{
    a.id == b.id
}

fn same_past(a: &Op, b: &Op) -> bool
    ensures { IsTrue result ↔ a.now.past ≡ b.now.past }
{
    a.past == b.past
}

fn same_change(a: &Change, b: &Change) -> bool
    ensures { IsTrue result ↔ a.now ≡ b.now }
{
    match (a, b) {
        (Change::Create(start), Change::Create(other)) => same_start(start, other),
        (
            Change::Set { object, value, aim },
            Change::Set {
                object: object_b,
                value: value_b,
                aim: aim_b,
            },
        ) => *object == *object_b && same_value(value, value_b) && same_ids(aim, aim_b),
        (Change::Create(_), Change::Set { .. }) | (Change::Set { .. }, Change::Create(_)) => false,
    }
}

fn same_start(a: &Start, b: &Start) -> bool
    ensures { IsTrue result ↔ a.now ≡ b.now }
{
    same_form(&a.form, &b.form)
        && a.place == b.place
        && a.colour == b.colour
        && a.layer == b.layer
        && a.shown == b.shown
}

/// Whether two forms agree in everything.
pub fn same_form(a: &Form, b: &Form) -> bool
    ensures { IsTrue result ↔ a.now ≡ b.now }
{
    match (a, b) {
        (Form::Rect(width, height), Form::Rect(width_b, height_b)) => {
            *width == *width_b && *height == *height_b
        }
        (Form::Polygon(points), Form::Polygon(points_b)) => same_points(points, points_b),
        (Form::Circle(radius), Form::Circle(radius_b)) => *radius == *radius_b,
        (Form::Ellipse(rx, ry), Form::Ellipse(rx_b, ry_b)) => *rx == *rx_b && *ry == *ry_b,
        (Form::Rect(..), _) | (Form::Polygon(_), _) => false,
        (Form::Circle(_), _) | (Form::Ellipse(..), _) => false,
    }
}

fn same_value(a: &Value, b: &Value) -> bool
    ensures { IsTrue result ↔ a.now ≡ b.now }
{
    match (a, b) {
        (Value::Place(place), Value::Place(place_b)) => *place == *place_b,
        (Value::Points(points), Value::Points(points_b)) => same_points(points, points_b),
        (Value::Size(width, height), Value::Size(width_b, height_b)) => {
            *width == *width_b && *height == *height_b
        }
        (Value::Colour(colour), Value::Colour(colour_b)) => *colour == *colour_b,
        (Value::Layer(layer), Value::Layer(layer_b)) => *layer == *layer_b,
        (Value::Shown(shown), Value::Shown(shown_b)) => *shown == *shown_b,
        (Value::Place(_) | Value::Points(_) | Value::Size(..), _) => false,
        (Value::Colour(_) | Value::Layer(_) | Value::Shown(_), _) => false,
    }
}

#[tactic(auto, using(crate::proofs::SameLemmas::ids_decides))]
fn same_ids(a: &Ids, b: &Ids) -> bool
    ensures { IsTrue result ↔ a.now ≡ b.now }
{
    a == b
}

#[tactic(auto, using(crate::proofs::SameLemmas::points_decides))]
fn same_points(a: &Points, b: &Points) -> bool
    ensures { IsTrue result ↔ a.now ≡ b.now }
{
    a == b
}
