//! Which operations cannot stand in one version.

ghost use Rattle.std.specs.Prelude.{◌≡◌, ◌↔◌, IsTrue};
ghost use Rattle.gf_ops.specs.Attribute.{attribute_of, start_value, value_as, object_of};
ghost use Rattle.gf_ops.specs.Attribute.{form_value};
ghost use Rattle.gf_ops.specs.declared.change.Attr.{Attr};
ghost use Rattle.gf_ops.specs.declared.change.Value.{Value};
ghost use Rattle.gf_ops.specs.DirectConflict.{DirectConflict};
ghost use Rattle.gf_ops.specs.AimTests.{AimConflicts, MemberConflicts};
ghost use Rattle.gf_ops.specs.Conflict.{Conflict, ConflictsWithBrought};
ghost use Rattle.gf_ops.specs.ConflictTests.{is_another, sets_another, begins_apart, are_apart};
ghost use Rattle.gf_ops.specs.Limits.{IsInRange};

use crate::order::unordered;
use crate::{Change, Form, History, ObjectId, Op, OpId, Points, Start, Value};

/// Whether two operations are concurrent, concern one object and set one attribute to different
/// values. Operations with different values are different ones.
pub fn direct_conflict(a: &Op, b: &Op) -> bool
    requires a { IsInRange a.now }
    requires b { IsInRange b.now }
    ensures { IsTrue result ↔ DirectConflict a.now b.now }
{
    unordered(a, b) && a.object() == b.object() && are_apart(&a.change, &b.change)
}

/// Whether two operations cannot stand in one version: one side conflicts directly with the other.
/// A side is an operation with those that it aims at. What the history lacks of an aim counts for
/// nothing.
///
/// Each operation of the one side is compared with each of the other side.
pub fn conflicts(history: &History, a: &Op, b: &Op) -> bool
    requires a { IsInRange a.now }
    requires b { IsInRange b.now }
    ensures { IsTrue result ↔ Conflict history.now.ops a.now b.now }
{
    conflicts_with_brought(history, a, b) || aim_conflicts(history, a.aim(), b)
}

/// Whether `a` conflicts directly with `b`, or with one that `b` aims at.
fn conflicts_with_brought(history: &History, a: &Op, b: &Op) -> bool
    requires a { IsInRange a.now }
    requires b { IsInRange b.now }
    ensures { IsTrue result ↔ ConflictsWithBrought history.now.ops a.now b.now }
{
    direct_conflict(a, b) || history.conflicts_with(a, b.aim())
}

/// Whether an operation under these ids conflicts directly with `b`, or with one that `b` aims at.
fn aim_conflicts(history: &History, aim: &[OpId], b: &Op) -> bool
    requires { IsInRange b.now }
    ensures { IsTrue result ↔ AimConflicts history.now.ops aim.now b.now }
{
    for id in aim {
        if member_conflicts(history, *id, b) {
            return true;
        }
    }
    false
}

/// Whether the operation under this id conflicts directly with `b`, or with one that `b` aims at.
fn member_conflicts(history: &History, id: OpId, b: &Op) -> bool
    requires { IsInRange b.now }
    ensures { IsTrue result ↔ MemberConflicts history.now.ops id b.now }
{
    history.recall_valid();
    match history.get(id) {
        Some(member) => conflicts_with_brought(history, member, b),
        None => false,
    }
}

impl Op {
    /// The object that the operation makes or changes.
    pub fn object(&self) -> ObjectId
        ensures { result ≡ object_of self.now }
    {
        match &self.change {
            Change::Create(_) => ObjectId(self.id),
            Change::Set { object, .. } => *object,
        }
    }
}

/// Whether the changes of two operations on one object give an attribute different values.
#[inline(always)]
fn are_apart(a: &Change, b: &Change) -> bool
    ensures { result ≡ are_apart a.now b.now }
{
    match (a, b) {
        (_, Change::Set { value, .. }) => sets_another(a, value),
        (Change::Set { value, .. }, Change::Create(_)) => sets_another(b, value),
        (Change::Create(own), Change::Create(start)) => begins_apart(own, start),
    }
}

/// Whether an attribute begins with different values.
fn begins_apart(own: &Start, start: &Start) -> bool
    ensures { result ≡ begins_apart own.now start.now }
{
    own.place != start.place
        || own.colour != start.colour
        || own.layer != start.layer
        || own.shown != start.shown
        || begins_with_another_form(own, &start.form)
}

/// Whether an attribute of the form begins with another value than the form has.
fn begins_with_another_form(own: &Start, form: &Form) -> bool
    ensures { result ≡ is_another (start_value own.now (attribute_of (form_value form.now)))
        (form_value form.now) }
{
    match form {
        Form::Polygon(points) => begins_with_other_points(&own.form, points),
        Form::Rect(width, height) => begins_with_another_size(&own.form, *width, *height),
        Form::Circle(radius) => begins_with_another_size(&own.form, *radius, *radius),
        Form::Ellipse(rx, ry) => begins_with_another_size(&own.form, *rx, *ry),
    }
}

/// Whether the change gives the attribute of this value another one.
#[inline(always)]
pub(crate) fn sets_another(change: &Change, value: &Value) -> bool
    ensures { result ≡ sets_another change.now value.now }
{
    match change {
        Change::Create(start) => begins_with_another(start, value),
        Change::Set { value: own, .. } => is_another(own, value),
    }
}

#[inline(always)]
fn is_another(own: &Value, value: &Value) -> bool
    ensures { result ≡ is_another (value_as own.now (attribute_of value.now)) value.now }
{
    match (own, value) {
        (Value::Place(own), Value::Place(place)) => own != place,
        (Value::Points(own), Value::Points(points)) => own != points,
        (Value::Size(own_width, own_height), Value::Size(width, height)) => {
            !(own_width == width && own_height == height)
        }
        (Value::Colour(own), Value::Colour(colour)) => own != colour,
        (Value::Layer(own), Value::Layer(layer)) => own != layer,
        (Value::Shown(own), Value::Shown(shown)) => own != shown,
        (Value::Place(_) | Value::Points(_) | Value::Size(_, _), _) => false,
        (Value::Colour(_) | Value::Layer(_) | Value::Shown(_), _) => false,
    }
}

fn begins_with_another(start: &Start, value: &Value) -> bool
    ensures { result ≡ is_another (start_value start.now (attribute_of value.now)) value.now }
{
    match value {
        Value::Place(place) => start.place != *place,
        Value::Points(points) => begins_with_other_points(&start.form, points),
        Value::Size(width, height) => begins_with_another_size(&start.form, *width, *height),
        Value::Colour(colour) => start.colour != *colour,
        Value::Layer(layer) => start.layer != *layer,
        Value::Shown(shown) => start.shown != *shown,
    }
}

/// Whether a form has points other than these.
fn begins_with_other_points(form: &Form, points: &Points) -> bool
    ensures { result ≡ is_another (value_as (form_value form.now) Attr.Points)
        (Value.Points points.now) }
{
    match form {
        Form::Polygon(own) => own != points,
        Form::Rect(_, _) | Form::Circle(_) | Form::Ellipse(_, _) => false,
    }
}

/// Whether a form has a size other than this one.
fn begins_with_another_size(form: &Form, width: u32, height: u32) -> bool
    ensures { result ≡ is_another (value_as (form_value form.now) Attr.Size)
        (Value.Size width height) }
{
    match form {
        Form::Rect(own_width, own_height) => !(*own_width == width && *own_height == height),
        Form::Circle(radius) => !(*radius == width && *radius == height),
        Form::Ellipse(rx, ry) => !(*rx == width && *ry == height),
        Form::Polygon(_) => false,
    }
}
