//! How a figure differs from a version. The version is given by the start of an object that looks
//! like it.

use gf_base::OutOfMemory;
use gf_ops::{Form, Points, Start, Value, is_near};
use gf_shape::Point;
use gf_versions::Version;
use std::alloc::Global;

/// The most points of a polygon.
const MOST_POINTS: usize = 64;

/// The kinds of forms.
#[derive(Clone, Copy, PartialEq, Eq)]
enum FormKind {
    Rect,
    Polygon,
    Circle,
    Ellipse,
}

fn kind_of(form: &Form) -> FormKind {
    match form {
        Form::Rect(..) => FormKind::Rect,
        Form::Polygon(_) => FormKind::Polygon,
        Form::Circle(_) => FormKind::Circle,
        Form::Ellipse(..) => FormKind::Ellipse,
    }
}

/// Whether a version is of a figure's kind.
pub(crate) fn is_of_kind(version: &Version, figure: &Start) -> bool {
    kind_of(&version.form) == kind_of(&figure.form)
}

/// Whether a form is a polygon.
pub(crate) fn is_polygon(form: &Form) -> bool {
    kind_of(form) == FormKind::Polygon
}

/// In how many attributes a figure differs from a version; None where the figure is of another
/// kind. A polygon with other points differs in its place or in its points, and never in both.
pub(crate) fn differences(old: &Start, new: &Start) -> Option<usize> {
    if kind_of(&old.form) != kind_of(&new.form) {
        return None;
    }
    let shape = if is_polygon(&new.form) {
        usize::from(has_other_points(old, new))
    } else {
        usize::from(old.place != new.place) + usize::from(old.form != new.form)
    };
    Some(shape + usize::from(old.colour != new.colour))
}

/// Whether a figure of a version's kind is a polygon with other points.
pub(crate) fn has_other_points(old: &Start, new: &Start) -> bool {
    is_polygon(&new.form) && (old.place != new.place || old.form != new.form)
}

/// Whether a polygon that is settled at a place can get the points of a figure within the limits.
pub(crate) fn can_get_points(old: &Start, new: &Start, settled: Point) -> bool {
    moved(old, new, settled).is_some() || are_near_from(settled, new)
}

/// Where a polygon is settled that was moved whole, so that it has the points of a figure. None
/// where no step leads from its points to the new ones, or the place is beyond its limit.
pub(crate) fn moved(old: &Start, new: &Start, settled: Point) -> Option<Point> {
    if old.form != new.form {
        return None;
    }
    let at = plus(settled, minus(new.place, old.place)?)?;
    if is_near(at) { Some(at) } else { None }
}

/// Whether the points of a figure keep their limits, seen from a place.
fn are_near_from(place: Point, start: &Start) -> bool {
    let Form::Polygon(points) = &start.form else {
        return false;
    };
    if MOST_POINTS < points.as_slice().len() {
        return false;
    }
    for p in points.as_slice() {
        match seen_from(place, *p, start.place) {
            Some(p) if is_near(p) => {}
            _ => return false,
        }
    }
    true
}

/// The value by which a polygon gets the points of a figure, seen from the place where it is
/// settled. None where one lies too far off.
pub(crate) fn points_from(
    alloc: Global,
    place: Point,
    start: &Start,
) -> Result<Option<Value>, OutOfMemory> {
    let Form::Polygon(points) = &start.form else {
        return Ok(None);
    };
    let mut seen = Vec::with_capacity(alloc, points.as_slice().len())?;
    for p in points.as_slice() {
        match seen_from(place, *p, start.place) {
            Some(p) => seen.push(p)?,
            None => return Ok(None),
        }
    }
    Ok(Some(Value::Points(Points::new(seen))))
}

/// A point that is seen from `start`, seen from `place`.
fn seen_from(place: Point, p: Point, start: Point) -> Option<Point> {
    minus(plus(p, start)?, place)
}

/// The value by which a form that has a size gets the size of another one.
pub(crate) fn size_of(form: &Form) -> Option<Value> {
    match form {
        Form::Rect(width, height) => Some(Value::Size(*width, *height)),
        Form::Circle(radius) => Some(Value::Size(*radius, *radius)),
        Form::Ellipse(rx, ry) => Some(Value::Size(*rx, *ry)),
        Form::Polygon(_) => None,
    }
}

/// Whether a version, which may be hidden, looks like a figure.
pub(crate) fn is_alike(version: &Version, start: &Start) -> bool {
    version.colour == start.colour && has_same_shape(version, start)
}

/// Whether a version has the form of a figure at its place.
fn has_same_shape(version: &Version, start: &Start) -> bool {
    match (&version.form, &start.form) {
        (Form::Polygon(old), Form::Polygon(new)) => {
            are_same_points(old, version.place, new, start.place)
        }
        (Form::Rect(..) | Form::Polygon(_) | Form::Circle(_) | Form::Ellipse(..), _) => {
            version.place == start.place && version.form == start.form
        }
    }
}

/// Whether points that are seen from one place are others that are seen from another place.
fn are_same_points(old: &Points, place: Point, new: &Points, start: Point) -> bool {
    let (old, new) = (old.as_slice(), new.as_slice());
    if old.len() != new.len() {
        return false;
    }
    for (p, q) in old.iter().zip(new.iter()) {
        match (plus(*p, place), plus(*q, start)) {
            (Some(p), Some(q)) if p == q => {}
            _ => return false,
        }
    }
    true
}

fn plus(p: Point, q: Point) -> Option<Point> {
    Some(Point {
        x: p.x.checked_add(q.x)?,
        y: p.y.checked_add(q.y)?,
    })
}

fn minus(p: Point, q: Point) -> Option<Point> {
    Some(Point {
        x: p.x.checked_sub(q.x)?,
        y: p.y.checked_sub(q.y)?,
    })
}
