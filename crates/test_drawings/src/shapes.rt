//! The questions on shapes: a shape, `;`, and what is asked of it.

use crate::outlines::drawn;
use gf_shape::{
    AnyShape, Bounds, Circle, Ellipse, Outline, Point, Polygon, PolygonError, Range, Rect, Row,
    Shape,
};
use std::alloc::Global;
use std::fmt::Display;
use test_kit::Answers;
use test_kit::notation::{point, points, yes};

/// The shape that a question names.
#[derive(Drop)]
pub(crate) struct Shapes;

impl Answers for Shapes {
    fn answer(&mut self, alloc: Global, question: &str) -> Option<String> {
        let (front, question) = question.split_once(" ; ")?;
        let (kind, shape) = first(front);
        match question.strip_prefix("moves ") {
            Some(way) => moved_to(alloc, kind, shape, way),
            None => told(alloc, kind, shape, question),
        }
    }
}

/// The first word of a text, and the rest.
pub(crate) fn first(text: &str) -> (&str, &str) {
    text.split_once(' ').unwrap_or((text, ""))
}

/// The answer that the shape of this kind gives.
fn told(alloc: Global, kind: &str, shape: &str, question: &str) -> Option<String> {
    match kind {
        "box" => of_made(alloc, rect(shape)?, question),
        "circle" => of_made(alloc, circle(shape)?, question),
        "ellipse" => of_made(alloc, ellipse(shape)?, question),
        "polygon" => of_made(alloc, polygon(alloc, shape)?, question),
        "any" => of_moved(alloc, &any(alloc, shape)?, question),
        "outline" => of_moved(alloc, &outline_of(alloc, shape)?, question),
        _ => None,
    }
}

/// `100,200 300 400`: the least corner, the width and the height.
fn rect(text: &str) -> Option<Result<Rect, Range>> {
    let (low, size) = first(text);
    let (width, height) = first(size);
    Some(Rect::new(point(low)?, width.parse().ok()?, height.parse().ok()?))
}

/// `3,4 5`: the centre and the radius.
fn circle(text: &str) -> Option<Result<Circle, Range>> {
    let (centre, radius) = first(text);
    Some(Circle::new(point(centre)?, radius.parse().ok()?))
}

/// `3,4 5 6`: the centre and the radii.
fn ellipse(text: &str) -> Option<Result<Ellipse, Range>> {
    let (centre, radii) = first(text);
    let (rx, ry) = first(radii);
    Some(Ellipse::new(point(centre)?, rx.parse().ok()?, ry.parse().ok()?))
}

/// `0,0 8,0 0,8`: the corners.
fn polygon(alloc: Global, text: &str) -> Option<Result<Polygon, PolygonError>> {
    let corners = points(alloc, text)?;
    Some(Polygon::new(alloc, corners.as_slice()))
}

/// `box 0,0 8 8`: the kind before the shape.
pub(crate) fn any(alloc: Global, text: &str) -> Option<AnyShape> {
    let (kind, shape) = first(text);
    match kind {
        "box" => Some(AnyShape::Rect(rect(shape)?.ok()?)),
        "circle" => Some(AnyShape::Circle(circle(shape)?.ok()?)),
        "ellipse" => Some(AnyShape::Ellipse(ellipse(shape)?.ok()?)),
        "polygon" => Some(AnyShape::Polygon(polygon(alloc, shape)?.ok()?)),
        _ => None,
    }
}

/// `of box 0,0 8 8`.
fn outline_of(alloc: Global, text: &str) -> Option<Outline> {
    any(alloc, text.strip_prefix("of ")?)?.outline(alloc).ok()
}

/// `-5,7 to 9999985,7 10 10`: whether the move takes the shape of this kind to the other.
fn moved_to(alloc: Global, kind: &str, shape: &str, way: &str) -> Option<String> {
    let (by, to) = way.split_once(" to ")?;
    let d = point(by)?;
    match kind {
        "box" => moves(alloc, &rect(shape)?.ok()?, d, &rect(to)?.ok()?),
        "circle" => moves(alloc, &circle(shape)?.ok()?, d, &circle(to)?.ok()?),
        "ellipse" => moves(alloc, &ellipse(shape)?.ok()?, d, &ellipse(to)?.ok()?),
        _ => None,
    }
}

fn moves<S: Shape + PartialEq>(alloc: Global, shape: &S, d: Point, to: &S) -> Option<String> {
    if !shape.movable(d) {
        return None;
    }
    String::from_str(alloc, yes(shape.moved(alloc, d).ok()? == *to)).ok()
}

/// The answer of a shape, or why there is none.
fn of_made<S: Shape, E: Display + Drop>(
    alloc: Global,
    made: Result<S, E>,
    question: &str,
) -> Option<String> {
    match made {
        Ok(shape) => of_moved(alloc, &shape, question),
        Err(fault) if question == "made" => format!(in alloc; "{fault}").ok(),
        Err(_) => None,
    }
}

/// The answer of a shape, after a move where the question begins with one.
fn of_moved<S: Shape>(alloc: Global, shape: &S, question: &str) -> Option<String> {
    let Some(rest) = question.strip_prefix("moved ") else {
        return of_shape(alloc, shape, question);
    };
    let (by, question) = first(rest);
    let d = point(by)?;
    if !shape.movable(d) {
        return String::from_str(alloc, "fixed").ok();
    }
    of_shape(alloc, &shape.moved(alloc, d).ok()?, question)
}

fn of_shape<S: Shape>(alloc: Global, shape: &S, question: &str) -> Option<String> {
    if let Some(p) = question.strip_prefix("outline holds ") {
        return String::from_str(alloc, yes(shape.outline(alloc).ok()?.holds(point(p)?))).ok();
    }
    let (verb, rest) = first(question);
    match verb {
        "made" => String::from_str(alloc, "ok").ok(),
        "holds" => String::from_str(alloc, yes(shape.holds(point(rest)?))).ok(),
        "movable" => String::from_str(alloc, yes(shape.movable(point(rest)?))).ok(),
        "bounds" => bounds(alloc, shape.bounds()),
        "outline" => drawn(alloc, &shape.outline(alloc).ok()?),
        "row" => row(alloc, shape, rest.parse().ok()?, &mut Row::new(alloc)),
        "rows" => rows(alloc, shape, rest),
        _ => None,
    }
}

fn bounds(alloc: Global, bounds: Bounds) -> Option<String> {
    let Bounds { low, high } = bounds;
    format!(in alloc; "{},{} to {},{}", low.x, low.y, high.x, high.y).ok()
}

/// `0..4 6..7`: the spans of the row at a height. Behind these stands whether both calls differ.
fn row<S: Shape>(alloc: Global, shape: &S, y: i32, row: &mut Row) -> Option<String> {
    shape.row_into(y, row).ok()?;
    let mut text = String::new(alloc);
    for span in row.spans() {
        let word = format!(in alloc; " {}..{}", span.first, span.last).ok()?;
        text.push_str(word.as_str()).ok()?;
    }
    if row.spans().is_empty() {
        text.push_str(" none").ok()?;
    }
    if shape.row(alloc, y).ok()?.as_slice() != row.spans() {
        text.push_str(", but not by both calls").ok()?;
    }
    Some(text)
}

/// `3 to 7`: the rows at these heights, each behind its height.
fn rows<S: Shape>(alloc: Global, shape: &S, heights: &str) -> Option<String> {
    let (from, to) = heights.split_once(" to ")?;
    let (from, to): (i32, i32) = (from.parse().ok()?, to.parse().ok()?);
    let mut spans = Row::new(alloc);
    let mut text = String::new(alloc);
    for y in from..=to {
        let line = row(alloc, shape, y, &mut spans)?;
        let line = format!(in alloc; "{y}:{line}; ").ok()?;
        text.push_str(line.as_str()).ok()?;
    }
    Some(text)
}
