//! Rows by trial: what a row holds is what the shape holds, point by point.

use gf_shape::{AnyShape, Point, Polygon, Row, Shape, Span};
use std::alloc::Global;
use test_kit::Answers;

/// How many of the polygons of a sweep are alike, row by row and point by point.
#[derive(Drop)]
pub(crate) struct Trials;

impl Answers for Trials {
    fn answer(&mut self, alloc: Global, question: &str) -> Option<String> {
        let alike = match question {
            "triangles" => alike_triangles(alloc)?,
            "pentagons" => alike_pentagons(alloc)?,
            _ => return None,
        };
        format!(in alloc; "{alike} alike").ok()
    }
}

fn alike_triangles(alloc: Global) -> Option<u32> {
    let mut row = Row::new(alloc);
    let mut alike = 0u32;
    for n in 0..4096 {
        let corners = [grid(n), grid(n / 16), grid(n / 256)];
        if is_alike(alloc, &corners, &mut row)? {
            alike = alike.saturating_add(1);
        }
    }
    Some(alike)
}

fn alike_pentagons(alloc: Global) -> Option<u32> {
    let mut row = Row::new(alloc);
    let mut alike = 0u32;
    for n in 0..1024 {
        let corners = [
            grid(n),
            grid(n / 3),
            grid(n / 16),
            grid(n / 7 + 9),
            grid(n / 2),
        ];
        if is_alike(alloc, &corners, &mut row)? {
            alike = alike.saturating_add(1);
        }
    }
    Some(alike)
}

/// The point at place `n` of a grid of 4 by 4.
fn grid(n: i32) -> Point {
    Point {
        x: n.rem_euclid(4),
        y: n.rem_euclid(16) / 4,
    }
}

/// Whether the rows of the polygon, and of its outline, hold what these hold.
fn is_alike(alloc: Global, corners: &[Point], row: &mut Row) -> Option<bool> {
    let shape = AnyShape::Polygon(Polygon::new(alloc, corners).ok()?);
    let outline = shape.outline(alloc).ok()?;
    Some(holds_its_rows(&shape, row)? && holds_its_rows(&outline, row)?)
}

/// Whether the rows of a shape hold what it holds, in a window about the grid.
fn holds_its_rows<S: Shape>(shape: &S, row: &mut Row) -> Option<bool> {
    for y in -1..5 {
        shape.row_into(y, row).ok()?;
        for x in -1..5 {
            if is_in_row(row.spans(), x) != shape.holds(Point { x, y }) {
                return Some(false);
            }
        }
    }
    Some(true)
}

fn is_in_row(spans: &[Span], x: i32) -> bool {
    for span in spans {
        if span.first <= x && x <= span.last {
            return true;
        }
    }
    false
}
