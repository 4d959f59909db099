//! Trials of shapes: the red box, a triangle far out, and a star.

use crate::examples::red_box;
use crate::trial::{Came, Marks};
use gf_base::OutOfMemory;
use gf_shape::{Outline, Point, Polygon, PolygonError, Rect, Row, Shape, Span};
use std::alloc::Global;
use test_kit::at;

pub(crate) const NAMES: &str = "
moved
polygon_moved
outline
polygon_outline
polygon_new
row
row_into
";

/// What comes of the trial of this name, if there is one.
pub(crate) fn tried(alloc: Global, name: &str, marks: &mut Marks) -> Option<Came> {
    let came = match name {
        "moved" => moved(alloc, marks),
        "polygon_moved" => polygon_moved(alloc, marks),
        "outline" => outline(alloc, marks),
        "polygon_outline" => polygon_outline(alloc, marks),
        "polygon_new" => polygon_new(alloc, marks),
        "row" => row(alloc, marks),
        "row_into" => row_into(alloc, marks),
        _ => return None,
    };
    Some(came.unwrap_or(Came::TooEarly))
}

fn moved(alloc: Global, marks: &mut Marks) -> Option<Came> {
    let d = at(-5, 7);
    let (rect, want) = (red_box()?, Rect::new(at(95, 207), 300, 400));
    if !rect.movable(d) {
        return None;
    }
    marks.begin();
    let first = rect.moved(alloc, d);
    marks.end();
    Some(match first {
        Err(OutOfMemory) => Came::after_memory(true, rect.moved(alloc, d).ok() == want.ok()),
        first => Came::first(first.ok() == want.ok()),
    })
}

fn triangle(alloc: Global) -> Option<Polygon> {
    Polygon::new(alloc, &[at(0, 0), at(-1_000_000, 0), at(0, -1_000_000)]).ok()
}

/// The outline of the triangle, moved by (-1000000, -1000000).
fn far_corners() -> [Point; 4] {
    [
        at(-1_000_000, -1_000_000),
        at(-2_000_000, -1_000_000),
        at(-1_000_000, -2_000_000),
        at(-1_000_000, -1_000_000),
    ]
}

/// Whether the outline is a chain of these points, and a box where one is wanted.
fn is_chain(answer: Result<Outline, OutOfMemory>, boxed: bool, points: &[Point]) -> bool {
    match answer {
        Ok(Outline::Chain(chain)) => chain.boxed() == boxed && chain.points() == points,
        _ => false,
    }
}

fn polygon_moved(alloc: Global, marks: &mut Marks) -> Option<Came> {
    let d = at(-1_000_000, -1_000_000);
    let shape = triangle(alloc)?;
    if !shape.movable(d) {
        return None;
    }
    marks.begin();
    let first = shape.moved(alloc, d);
    marks.end();
    Some(match first {
        Err(OutOfMemory) => Came::after_memory(true, is_far(alloc, shape.moved(alloc, d))),
        first => Came::first(is_far(alloc, first)),
    })
}

fn is_far(alloc: Global, answer: Result<Polygon, OutOfMemory>) -> bool {
    match answer {
        Ok(shape) => is_chain(shape.outline(alloc), false, &far_corners()),
        Err(OutOfMemory) => false,
    }
}

fn outline(alloc: Global, marks: &mut Marks) -> Option<Came> {
    let rect = red_box()?;
    marks.begin();
    let first = rect.outline(alloc);
    marks.end();
    Some(match first {
        Err(OutOfMemory) => Came::after_memory(true, is_red_outline(rect.outline(alloc))),
        first => Came::first(is_red_outline(first)),
    })
}

fn is_red_outline(answer: Result<Outline, OutOfMemory>) -> bool {
    let points = [
        at(100, 200),
        at(400, 200),
        at(400, 600),
        at(100, 600),
        at(100, 200),
    ];
    is_chain(answer, true, &points)
}

fn polygon_outline(alloc: Global, marks: &mut Marks) -> Option<Came> {
    let shape = triangle(alloc)?;
    marks.begin();
    let first = shape.outline(alloc);
    marks.end();
    Some(match first {
        Err(OutOfMemory) => Came::after_memory(true, is_triangle(shape.outline(alloc))),
        first => Came::first(is_triangle(first)),
    })
}

fn is_triangle(answer: Result<Outline, OutOfMemory>) -> bool {
    let points = [at(0, 0), at(-1_000_000, 0), at(0, -1_000_000), at(0, 0)];
    is_chain(answer, false, &points)
}

fn corners() -> [Point; 5] {
    [at(0, -10), at(6, 8), at(-9, -3), at(9, -3), at(-6, 8)]
}

fn polygon_new(alloc: Global, marks: &mut Marks) -> Option<Came> {
    let corners = corners();
    marks.begin();
    let first = Polygon::new(alloc, &corners);
    marks.end();
    Some(match first {
        Err(PolygonError::OutOfMemory) => {
            Came::after_memory(true, is_star(Polygon::new(alloc, &corners)))
        }
        first => Came::first(is_star(first)),
    })
}

fn is_star(answer: Result<Polygon, PolygonError>) -> bool {
    match answer {
        Ok(star) => !star.holds(at(0, 0)) && star.holds(at(0, -8)) && star.holds(at(0, -10)),
        Err(_) => false,
    }
}

/// The row of the star at the height -2.
const SPANS: [Span; 2] = [
    Span {
        first: -7,
        last: -3,
    },
    Span { first: 3, last: 7 },
];

fn row(alloc: Global, marks: &mut Marks) -> Option<Came> {
    let star = Polygon::new(alloc, &corners()).ok()?;
    marks.begin();
    let first = star.row(alloc, -2);
    marks.end();
    Some(match first {
        Err(OutOfMemory) => Came::after_memory(true, is_row(star.row(alloc, -2))),
        first => Came::first(is_row(first)),
    })
}

fn is_row(answer: Result<Vec<Span>, OutOfMemory>) -> bool {
    match answer {
        Ok(spans) => spans.as_slice() == SPANS.as_slice(),
        Err(OutOfMemory) => false,
    }
}

fn row_into(alloc: Global, marks: &mut Marks) -> Option<Came> {
    let star = Polygon::new(alloc, &corners()).ok()?;
    let mut row = Row::new(alloc);
    marks.begin();
    let first = star.row_into(-2, &mut row);
    marks.end();
    Some(match first {
        Err(OutOfMemory) => {
            let next = star.row_into(-2, &mut row);
            Came::after_memory(true, next.is_ok() && row.spans() == SPANS.as_slice())
        }
        Ok(()) => Came::first(row.spans() == SPANS.as_slice()),
    })
}
