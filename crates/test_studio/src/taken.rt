//! What a site takes of small drawings.

use gf_fig_read::read_fig;
use gf_figures::Drawing;
use gf_import::creations;
use gf_kept::KeptSite;
use gf_ops::{Change, Form, Points, Start};
use gf_shape::{Outline, Point, Rgb};
use gf_site::Site;
use gf_take::{make_all, shows};
use std::alloc::Global;
use std::test::Fail;
use test_kit::{Answers, EMPTY_FIG, ask, is_answer};

/// Each question: the figures that are made, and behind `>` those that the site is to show. A figure
/// is a disc of the radius 5, or a box of the side 10: its colour number, its depth, and the x of
/// its centre or corner.
const ROWS: &str = "
// What is made is taken: the number of operations.
disc 4 50 0 > disc 4 50 0                         | 1
disc 4 50 0, box 1 60 3 > disc 4 50 0, box 1 60 3 | 2

// The file order of two depths says nothing, and the depths only which is in front.
disc 4 50 0, box 1 60 3 > box 1 60 3, disc 4 50 0 | 2
disc 4 50 0, box 1 60 3 > disc 4 7 0, box 1 900 3 | 2

// Of figures that meet the order is looked at, but not where they have one colour.
disc 4 50 0, box 1 60 3 > disc 4 60 0, box 1 50 3 | Differs
disc 4 50 0, box 4 60 3 > disc 4 60 0, box 4 50 3 | 2

// Nor where they lie apart.
disc 4 50 0, box 1 60 6 > disc 4 60 0, box 1 50 6                           | 2
disc 4 50 0, box 1 60 5 > disc 4 60 0, box 1 50 5                           | Differs
disc 4 50 0, box 1 60 9, disc 2 70 0 > disc 4 60 0, box 1 50 9, disc 2 70 0 | 3
disc 4 50 0, box 1 60 9, disc 2 70 0 > disc 4 80 0, box 1 50 9, disc 2 70 0 | Differs

// Figures may be equal, and none may be missing.
disc 4 50 0, disc 4 50 0 > disc 4 50 0, disc 4 50 0 | 2
disc 4 50 0, disc 4 50 0 > disc 4 50 0              | Differs
disc 4 50 0 > disc 4 50 0, disc 4 50 0              | Differs

// Colour, place and kind are compared.
disc 4 50 0 > disc 1 50 0 | Differs
disc 4 50 0 > disc 4 50 1 | Differs
disc 4 50 0 > box 4 50 0  | Differs
";

/// What a new site takes.
#[derive(Drop)]
struct Taker {}

impl Answers for Taker {
    fn answer(&mut self, alloc: Global, question: &str) -> Option<String> {
        let (made, shown) = question.split_once('>')?;
        let changes = creations(alloc, &drawing(alloc, made)?).ok()?;
        taken(alloc, changes, &drawing(alloc, shown)?)
    }
}

/// How many operations a new site makes of changes, where it then shows a drawing.
fn taken(alloc: Global, changes: Vec<Change>, shown: &Drawing<Outline>) -> Option<String> {
    let mut site = KeptSite::of(alloc, Site::new(alloc, 1));
    let ops = make_all(alloc, &mut site, changes).ok()?;
    let ranked = site.ranked(alloc).ok()??;
    if shows(alloc, &ranked.items, shown).ok()? {
        format!(in alloc; "{}", ops.len()).ok()
    } else {
        format!(in alloc; "Differs").ok()
    }
}

/// The drawing of figures that are told.
fn drawing(alloc: Global, figures: &str) -> Option<Drawing<Outline>> {
    let mut text = String::from_str(alloc, EMPTY_FIG).ok()?;
    for figure in figures.split(',') {
        let object = object(alloc, figure)?;
        text.push_str(object.as_str()).ok()?;
    }
    read_fig(alloc, text.as_bytes()).ok()
}

/// The FIG object of a figure that is told.
fn object(alloc: Global, figure: &str) -> Option<String> {
    let mut words = figure.split_whitespace();
    let kind = words.next()?;
    let colour = words.next()?;
    let depth = words.next()?;
    let x: i32 = words.next()?.parse().ok()?;
    match kind {
        "disc" => disc(alloc, colour, depth, x),
        "box" => square(alloc, colour, depth, x, x.checked_add(10)?),
        _ => None,
    }
}

fn disc(alloc: Global, colour: &str, depth: &str, x: i32) -> Option<String> {
    format!(in alloc;
        "1 3 0 0 {colour} {colour} {depth} -1 20 0.000 1 0.0000 {x} 0 5 5 0 0 0 0\n"
    ).ok()
}

fn square(alloc: Global, colour: &str, depth: &str, left: i32, right: i32) -> Option<String> {
    format!(in alloc;
        "2 2 0 0 {colour} {colour} {depth} -1 20 0.000 0 0 -1 0 0 5\n\t {left} 0 {right} 0 {right} 10 {left} 10 {left} 0\n"
    ).ok()
}

#[test]
fn drawings_are_taken_where_they_are_shown(rt: HostRuntime) -> Result<(), Fail> {
    ask(rt.alloc(), ROWS, &mut Taker {})
}

/// A blue triangle whose first point is not its place, and its drawing.
const TRIANGLE: &str =
    "#FIG 3.2\nLandscape\nCenter\nMetric\nA4\n100.00\nSingle\n-2\n1200 2\n2 3 0 0 1 1 60 -1 20 0.000 0 0 -1 0 0 4\n\t 0 0 40 0 0 40 0 0\n";

fn triangle(alloc: Global) -> Option<Change> {
    let points = Vec::from_array(
        alloc,
        [
            Point { x: -7, y: -7 },
            Point { x: 33, y: -7 },
            Point { x: -7, y: 33 },
        ],
    )
    .ok()?;
    Some(Change::Create(Start {
        form: Form::Polygon(Points::new(points)),
        place: Point { x: 7, y: 7 },
        colour: Rgb { r: 0, g: 0, b: 255 },
        layer: 5,
        shown: true,
    }))
}

fn triangle_taken(alloc: Global) -> Option<String> {
    let shown = read_fig(alloc, TRIANGLE.as_bytes()).ok()?;
    let changes = Vec::from_array(alloc, [triangle(alloc)?]).ok()?;
    taken(alloc, changes, &shown)
}

#[test]
fn a_polygon_may_begin_anywhere(rt: HostRuntime) -> Result<(), Fail> {
    is_answer("triangle", "1", triangle_taken(rt.alloc()))
}
