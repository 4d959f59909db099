//! The object that a figure becomes.

ghost use Rattle.std.specs.Prelude.{◌≡◌, ◌-ℤ◌, ◌≤◌, ◌+◌, IfOk, OnOk, IsTrue, All};
ghost use Rattle.std.specs.Prelude.{length, map};
ghost use Rattle.gf_shape.specs.declared.outline.Outline.TheVariants as outline;
ghost use Rattle.gf_plane.specs.Moving.{minus};
ghost use Rattle.gf_plane.specs.Reach.{is_reached, is_within_reach};
ghost use Rattle.gf_shape.specs.ShapeLaws.{IsLawful};
ghost use Rattle.gf_ops.specs.Limits.{is_colour};
ghost use Rattle.gf_figures.specs.DrawingColour.{figure_colour};
ghost use Rattle.gf_objects.specs.Objects.{form_of, place_of, seen_from, start_of};

use crate::boxes::{box_form, is_box, least_corner, point_at};
use crate::places::polygon_place;
use gf_base::OutOfMemory;
use gf_figures::{Drawing, Figure};
use gf_ops::{Form, Points, Start};
use gf_shape::{Chain, Outline, Point, Rgb};
use std::alloc::Global;

/// The layer of a figure at the depth 0.
const FRONT: u16 = 999;

/// What the object of a figure begins with.
pub fn start_of(
    alloc: Global,
    drawing: &Drawing<Outline>,
    figure: &Figure<Outline>,
) -> Result<Start, OutOfMemory>
    ensures start { IfOk result (λ start. start ≡ start_of drawing.now.table figure.now) }
    ensures lawful { OnOk result (IsLawful figure.now.shape) }
    ensures colour { OnOk result (IsTrue (is_colour
        (figure_colour drawing.now.table figure.now))) }
{
    Ok(Start {
        form: form_of(alloc, &figure.shape)?,
        place: place_of(&figure.shape),
        colour: colour_of(drawing, figure),
        layer: FRONT.saturating_sub(figure.depth),
        shown: true,
    })
}

/// The colour of a figure by its number.
pub fn colour_of(drawing: &Drawing<Outline>, figure: &Figure<Outline>) -> Rgb
    ensures colour { result ≡ figure_colour drawing.now.table figure.now }
    ensures in_range { IsTrue (is_colour result) }
{
    drawing.figure_colour(figure)
}

/// The number of the FIG object of a figure of this index, counted from 1 with the colours.
pub fn object_of(drawing: &Drawing<Outline>, index: usize) -> u64
    requires { index ≤ 10000 }
    ensures { result ≡ length drawing.now.table + index + 1 }
{
    drawing.colours().len() as u64 + index as u64 + 1
}

/// The place of what an outline becomes.
pub fn place_of(outline: &Outline) -> Point
    ensures { result ≡ place_of outline.now }
{
    match outline {
        Outline::Chain(chain) => chain_place(chain),
        Outline::Disc(disc) => disc.centre(),
        Outline::Oval(oval) => oval.centre(),
    }
}

/// The place of what a chain becomes.
fn chain_place(chain: &Chain) -> Point
    ensures { result ≡ place_of (outline.Chain chain.now) }
{
    let points = chain.points();
    if is_box(chain) {
        least_corner(point_at(points, 0), point_at(points, 2))
    } else {
        polygon_place(points)
    }
}

/// The form of what an outline becomes, seen from its place.
pub fn form_of(alloc: Global, outline: &Outline) -> Result<Form, OutOfMemory>
    ensures form { IfOk result (λ form. form ≡ form_of outline.now) }
    ensures lawful { OnOk result (IsLawful outline.now) }
{
    match outline {
        Outline::Chain(chain) => {
            let points = chain.points();
            if is_box(chain) {
                Ok(box_form(point_at(points, 0), point_at(points, 2)))
            } else {
                let seen = seen_from(alloc, polygon_place(points), points)?;
                Ok(Form::Polygon(Points::new(seen)))
            }
        }
        Outline::Disc(disc) => Ok(Form::Circle(disc.radius())),
        Outline::Oval(oval) => Ok(Form::Ellipse(oval.rx(), oval.ry())),
    }
}

/// The points of a chain without the last one, each seen from `o`.
fn seen_from(alloc: Global, o: Point, points: &[Point]) -> Result<Vec<Point>, OutOfMemory>
    requires some { 1 ≤ length points.now }
    requires o { IsTrue (is_within_reach o) }
    requires points { All (λ p. IsTrue (is_within_reach p)) points.now }
    ensures { IfOk result (λ seen. seen.items ≡ seen_from o points.now) }
{
    all_seen(alloc, o, &points[..points.len() - 1])
}

/// Points, each seen from `o`.
fn all_seen(alloc: Global, o: Point, points: &[Point]) -> Result<Vec<Point>, OutOfMemory>
    requires o { IsTrue (is_within_reach o) }
    requires points { All (λ p. IsTrue (is_within_reach p)) points.now }
    ensures { IfOk result (λ seen. seen.items ≡ map (λ p. minus p o) points.now) }
{
    let mut seen = Vec::with_capacity(alloc, points.len())?;
    for p in points {
        seen.push(seen_at(o, *p))?;
    }
    Ok(seen)
}

/// A point, seen from `o`.
fn seen_at(o: Point, p: Point) -> Point
    requires o { IsTrue (is_within_reach o) }
    requires p { IsTrue (is_within_reach p) }
    ensures { result ≡ minus p o }
{
    Point {
        x: gap(o.x, p.x),
        y: gap(o.y, p.y),
    }
}

/// How far `n` lies past `o`.
#[tactic(auto, using(std::proofs::lemmas::Int::ints), unfolding(gf_plane::specs::Reach::is_reached))]
fn gap(o: i32, n: i32) -> i32
    requires o { IsTrue (is_reached o) }
    requires n { IsTrue (is_reached n) }
    ensures { result ≡ n -ℤ o }
{
    n - o
}
