//! Where edges meet a row: in a crossing where they pass it, in a contact where they only touch it.

ghost use Rattle.std.specs.Prelude.{◌≡◌, ◌++◌, ◌≤◌, ◌-ℤ◌, ◌≤ℤ◌, ◌<ℤ◌, pos, unsigned_abs, IsTrue};
ghost use Rattle.std.specs.Prelude.{OnOk, All, true, Option};
ghost use Rattle.std.specs.Ordering.{int_eq};
ghost use Rattle.gf_spans.specs.Crossings.{place};
ghost use Rattle.gf_plane.specs.Reach.{is_reached, is_within_reach};
ghost use Rattle.gf_shape.specs.RowParts.{contact, contacts_along, contacts_of, crossing};
ghost use Rattle.gf_shape.specs.RowParts.{crossings_along, crossings_of, passes, span_between};

use crate::edges::climbs_past;
use crate::products::gap;
use crate::{Point, Span};
use gf_base::OutOfMemory;
use gf_spans::{Crossing, Meetings};

/// Adds where the edges of a path meet a row.
pub(crate) fn meet_along(
    first: Point,
    rest: &[Point],
    y: i32,
    meetings: &mut Meetings,
) -> Result<(), OutOfMemory>
    requires first { IsTrue (is_within_reach first) }
    requires rest { All (λ p. IsTrue (is_within_reach p)) rest.now }
    ensures crossings { OnOk result (meetings.new.crossings.items
        ≡ meetings.old.crossings.items ++ crossings_along y first rest.now) }
    ensures contacts { OnOk result (meetings.new.contacts.items
        ≡ meetings.old.contacts.items ++ contacts_along y first rest.now) }
{
    let mut from = first;
    for to in rest {
        meet(from, *to, y, meetings)?;
        from = *to;
    }
    Ok(())
}

/// Adds where the edge between two points meets the row `y`: a crossing where it passes, else its
/// contact.
pub fn meet(a: Point, b: Point, y: i32, meetings: &mut Meetings) -> Result<(), OutOfMemory>
    requires a { IsTrue (is_within_reach a) }
    requires b { IsTrue (is_within_reach b) }
    ensures crossings { OnOk result (meetings.new.crossings.items
        ≡ meetings.old.crossings.items ++ crossings_of y (a, b)) }
    ensures contacts { OnOk result (meetings.new.contacts.items
        ≡ meetings.old.contacts.items ++ contacts_of y (a, b)) }
{
    if passes(y, a, b) {
        meetings.crossings.push(crossing(y, a, b))?;
    } else if let Some(span) = contact(y, a, b) {
        meetings.contacts.push(span)?;
    }
    Ok(())
}

fn passes(y: i32, a: Point, b: Point) -> bool
    ensures { result ≡ passes y (a, b) }
{
    let on = Point { x: 0, y };
    climbs_past(on, a, b) || climbs_past(on, b, a)
}

/// The numbers in a row of an edge that doesn't pass it.
fn contact(y: i32, a: Point, b: Point) -> Option<Span>
    ensures { result ≡ contact y (a, b) }
{
    if is_in_row(a, y) && is_in_row(b, y) {
        Some(span_between(a.x, b.x))
    } else if is_in_row(a, y) {
        Some(span_between(a.x, a.x))
    } else if is_in_row(b, y) {
        Some(span_between(b.x, b.x))
    } else {
        None
    }
}

#[tactic(auto, using(std::proofs::lemmas::Int::ints))]
fn is_in_row(p: Point, y: i32) -> bool
    ensures { result ≡ int_eq p.y y }
{
    p.y == y
}

fn span_between(m: i32, n: i32) -> Span
    ensures { result ≡ span_between m n }
{
    Span {
        first: m.min(n),
        last: m.max(n),
    }
}

/// Where an edge passes a row.
#[tactic(auto, using(std::proofs::lemmas::Int::ints))]
fn crossing(y: i32, a: Point, b: Point) -> Crossing
    requires a { IsTrue (is_within_reach a) }
    requires b { IsTrue (is_within_reach b) }
    requires passes { passes y (a, b) ≡ true }
    ensures { result ≡ crossing y (a, b) }
{
    if a.y <= y {
        along(a.x, b.x, rise(a.y, y, b.y), run(a.y, b.y))
    } else {
        along(a.x, b.x, fall(a.y, y, b.y), run(b.y, a.y))
    }
}

/// The place as far from one coordinate to another as `rise` is of `height`.
#[tactic(auto, using(std::proofs::lemmas::Int::ints), unfolding(gf_plane::specs::Reach::is_reached))]
fn along(from: i32, to: i32, rise: i64, height: i64) -> Crossing
    requires from { IsTrue (is_reached from) }
    requires to { IsTrue (is_reached to) }
    requires rise { (pos 0 ≤ℤ rise) × (rise ≤ℤ height) }
    requires height { (pos 0 <ℤ height) × (unsigned_abs height ≤ 100000000) }
    ensures { result ≡ place from (to -ℤ from) rise height }
{
    Crossing::along(from, run(from, to), rise, height)
}

/// How far `to` is past `from`, both within reach.
#[tactic(auto, using(std::proofs::lemmas::Int::ints), unfolding(gf_plane::specs::Reach::is_reached))]
fn run(from: i32, to: i32) -> i64
    requires from { IsTrue (is_reached from) }
    requires to { IsTrue (is_reached to) }
    ensures value { result ≡ to -ℤ from }
    ensures small { unsigned_abs result ≤ 100000000 }
{
    gap(from, to)
}

/// How far a row is past the lower end of a climbing edge.
#[tactic(auto, using(std::proofs::lemmas::Int::ints))]
fn rise(low: i32, y: i32, high: i32) -> i64
    requires { (low ≤ℤ y) × (y <ℤ high) }
    ensures value { result ≡ y -ℤ low }
    ensures within { (pos 0 ≤ℤ result) × (result ≤ℤ (high -ℤ low)) × (pos 0 <ℤ (high -ℤ low)) }
{
    gap(low, y)
}

/// How far a row is before the higher end of a falling edge.
#[tactic(auto, using(std::proofs::lemmas::Int::ints))]
fn fall(high: i32, y: i32, low: i32) -> i64
    requires { (low ≤ℤ y) × (y <ℤ high) }
    ensures value { result ≡ high -ℤ y }
    ensures within { (pos 0 ≤ℤ result) × (result ≤ℤ (high -ℤ low)) × (pos 0 <ℤ (high -ℤ low)) }
{
    gap(y, high)
}
