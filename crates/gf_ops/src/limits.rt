//! The limits of operations.

ghost use Rattle.std.specs.Prelude.{◌≡◌, ◌∷◌, nat_lt};
ghost use Rattle.std.specs.List.{list_all};
ghost use Rattle.std.specs.Ordering.{is_lt};
ghost use Rattle.gf_plane.specs.PointCounts.{is_polygon_count};
ghost use Rattle.gf_ops.specs.Limits.{is_site, is_size, is_near, is_id, is_clock, is_polygon};
ghost use Rattle.gf_ops.specs.Limits.{is_form, is_layer, is_value, is_change, is_in_range};
ghost use Rattle.gf_ops.specs.Limits.{is_colour, is_start, is_aim};
ghost use Rattle.gf_ops.specs.OperationOrder.{id_cmp, rises};

use crate::{Change, Clock, Form, Op, OpId, Start, Value};
use gf_plane::{Point, Rgb};

impl Op {
    /// Whether the site, the number, the clock and the change of the operation keep the limits.
    pub fn in_range(&self) -> bool
        ensures { result ≡ is_in_range self.now }
    {
        self.id.in_range() && is_clock(&self.past) && self.change.in_range()
    }
}

impl OpId {
    /// Whether the id names one of the first 10,000 operations of a site.
    pub fn in_range(self) -> bool
        ensures { result ≡ is_id self }
    {
        is_site(self.site) && 1 <= self.seq && self.seq <= 10_000
    }
}

impl Change {
    /// Whether the values keep the limits: coordinates ±1,000,000, sizes 1 to 1,000,000, 3 to 64
    /// points, layers 0 to 9,999. An aim has at most 1,000 rising ids.
    pub fn in_range(&self) -> bool
        ensures { result ≡ is_change self.now }
    {
        match self {
            Change::Create(start) => is_start(start),
            Change::Set { object, value, aim } => {
                object.0.in_range() && is_value(value) && is_aim(aim.as_slice())
            }
        }
    }
}

fn is_site(site: u8) -> bool
    ensures { result ≡ is_site site }
{
    (1..=8).contains(&site)
}

/// Whether the first is before the second, by site and then by number.
fn id_less(id: OpId, other: OpId) -> bool
    ensures { result ≡ is_lt (id_cmp id other) }
{
    id.site < other.site || id.site == other.site && id.seq < other.seq
}

/// Whether an id and those behind it rise.
fn rise_behind(id: OpId, ids: &[OpId]) -> bool
    ensures { result ≡ rises id_cmp (id ∷ ids.now) }
{
    let mut last = id;
    for next in ids {
        if !id_less(last, *next) {
            return false;
        }
        last = *next;
    }
    true
}

fn ids_rise(ids: &[OpId]) -> bool
    ensures { result ≡ rises id_cmp ids.now }
{
    match ids.split_first() {
        Some((first, rest)) => rise_behind(*first, rest),
        None => true,
    }
}

fn are_ids(ids: &[OpId]) -> bool
    ensures { result ≡ list_all is_id ids.now }
{
    ids.iter().all(|id| id.in_range())
}

fn is_aim(aim: &[OpId]) -> bool
    ensures { result ≡ is_aim aim.now }
{
    aim.len() <= 1_000 && are_ids(aim) && ids_rise(aim)
}

fn is_clock(clock: &Clock) -> bool
    ensures { result ≡ is_clock clock.now }
{
    clock.0.iter().all(|n| *n <= 10_000)
}

/// Whether a side or a radius is a size.
pub fn is_size(n: u32) -> bool
    ensures { result ≡ is_size n }
{
    1 <= n && n <= 1_000_000
}

fn is_form(form: &Form) -> bool
    ensures { result ≡ is_form form.now }
{
    match form {
        Form::Rect(width, height) => is_size(*width) && is_size(*height),
        Form::Polygon(points) => is_polygon(points.as_slice()),
        Form::Circle(radius) => is_size(*radius),
        Form::Ellipse(rx, ry) => is_size(*rx) && is_size(*ry),
    }
}

fn is_value(value: &Value) -> bool
    ensures { result ≡ is_value value.now }
{
    match value {
        Value::Place(place) => is_near(*place),
        Value::Points(points) => is_polygon(points.as_slice()),
        Value::Size(width, height) => is_size(*width) && is_size(*height),
        Value::Colour(colour) => is_colour(*colour),
        Value::Layer(layer) => is_layer(*layer),
        Value::Shown(_) => true,
    }
}

fn is_start(start: &Start) -> bool
    ensures { result ≡ is_start start.now }
{
    is_form(&start.form) && is_near(start.place) && is_layer(start.layer) && is_colour(start.colour)
}

/// Whether the parts are bytes, which their type says.
fn is_colour(colour: Rgb) -> bool
    ensures { result ≡ is_colour colour }
{
    is_byte(colour.r) && is_byte(colour.g) && is_byte(colour.b)
}

fn is_byte(_part: u8) -> bool
    ensures { result ≡ nat_lt _part 256 }
{
    true
}

fn is_layer(layer: u16) -> bool
    ensures { result ≡ is_layer layer }
{
    layer <= 9_999
}

fn is_polygon(points: &[Point]) -> bool
    ensures { result ≡ is_polygon points.now }
{
    is_polygon_count(points.len()) && are_near(points)
}

fn is_polygon_count(n: usize) -> bool
    ensures { result ≡ is_polygon_count n }
{
    3 <= n && n <= 64
}

/// Whether all points are near.
pub fn are_near(points: &[Point]) -> bool
    ensures { result ≡ list_all is_near points.now }
{
    points.iter().all(|p| is_near(*p))
}

/// Whether a place lies as near as places have to.
#[tactic(auto, using(std::proofs::lemmas::Int::ints), unfolding(crate::specs::Limits::is_near))]
pub fn is_near(p: Point) -> bool
    ensures { result ≡ is_near p }
{
    -1_000_000 <= p.x && p.x <= 1_000_000 && -1_000_000 <= p.y && p.y <= 1_000_000
}
