//! The values of a line: their forms, and within these their limits.

ghost use Rattle.std.specs.Prelude.{◌≡◌, ◌≤◌, ◌&&◌, pos, negsuc, int_le, nat_le, ◌∷◌, ◌++◌, []};
ghost use Rattle.std.specs.Prelude.{IfSome, option_map, option_and_then};
ghost use Rattle.std.specs.List.{list_all};
ghost use Rattle.serde_json.specs.Find.{as_bool};
ghost use Rattle.serde_json.specs.View.{view, items_view};
ghost use Rattle.gf_ops.specs.Limits.{is_site, is_id, is_clock, is_near, is_size, is_layer};
ghost use Rattle.gf_json.specs.LineForms as form;
ghost use Rattle.gf_json.specs.LineForms.{◌&◌};
ghost use Rattle.gf_json.specs.ReadLists.{clock_of};
ghost use Rattle.gf_json.specs.Limited.{kept, limited, is_between};

use crate::LineError;
use gf_ops::{Clock, OpId};
use gf_plane::{Point, Rgb, rgb_of_hex};
use serde_json::Value;

/// The elements of an array.
pub(crate) fn elements(value: Option<&Value>) -> Option<&[Value]>
    ensures { option_map (λ vs. form.elements (items_view vs.now)) result
        ≡ option_and_then form.array (option_map (λ v. view v.now) value.entry) }
{
    Some(value?.as_array()?.as_slice())
}

/// The two whole numbers of an array.
#[tactic(auto, using(crate::proofs::ArrayLemmas::not_two))]
pub(crate) fn numbers(value: Option<&Value>) -> Option<(i64, i64)>
    ensures { result
        ≡ option_and_then (form.pair form.whole) (option_map (λ v. view v.now) value.entry) }
{
    match elements(value)? {
        [a, b] => Some((a.as_i64()?, b.as_i64()?)),
        [] | [_] | [_, _, _, ..] => None,
    }
}

/// A whole number.
fn whole(value: Option<&Value>) -> Option<i64>
    ensures { result ≡ option_and_then form.whole (option_map (λ v. view v.now) value.entry) }
{
    value?.as_i64()
}

/// True or false.
pub(crate) fn truth(value: Option<&Value>) -> Option<bool>
    ensures { result ≡ option_and_then as_bool (option_map (λ v. view v.now) value.entry) }
{
    value?.as_bool()
}

/// The colour of six hexadecimal digits, which keeps its limits.
pub(crate) fn hex_colour(value: Option<&Value>) -> Option<Rgb>
    ensures { result ≡ option_and_then form.hex_colour (option_map (λ v. view v.now) value.entry) }
{
    rgb_of_hex(value?.as_str()?.as_bytes())
}

/// The number, if it lies from the one limit to the other.
#[tactic(auto, using(std::proofs::lemmas::Int::ints, crate::proofs::FormLemmas::signs))]
fn number(n: i64, low: u32, high: u32) -> Option<u32>
    ensures value { result ≡ kept (is_between low high) (form.from_zero n) }
    ensures within { IfSome result (λ m. (low ≤ m) × (m ≤ high)) }
{
    if i64::from(low) <= n && n <= i64::from(high) {
        Some(n as u32)
    } else {
        None
    }
}

/// A site.
#[tactic(auto, using(crate::proofs::FormLemmas::numbers))]
pub(crate) fn site(value: Option<&Value>) -> Result<Option<u8>, LineError>
    ensures { result ≡ limited is_site
        (option_and_then form.natural (option_map (λ v. view v.now) value.entry)) }
{
    match whole(value) {
        Some(n) => Ok(site_of(n)),
        None => Err(LineError::Field),
    }
}

/// The site of a number, if it is in range.
fn site_of(n: i64) -> Option<u8>
    ensures { result ≡ kept is_site (form.from_zero n) }
{
    let site = number(n, 1, 8)?;
    Some(site as u8)
}

/// A layer.
#[tactic(auto, using(crate::proofs::FormLemmas::numbers))]
pub(crate) fn level(value: Option<&Value>) -> Result<Option<u16>, LineError>
    ensures { result ≡ limited is_layer
        (option_and_then form.natural (option_map (λ v. view v.now) value.entry)) }
{
    match whole(value) {
        Some(n) => Ok(layer_of(n)),
        None => Err(LineError::Field),
    }
}

/// The layer of a number, if it is in range.
#[tactic(auto, using(crate::proofs::FormLemmas::bounds))]
fn layer_of(n: i64) -> Option<u16>
    ensures { result ≡ kept is_layer (form.from_zero n) }
{
    let layer = number(n, 0, 9_999)?;
    Some(layer as u16)
}

/// A name: a site and a number there.
pub(crate) fn name(value: Option<&Value>) -> Result<Option<OpId>, LineError>
    ensures { result ≡ limited is_id
        (option_and_then form.name (option_map (λ v. view v.now) value.entry)) }
{
    match numbers(value) {
        Some((site, seq)) => Ok(id_of(site, seq)),
        None => Err(LineError::Field),
    }
}

/// The id of two numbers, if both are in range.
fn id_of(site: i64, seq: i64) -> Option<OpId>
    ensures { result ≡ kept is_id (form.id_of (site, seq)) }
{
    let site = site_of(site)?;
    let seq = number(seq, 1, 10_000)?;
    Some(OpId { site, seq })
}

/// A width and a height, or two radii.
#[tactic(auto, using(crate::proofs::FormLemmas::numbers))]
pub(crate) fn size(value: Option<&Value>) -> Result<Option<(u32, u32)>, LineError>
    ensures { result ≡ limited (λ s. is_size s.0 && is_size s.1)
        (option_and_then (form.pair form.natural) (option_map (λ v. view v.now) value.entry)) }
{
    match numbers(value) {
        Some((width, height)) => Ok(size_of(width, height)),
        None => Err(LineError::Field),
    }
}

/// The size of two numbers, if both are in range.
fn size_of(width: i64, height: i64) -> Option<(u32, u32)>
    ensures { result ≡ kept (λ s. is_size s.0 && is_size s.1)
        (form.from_zero width, form.from_zero height) }
{
    let width = number(width, 1, 1_000_000)?;
    let height = number(height, 1, 1_000_000)?;
    Some((width, height))
}

/// A radius, standing twice.
pub(crate) fn radius(value: Option<&Value>) -> Result<Option<u32>, LineError>
    ensures { result ≡ limited is_size
        (option_and_then form.radius (option_map (λ v. view v.now) value.entry)) }
{
    let Some((width, height)) = numbers(value) else {
        return Err(LineError::Field);
    };
    if width == height {
        Ok(number(width, 1, 1_000_000))
    } else {
        Err(LineError::Field)
    }
}

/// A point.
pub(crate) fn point(value: Option<&Value>) -> Result<Option<Point>, LineError>
    ensures { result ≡ limited is_near
        (option_and_then form.point (option_map (λ v. view v.now) value.entry)) }
{
    match numbers(value) {
        Some((x, y)) => Ok(point_of(x, y)),
        None => Err(LineError::Field),
    }
}

/// The point of two numbers, if it is near.
#[tactic(auto, using(std::proofs::lemmas::Int::ints), unfolding(gf_ops::specs::Limits::is_near))]
fn point_of(x: i64, y: i64) -> Option<Point>
    ensures { result ≡ kept is_near (record { x = x; y = y }) }
{
    let x = coordinate(x)?;
    let y = coordinate(y)?;
    Some(Point { x, y })
}

/// The coordinate of a number, if it is near.
#[tactic(auto, using(std::proofs::lemmas::Int::ints))]
fn coordinate(n: i64) -> Option<i32>
    ensures { result ≡ kept (λ z. int_le (negsuc 999999) z && int_le z (pos 1000000)) n }
{
    if -1_000_000 <= n && n <= 1_000_000 {
        Some(n as i32)
    } else {
        None
    }
}

/// A clock, by its eight entries.
pub(crate) fn clock(value: Option<&Value>) -> Result<Option<Clock>, LineError>
    ensures { result ≡ limited is_clock
        (option_and_then form.clock (option_map (λ v. view v.now) value.entry)) }
{
    match elements(value) {
        Some(values) => clock_of(values),
        None => Err(LineError::Field),
    }
}

/// The clock of the elements of an array.
#[tactic(auto, using(crate::proofs::ArrayLemmas::not_eight))]
fn clock_of(values: &[Value]) -> Result<Option<Clock>, LineError>
    ensures { result ≡ limited is_clock (clock_of (form.elements (items_view values.now))) }
{
    let [a, b, c, d, e, f, g, h] = values else {
        return Err(LineError::Field);
    };
    let first = four(a, b, c, d)?;
    let last = four(e, f, g, h)?;
    Ok(eight(first, last))
}

/// Four entries of a clock.
fn four(a: &Value, b: &Value, c: &Value, d: &Value) -> Result<Option<[u32; 4]>, LineError>
    ensures { result ≡ limited (list_all (λ n. nat_le n 10000))
        (form.each form.natural (view a.now ∷ view b.now ∷ view c.now ∷ view d.now ∷ [])) }
{
    match (a.as_i64(), b.as_i64(), c.as_i64(), d.as_i64()) {
        (Some(a), Some(b), Some(c), Some(d)) => Ok(entries(a, b, c, d)),
        _ => Err(LineError::Field),
    }
}

/// The entries of four numbers, if all are in range.
fn entries(a: i64, b: i64, c: i64, d: i64) -> Option<[u32; 4]>
    ensures { result ≡ kept (list_all (λ n. nat_le n 10000))
        (form.from_zero a ∷ form.from_zero b ∷ form.from_zero c ∷ form.from_zero d ∷ []) }
{
    Some([entry(a)?, entry(b)?, entry(c)?, entry(d)?])
}

/// The entry of a number, if it is in range.
#[tactic(auto, using(crate::proofs::FormLemmas::bounds))]
fn entry(n: i64) -> Option<u32>
    ensures { result ≡ kept (λ n. nat_le n 10000) (form.from_zero n) }
{
    number(n, 0, 10_000)
}

/// The clock of four entries and four, if all are in range.
fn eight(first: Option<[u32; 4]>, last: Option<[u32; 4]>) -> Option<Clock>
    ensures { result ≡ option_map (λ p. record { 0 = p.0 ++ p.1 }) (first & last) }
{
    let [a, b, c, d] = first?;
    let [e, f, g, h] = last?;
    Some(Clock([a, b, c, d, e, f, g, h]))
}
