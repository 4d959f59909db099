//! The columns of a window that a span covers.

ghost use Rattle.std.specs.Prelude.{◌≡◌, ℕ, ◌*◌, ◌≤◌, ◌<◌, nat_le, nat_lt, int_le, ◌+ℤ◌, ◌≤ℤ◌};
ghost use Rattle.std.specs.Prelude.{pos};
ghost use Rattle.gf_spans.specs.Spans.{is_in_span};
ghost use Rattle.gf_scanline.specs.Columns.{is_among};
ghost use Rattle.gf_scanline.specs.Windows.{column};

use crate::{Columns, Window};
use gf_shape::Span;

impl Window {
    /// Which columns a span covers: those whose x lies in it.
    pub fn columns(&self, span: Span) -> Columns
        ensures { (k : ℕ) → k < self.now.width
            → is_among result k ≡ is_in_span (column self.now k) span }
    {
        let x = self.x();
        let step = self.step();
        let width = self.width() as usize;
        Columns {
            from: before(x, step, width, span.first),
            to: upto(x, step, width, span.last),
        }
    }
}

/// How many of the columns lie before a place.
#[tactic(auto, using(crate::proofs::ColumnLemmas::before_none, crate::proofs::ColumnLemmas::before_some))]
fn before(x: i32, step: u32, width: usize, place: i32) -> usize
    requires { 0 < step }
    ensures { (k : ℕ) → k < width → nat_le result k ≡ int_le place (x +ℤ pos (k * step)) }
{
    if place <= x {
        0
    } else {
        clamped(below(apart(place, x) - 1, step), width)
    }
}

/// How many of the columns lie before a place or at it.
#[tactic(auto, using(crate::proofs::ColumnLemmas::upto_none, crate::proofs::ColumnLemmas::upto_some))]
fn upto(x: i32, step: u32, width: usize, place: i32) -> usize
    requires { 0 < step }
    ensures { (k : ℕ) → k < width → nat_lt k result ≡ int_le (x +ℤ pos (k * step)) place }
{
    if place < x {
        0
    } else {
        clamped(below(apart(place, x), step), width)
    }
}

/// How many multiples of a step there are up to a distance, 0 among them.
#[tactic(auto, using(crate::proofs::ColumnLemmas::below_quotient))]
fn below(distance: u32, step: u32) -> usize
    requires { 0 < step }
    ensures { (i : ℕ) → nat_lt i result ≡ nat_le (i * step) distance }
{
    (distance / step) as usize + 1
}

/// How many of the first `count` columns there are in a row of `width` columns.
#[tactic(auto, using(crate::proofs::ColumnLemmas::clamped))]
fn clamped(count: usize, width: usize) -> usize
    ensures { (k : ℕ) → k < width → nat_lt k result ≡ nat_lt k count }
{
    count.min(width)
}

/// How far `far` lies from `near`.
#[tactic(auto, using(std::proofs::lemmas::Int::ints))]
fn apart(far: i32, near: i32) -> u32
    requires { near ≤ℤ far }
    ensures { far ≡ near +ℤ pos result }
{
    far.abs_diff(near)
}
