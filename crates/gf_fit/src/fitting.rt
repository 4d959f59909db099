//! The window that fits a drawing.

ghost use Rattle.std.specs.Prelude.{◌≡◌, ℕ, ◌*◌, ◌-◌, ◌≤◌, ◌<◌, IsTrue, nat_le};
ghost use Rattle.std.specs.Prelude.{◌≤ℤ◌, ◌+ℤ◌, ◌-ℤ◌, pos};
ghost use Rattle.std.specs.Int.{int_div_euclid};
ghost use Rattle.gf_shape.specs.declared.bounds.Bounds.{Bounds};
ghost use Rattle.gf_shape.specs.ShapeLaws.{IsBounds};
ghost use Rattle.gf_scanline.specs.Frames.{Sides, is_side};
ghost use Rattle.gf_scanline.specs.Windows.{View, is_corner, is_step};
ghost use Rattle.gf_fit.specs.FittedWindow.{Covers, IsCentral, IsFitted, IsNear, IsOver};
ghost use Rattle.gf_fit.specs.FittedWindow.{IsWide, ShowsAll, clamped, first, held, reaches};
ghost use Rattle.gf_fit.specs.Margins.{inner};

use crate::bounding::bounds_of;
use gf_figures::Drawing;
use gf_scanline::{Frame, Window};
use gf_shape::{Bounds, Range, Shape};

/// The window of a frame that fits a drawing. A twentieth of the columns, and of the rows, is the
/// margin at each end. The least bounds of what the figures hold stand in the middle. The step is
/// the least from 1 to 10,000 at which they lie within the margins, and else 10,000. A corner
/// beyond 2,000,000 becomes the nearest that a window can have. The window of a drawing without
/// figures begins at the origin, with step 1.
pub fn fitted_window<S: Shape>(drawing: &Drawing<S>, frame: Frame) -> Window
    ensures fitted { IsFitted (held S.holds drawing.now.figures) frame result }
    // Where a step is wide enough and the corner is not clamped, all points of figures lie within
    // the margins.
    ensures shows { (b : Bounds) → IsBounds (held S.holds drawing.now.figures) b →
        IsWide frame b → IsCentral frame b result →
        ShowsAll (held S.holds drawing.now.figures) result }
    // Where a step is wide enough and no point lies beyond 2,000,000, every such point lies in the
    // window. The corner may be clamped there.
    ensures covers { (b : Bounds) → IsBounds (held S.holds drawing.now.figures) b →
        IsWide frame b → IsNear b → Covers (held S.holds drawing.now.figures) result }
    // No window of the frame with a smaller step shows every such point within the margins.
    ensures least { (w : View) → w.width ≡ frame.width → w.height ≡ frame.height →
        IsTrue (is_step w.step) → w.step < result.step →
        ¬ (ShowsAll (held S.holds drawing.now.figures) w) }
{
    match bounds_of(drawing.figures()) {
        Some(bounds) => window_over(frame, bounds),
        None => window_at(frame, 0, 0, 1),
    }
}

/// The window of a frame over bounds.
fn window_over(frame: Frame, bounds: Bounds) -> Window
    requires x { bounds.low.x ≤ℤ bounds.high.x }
    requires y { bounds.low.y ≤ℤ bounds.high.y }
    ensures { IsOver frame bounds result }
{
    let (low, high) = (bounds.low, bounds.high);
    let (width, height) = (frame.width(), frame.height());
    let step = step_along(width, low.x, high.x).max(step_along(height, low.y, high.y));
    let x = first(width, step, low.x, high.x);
    let y = first(height, step, low.y, high.y);
    window_at(frame, x, y, step)
}

/// The window of a frame with this corner and step.
fn window_at(frame: Frame, x: i32, y: i32, step: u32) -> Window
    requires x { IsTrue (is_corner x) }
    requires y { IsTrue (is_corner y) }
    requires step { IsTrue (is_step step) }
    ensures { result
        ≡ record { x = x; y = y; step = step; width = frame.width; height = frame.height } }
{
    match Window::new(x, y, step, frame.width(), frame.height()) {
        Ok(window) => window,
        Err(Range) => unreachable!(),
    }
}

/// The least step at which the samples within the margins reach from one place to another, else
/// 10,000.
fn step_along(len: u32, low: i32, high: i32) -> u32
    requires len { IsTrue (is_side len) }
    requires order { low ≤ℤ high }
    ensures lawful { IsTrue (is_step result) }
    ensures least { (s : ℕ) → 1 ≤ s → s < 10000 →
        nat_le result s ≡ reaches (inner len) s low high }
{
    step_over(apart(high, low), inner(len) - 1)
}

/// The least step of which `count` cover a distance, and 10,000 where none does.
fn step_over(distance: u32, count: u32) -> u32
    ensures lawful { IsTrue (is_step result) }
    ensures least { (s : ℕ) → 1 ≤ s → s < 10000 → nat_le result s ≡ nat_le distance (count * s) }
{
    if count > 0 {
        distance.div_ceil(count).clamp(1, 10_000)
    } else if distance > 0 {
        10_000
    } else {
        1
    }
}

/// How many columns or rows lie within the margins.
fn inner(len: u32) -> u32
    requires { IsTrue (is_side len) }
    ensures inner { result ≡ inner len }
    ensures some { 1 ≤ result }
{
    len - 2 * (len / 20)
}

/// How far `far` lies from `near`.
#[tactic(auto, using(std::proofs::lemmas::Int::ints))]
fn apart(far: i32, near: i32) -> u32
    requires { near ≤ℤ far }
    ensures { far ≡ near +ℤ pos result }
{
    far.abs_diff(near)
}

/// Where the first sample lies: the place that the middle asks for, or the nearest that a corner
/// may have.
fn first(len: u32, step: u32, low: i32, high: i32) -> i32
    requires len { IsTrue (is_side len) }
    requires step { IsTrue (is_step step) }
    ensures first { result ≡ clamped (first len step low high) }
    ensures corner { IsTrue (is_corner result) }
{
    clamped(half(beside(low, high, (len - 1) * step)))
}

/// The sum of two places, less an extent.
#[tactic(auto, using(std::proofs::lemmas::Int::ints))]
fn beside(low: i32, high: i32, extent: u32) -> i64
    ensures { result ≡ low +ℤ high -ℤ pos extent }
{
    low as i64 + high as i64 - extent as i64
}

/// Half of a number, rounded down.
fn half(n: i64) -> i64
    ensures { result ≡ int_div_euclid n (pos 2) }
{
    n.div_euclid(2)
}

/// The nearest place that a corner may have.
#[tactic(auto, using(std::proofs::lemmas::Int::ints), unfolding(gf_scanline::specs::Windows::is_corner))]
fn clamped(n: i64) -> i32
    ensures clamped { result ≡ clamped n }
    ensures corner { IsTrue (is_corner result) }
{
    n.min(2_000_000).max(-2_000_000) as i32
}
