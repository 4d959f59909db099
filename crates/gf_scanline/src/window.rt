//! Windows.

ghost use Rattle.std.specs.Prelude.{◌≡◌, ◌↔◌, IsTrue, IsOk, IfOk, ◌<◌, ◌≤◌, ◌*◌, ◌+ℤ◌, pos};
ghost use Rattle.gf_scanline.specs.Windows.{is_corner, is_step, is_view, line};

use crate::Frame;
use gf_shape::Range;
use std::marker::Model;

/// Which part of the plane a picture shows: `height` rows of `width` points, `step` apart. The
/// first point is (x, y). The pixel (i, j) is the point (x + i * step, y + j * step).
#[derive(Clone, Copy, Debug, PartialEq, Eq)]
pub struct Window {
    x: i32,
    y: i32,
    step: u32,
    frame: Frame,
}

impl Model for Window {
    ghost use Rattle.std.specs.Prelude.{IsTrue};
    ghost use Rattle.gf_scanline.specs.Windows.{View, is_view};

    ghost Value = { View };

    ghost view = { λ w. record {
      x = w.x;
      y = w.y;
      step = w.step;
      width = w.frame.width;
      height = w.frame.height;
    } };

    ghost invariant = { λ w. IsTrue (is_view (record
        { x = w.x; y = w.y; step = w.step; width = w.frame.width; height = w.frame.height })) };

    ghost inverse = { λ v. record {
      x = v.x;
      y = v.y;
      step = v.step;
      frame = record { width = v.width; height = v.height };
    } };
}

impl Window {
    /// The window of this first point, step, width and height. The numbers `x` and `y` are from
    /// -2,000,000 to 2,000,000. The step is 1 to 10,000, and width and height are 1 to 4,096.
    pub fn new(x: i32, y: i32, step: u32, width: u32, height: u32) -> Result<Window, Range>
        ensures within { IsOk result ↔ IsTrue (is_view
            (record { x = x; y = y; step = step; width = width; height = height })) }
        ensures same { IfOk result (λ w. w
            ≡ record { x = x; y = y; step = step; width = width; height = height }) }
    {
        let frame = Frame::new(width, height)?;
        if is_corner(x) && is_corner(y) && is_step(step) {
            Ok(Window { x, y, step, frame })
        } else {
            Err(Range)
        }
    }

    /// The x of the first column.
    pub fn x(&self) -> i32
        ensures { result ≡ self.now.x }
    {
        self.x
    }

    /// How far neighbouring points are apart, 1 to 10,000.
    pub fn step(&self) -> u32
        ensures step { result ≡ self.now.step }
        ensures within { (1 ≤ result) × (result ≤ 10000) }
    {
        self.step
    }

    /// How many columns the window has, 1 to 4,096.
    pub fn width(&self) -> u32
        ensures width { result ≡ self.now.width }
        ensures within { (1 ≤ result) × (result ≤ 4096) }
    {
        self.frame.width()
    }

    /// How many rows the window has, 1 to 4,096.
    pub fn height(&self) -> u32
        ensures height { result ≡ self.now.height }
        ensures within { (1 ≤ result) × (result ≤ 4096) }
    {
        self.frame.height()
    }

    /// Recalls that a window has at most 4,096 columns and rows. A caller takes no more of the call
    /// than its clauses.
    pub fn recall_sides(&self)
        ensures width { self.now.width ≤ 4096 }
        ensures height { self.now.height ≤ 4096 }
    {
        let _ = self.width();
        let _ = self.height();
    }

    /// The y of row `j`.
    pub fn line(&self, j: usize) -> i32
        requires { j < self.now.height }
        ensures { result ≡ line self.now j }
    {
        moved(self.y, times(j, self.step))
    }
}

#[tactic(auto, using(std::proofs::lemmas::Int::ints), unfolding(crate::specs::Windows::is_corner))]
fn is_corner(n: i32) -> bool
    ensures { result ≡ is_corner n }
{
    -2_000_000 <= n && n <= 2_000_000
}

fn is_step(n: u32) -> bool
    ensures { result ≡ is_step n }
{
    1 <= n && n <= 10_000
}

fn times(n: usize, step: u32) -> u32
    requires n { n < 4096 }
    requires step { step ≤ 10000 }
    ensures product { result ≡ n * step }
    ensures most { result ≤ 40960000 }
{
    n as u32 * step
}

/// A place moved on by a distance.
#[tactic(auto, using(std::proofs::lemmas::Int::ints), unfolding(crate::specs::Windows::is_corner))]
fn moved(place: i32, distance: u32) -> i32
    requires place { IsTrue (is_corner place) }
    requires distance { distance ≤ 40960000 }
    ensures { result ≡ place +ℤ pos distance }
{
    place + distance as i32
}
