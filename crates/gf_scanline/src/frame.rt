//! Frames.

ghost use Rattle.std.specs.Prelude.{◌≡◌, ◌↔◌, ◌≤◌, IsTrue, IsOk, IfOk};
ghost use Rattle.gf_scanline.specs.Frames.{is_frame, is_side};

use gf_shape::Range;
use std::marker::Model;

/// How many columns and rows a picture has, each 1 to 4,096.
#[derive(Clone, Copy, Debug, PartialEq, Eq)]
pub struct Frame {
    width: u32,
    height: u32,
}

impl Model for Frame {
    ghost use Rattle.std.specs.Prelude.{IsTrue};
    ghost use Rattle.gf_scanline.specs.Frames.{Sides, is_frame};

    ghost Value = { Sides };

    ghost view = { λ f. record { width = f.width; height = f.height } };

    ghost invariant = { λ f. IsTrue (is_frame (record { width = f.width; height = f.height })) };

    ghost inverse = { λ s. record { width = s.width; height = s.height } };
}

impl Frame {
    /// The frame of this width and height, each 1 to 4,096.
    pub fn new(width: u32, height: u32) -> Result<Frame, Range>
        ensures within { IsOk result ↔ IsTrue (is_frame
            (record { width = width; height = height })) }
        ensures same { IfOk result (λ f. f ≡ record { width = width; height = height }) }
    {
        if is_side(width) && is_side(height) {
            Ok(Frame { width, height })
        } else {
            Err(Range)
        }
    }

    /// How many columns the frame has, 1 to 4,096.
    pub fn width(&self) -> u32
        ensures width { result ≡ self.now.width }
        ensures within { (1 ≤ result) × (result ≤ 4096) }
    {
        self.width
    }

    /// How many rows the frame has, 1 to 4,096.
    pub fn height(&self) -> u32
        ensures height { result ≡ self.now.height }
        ensures within { (1 ≤ result) × (result ≤ 4096) }
    {
        self.height
    }
}

fn is_side(n: u32) -> bool
    ensures { result ≡ is_side n }
{
    1 <= n && n <= 4_096
}
