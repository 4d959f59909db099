//! Bands.

ghost use Rattle.std.specs.Prelude.{◌≡◌, ◌+◌, ◌-◌, ◌<◌, ◌≤◌};

use crate::Window;
use std::marker::Model;

/// Rows of a window, one below the other: one row, or more.
#[derive(Clone, Copy)]
pub struct Band {
    window: Window,
    top: usize,
    count: usize,
}

impl Model for Band {
    ghost use Rattle.gf_scanline.specs.Bands.{BandView, IsBand};

    ghost Value = { BandView };

    ghost view = { λ b. record { window = b.window; top = b.top; count = b.count } };

    ghost invariant = { λ b. IsBand (record
        { window = b.window; top = b.top; count = b.count }) };

    ghost inverse = { λ v. record { window = v.window; top = v.top; count = v.count } };
}

impl Band {
    /// The rows of a window from `top` on, `count` of them.
    pub fn new(window: Window, top: usize, count: usize) -> Band
        requires { (1 ≤ count) × (top + count ≤ window.height) }
        ensures { result ≡ record { window = window; top = top; count = count } }
    {
        Band { window, top, count }
    }

    /// The window of the band.
    pub fn window(&self) -> Window
        ensures window { result ≡ self.now.window }
        ensures within { self.now.top + self.now.count ≤ result.height }
    {
        self.window
    }

    /// The first row of the band.
    pub fn top(&self) -> usize
        ensures top { result ≡ self.now.top }
        ensures within { result < self.now.window.height }
    {
        self.top
    }

    /// The last row of the band.
    pub fn last(&self) -> usize
        ensures last { result ≡ self.now.top + self.now.count - 1 }
        ensures within { result < self.now.window.height }
    {
        self.top + self.count() - 1
    }

    /// How many rows the band has, 1 to 4,096.
    pub fn count(&self) -> usize
        ensures count { result ≡ self.now.count }
        ensures within { (1 ≤ result) × (self.now.top + result ≤ 4096) }
    {
        let _ = self.window.height();
        self.count
    }
}
