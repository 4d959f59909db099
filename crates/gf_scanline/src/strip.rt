//! Some columns of a row, painted from the front to the back.

ghost use Rattle.std.specs.Prelude.{◌≡◌, ◌↔◌, ℕ, false, ◌&&◌, not, IsTrue, OnOk, IfOk, []};
ghost use Rattle.gf_plane.specs.declared.colour.Rgb.{Rgb};
ghost use Rattle.gf_scanline.specs.Columns.{is_among};
ghost use Rattle.gf_scanline.specs.Free.{is_free};
ghost use Rattle.gf_scanline.specs.Strips.{AreSameOutside, IsPainted, over};
ghost use Rattle.gf_scanline.specs.Strokes.{AreStrokesOf};

use crate::free_columns::FreeColumns;
use crate::segment::{Segment, sort, strokes_of};
use crate::{Brush, Columns, Stroke, Window};
use gf_base::OutOfMemory;
use std::alloc::Global;
use std::marker::Model;

/// Some columns of a row: what of them is painted, and which are still free. The memory for this is
/// kept from row to row.
#[derive(Drop)]
pub struct Strip<'b> {
    alloc: Global,
    segments: Vec<Segment<'b>>,
    free: FreeColumns,
}

impl<'b> Model for Strip<'b> {
    ghost use Rattle.gf_scanline.specs.Segments.{views};
    ghost use Rattle.gf_scanline.specs.Strips.{Shown};

    ghost Value = { Shown };

    ghost view = { λ s. record { segments = views s.segments.items; free = s.free } };
}

impl<'b> Strip<'b> {
    /// A strip of no columns, and no memory yet.
    pub fn new(alloc: Global) -> Strip<'b>
        ensures segments { result.segments ≡ [] }
        ensures free { (k : ℕ) → is_free result.free k ≡ false }
    {
        Strip {
            alloc,
            segments: Vec::new(alloc),
            free: FreeColumns::first(0),
        }
    }

    /// Begins a row of a window, all of whose columns are free.
    pub fn begin(&mut self, window: Window)
        ensures { (target : ℕ → Rgb) → IsPainted target target window.width self.new }
    {
        self.segments.clear();
        self.free = FreeColumns::first(window.width() as usize);
    }

    /// Whether no column is free, so that nothing behind is seen.
    pub fn is_covered(&self) -> bool
        ensures none { IsTrue result ↔ ((k : ℕ) → is_free self.now.free k ≡ false) }
        ensures unseen { IsTrue result → (target behind other : ℕ → Rgb) (n : ℕ)
            → IsPainted target behind n self.now → IsPainted target other n self.now }
    {
        self.free.is_empty()
    }

    /// Whether one of the columns is still free. Where none is, nothing that lies behind them is
    /// seen.
    pub fn has_free(&self, columns: Columns) -> bool
        ensures some { IsTrue result
            → (k : ℕ) × IsTrue (is_free self.now.free k && is_among columns k) }
        ensures unseen { result ≡ false → (target behind other : ℕ → Rgb) (n : ℕ)
            → AreSameOutside columns n behind other → IsPainted target behind n self.now
            → IsPainted target other n self.now }
    {
        self.free.has(columns)
    }

    /// Paints the columns that are still free. The cost is a step for each run of them, and one for
    /// each word of 64 columns in which a run has columns.
    pub fn paint(&mut self, columns: Columns, brush: &'b Brush) -> Result<(), OutOfMemory>
        ensures free { OnOk result ((k : ℕ)
            → is_free self.new.free k ≡ (is_free self.old.free k && not (is_among columns k))) }
        ensures painted { OnOk result ((target behind : ℕ → Rgb) (n : ℕ)
            → IsPainted target (over (is_among columns) brush.now behind) n self.old
            → IsPainted target behind n self.new) }
    {
        let mut rest = columns;
        while let Some(run) = self.free.take(rest) {
            self.segments.push(Segment {
                columns: run,
                brush,
            })?;
            rest.from = run.to;
        }
        Ok(())
    }

    /// Paints all columns of a window's row that are still free, and gives the strokes of the row.
    /// What was painted is sorted by where it begins.
    pub fn finish(
        &mut self,
        window: Window,
        ground: &'b Brush,
    ) -> Result<Vec<Stroke<'b>>, OutOfMemory>
        ensures { IfOk result (λ strokes. (target : ℕ → Rgb)
            → IsPainted target (λ _. ground.now) window.width self.old
            → AreStrokesOf target window.width strokes.items) }
    {
        let all = Columns {
            from: 0,
            to: window.width() as usize,
        };
        self.paint(all, ground)?;
        sort(&mut self.segments)?;
        let strokes = strokes_of(self.alloc, &self.segments)?;
        Ok(strokes)
    }
}
