//! Worked examples of who paints: workers meet in a shape, and rows are found no band ahead.

ghost use Rattle.gf_shape.specs.Outlines.{rect_outline};
ghost use Rattle.gf_shape.specs.ShapeMeaning.{rect_holds};
ghost use Rattle.gf_shape.specs.ShapeMoves.{rect_movable, rect_moved};
ghost use Rattle.gf_shape.specs.Laws.Shapes.{rect_moves, rect_outlines};

use gf_base::OutOfMemory;
use gf_figures::{Drawing, Figure};
use gf_raster::{Gate, Window, paint};
use gf_shape::{Bounds, Outline, Point, Rect, Row, Shape};
use std::alloc::Global;
use std::marker::Model;
use std::sync::atomic::AtomicUsize;
use std::sync::atomic::Ordering::SeqCst;
use std::thread::Threads;

/// What those who paint a window leave behind. The window is one tile wide.
#[derive(Drop)]
struct Painters {
    /// How many passed for each tile.
    passed: [AtomicUsize; 3],
    /// How often a row was asked for.
    asked: AtomicUsize,
    /// How often a row was asked for before the gate of the band above was passed.
    early: AtomicUsize,
    /// How many painters saw `wanted` of them ask.
    met: AtomicUsize,
    wanted: usize,
}

impl Painters {
    /// Nobody has painted, and this many painters are to meet.
    fn new(wanted: usize) -> Painters {
        Painters {
            passed: [none(), none(), none()],
            asked: none(),
            early: none(),
            met: none(),
            wanted,
        }
    }

    fn ask(&self, y: i32) {
        let band = y.max(0) as usize / 64;
        if let Some(above) = band.checked_sub(1)
            && let Some(tile) = self.passed.get(above)
            && tile.load(SeqCst) == 0
        {
            self.early.fetch_add(1, SeqCst);
        }
        self.asked.fetch_add(1, SeqCst);
        self.meet();
    }

    /// Waits for other painters, as long as it counts to 1,000,000,000.
    fn meet(&self) {
        for _ in 0..1_000_000_000u32 {
            if self.wanted <= self.asked.load(SeqCst) {
                self.met.fetch_add(1, SeqCst);
                return;
            }
        }
    }
}

/// A box that looks at its painters. Contracts see the box alone.
#[derive(Drop)]
struct Watched {
    rect: Rect,
    painters: Painters,
}

impl Model for Watched {
    ghost use Rattle.gf_shape.specs.Area.{Area};

    ghost Value = { Area };

    ghost view = { λ w. w.rect };
}

impl Shape for Watched {
    ghost holds = { rect_holds };

    ghost is_movable = { rect_movable };

    ghost moved = { rect_moved };

    ghost outline = { rect_outline };

    fn holds(&self, p: Point) -> bool {
        self.rect.holds(p)
    }

    fn bounds(&self) -> Bounds {
        self.rect.bounds()
    }

    fn movable(&self, d: Point) -> bool {
        self.rect.movable(d)
    }

    fn moved(&self, alloc: Global, d: Point) -> Result<Watched, OutOfMemory> {
        Ok(Watched {
            rect: self.rect.moved(alloc, d)?,
            painters: Painters::new(self.painters.wanted),
        })
    }

    fn outline(&self, alloc: Global) -> Result<Outline, OutOfMemory> {
        self.rect.outline(alloc)
    }

    fn row_into(&self, y: i32, row: &mut Row) -> Result<(), OutOfMemory> {
        self.painters.ask(y);
        self.rect.row_into(y, row)
    }

    ghost moves = { rect_moves };

    ghost outlines = { rect_outlines };
}

/// The gate before a watched box.
#[derive(Drop)]
struct Entrance<'a> {
    drawing: &'a Drawing<Watched>,
    may_wait: bool,
}

impl Gate for Entrance<'_> {
    fn enter(&self, _who: u8, piece: u32) {
        for figure in self.drawing.figures() {
            if let Some(tile) = figure.shape.painters.passed.get(piece as usize) {
                tile.fetch_add(1, SeqCst);
            }
        }
    }

    fn may_wait(&self) -> bool {
        self.may_wait
    }
}

fn none() -> AtomicUsize {
    AtomicUsize::new(0)
}

/// A box of 300 rows, in which this many painters are to meet.
fn drawing_of_box(alloc: Global, wanted: usize) -> Option<Drawing<Watched>> {
    let painters = Painters::new(wanted);
    let rect = Rect::new(Point { x: 0, y: 0 }, 300, 300).ok()?;
    let mut drawing = Drawing::new(alloc);
    drawing
        .add_figure(Figure {
            shape: Watched { rect, painters },
            colour: 4,
            depth: 0,
        })
        .ok()?;
    Some(drawing)
}

/// How often a row of the box was asked for, and how often a band ahead. Behind these stands how
/// often painters met.
fn told<R: Threads + Sync>(
    rt: &R,
    alloc: Global,
    height: u32,
    workers: u8,
    wanted: usize,
    may_wait: bool,
) -> Option<[usize; 3]> {
    let window = Window::new(0, 0, 1, 3, height).ok()?;
    let drawing = drawing_of_box(alloc, wanted)?;
    let gate = Entrance {
        drawing: &drawing,
        may_wait,
    };
    paint(rt, alloc, &drawing, window, workers.clamp(1, 16), &gate).ok()?;
    let painters = &drawing.figures().first()?.shape.painters;
    Some([&painters.asked, &painters.early, &painters.met].map(|count| count.load(SeqCst)))
}

#[test]
fn two_workers_paint_rows_at_the_same_time(rt: HostRuntime) {
    assert_eq!(rt; told(&rt, rt.alloc(), 2, 2, 2, true), Some([2, 0, 2]));
}

#[test]
fn two_workers_paint_bands_at_the_same_time(rt: HostRuntime) {
    let counts = told(&rt, rt.alloc(), 128, 2, 2, false);
    assert_eq!(rt;
        counts.map(|counts| [counts[0], counts[2]]),
        Some([128, 128])
    );
}

#[test]
fn rows_are_found_no_band_ahead(rt: HostRuntime) {
    for workers in [1, 3, 16] {
        let counts = told(&rt, rt.alloc(), 130, workers, 0, true);
        assert_eq!(rt; counts, Some([130, 0, 130]), "{workers}");
    }
}
