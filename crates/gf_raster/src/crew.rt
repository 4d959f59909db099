//! Who paints a picture.

ghost use Rattle.std.specs.Prelude.{◌≤◌};

use crate::Gate;
use crate::tiles::TILE;
use gf_scanline::Window;
use std::alloc::Global;
use std::thread::Threads;

/// Workers, 1 to 16 of them, behind a gate.
#[derive(Drop)]
pub(crate) struct Crew<'c, R: Threads, G: Gate> {
    pub rt: &'c R,
    pub alloc: Global,
    pub workers: usize,
    pub gate: &'c G,
    /// Whether all workers share each band: where the gate may let one wait for another, and where
    /// there are fewer bands than workers, with a tile for each worker.
    pub shares_bands: bool,
    ghost within: { (1 ≤ workers) × (workers ≤ 16) },
}

impl<'c, R: Threads, G: Gate> Crew<'c, R, G> {
    /// A crew of this many workers, who paint a window behind a gate.
    pub fn new(rt: &'c R, alloc: Global, window: Window, workers: u8, gate: &'c G) -> Crew<'c, R, G>
        requires { (1 ≤ workers) × (workers ≤ 16) }
    {
        let workers = usize::from(workers);
        let bands = (window.height() as usize).div_ceil(TILE);
        let tiles = (window.width() as usize).div_ceil(TILE);
        let is_low = bands < workers && workers <= tiles;
        Crew {
            rt,
            alloc,
            workers,
            gate,
            shares_bands: workers != 1 && (is_low || gate.may_wait()),
        }
    }
}
