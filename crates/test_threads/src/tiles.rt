//! Worked examples of the gates of pictures: who passes for which tile, and that workers paint at
//! the same time.

use gf_figures::{Drawing, Figure};
use gf_raster::{Gate, Window, paint, ppm_to};
use gf_shape::{Point, Rect};
use gf_streams::{Tape, WriteError};
use std::alloc::Global;
use std::sync::atomic::AtomicUsize;
use std::sync::atomic::Ordering::SeqCst;
use std::test::Fail;
use std::thread::Threads;

/// Whose tiles the first ones are: the sum of those who passed for each.
#[derive(Drop)]
struct Passed {
    tiles: [AtomicUsize; 6],
    may_wait: bool,
}

impl Gate for Passed {
    fn enter(&self, who: u8, piece: u32) {
        if let Some(tile) = self.tiles.get(piece as usize) {
            tile.fetch_add(usize::from(who), SeqCst);
        }
    }

    fn may_wait(&self) -> bool {
        self.may_wait
    }
}

fn none() -> AtomicUsize {
    AtomicUsize::new(0)
}

fn nobody(may_wait: bool) -> Passed {
    Passed {
        tiles: [none(), none(), none(), none(), none(), none()],
        may_wait,
    }
}

/// Who passed for each of the first six tiles.
fn who(gate: &Passed) -> [usize; 6] {
    let [a, b, c, d, e, f] = &gate.tiles;
    [a, b, c, d, e, f].map(|tile| tile.load(SeqCst))
}

/// Whether the PPM of a red box, 10 by 10, is written into this much room as far as it fits. The
/// window is 3 columns wide and 130 rows high.
fn is_written<T: Threads + Sync>(
    rt: &T,
    alloc: Global,
    gate: &Passed,
    workers: u8,
    room: usize,
) -> Result<bool, Fail> {
    let rect = Rect::new(Point { x: 0, y: 0 }, 10, 10)?;
    let mut drawing = Drawing::new(alloc);
    drawing.add_figure(Figure {
        shape: rect,
        colour: 4,
        depth: 0,
    })?;
    let window = Window::new(0, 0, 1, 3, 130)?;
    let mut tape = Tape::new(alloc, Some(room as u64));
    let workers = workers.clamp(1, 16);
    let written = ppm_to(rt, alloc, &drawing, window, workers, gate, &mut tape);
    let whole = box_picture(alloc)?;
    let fits = whole.len() <= room;
    let want = if fits {
        Ok(())
    } else {
        Err(WriteError::WriteFailed)
    };
    Ok(written == want && tape.bytes() == &whole[..room.min(whole.len())])
}

/// Eleven rows of red pixels before white ones.
fn box_picture(alloc: Global) -> Result<Vec<u8>, Fail> {
    let mut bytes = Vec::from_slice(alloc, b"P6\n3 130\n255\n")?;
    for _ in 0..33 {
        bytes.extend_from_slice(&[255, 0, 0])?;
    }
    bytes.resize(1183, 255)?;
    Ok(bytes)
}

#[test]
fn each_tile_is_passed_once(rt: HostRuntime) -> Result<(), Fail> {
    for (workers, room, want) in [
        (1, 2000, [1, 1, 1, 0, 0, 0]),
        (16, 2000, [1, 1, 1, 0, 0, 0]),
        (1, 600, [1, 1, 0, 0, 0, 0]),
    ] {
        let gate = nobody(true);
        assert!(rt;
            is_written(&rt, rt.alloc(), &gate, workers, room)?,
            "{room}"
        );
        assert_eq!(rt; who(&gate), want, "{workers} workers, {room} bytes");
    }
    Ok(())
}

/// Who passed for each of the first six tiles of a window onto nothing, where it is white.
fn who_passed<T: Threads + Sync>(
    rt: &T,
    alloc: Global,
    may_wait: bool,
    (width, height): (u32, u32),
    workers: u8,
) -> Result<Option<[usize; 6]>, Fail> {
    let gate = nobody(may_wait);
    let is_white = is_white(rt, alloc, &gate, width, height, workers)?;
    Ok(if is_white { Some(who(&gate)) } else { None })
}

fn is_white<T: Threads + Sync, G: Gate + Sync>(
    rt: &T,
    alloc: Global,
    gate: &G,
    width: u32,
    height: u32,
    workers: u8,
) -> Result<bool, Fail> {
    let window = Window::new(0, 0, 1, width, height)?;
    let nothing = Drawing::<Rect>::new(alloc);
    let raster = paint(rt, alloc, &nothing, window, workers.clamp(1, 16), gate)?;
    for byte in raster.bytes() {
        if *byte != 255 {
            return Ok(false);
        }
    }
    Ok(raster.bytes().len() as u64 == u64::from(width) * u64::from(height) * 3)
}

#[test]
fn each_tile_of_shared_bands_is_passed_once(rt: HostRuntime) -> Result<(), Fail> {
    for (workers, want) in [(2, [1, 1, 2, 1, 1, 2]), (3, [1, 2, 3, 1, 2, 3])] {
        let passed = who_passed(&rt, rt.alloc(), true, (129, 65), workers)?;
        assert_eq!(rt; passed, Some(want), "{workers}");
    }
    Ok(())
}

#[test]
fn workers_have_bands_of_their_own_where_these_are_enough(rt: HostRuntime) -> Result<(), Fail> {
    for (sides, workers, want) in [
        ((129, 65), 1, [1, 1, 1, 1, 1, 1]),
        ((129, 64), 2, [1, 1, 2, 0, 0, 0]),
        ((129, 65), 2, [1, 1, 1, 2, 2, 2]),
        ((3, 321), 3, [1, 1, 2, 2, 3, 3]),
        ((3, 321), 2, [1, 1, 2, 2, 1, 2]),
    ] {
        let passed = who_passed(&rt, rt.alloc(), false, sides, workers)?;
        assert_eq!(rt; passed, Some(want), "{sides:?} by {workers}");
    }
    Ok(())
}

/// Waits for another worker, as long as it counts to some millions.
#[derive(Drop)]
struct Meeting {
    come: AtomicUsize,
    met: AtomicUsize,
}

impl Gate for Meeting {
    fn enter(&self, _who: u8, _piece: u32) {
        self.come.fetch_add(1, SeqCst);
        for _ in 0..100_000_000u32 {
            if self.come.load(SeqCst) == 2 {
                self.met.fetch_add(1, SeqCst);
                return;
            }
        }
    }
}

#[test]
fn two_workers_paint_at_the_same_time(rt: HostRuntime) -> Result<(), Fail> {
    let gate = Meeting {
        come: none(),
        met: none(),
    };
    assert!(rt; is_white(&rt, rt.alloc(), &gate, 128, 64, 2)?);
    assert_eq!(rt; gate.met.load(SeqCst), 2);
    Ok(())
}
