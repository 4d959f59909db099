//! Trials of pictures: boxes as pixels and as PPM.

use crate::trial::{Came, Marks};
use gf_base::OutOfMemory;
use gf_fig_read::read_fig;
use gf_figures::Drawing;
use gf_raster::{OpenGate, Raster, Window};
use gf_shape::Outline;
use gf_streams::{Tape, WriteError};
use std::alloc::Global;
use std::thread::Threads;
use test_kit::EMPTY_FIG;

pub(crate) const NAMES: &str = "
paint may do without
paint_rows may do without
ppm_to may do without
ppm_to_bands may do without
ppm_to_shared may do without
";

/// What comes of the trial of this name, if there is one.
pub(crate) fn tried<T: Threads + Sync>(
    rt: &T,
    alloc: Global,
    name: &str,
    marks: &mut Marks,
) -> Option<Came> {
    let came = match name {
        "paint" => paint(rt, alloc, marks, &WHITE),
        "paint_rows" => paint(rt, alloc, marks, &ROWS),
        "ppm_to" => ppm_to(rt, alloc, marks, &CORNER),
        "ppm_to_bands" => ppm_to(rt, alloc, marks, &BANDS),
        "ppm_to_shared" => ppm_to(rt, alloc, marks, &ROWS),
        _ => return None,
    };
    Some(came.unwrap_or(Came::TooEarly))
}

/// A picture of figures in red, which is colour 4 of FIG, and how it is painted.
struct Picture {
    figures: &'static str,
    size: (u32, u32),
    workers: u8,
    header: &'static str,
    /// How many pixels are red, and how many are white behind them, in turn.
    runs: &'static [(u32, u32)],
    /// How many bytes there may be when a growth was refused.
    bands: &'static [usize],
}

/// 128 by 64 pixels for two workers.
const WHITE: Picture = Picture {
    figures: "",
    size: (128, 64),
    workers: 2,
    header: "P6\n128 64\n255\n",
    runs: &[(0, 8192)],
    bands: &[0, 14],
};

const CORNER: Picture = Picture {
    figures: "2 2 0 0 4 4 0 -1 20 0.000 0 0 -1 0 0 5\n\t 0 0 1 0 1 1 0 1 0 0\n",
    size: (3, 2),
    workers: 1,
    header: "P6\n3 2\n255\n",
    runs: &[(2, 1), (2, 1)],
    bands: &[0, 11],
};

const BOX: &str = "2 2 0 0 4 4 0 -1 20 0.000 0 0 -1 0 0 5\n\t 0 0 10 0 10 10 0 10 0 0\n";

/// Three bands, of 576, 576 and 18 bytes, for one worker, who paints two of them in a round.
const BANDS: Picture = Picture {
    figures: BOX,
    size: (3, 130),
    workers: 1,
    header: "P6\n3 130\n255\n",
    runs: &[(33, 357)],
    bands: &[0, 13, 1165],
};

/// The three bands for three workers, in one round.
const ROWS: Picture = Picture {
    figures: BOX,
    size: (3, 130),
    workers: 3,
    header: "P6\n3 130\n255\n",
    runs: &[(33, 357)],
    bands: &[0, 13],
};

impl Picture {
    fn drawing(&self, alloc: Global) -> Option<Drawing<Outline>> {
        let text = format!(in alloc; "{EMPTY_FIG}{}", self.figures).ok()?;
        read_fig(alloc, text.as_bytes()).ok()
    }

    fn window(&self) -> Option<Window> {
        Window::new(0, 0, 1, self.size.0, self.size.1).ok()
    }

    /// The whole picture as PPM.
    fn bytes(&self, alloc: Global) -> Option<Vec<u8>> {
        let mut bytes = Vec::new(alloc);
        bytes.extend_from_slice(self.header.as_bytes()).ok()?;
        for (red, white) in self.runs {
            push_pixels(&mut bytes, *red, &[255, 0, 0])?;
            push_pixels(&mut bytes, *white, &[255, 255, 255])?;
        }
        Some(bytes)
    }
}

fn push_pixels(bytes: &mut Vec<u8>, count: u32, pixel: &[u8]) -> Option<()> {
    for _ in 0..count {
        bytes.extend_from_slice(pixel).ok()?;
    }
    Some(())
}

fn paint<T: Threads + Sync>(
    rt: &T,
    alloc: Global,
    marks: &mut Marks,
    picture: &Picture,
) -> Option<Came> {
    let (window, workers) = (picture.window()?, picture.workers.clamp(1, 16));
    let want = picture.bytes(alloc)?;
    let drawing = picture.drawing(alloc)?;
    marks.begin();
    let first = gf_raster::paint(rt, alloc, &drawing, window, workers, &OpenGate);
    marks.end();
    Some(match first {
        Err(OutOfMemory) => {
            let next = gf_raster::paint(rt, alloc, &drawing, window, workers, &OpenGate);
            Came::after_memory(true, is_raster(picture, next, &want))
        }
        first => Came::first(is_raster(picture, first, &want)),
    })
}

/// Whether a raster is a whole picture without its header.
fn is_raster(picture: &Picture, answer: Result<Raster, OutOfMemory>, want: &[u8]) -> bool {
    match answer {
        Ok(raster) => want.strip_prefix(picture.header.as_bytes()) == Some(raster.bytes()),
        Err(OutOfMemory) => false,
    }
}

fn ppm_to<T: Threads + Sync>(
    rt: &T,
    alloc: Global,
    marks: &mut Marks,
    picture: &Picture,
) -> Option<Came> {
    let (window, workers) = (picture.window()?, picture.workers.clamp(1, 16));
    let want = picture.bytes(alloc)?;
    let drawing = picture.drawing(alloc)?;
    let mut tape = Tape::new(alloc, None);
    marks.begin();
    let first = gf_raster::ppm_to(rt, alloc, &drawing, window, workers, &OpenGate, &mut tape);
    marks.end();
    let front = tape.bytes();
    if first == Ok(()) {
        return Some(Came::first(front == want.as_slice()));
    }
    let is_front = want.starts_with(front);
    let mut tape = Tape::new(alloc, None);
    let next = gf_raster::ppm_to(rt, alloc, &drawing, window, workers, &OpenGate, &mut tape);
    let is_right = next == Ok(()) && tape.bytes() == want.as_slice();
    Some(match first {
        Err(WriteError::OutOfMemory) => {
            let is_kept = is_front && picture.bands.contains(&front.len());
            Came::after_memory(is_kept, is_right)
        }
        _ => Came::after_write(is_front, is_right),
    })
}
