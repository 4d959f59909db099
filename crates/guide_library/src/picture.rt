//! A picture of a drawing.

use crate::lines::history;
use anyhow::Result;
use gf_drawing::compile;
use gf_raster::{OpenGate, Window, ppm_to};
use gf_streams::Tape;
use gf_visible::ranked;
use std::alloc::Global;
use std::thread::Threads;

pub fn painted_by_two_workers(rt: &(impl Print + Threads + Sync), alloc: Global) -> Result<()> {
    let drawing = compile(alloc, ranked(alloc, &history(alloc)?)?)?;
    let window = Window::new(0, 0, 2, 3, 1)?;

    let mut picture = Tape::new(alloc, None);
    ppm_to(rt, alloc, &drawing, window, 2, &OpenGate, &mut picture)?;
    println!(rt; "picture: {}", picture.bytes().escape_ascii())?;
    Ok(())
}
