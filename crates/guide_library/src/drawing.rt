//! A drawing to FIG text, and back.

use crate::lines::history;
use anyhow::Result;
use gf_drawing::compile;
use gf_fig_read::read_fig;
use gf_fig_write::fig_bytes;
use gf_plane::Point;
use gf_visible::ranked;
use std::alloc::Global;

pub fn written_and_read_again(rt: &impl Print, alloc: Global) -> Result<()> {
    let drawing = compile(alloc, ranked(alloc, &history(alloc)?)?)?;
    let text = fig_bytes(alloc, &drawing)?;
    let again = read_fig(alloc, &text)?;

    println!(rt; "drawing: {} figures", again.figures().len())?;
    for point in [Point { x: 3, y: 1 }, Point { x: 4, y: 1 }] {
        let is_same = again.colour_at(point) == drawing.colour_at(point);
        println!(rt;
            "drawing: the same colour at {},{}: {is_same}",
            point.x, point.y
        )?;
    }
    Ok(())
}
