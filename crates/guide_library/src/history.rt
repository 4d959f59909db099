//! A history and its versions.

use crate::lines::history;
use anyhow::Result;
use gf_listing::groups_of;
use gf_ops::{ObjectId, OpId};
use gf_plane::Rgb;
use gf_visible::ranked;
use std::alloc::Global;

pub fn versions_of_a_box(rt: &impl Print, alloc: Global) -> Result<()> {
    let history = history(alloc)?;

    let object = ObjectId(OpId { site: 1, seq: 1 });
    let groups = groups_of(alloc, &history, object)?;
    println!(rt;
        "history: the box {} has {} versions",
        object.0,
        groups.as_slice().len()
    )?;

    let ranked = ranked(alloc, &history)?;
    for placed in &ranked.items {
        let Rgb { r, g, b } = placed.colour;
        println!(rt; "history: one of colour {r:02x}{g:02x}{b:02x}")?;
    }
    Ok(())
}
