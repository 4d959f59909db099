//! How a program uses the layers of the library by themselves: a short page for each, to copy from.
//! Each page writes what it found.
//!
//! - `lines`: what the pages begin with;
//! - `history`, `site`: a history with its versions, and a site;
//! - `drawing`, `picture`: a drawing, as FIG text and as a picture.
#![tactic(auto)]

mod drawing;
mod history;
mod lines;
mod picture;
mod site;

use anyhow::Result;

fn main(rt: HostRuntime) -> Result<()> {
    let alloc = rt.alloc();
    history::versions_of_a_box(&rt, alloc)?;
    site::operations_in_any_order(&rt, alloc)?;
    drawing::written_and_read_again(&rt, alloc)?;
    picture::painted_by_two_workers(&rt, alloc)
}
