//! A site, which holds what comes too early.

use crate::lines::LINES;
use anyhow::Result;
use gf_causal::Offered;
use gf_json::read_op;
use gf_site::{Site, Step};
use std::alloc::Global;

pub fn operations_in_any_order(rt: &impl Print, alloc: Global) -> Result<()> {
    let mut site = Site::new(alloc, 3);
    for line in LINES.iter().rev() {
        if site.receive(read_op(alloc, line.as_bytes())?)? == Offered::Held {
            println!(rt; "site: {} operations wait", site.held())?;
        }
    }
    for _ in LINES {
        site.step()?;
    }
    if site.step()? == Step::Idle {
        println!(rt;
            "site: {} taken, {} wait",
            site.history().ops().len(),
            site.held()
        )?;
    }
    Ok(())
}
