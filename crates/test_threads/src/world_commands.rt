//! Commands about a world.

use gf_replicas::{Event, World, world_run};
use std::alloc::Global;
use test_kit::notation::{change, history_ids};

/// `2; author 1 box 1 1; offer 2 0; step 2`: what the sites have behind these events, and the
/// messages.
pub(crate) fn run(alloc: Global, text: &str) -> Option<String> {
    let (sites, events) = text.split_once("; ")?;
    let sites: u8 = sites.parse().ok()?;
    if !(1..=8).contains(&sites) {
        return None;
    }
    told(
        alloc,
        &world_run(alloc, sites, events_of(alloc, events)?).ok()?,
    )
}

fn events_of(alloc: Global, text: &str) -> Option<Vec<Event>> {
    let mut events = Vec::new(alloc);
    for part in text.split("; ") {
        events.push(event(alloc, part)?).ok()?;
    }
    Some(events)
}

/// `author 1 box 1 1`, `offer 2 0`, `step 2`.
fn event(alloc: Global, text: &str) -> Option<Event> {
    let (verb, rest) = text.split_once(' ')?;
    let (site, what) = rest.split_once(' ').unwrap_or((rest, ""));
    let site: u8 = site.parse().ok()?;
    match verb {
        "author" => Some(Event::Author(site, change(alloc, what)?)),
        "offer" => Some(Event::Offer(site, what.parse().ok()?)),
        "step" => Some(Event::Step(site)),
        _ => None,
    }
}

/// The operations of each site in brackets, and how many messages there are.
fn told(alloc: Global, world: &World) -> Option<String> {
    let mut text = String::new(alloc);
    for site in &world.sites {
        let ids = history_ids(alloc, site.history())?;
        let ids = format!(in alloc; "[{}] ", ids.as_str().trim()).ok()?;
        text.push_str(ids.as_str()).ok()?;
    }
    let messages = format!(in alloc; "{}", world.messages.len()).ok()?;
    text.push_str(messages.as_str()).ok()?;
    Some(text)
}
