//! Commands about a site.

use gf_base::OutOfMemory;
use gf_causal::{OfferFault, Offered};
use gf_groups::GroupFault;
use gf_listing::ListGroups;
use gf_ops::{History, ObjectId, Op};
use gf_site::{AuthorFault, Site, Step};
use std::alloc::Global;
use test_kit::notation::{change, id, operation};

/// The operation that the site makes of a change, or why it makes none.
pub(crate) fn author(alloc: Global, site: &mut Site, text: &str) -> Option<String> {
    said(alloc, &site.author(change(alloc, text)?))
}

fn said(alloc: Global, answer: &Result<Op, AuthorFault>) -> Option<String> {
    match answer {
        Ok(op) => format!(in alloc; "{}", op.id).ok(),
        Err(fault) => format!(in alloc; "{fault}").ok(),
    }
}

/// The last of this many operations, each of which makes a small box.
pub(crate) fn fill(alloc: Global, site: &mut Site, text: &str) -> Option<String> {
    let count: u32 = text.parse().ok()?;
    for _ in 1..count {
        site.author(change(alloc, "box 1 1")?).ok()?;
    }
    author(alloc, site, "box 1 1")
}

/// What the site says to an operation, and how many it holds then.
pub(crate) fn receive(alloc: Global, site: &mut Site, text: &str) -> Option<String> {
    let answer = site.receive(operation(alloc, text)?);
    received(alloc, answer, site.held())
}

fn received(alloc: Global, answer: Result<Offered, OfferFault>, held: usize) -> Option<String> {
    match answer {
        Ok(Offered::Held) => format!(in alloc; "Held, {held}").ok(),
        Ok(Offered::Already) => format!(in alloc; "Already, {held}").ok(),
        Err(fault) => format!(in alloc; "{fault}, {held}").ok(),
    }
}

/// What a step came to.
pub(crate) fn step(alloc: Global, site: &mut Site) -> Option<String> {
    stepped(alloc, site.step())
}

fn stepped(alloc: Global, answer: Result<Step, OutOfMemory>) -> Option<String> {
    match answer {
        Ok(Step::Applied(id)) => format!(in alloc; "Applied {id}").ok(),
        Ok(Step::Dropped(id, fault)) => format!(in alloc; "Dropped {id} {fault}").ok(),
        Ok(Step::Idle) => String::from_str(alloc, "Idle").ok(),
        Err(OutOfMemory) => None,
    }
}

/// How many operations the site holds.
pub(crate) fn held(alloc: Global, site: &Site) -> Option<String> {
    format!(in alloc; "{}", site.held()).ok()
}

/// How many versions the site's table has of an object.
pub(crate) fn versions(alloc: Global, site: &Site, text: &str) -> Option<String> {
    let object = ObjectId(id(text)?);
    match site.table().groups(alloc, site.history(), object) {
        Ok(groups) => format!(in alloc; "{}", groups.as_slice().len()).ok(),
        Err(GroupFault::NoObject) => String::from_str(alloc, "NoObject").ok(),
        Err(GroupFault::OutOfMemory) => None,
    }
}

/// How many operations of the sites 1 to 3 an operation knows.
pub(crate) fn past(alloc: Global, history: &History, text: &str) -> Option<String> {
    let [first, second, third, ..] = history.get(id(text)?)?.past.0;
    format!(in alloc; "{first} {second} {third}").ok()
}
