//! Operations that are added, and rounds of conflicting ones.

use gf_ops::{Op, OpId, Value};
use gf_site::{Site, Step};
use std::alloc::Global;
use test_kit::{BLUE, GREEN, changed};

/// Adds the operation, where it is ready and the history accepts it.
pub(crate) fn add(site: &mut Site, op: Op) -> Option<()> {
    site.receive(op).ok()?;
    match site.step() {
        Ok(Step::Applied(_)) => Some(()),
        _ => None,
    }
}

/// Adds this many rounds of two colours of the object 1.1.
pub(crate) fn rounds(alloc: Global, site: &mut Site, count: u32) -> Option<()> {
    for _ in 0..count {
        round(alloc, site, Value::Colour(BLUE), Value::Colour(GREEN))?;
    }
    Some(())
}

/// Adds this many rounds in which site 1 hides the object 1.1 and site 2 shows it.
pub(crate) fn hidings(alloc: Global, site: &mut Site, count: u32) -> Option<()> {
    for _ in 0..count {
        round(alloc, site, Value::Shown(false), Value::Shown(true))?;
    }
    Some(())
}

/// Adds a round: sites 1 and 2, which know all rounds before, give the object 1.1 another value.
fn round(alloc: Global, site: &mut Site, one: Value, other: Value) -> Option<()> {
    let first = site.history().count(1);
    let second = site.history().count(2);
    let known = [first, second, 0, 0, 0, 0, 0, 0];
    add_value(alloc, site, 1, first, known, one)?;
    add_value(alloc, site, 2, second, known, other)
}

/// Adds an operation that gives the object 1.1 a value. The site `number` makes it, and made `made`
/// operations before.
fn add_value(
    alloc: Global,
    site: &mut Site,
    number: u8,
    made: u32,
    known: [u32; 8],
    value: Value,
) -> Option<()> {
    let id = OpId {
        site: number,
        seq: made.saturating_add(1),
    };
    let object = OpId { site: 1, seq: 1 };
    add(site, changed(alloc, id, known, object, value))
}
