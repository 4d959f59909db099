//! Trials of sites, tables and worlds: a third site, which gets a box and its changes.

ghost use Rattle.std.specs.Prelude.{◌≡◌, ◌++◌, ◌∷◌, [], IfOk};
ghost use Rattle.gf_ops.specs.Limits.{IsInRange};
ghost use Rattle.gf_table.specs.Standing.{StandsFor};

use crate::examples::{BOX, TWO_COLOURS, are_groups, site};
use crate::trial::{Came, Marks};
use gf_base::OutOfMemory;
use gf_causal::{OfferFault, Offered};
use gf_listing::ListGroups;
use gf_ops::{History, ObjectId, Op};
use gf_replicas::{Event, World};
use gf_site::{AuthorFault, Site, Step};
use gf_table::GroupTable;
use std::alloc::Global;
use test_kit::notation::{change, operation};

pub(crate) const NAMES: &str = "
receive
step
author
held_ops
site_copy
table_add may do without
table_copy
world_run
";

/// What comes of the trial of this name, if there is one.
pub(crate) fn tried(alloc: Global, name: &str, marks: &mut Marks) -> Option<Came> {
    let came = match name {
        "receive" => receive(alloc, marks),
        "step" => step(alloc, marks),
        "author" => author(alloc, marks),
        "held_ops" => held_ops(alloc, marks),
        "site_copy" => site_copy(alloc, marks),
        "table_add" => table_add(alloc, marks),
        "table_copy" => table_copy(alloc, marks),
        "world_run" => world_run(alloc, marks),
        _ => return None,
    };
    Some(came.unwrap_or(Came::TooEarly))
}

/// The change of a box that is not there yet.
const RECOLOURED: &str = "2.1 after 1: 1.1 colour 0000ff";

fn receive(alloc: Global, marks: &mut Marks) -> Option<Came> {
    let (op, same) = (operation(alloc, RECOLOURED)?, operation(alloc, RECOLOURED)?);
    let mut site = Site::new(alloc, 3);
    marks.begin();
    let first = site.receive(op);
    marks.end();
    Some(match first {
        Err(OfferFault::OutOfMemory) => {
            let is_kept = site.held() == 0;
            let next = site.receive(same);
            Came::after_memory(is_kept, is_held(next, &site))
        }
        first => Came::first(is_held(first, &site)),
    })
}

fn is_held(answer: Result<Offered, OfferFault>, site: &Site) -> bool {
    answer == Ok(Offered::Held) && site.held() == 1
}

/// The third site, which received the change and then the box.
fn holding(alloc: Global) -> Option<Site> {
    let mut site = Site::new(alloc, 3);
    site.receive(operation(alloc, RECOLOURED)?).ok()?;
    site.receive(operation(alloc, "1.1: box 10 10")?).ok()?;
    Some(site)
}

fn held_ops(alloc: Global, marks: &mut Marks) -> Option<Came> {
    let site = holding(alloc)?;
    marks.begin();
    let first = site.held_ops(alloc);
    marks.end();
    Some(match first {
        Err(OutOfMemory) => Came::after_memory(true, are_both(site.held_ops(alloc))),
        first => Came::first(are_both(first)),
    })
}

/// Whether these are the box and its change.
fn are_both(answer: Result<Vec<&Op>, OutOfMemory>) -> bool {
    match answer {
        Ok(ops) => matches!(ops.as_slice(), [one, other] if one.id == BOX && other.id.site == 2),
        Err(OutOfMemory) => false,
    }
}

fn step(alloc: Global, marks: &mut Marks) -> Option<Came> {
    let mut site = holding(alloc)?;
    marks.begin();
    let first = site.step();
    marks.end();
    Some(match first {
        Err(OutOfMemory) => {
            let is_kept = site.held() == 2 && site.history().ops().is_empty();
            let next = site.step();
            Came::after_memory(is_kept, is_applied(next, &site))
        }
        first => Came::first(is_applied(first, &site)),
    })
}

/// Whether a step moved the box to the history.
fn is_applied(answer: Result<Step, OutOfMemory>, site: &Site) -> bool {
    answer == Ok(Step::Applied(BOX)) && site.held() == 1 && has_box_alone(site)
}

fn has_box_alone(site: &Site) -> bool {
    site.history().ops().len() == 1 && site.history().get(BOX).is_some()
}

fn author(alloc: Global, marks: &mut Marks) -> Option<Came> {
    let (made, same) = (change(alloc, "box 10 10")?, change(alloc, "box 10 10")?);
    let mut site = Site::new(alloc, 1);
    marks.begin();
    let first = site.author(made);
    marks.end();
    Some(match first {
        Err(AuthorFault::OutOfMemory) => {
            let is_kept = site.held() == 0 && site.history().ops().is_empty();
            let next = site.author(same);
            Came::after_memory(is_kept, is_authored(next, &site))
        }
        first => Came::first(is_authored(first, &site)),
    })
}

fn is_authored(answer: Result<Op, AuthorFault>, site: &Site) -> bool {
    match answer {
        Ok(op) => op.id == BOX && has_box_alone(site),
        Err(_) => false,
    }
}

fn site_copy(alloc: Global, marks: &mut Marks) -> Option<Came> {
    let mut site = site(alloc, TWO_COLOURS)?;
    site.receive(operation(alloc, "4.2 after 1: box 1 1")?)
        .ok()?;
    marks.begin();
    let first = site.copy(alloc);
    marks.end();
    Some(match first {
        Err(OutOfMemory) => Came::after_memory(true, is_copy(alloc, &site, site.copy(alloc))),
        first => Came::first(is_copy(alloc, &site, first)),
    })
}

fn is_copy(alloc: Global, site: &Site, answer: Result<Site, OutOfMemory>) -> bool {
    match answer {
        Ok(copy) => {
            copy.number() == 3
                && copy.held() == 1
                && copy.history().ops() == site.history().ops()
                && has_two(alloc, copy.history(), copy.table())
        }
        Err(OutOfMemory) => false,
    }
}

const TWO_GROUPS: &str = "[ 1.1 1.2 ][ 1.1 2.1 ]";

/// Whether the table has the two versions of the box.
fn has_two(alloc: Global, history: &History, table: &GroupTable) -> bool
    requires { StandsFor history.now.ops table.now }
{
    are_groups(
        alloc,
        table.groups(alloc, history, ObjectId(BOX)),
        TWO_GROUPS,
    )
}

fn table_copy(alloc: Global, marks: &mut Marks) -> Option<Came> {
    let site = site(alloc, TWO_COLOURS)?;
    let (history, table) = (site.history(), site.table());
    marks.begin();
    let first = table.copy(alloc);
    marks.end();
    Some(match first {
        Err(OutOfMemory) => {
            Came::after_memory(true, is_table(alloc, history, table, table.copy(alloc)))
        }
        first => Came::first(is_table(alloc, history, table, first)),
    })
}

/// Whether the copy of the table has the two versions of the box.
fn is_table(
    alloc: Global,
    history: &History,
    table: &GroupTable,
    answer: Result<GroupTable, OutOfMemory>,
) -> bool
    requires stands { StandsFor history.now.ops table.now }
    requires copied { IfOk answer (λ copy. copy ≡ table.now) }
{
    match answer {
        Ok(copy) => has_two(alloc, history, &copy),
        Err(OutOfMemory) => false,
    }
}

/// The table of a box that one site gave a colour gets the other colour.
fn table_add(alloc: Global, marks: &mut Marks) -> Option<Came> {
    let site = site(alloc, "1.1: box 10 10\n1.2 after 1: 1.1 colour 0000ff")?;
    let table = site.table().copy(alloc).ok()?;
    add_to(alloc, marks, site.history(), table)
}

fn add_to(
    alloc: Global,
    marks: &mut Marks,
    history: &History,
    mut table: GroupTable,
) -> Option<Came>
    requires { StandsFor history.now.ops table }
{
    let op = operation(alloc, "2.1 after 1: 1.1 colour 00ff00")?;
    if !op.in_range() {
        return None;
    }
    let Ok(()) = history.check(&op) else {
        return None;
    };
    marks.begin();
    let first = table.add(history, &op);
    marks.end();
    Some(match first {
        Err(OutOfMemory) => {
            let groups = table.groups(alloc, history, ObjectId(BOX));
            let is_kept = are_groups(alloc, groups, "[ 1.1 1.2 ]");
            let next = table.add(history, &op);
            Came::after_memory(
                is_kept,
                next.is_ok() && is_grown(alloc, history, op, &table),
            )
        }
        Ok(()) => Came::first(is_grown(alloc, history, op, &table)),
    })
}

/// Whether the table has the two versions of the box, once the history has the operation.
fn is_grown(alloc: Global, history: &History, op: Op, table: &GroupTable) -> bool
    requires in_range { IsInRange op }
    requires stands { StandsFor (history.now.ops ++ op ∷ []) table.now }
{
    let Ok(mut history) = history.copy(alloc) else {
        return false;
    };
    match history.add(op) {
        Ok(()) => has_two(alloc, &history, table),
        Err(_) => false,
    }
}

/// A box that the second site is offered twice.
fn events(alloc: Global) -> Option<Vec<Event>> {
    let events = [
        Event::Author(1, change(alloc, "box 10 10")?),
        Event::Offer(2, 0),
        Event::Offer(2, 0),
        Event::Step(2),
        Event::Step(2),
        Event::Offer(1, 0),
        Event::Offer(9, 0),
    ];
    Vec::from_array(alloc, events).ok()
}

fn world_run(alloc: Global, marks: &mut Marks) -> Option<Came> {
    let (made, same) = (events(alloc)?, events(alloc)?);
    marks.begin();
    let first = gf_replicas::world_run(alloc, 2, made);
    marks.end();
    Some(match first {
        Err(OutOfMemory) => {
            Came::after_memory(true, is_world(gf_replicas::world_run(alloc, 2, same)))
        }
        first => Came::first(is_world(first)),
    })
}

/// Whether both sites have the box alone, and there is one message.
fn is_world(answer: Result<World, OutOfMemory>) -> bool {
    match answer {
        Ok(world) => {
            world.sites.len() == 2 && world.messages.len() == 1 && have_box(&world.sites)
        }
        Err(OutOfMemory) => false,
    }
}

fn have_box(sites: &[Site]) -> bool {
    for site in sites {
        if !has_box_alone(site) {
            return false;
        }
    }
    true
}
