//! A world: the sites that work on one drawing, and the messages between them.

ghost use Rattle.std.specs.Prelude.{◌≡◌, ◌≢◌, ◌+◌, ◌<◌, None, Err, length, slice_get};
ghost use Rattle.std.specs.Prelude.{option_copied, IfOk, OnOk, OnErr, IfSome, IfNone};
ghost use Rattle.gf_ops.specs.OperationOrder.{IsSite};
ghost use Rattle.gf_replicas.specs.declared.event.Event.{Event};
ghost use Rattle.gf_causal.specs.declared.faults.OfferFault.{OfferFault};
ghost use Rattle.gf_site.specs.declared.faults.AuthorFault.{AuthorFault};
ghost use Rattle.gf_replicas.specs.Sound.{IsSound};
ghost use Rattle.gf_replicas.specs.World.{state_of, new_sites, site_at, Happens, IsWorldOf};

use crate::Event;
use gf_base::OutOfMemory;
use gf_causal::{OfferFault, Offered};
use gf_ops::{Change, Op};
use gf_site::{AuthorFault, Site};
use std::alloc::Global;

/// The sites, from number 1 on, and the messages, in the order in which they were authored.
#[derive(Drop)]
pub struct World {
    pub sites: Vec<Site>,
    pub messages: Vec<Op>,
}

/// The world that this many new sites come to by the events. An event that names no site or no
/// message changes nothing. Neither does a change that its site refuses for another cause than
/// memory.
pub fn world_run(alloc: Global, sites: u8, events: Vec<Event>) -> Result<World, OutOfMemory>
    requires { IsSite sites }
    ensures { IfOk result (λ world. IsWorldOf sites events.items (state_of world)) }
{
    let mut world = World {
        sites: sites_to(alloc, sites)?,
        messages: Vec::new(alloc),
    };
    for event in events {
        happen(alloc, &mut world, event)?;
    }
    Ok(world)
}

/// New sites, up to this number.
fn sites_to(alloc: Global, last: u8) -> Result<Vec<Site>, OutOfMemory>
    requires { IsSite last }
    ensures { IfOk result (λ sites. sites.items ≡ new_sites last) }
{
    let mut sites = Vec::new(alloc);
    for number in 0..last {
        sites.push(Site::new(alloc, number + 1))?;
    }
    Ok(sites)
}

/// Lets the event happen.
fn happen(alloc: Global, world: &mut World, event: Event) -> Result<(), OutOfMemory>
    requires { IsSound (state_of world.old) }
    ensures { OnOk result (Happens (state_of world.old) event (state_of world.new)) }
{
    match event {
        Event::Author(number, change) => author(world, number, change),
        Event::Offer(number, message) => offer(alloc, world, number, message),
        Event::Step(number) => step(world, number),
    }
}

/// Lets the site of this number make the change.
fn author(world: &mut World, number: u8, change: Change) -> Result<(), OutOfMemory>
    ensures { OnOk result (Happens (state_of world.old) (Event.Author number change)
        (state_of world.new)) }
{
    let Some(index) = index_of(&world.sites, number) else {
        return Ok(());
    };
    match world.sites[index].author(change) {
        Ok(op) => Ok(world.messages.push(op)?),
        Err(fault) => unless_memory(fault),
    }
}

/// Offers the message of this number to the site of that one.
fn offer(alloc: Global, world: &mut World, number: u8, message: usize) -> Result<(), OutOfMemory>
    requires { IsSound (state_of world.old) }
    ensures { OnOk result (Happens (state_of world.old) (Event.Offer number message)
        (state_of world.new)) }
{
    let Some(index) = index_of(&world.sites, number) else {
        return Ok(());
    };
    let Some(op) = message_at(&world.messages, message) else {
        return Ok(());
    };
    let copy = op.copy(alloc)?;
    unless_full(world.sites[index].receive(copy))
}

/// Lets the site of this number step.
fn step(world: &mut World, number: u8) -> Result<(), OutOfMemory>
    requires { IsSound (state_of world.old) }
    ensures { OnOk result (Happens (state_of world.old) (Event.Step number) (state_of world.new)) }
{
    if let Some(index) = index_of(&world.sites, number) {
        world.sites[index].step()?;
    }
    Ok(())
}

/// Where the site of this number stands.
fn index_of(sites: &[Site], number: u8) -> Option<usize>
    ensures found { IfSome result (λ index. (number ≡ index + 1) × (index < length sites.now)) }
    ensures none { IfNone result (site_at sites.now number ≡ None) }
{
    if 1 <= number && usize::from(number) <= sites.len() {
        Some(usize::from(number) - 1)
    } else {
        None
    }
}

/// The message of this number.
fn message_at(messages: &[Op], message: usize) -> Option<&Op>
    ensures { option_copied result ≡ slice_get messages.now message }
{
    messages.get(message)
}

/// The want of memory that an offer met.
fn unless_full(answer: Result<Offered, OfferFault>) -> Result<(), OutOfMemory>
    ensures ok { OnOk result (answer ≢ Err OfferFault.OutOfMemory) }
    ensures err { OnErr result (answer ≡ Err OfferFault.OutOfMemory) }
{
    match answer {
        Err(OfferFault::OutOfMemory) => Err(OutOfMemory),
        Err(OfferFault::Range) => Ok(()),
        Err(OfferFault::Clash) => Ok(()),
        Ok(_) => Ok(()),
    }
}

/// The want of memory that a change met.
fn unless_memory(fault: AuthorFault) -> Result<(), OutOfMemory>
    ensures ok { OnOk result (fault ≢ AuthorFault.OutOfMemory) }
    ensures err { OnErr result (fault ≡ AuthorFault.OutOfMemory) }
{
    match fault {
        AuthorFault::OutOfMemory => Err(OutOfMemory),
        AuthorFault::Exhausted => Ok(()),
        AuthorFault::Range => Ok(()),
        AuthorFault::NoObject => Ok(()),
        AuthorFault::WrongKind => Ok(()),
        AuthorFault::BadAim => Ok(()),
    }
}
