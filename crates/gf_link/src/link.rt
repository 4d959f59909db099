//! The link, what is done on it, and its end.

ghost use Rattle.std.specs.Prelude.{◌≡◌, ◌<◌, ◌≤◌, ◌++◌, ◌∷◌, [], length, vec_len, All, IfOk};
ghost use Rattle.std.specs.Prelude.{IsTrue, IsFalse, MatchOption};
ghost use Rattle.gf_link.specs.Ends.{is_end, is_ended, ends_last, IsPrefix};
ghost use Rattle.gf_link.specs.Fresh.{IsNewLink};

use crate::rule::{Got, InOrder, Log, Roles, Sent, Total};
use crate::{Message, SendSeat, TakeSeat};
use crossbeam_queue::RuledArrayQueue;
use gf_base::OutOfMemory;
use std::alloc::Global;
use std::marker::Model;
use std::sync::Wait;

/// How many messages are sent on a link at most.
pub const MOST_MESSAGES: usize = 1_024;

/// One way from a site to another, over which up to [`MOST_MESSAGES`] messages are sent in all.
/// Contracts see it as its name.
#[derive(Drop)]
pub struct Link {
    queue: RuledArrayQueue<Message, Log, InOrder>,
}

impl Model for Link {
    ghost use Rattle.std.specs.Prelude.{◌≡◌};
    ghost use Rattle.atomic_table.specs.Seated.{TableId, table_id_coded};

    ghost Value = { TableId };

    ghost coded = { table_id_coded };

    ghost use Rattle.crossbeam_queue.specs.Passes.{ruled_capacity};

    ghost view = { λ l. l.queue.table.shared.table_id };

    ghost invariant = { λ l. ruled_capacity l.queue ≡ 1024 };
}

/// How many messages were sent and taken.
#[derive(Clone, Copy, Debug, PartialEq, Eq)]
pub struct Settled {
    pub sent: u32,
    pub taken: u32,
}

impl Link {
    /// An empty link with its two seats, on which nothing was sent or taken.
    pub fn new<R: Wait>(_rt: &R, alloc: Global) -> Result<(Link, SendSeat, TakeSeat), OutOfMemory>
        ensures { IfOk result (λ l. IsNewLink l.0 l.1 l.2) }
    {
        let (queue, mut pass) = RuledArrayQueue::<Message, Log, InOrder>::ruled(
            alloc,
            MOST_MESSAGES,
        )?;
        let taker = queue.another::<Roles>(&mut pass);
        let send = SendSeat {
            pass,
            sent: 0,
            ended: false,
        };
        let take = TakeSeat {
            pass: taker,
            taken: 0,
            ended: false,
        };
        Ok((Link { queue }, send, take))
    }

    /// Sends a message, behind those that were sent before it. The call is not refused.
    pub fn send<R: Wait>(&self, rt: &R, seat: &mut SendSeat, message: Message)
        requires seat { seat.old.link ≡ self.now }
        requires open { IsFalse (is_ended seat.old.sent) }
        requires room { length seat.old.sent < 1024 }
        ensures sent { seat.new ≡ record seat.old { sent = seat.old.sent ++ message ∷ [] } }
        ensures ended { is_ended seat.new.sent ≡ is_end message }
    {
        let ends = message.is_end();
        let queue = &self.queue;
        let Ok(()) = queue.push_as::<Sent, R>(rt, &mut seat.pass, message) else {
            unreachable!();
        };
        seat.sent += 1;
        seat.ended = ends;
    }

    /// Takes the next of the messages that were sent, or none where the link holds none.
    pub fn take<R: Wait>(&self, rt: &R, seat: &mut TakeSeat) -> Option<Message>
        requires { seat.old.link ≡ self.now }
        ensures taken { MatchOption result (seat.new ≡ seat.old) (λ m.
            seat.new ≡ record seat.old { taken = seat.old.taken ++ m ∷ [] }) }
        ensures lasts { IsTrue (ends_last seat.new.taken) }
        ensures few { length seat.new.taken ≤ 1024 }
    {
        let queue = &self.queue;
        let Some(message) = queue.pop_as::<Got, R>(rt, &mut seat.pass) else {
            return None;
        };
        seat.taken += 1;
        seat.ended = message.is_end();
        Some(message)
    }
}

/// As many links as are asked for, each with its two seats, as [`Link::new`] gives them. Eight
/// sites have 56 links.
pub fn links<R: Wait>(
    rt: &R,
    alloc: Global,
    n: u8,
) -> Result<Vec<(Link, SendSeat, TakeSeat)>, OutOfMemory>
    requires { n ≤ 56 }
    ensures count { IfOk result (λ links. vec_len links ≡ n) }
    ensures new { IfOk result (λ links. All (λ l. IsNewLink l.0 l.1 l.2) links.items) }
{
    let mut links = Vec::new(alloc);
    for _ in 0..n {
        links.push(Link::new(rt, alloc)?)?;
    }
    Ok(links)
}

/// Compares the two seats of a link. What was taken is a prefix of what was sent, and all of it
/// where an end was taken.
pub fn settle<R: Wait>(_rt: &R, link: Link, send: SendSeat, take: TakeSeat) -> Settled
    requires send { send.link ≡ link }
    requires take { take.link ≡ link }
    ensures sent { result.sent ≡ length send.sent }
    ensures taken { result.taken ≡ length take.taken }
    ensures prefix { IsPrefix take.taken send.sent }
    ensures whole { IsTrue (is_ended take.taken) → take.taken ≡ send.sent }
    ensures lasts { IsTrue (ends_last send.sent) }
{
    let SendSeat { mut pass, sent, .. } = send;
    let TakeSeat {
        pass: other,
        taken,
        ..
    } = take;
    let queue = &link.queue;
    queue.absorb::<Roles>(&mut pass, other);
    queue.learn_as::<Total>(&mut pass);
    Settled { sent, taken }
}
