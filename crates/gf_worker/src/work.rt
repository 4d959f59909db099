//! What a worker has while it runs, and how its site takes what comes.

ghost use Rattle.std.specs.Prelude.{◌≡◌, ◌<◌, ◌∷◌, [], true, false, length, vec_len};
ghost use Rattle.gf_causal.specs.Ready.{NoneIsReady};
ghost use Rattle.gf_worker.specs.Peers.{ArePlaced, all_ended};
ghost use Rattle.gf_worker.specs.Working.{Continues, Hears, ran_out, goes_on};

use crate::peer::take_from;
use crate::{Peer, Report};
use gf_causal::{OfferFault, Offered};
use gf_link::{Link, Message};
use gf_ops::Op;
use gf_site::{Site, Step};
use std::sync::Wait;

/// A worker: its site, its peers and its report. It is short if memory was refused to it or to a
/// peer that sent it Stop.
#[derive(Drop)]
pub(crate) struct Work {
    pub(crate) site: Site,
    pub(crate) peers: Vec<Peer>,
    pub(crate) report: Report,
    pub(crate) short: bool,
}

/// Whether an offer was refused for want of memory.
fn ran_out(offer: Result<Offered, OfferFault>) -> bool
    ensures { result ≡ ran_out offer }
{
    match offer {
        Err(OfferFault::OutOfMemory) => true,
        Err(OfferFault::Range | OfferFault::Clash) | Ok(_) => false,
    }
}

/// Whether a site may step again.
fn goes_on(step: Step) -> bool
    ensures { result ≡ goes_on step }
{
    match step {
        Step::Applied(_) | Step::Dropped(_, _) => true,
        Step::Idle => false,
    }
}

impl Work {
    /// Whether every peer has ended.
    pub(crate) fn all_ended(&self) -> bool
        ensures { result ≡ all_ended self.now.peers.items }
    {
        self.peers.iter().all(|peer| peer.take.ended())
    }

    /// Holds an operation that came, unless it is under the site's own number or the site refuses
    /// it.
    fn receive(&mut self, op: Op)
        ensures same { self.new ≡
            record self.old {
              site = record self.old.site { held = self.new.site.held };
              short = self.new.short;
            } }
        ensures short { self.new.short ≡ false → self.old.short ≡ false }
        ensures hears { Hears self.old.site.number self.old.site.ops self.old.site.held (op ∷ [])
            self.new.short self.new.site.held }
    {
        if op.id.site == self.site.number() {
            return;
        }
        let offer = self.site.receive(op);
        self.short |= ran_out(offer);
    }

    /// Takes the next message of the peer k, if there is one. A worker that takes a Stop is short,
    /// too: it no longer awaits what the peer has not made.
    fn take_one<R: Wait>(&mut self, rt: &R, links: &[Link], k: usize)
        requires placed { ArePlaced links.now self.old.peers.items }
        requires within { k < vec_len self.old.peers }
        ensures continues { Continues self.old self.new }
        ensures within { vec_len self.new.peers ≡ vec_len self.old.peers }
    {
        let peer = &mut self.peers[k];
        if peer.take.ended() {
            return;
        }
        let Some(message) = take_from(rt, links, peer) else {
            return;
        };
        match message {
            Message::Op(op) => {
                self.receive(op);
                return;
            }
            Message::End => return,
            Message::Stop => {
                self.short = true;
                return;
            }
        }
    }

    /// Takes a message of each peer, where there is one.
    pub(crate) fn take_round<R: Wait>(&mut self, rt: &R, links: &[Link])
        requires { ArePlaced links.now self.old.peers.items }
        ensures { Continues self.old self.new }
    {
        for k in 0..self.peers.len() {
            self.take_one(rt, links, k);
        }
    }

    /// Steps until no held operation is ready. With each step one operation less is held.
    pub(crate) fn step_all(&mut self)
        ensures continues { Continues self.old self.new }
        ensures idle { self.new.short ≡ false → NoneIsReady self.new.site.ops self.new.site.held }
    {
        while self.step() {}
    }

    /// Whether the site stepped, and may step again.
    fn step(&mut self) -> bool
        ensures continues { Continues self.old self.new }
        ensures idle { result ≡ false → self.new.short ≡ false →
            NoneIsReady self.new.site.ops self.new.site.held }
        ensures fewer { result ≡ true → length self.new.site.held < length self.old.site.held }
    {
        let Ok(step) = self.site.step() else {
            self.short = true;
            return false;
        };
        self.site.recall_state();
        goes_on(step)
    }
}
