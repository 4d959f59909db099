//! How a worker waits for what its peers send.

ghost use Rattle.std.specs.Prelude.{◌≡◌, ◌↔◌, false, true, IsTrue};
ghost use Rattle.gf_causal.specs.Ready.{NoneIsReady};
ghost use Rattle.gf_causal.specs.HeldOperations.{IsFree};
ghost use Rattle.gf_worker.specs.Peers.{ArePlaced, all_ended};
ghost use Rattle.gf_worker.specs.Working.{Continues, Waits};
ghost use Rattle.gf_site.specs.CommandAnswers.{HasOp};

use crate::work::Work;
use gf_link::Link;
use gf_ops::OpId;
use std::sync::Wait;
use std::thread;

/// What waiting for an operation came to.
#[derive(Clone, Copy, PartialEq, Eq)]
pub(crate) enum Waited {
    Came,
    Never,
    Short,
}

impl Work {
    /// Whether the site has the operation under the id.
    fn has(&self, id: OpId) -> bool
        ensures yes { result ≡ true → HasOp self.now.site.ops id }
        ensures no { result ≡ false → IsFree self.now.site.ops id }
    {
        match self.site.history().get(id) {
            Some(_) => true,
            None => false,
        }
    }

    /// Takes messages until the operation under the id is there, or every peer has ended.
    pub(crate) fn wait_for<R: Wait>(&mut self, rt: &R, links: &[Link], id: OpId) -> Waited
        requires { ArePlaced links.now self.old.peers.items }
        ensures continues { Continues self.old self.new }
        ensures waits { Waits id self.new result }
    {
        for _ in rt.forever() {
            self.take_round(rt, links);
            self.step_all();
            if self.short {
                return Waited::Short;
            }
            if self.has(id) {
                return Waited::Came;
            }
            if self.all_ended() {
                return Waited::Never;
            }
            thread::yield_now();
        }
        unreachable!()
    }

    /// Takes messages until every peer has ended.
    pub(crate) fn take_rest<R: Wait>(&mut self, rt: &R, links: &[Link])
        requires { ArePlaced links.now self.old.peers.items }
        ensures continues { Continues self.old self.new }
        ensures ended { IsTrue (all_ended self.new.peers.items) }
        ensures idle { self.new.short ≡ false → NoneIsReady self.new.site.ops self.new.site.held }
    {
        for _ in rt.forever() {
            self.take_round(rt, links);
            self.step_all();
            if self.all_ended() {
                return;
            }
            thread::yield_now();
        }
        unreachable!()
    }
}
