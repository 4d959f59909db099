//! What a worker answers to a command that waits.

ghost use Rattle.std.specs.Prelude.{◌≡◌, false};
ghost use Rattle.gf_worker.specs.Peers.{ArePlaced};
ghost use Rattle.gf_worker.specs.Working.{Continues, Judges};

use crate::waiting::Waited;
use crate::work::Work;
use gf_link::Link;
use gf_ops::OpId;
use gf_site::Cause;
use std::sync::Wait;

impl Work {
    /// Waits for the operation under the id. The answer is why the wait is refused, if it is.
    pub(crate) fn judge<R: Wait>(&mut self, rt: &R, links: &[Link], id: OpId) -> Option<Cause>
        requires { ArePlaced links.now self.old.peers.items }
        ensures continues { Continues self.old self.new }
        ensures judges { self.new.short ≡ false → Judges id self.new result }
    {
        if !id.in_range() {
            return Some(Cause::Range);
        }
        if id.site == self.site.number() {
            return Some(Cause::OwnId);
        }
        match self.wait_for(rt, links, id) {
            Waited::Came => return None,
            Waited::Never => return Some(Cause::NeverComes),
            Waited::Short => return None,
        }
    }
}
