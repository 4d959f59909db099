//! The end of all links, once no worker runs any more.

ghost use Rattle.std.specs.Prelude.{◌≡◌, IsTrue};
ghost use Rattle.gf_link.specs.Ends.{is_ended};
ghost use Rattle.gf_mesh.specs.Linked.{AreLinked, HaveEnded, rows_of};
ghost use Rattle.gf_mesh.specs.Meeting.{AreEnds, HaveExchanged};
ghost use Rattle.gf_mesh.specs.Settled.{AreAllTaken};

use crate::Mesh;
use gf_link::{Link, settle};
use gf_worker::Peer;
use std::sync::Wait;

impl Mesh {
    /// Settles all links, with the peers that the sites have by then. Each site took from every
    /// other all that it sent.
    pub fn settle<R: Wait>(self, rt: &R, mut peers: Vec<Vec<Peer>>)
        requires linked { AreLinked self (rows_of peers.items) }
        requires ended { HaveEnded (rows_of peers.items) }
        ensures { AreAllTaken (rows_of peers.items) }
    {
        let Mesh { mut links } = self;
        while let Some(mut row) = peers.pop() {
            while let Some(mine) = row.pop() {
                let Some(theirs) = peers[row.len()].pop() else {
                    unreachable!();
                };
                let Some(back) = links.pop() else {
                    unreachable!();
                };
                let Some(there) = links.pop() else {
                    unreachable!();
                };
                settle_pair(rt, there, back, theirs, mine);
            }
        }
    }
}

/// Settles the two links between two sites.
fn settle_pair<R: Wait>(rt: &R, there: Link, back: Link, theirs: Peer, mine: Peer)
    requires { AreEnds there back theirs mine }
    ensures { HaveExchanged theirs mine }
{
    let Peer { send, take, .. } = theirs;
    let Peer {
        send: send_back,
        take: take_back,
        ..
    } = mine;
    settle(rt, there, send, take_back);
    settle(rt, back, send_back, take);
}
