//! What a worker sends to its peers.

ghost use Rattle.std.specs.Prelude.{◌≡◌, All, map};
ghost use Rattle.gf_worker.specs.Peers.{StandsInTable, with_last};
ghost use Rattle.gf_worker.specs.Sending.{IsOpen, SendsToPeers};

use crate::Peer;
use crate::peer::send_to;
use gf_link::{Link, Message};
use gf_ops::Op;
use std::alloc::Global;
use std::sync::Wait;

/// Sends a copy of the operation to each peer, and says whether there was memory for all copies.
pub(crate) fn send_all<R: Wait>(
    rt: &R,
    alloc: Global,
    links: &[Link],
    peers: &mut [Peer],
    op: &Op,
) -> bool
    requires placed { All (StandsInTable links.now) peers.old }
    requires still { All IsOpen peers.old }
    ensures { SendsToPeers op.now result peers.old peers.new }
{
    for peer in peers.iter_mut() {
        let Ok(copy) = op.copy(alloc) else {
            return false;
        };
        send_to(rt, links, peer, Message::Op(copy));
    }
    true
}

/// Sends the last message to each peer.
pub(crate) fn send_last<R: Wait>(rt: &R, links: &[Link], peers: &mut [Peer], short: bool)
    requires placed { All (StandsInTable links.now) peers.old }
    requires still { All IsOpen peers.old }
    ensures { peers.new ≡ map (with_last short) peers.old }
{
    for peer in peers.iter_mut() {
        end_one(rt, links, peer, short);
    }
}

/// Sends the last message to one peer.
fn end_one<R: Wait>(rt: &R, links: &[Link], peer: &mut Peer, short: bool)
    requires placed { StandsInTable links.now peer.old }
    requires still { IsOpen peer.old }
    ensures { peer.new ≡ with_last short peer.old }
{
    let message = if short { Message::Stop } else { Message::End };
    send_to(rt, links, peer, message);
}
