//! A site's view of another one, and the two links between them.

ghost use Rattle.std.specs.Prelude.{◌≡◌, ◌<◌, ◌++◌, ◌∷◌, [], length, IsFalse, MatchOption};
ghost use Rattle.gf_link.specs.Ends.{is_ended};
ghost use Rattle.gf_worker.specs.Peers.{StandsInTable, with_message};

use gf_link::{Link, Message, SendSeat, TakeSeat};
use std::sync::Wait;

/// Another site: where the links to and from it stand in a table of links, with the seats there.
#[derive(Drop)]
pub struct Peer {
    /// Where the link to the peer stands.
    pub out: usize,
    pub send: SendSeat,
    /// Where the link from the peer stands.
    pub into: usize,
    pub take: TakeSeat,
}

/// Takes the next message of the peer, if there is one.
pub(crate) fn take_from<R: Wait>(rt: &R, links: &[Link], peer: &mut Peer) -> Option<Message>
    requires { StandsInTable links.now peer.old }
    ensures { MatchOption result (peer.new ≡ peer.old) (λ m.
        peer.new ≡ record peer.old {
          take = record peer.old.take { taken = peer.old.take.taken ++ m ∷ [] };
        }) }
{
    links[peer.into].take(rt, &mut peer.take)
}

/// Sends a message to the peer.
pub(crate) fn send_to<R: Wait>(rt: &R, links: &[Link], peer: &mut Peer, message: Message)
    requires placed { StandsInTable links.now peer.old }
    requires open { IsFalse (is_ended peer.old.send.sent) }
    requires room { length peer.old.send.sent < 1024 }
    ensures { peer.new ≡ with_message message peer.old }
{
    links[peer.out].send(rt, &mut peer.send, message)
}
