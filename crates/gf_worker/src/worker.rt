//! The worker of a site.

ghost use Rattle.std.specs.Prelude.{◌≡◌, ◌≤◌, [], All, vec_len};
ghost use Rattle.gf_worker.specs.Peers.{StandsInTable, IsFresh};
ghost use Rattle.gf_worker.specs.Ending.{HasWorked, HasStopped};

use crate::sending::send_last;
use crate::work::Work;
use crate::{Peer, Report, Script};
use gf_gate::Gate;
use gf_link::Link;
use gf_site::Site;
use std::alloc::Global;
use std::sync::Wait;

/// The table of a session's links, and the peers of one site with their indices there.
#[derive(Drop)]
pub struct Ends<'a> {
    pub links: &'a [Link],
    pub peers: Vec<Peer>,
}

/// What a worker gives back: its site, the seats of its links, and what its commands came to. The
/// worker is short if memory was refused to it or to a peer that sent it Stop.
#[derive(Drop)]
pub struct WorkerEnd {
    pub site: Site,
    pub seats: Vec<Peer>,
    pub report: Report,
    pub short: bool,
}

/// Runs a script of at most 1,000 commands at a new site, each behind a call of the gate. Then each
/// peer is sent End, or Stop where memory was refused or a Stop came. Last, the worker takes
/// messages until every peer has ended.
pub fn site_worker<R: Wait, G: Gate>(
    rt: &R,
    alloc: Global,
    site: Site,
    script: Script,
    ends: Ends<'_>,
    gate: &G,
) -> WorkerEnd
    requires ops { site.ops ≡ [] }
    requires held { site.held ≡ [] }
    requires few { vec_len script.0 ≤ 1000 }
    requires placed { All (StandsInTable ends.links.now) ends.peers.items }
    requires fresh { All IsFresh ends.peers.items }
    ensures { HasWorked site.number script.0.items ends.entry.peers.items result }
{
    let Ends { links, peers } = ends;
    let report = Report {
        accepted: Vec::new(alloc),
        refused: Vec::new(alloc),
    };
    let mut work = Work {
        site,
        peers,
        report,
        short: false,
    };
    work.play_all(rt, alloc, links, gate, script.0);
    send_last(rt, links, &mut work.peers, work.short);
    work.take_rest(rt, links);
    work.site.recall_state();
    let Work {
        site,
        peers: seats,
        report,
        short,
    } = work;
    WorkerEnd {
        site,
        seats,
        report,
        short,
    }
}

/// Sends Stop to each peer of a new site whose worker does not run, so that none waits for it.
pub fn stop_worker<R: Wait>(rt: &R, alloc: Global, site: Site, ends: Ends<'_>) -> WorkerEnd
    requires placed { All (StandsInTable ends.links.now) ends.peers.items }
    requires fresh { All IsFresh ends.peers.items }
    ensures { HasStopped site ends.entry.peers.items result }
{
    let Ends { links, mut peers } = ends;
    send_last(rt, links, &mut peers, true);
    WorkerEnd {
        site,
        seats: peers,
        report: Report {
            accepted: Vec::new(alloc),
            refused: Vec::new(alloc),
        },
        short: true,
    }
}
