//! How sites are joined, one after the other.

ghost use Rattle.std.specs.Prelude.{◌≡◌, IfOk, vec_len};
ghost use Rattle.gf_worker.specs.Peers.{IsFresh};
ghost use Rattle.gf_mesh.specs.Linked.{AreLinked, EachPeer, rows_of};
ghost use Rattle.gf_mesh.specs.Meeting.{Connects};

use gf_base::OutOfMemory;
use gf_link::Link;
use gf_worker::Peer;
use std::alloc::Global;
use std::marker::Model;
use std::sync::Wait;

/// A table of the links between some sites. Contracts see it as the links' names.
#[derive(Drop)]
pub struct Mesh {
    pub(crate) links: Vec<Link>,
}

impl Model for Mesh {
    ghost use Rattle.std.specs.Prelude.{List};
    ghost use Rattle.atomic_table.specs.Seated.{TableId};

    ghost Value = { List TableId };

    ghost view = { λ m. m.links.items };
}

impl Mesh {
    /// The links between this many sites, on which nothing was sent, and the peers of each site. A
    /// peer is another site, with its indices in the table.
    pub fn new<R: Wait>(
        rt: &R,
        alloc: Global,
        sites: usize,
    ) -> Result<(Mesh, Vec<Vec<Peer>>), OutOfMemory>
        ensures long { IfOk result (λ m. vec_len m.1 ≡ sites) }
        ensures linked { IfOk result (λ m. AreLinked m.0 (rows_of m.1.items)) }
        ensures fresh { IfOk result (λ m. EachPeer IsFresh (rows_of m.1.items)) }
    {
        let mut links = Vec::new(alloc);
        let mut peers: Vec<Vec<Peer>> = Vec::new(alloc);
        for _ in 0..sites {
            let mut row = Vec::new(alloc);
            for other in peers.iter_mut() {
                let (theirs, mine) = connect(rt, alloc, &mut links)?;
                other.push(theirs)?;
                row.push(mine)?;
            }
            peers.push(row)?;
        }
        Ok((Mesh { links }, peers))
    }

    /// The links, by their indices.
    pub fn links(&self) -> &[Link]
        ensures { result.now ≡ self.now }
    {
        self.links.as_slice()
    }
}

/// Two more links, one each way between two sites, and what the sites have each other as.
fn connect<R: Wait>(
    rt: &R,
    alloc: Global,
    links: &mut Vec<Link>,
) -> Result<(Peer, Peer), OutOfMemory>
    ensures { IfOk result (λ pair. Connects links.old.items links.new.items pair.0 pair.1) }
{
    let (there, send, take) = Link::new(rt, alloc)?;
    let (back, send_back, take_back) = Link::new(rt, alloc)?;
    let first = links.len();
    links.push(there)?;
    let second = links.len();
    links.push(back)?;
    Ok((
        Peer {
            out: first,
            send,
            into: second,
            take: take_back,
        },
        Peer {
            out: second,
            send: send_back,
            into: first,
            take,
        },
    ))
}
