//! A table of workers: what site 1 comes to by itself, with messages of its one peer sent by hand.

ghost use Rattle.std.specs.Prelude.{All, IfSome};
ghost use Rattle.gf_worker.specs.Peers.{StandsInTable, IsFresh};

use crate::scripts::script;
use crate::sessions::reported;
use gf_gate::OpenGate;
use gf_link::{Link, Message};
use gf_mesh::Mesh;
use gf_session::{Ends, WorkerEnd, site_worker};
use gf_site::Site;
use gf_worker::{Peer, stop_worker};
use std::alloc::Global;
use std::sync::Wait;
use std::test::Fail;
use test_kit::notation::operation;

/// Each row: the commands of site 1, what site 2 sends, and what comes of it. That is the site's
/// operations, its report, and whether it is short. Then come how many messages it sent and took,
/// and what it sent.
const WORKERS: [(&str, &str, &str); 5] = [
    // Another operation under a known id, one under the site's own number, and one that doesn't
    // fit.
    (
        "box 9 9; await 2.1; 2.1 layer 3; await 2.9",
        "2.1: circle 3; 2.1: circle 4; 1.7: box 8 8; 2.2 after 0 1: 2.1 points 0,0 8,0 0,8; End",
        "1.1 2.1 1.2 | 1.1 1.2 4:NeverComes | whole 3 5 | 1.1 1.2 End ",
    ),
    // Behind a Stop an operation may be missing, and is not told as one that never comes.
    (
        "box 9 9; await 2.1; 2.1 layer 3; await 2.9",
        "2.1: circle 3; 2.1: circle 4; 1.7: box 8 8; 2.2 after 0 1: 2.1 points 0,0 8,0 0,8; Stop",
        "1.1 2.1 1.2 | 1.1 1.2 | short 3 5 | 1.1 1.2 Stop ",
    ),
    (
        "await 2.1; 2.1 layer 3",
        "End",
        "| 1:NeverComes 2:NoObject | whole 1 1 | End ",
    ),
    ("await 2.1; 2.1 layer 3", "Stop", "| | short 1 1 | Stop "),
    // An operation comes before one that it knows.
    (
        "await 2.2",
        "2.2 after 0 1: 2.1 layer 4; 2.1: circle 3; End",
        "2.1 2.2 | | whole 1 3 | End ",
    ),
];

/// The links between two sites, the peers of the first, and the one peer of the second.
fn two_sites<R: Wait>(rt: &R, alloc: Global) -> Option<(Mesh, Vec<Peer>, Peer)>
    ensures placed { IfSome result (λ t. All (StandsInTable t.0) t.1.items) }
    ensures fresh { IfSome result (λ t. All IsFresh t.1.items) }
    ensures other { IfSome result (λ t. StandsInTable t.0 t.2) }
{
    let Ok((mesh, mut rows)) = Mesh::new(rt, alloc, 2) else {
        return None;
    };
    let Some(mut second) = rows.pop() else {
        return None;
    };
    let Some(first) = rows.pop() else {
        return None;
    };
    let Some(peer) = second.pop() else {
        return None;
    };
    Some((mesh, first, peer))
}

/// `End`, `Stop`, or an operation as the tables write it.
fn message(alloc: Global, word: &str) -> Option<Message> {
    match word {
        "End" => Some(Message::End),
        "Stop" => Some(Message::Stop),
        _ => Some(Message::Op(operation(alloc, word)?)),
    }
}

/// Sends what these words say.
fn send_all<R: Wait>(
    rt: &R,
    alloc: Global,
    links: &[Link],
    peer: &mut Peer,
    words: &str,
) -> Option<()>
    requires { StandsInTable links.now peer.old }
    ensures { StandsInTable links.now peer.new }
{
    for word in words.split("; ") {
        let message = message(alloc, word)?;
        if peer.send.ended() || peer.send.sent() >= 1_024 {
            return None;
        }
        links[peer.out].send(rt, &mut peer.send, message);
    }
    Some(())
}

/// The messages that came, as words.
fn come<R: Wait>(rt: &R, alloc: Global, links: &[Link], peer: &mut Peer) -> Option<String>
    requires { StandsInTable links.now peer.old }
{
    let mut text = String::new(alloc);
    for _ in 0..10 {
        let word = match links[peer.into].take(rt, &mut peer.take) {
            None => return Some(text),
            Some(Message::End) => String::from_str(alloc, "End ").ok()?,
            Some(Message::Stop) => String::from_str(alloc, "Stop ").ok()?,
            Some(Message::Op(op)) => format!(in alloc; "{} ", op.id).ok()?,
        };
        text.push_str(word.as_str()).ok()?;
    }
    None
}

/// What a worker came to.
fn told(alloc: Global, end: &WorkerEnd) -> Option<String> {
    let mut text = String::new(alloc);
    for op in end.site.history().ops() {
        let word = format!(in alloc; "{} ", op.id).ok()?;
        text.push_str(word.as_str()).ok()?;
    }
    let report = reported(alloc, &end.report)?;
    let short = if end.short { "short" } else { "whole" };
    let word = format!(in alloc; "| {report}| {short} ").ok()?;
    text.push_str(word.as_str()).ok()?;
    for peer in end.seats.iter() {
        let word = format!(in alloc; "{} {} | ", peer.send.sent(), peer.take.taken()).ok()?;
        text.push_str(word.as_str()).ok()?;
    }
    Some(text)
}

/// What the worker of site 1 comes to by this script, where site 2 has sent these messages.
fn worked<R: Wait>(rt: &R, alloc: Global, commands: &str, messages: &str) -> Option<String> {
    let (mesh, peers, mut peer) = two_sites(rt, alloc)?;
    let links = mesh.links();
    send_all(rt, alloc, links, &mut peer, messages)?;
    let script = script(alloc, commands)?;
    let site = Site::new(alloc, 1);
    let end = site_worker(rt, alloc, site, script, Ends { links, peers }, &OpenGate);
    let mut text = told(alloc, &end)?;
    text.push_str(come(rt, alloc, links, &mut peer)?.as_str())
        .ok()?;
    Some(text)
}

/// What comes of site 1 where its worker does not run.
fn stopped<R: Wait>(rt: &R, alloc: Global) -> Option<String> {
    let (mesh, peers, mut peer) = two_sites(rt, alloc)?;
    let links = mesh.links();
    let end = stop_worker(rt, alloc, Site::new(alloc, 1), Ends { links, peers });
    let mut text = told(alloc, &end)?;
    text.push_str(come(rt, alloc, links, &mut peer)?.as_str())
        .ok()?;
    Some(text)
}

#[test]
fn each_worker_comes_to_this(rt: HostRuntime) -> Result<(), Fail> {
    for (commands, messages, want) in WORKERS {
        let Some(text) = worked(&rt, rt.alloc(), commands, messages) else {
            return Err(Fail::new(messages));
        };
        assert_eq!(rt; text.as_str(), want, "{messages}");
    }
    Ok(())
}

#[test]
fn a_worker_that_does_not_run_sends_stop(rt: HostRuntime) -> Result<(), Fail> {
    let Some(text) = stopped(&rt, rt.alloc()) else {
        return Err(Fail::new("no memory"));
    };
    assert_eq!(rt; text.as_str(), "| | short 1 0 | Stop ");
    Ok(())
}

#[test]
fn eight_sites_have_56_links(rt: HostRuntime) -> Result<(), Fail> {
    let (mesh, rows) = Mesh::new(&rt, rt.alloc(), 8)?;
    assert_eq!(rt; mesh.links().len(), 56);
    for row in rows.iter() {
        assert_eq!(rt; row.len(), 7);
    }
    Ok(())
}
