//! Trials of sessions of two sites. The second site paints the box of the first, and waits for an
//! operation that nobody makes.

ghost use Rattle.std.specs.Prelude.{◌≡◌, ◌≤◌, All, IfSome, vec_len};
ghost use Rattle.gf_link.specs.Fresh.{IsNewLink};
ghost use Rattle.gf_worker.specs.Peers.{IsFresh, StandsInTable};

use crate::examples::BOX;
use crate::trial::{Came, Marks};
use gf_base::OutOfMemory;
use gf_gate::OpenGate;
use gf_json::{Command, LineError, ScriptLine, read_script};
use gf_link::{Link, Message, SendSeat, TakeSeat, links, settle};
use gf_ops::{Change, Form, Op, OpId};
use gf_session::{
    Cause, Done, Ends, Refused, Report, Script, SessionError, WorkerEnd, run_session, site_worker,
};
use gf_site::Site;
use gf_worker::Peer;
use std::alloc::Global;
use std::sync::Wait;
use std::thread::Threads;
use test_kit::notation::{change, operation};
use test_kit::{RED, at};

pub(crate) const NAMES: &str = "
read_script
site_worker
run_session
link_new
links
";

/// What comes of the trial of this name, if there is one.
pub(crate) fn tried<T: Threads + Wait + Sync>(
    rt: &T,
    alloc: Global,
    name: &str,
    marks: &mut Marks,
) -> Option<Came> {
    let came = match name {
        "read_script" => script_line(alloc, marks),
        "site_worker" => worker(rt, alloc, marks),
        "run_session" => session(rt, alloc, marks),
        "link_new" => link(rt, alloc, marks),
        "links" => Some(six_links(rt, alloc, marks)),
        _ => return None,
    };
    Some(came.unwrap_or(Came::TooEarly))
}

/// What the second site makes.
const PAINT: OpId = OpId { site: 2, seq: 1 };

/// The third command of the second site waits for what nobody makes.
const NEVER: Refused = Refused {
    command: 3,
    cause: Cause::NeverComes,
};

/// The script of both sites.
pub(crate) const SCRIPT: &str =
    r#"{"site":1,"do":"create","kind":"box","place":[0,0],"size":[10,10],"colour":"ff0000","layer":0,"shown":true}
{"site":2,"do":"await","id":[1,1]}
{"site":2,"do":"set","object":[1,1],"set":"colour","to":"0000ff"}
{"site":2,"do":"await","id":[1,9]}
"#;

fn script_line(alloc: Global, marks: &mut Marks) -> Option<Came> {
    let line = SCRIPT.lines().next()?.as_bytes();
    marks.begin();
    let first = read_script(alloc, line);
    marks.end();
    Some(match first {
        Err(LineError::OutOfMemory) => {
            let next = read_script(alloc, line);
            Came::after_memory(true, is_creation(next))
        }
        first => Came::first(is_creation(first)),
    })
}

/// Whether this is the first line of the script.
fn is_creation(answer: Result<ScriptLine, LineError>) -> bool {
    match answer {
        Ok(line) => line.site == 1 && is_red_box(&line.command),
        Err(_) => false,
    }
}

fn is_red_box(command: &Command) -> bool {
    matches!(command, Command::Author(Change::Create(start))
        if start.place == at(0, 0) && start.layer == 0 && start.colour == RED && start.shown
            && matches!(&start.form, Form::Rect(10, 10)))
}

fn creates(alloc: Global) -> Option<Command> {
    Some(Command::Author(change(alloc, "box 10 10, colour ff0000")?))
}

fn paints(alloc: Global) -> Option<Command> {
    Some(Command::Author(change(alloc, "1.1 colour 0000ff")?))
}

fn first_script(alloc: Global) -> Option<Script>
    ensures { IfSome result (λ s. vec_len s.0 ≤ 1000) }
{
    let commands = Vec::from_array(alloc, [creates(alloc)?]).ok()?;
    Some(Script(commands))
}

fn second_script(alloc: Global) -> Option<Script>
    ensures { IfSome result (λ s. vec_len s.0 ≤ 1000) }
{
    let never = OpId { site: 1, seq: 9 };
    let commands = [Command::Await(BOX), paints(alloc)?, Command::Await(never)];
    let commands = Vec::from_array(alloc, commands).ok()?;
    Some(Script(commands))
}

fn scripts(alloc: Global) -> Option<Vec<Script>>
    ensures { IfSome result (λ v. All (λ s. vec_len s.0 ≤ 1000) v.items) }
{
    let scripts = [first_script(alloc)?, second_script(alloc)?];
    Vec::from_array(alloc, scripts).ok()
}

fn session<T: Threads + Wait + Sync>(rt: &T, alloc: Global, marks: &mut Marks) -> Option<Came> {
    let scripts = scripts(alloc)?;
    marks.begin();
    let first = run_session(rt, alloc, scripts, &OpenGate);
    marks.end();
    match first {
        Ok(dones) => Some(Came::first(are_done(&dones))),
        Err(SessionError::OutOfMemory) => {
            let is_right = is_session(rt, alloc)?;
            Some(Came::after_memory(true, is_right))
        }
        Err(SessionError::Sites) => Some(Came::Wrong),
    }
}

/// Whether a session with memory comes to what it has to.
fn is_session<T: Threads + Wait + Sync>(rt: &T, alloc: Global) -> Option<bool> {
    match run_session(rt, alloc, scripts(alloc)?, &OpenGate) {
        Ok(dones) => Some(are_done(&dones)),
        Err(_) => Some(false),
    }
}

fn are_done(dones: &[Done]) -> bool {
    match dones {
        [first, second] => {
            is_done(&first.site, &first.report, &[BOX], &[])
                && is_done(&second.site, &second.report, &[PAINT], &[NEVER])
        }
        _ => false,
    }
}

/// Whether a site has both operations, and this became of its commands.
fn is_done(site: &Site, report: &Report, accepted: &[OpId], refused: &[Refused]) -> bool {
    has(site, &[BOX, PAINT])
        && report.accepted.as_slice() == accepted
        && report.refused.as_slice() == refused
}

/// Whether a site has these operations alone, in this order.
fn has(site: &Site, ids: &[OpId]) -> bool {
    let ops = site.history().ops();
    ops.len() == ids.len() && ops.iter().zip(ids).all(|(op, id)| op.id == *id)
}

fn worker<R: Wait>(rt: &R, alloc: Global, marks: &mut Marks) -> Option<Came> {
    let (is_short, is_right) = worked(rt, alloc, marks)?;
    if !is_short {
        return Some(Came::first(is_right));
    }
    let next = worked(rt, alloc, &mut Marks::none())?;
    Some(Came::after_memory(is_right, next == (false, true)))
}

/// The links between two sites, the peer of the second, and that of the first.
fn two_sites<R: Wait>(rt: &R, alloc: Global) -> Option<(Vec<Link>, Peer, Peer)>
    ensures placed { IfSome result (λ t. StandsInTable t.0.items t.1) }
    ensures fresh { IfSome result (λ t. IsFresh t.1) }
    ensures other { IfSome result (λ t. StandsInTable t.0.items t.2) }
{
    let Ok((first, send, taking)) = Link::new(rt, alloc) else {
        return None;
    };
    let Ok((second, sending, take)) = Link::new(rt, alloc) else {
        return None;
    };
    let Ok(links) = Vec::from_array(alloc, [first, second]) else {
        return None;
    };
    let peer = Peer {
        out: 0,
        send,
        into: 1,
        take,
    };
    let other = Peer {
        out: 1,
        send: sending,
        into: 0,
        take: taking,
    };
    Some((links, peer, other))
}

/// A site's list of peers, where it has one.
fn alone(alloc: Global, links: &[Link], peer: Peer) -> Option<Vec<Peer>>
    requires placed { StandsInTable links.now peer }
    requires fresh { IsFresh peer }
    ensures placed { IfSome result (λ v. All (StandsInTable links.now) v.items) }
    ensures fresh { IfSome result (λ v. All IsFresh v.items) }
{
    Vec::from_array(alloc, [peer]).ok()
}

/// Sends a message to the peer.
fn send<R: Wait>(rt: &R, links: &[Link], peer: &mut Peer, message: Message) -> Option<()>
    requires { StandsInTable links.now peer.old }
    ensures { StandsInTable links.now peer.new }
{
    if peer.send.ended() || peer.send.sent() >= 1_024 {
        return None;
    }
    links[peer.out].send(rt, &mut peer.send, message);
    Some(())
}

/// What is taken from a link.
#[derive(Clone, Copy, PartialEq, Eq)]
enum Taken {
    Op(OpId),
    End,
    Stop,
    Nothing,
}

/// Takes what comes next from the peer.
fn take_next<R: Wait>(rt: &R, links: &[Link], peer: &mut Peer) -> Taken
    requires { StandsInTable links.now peer.old }
    ensures { StandsInTable links.now peer.new }
{
    take_on(rt, &links[peer.into], &mut peer.take)
}

/// Takes what comes next on a link.
fn take_on<R: Wait>(rt: &R, link: &Link, seat: &mut TakeSeat) -> Taken
    requires { seat.old.link ≡ link.now }
    ensures { seat.new.link ≡ link.now }
{
    match link.take(rt, seat) {
        Some(Message::Op(op)) => Taken::Op(op.id),
        Some(Message::End) => Taken::End,
        Some(Message::Stop) => Taken::Stop,
        None => Taken::Nothing,
    }
}

/// Whether the worker of the second site is short, and whether it came to what it has to then. The
/// first site has made its box, and ended.
fn worked<R: Wait>(rt: &R, alloc: Global, marks: &mut Marks) -> Option<(bool, bool)> {
    let (links, peer, mut other) = two_sites(rt, alloc)?;
    let links = links.as_slice();
    let peers = alone(alloc, links, peer)?;
    let made = operation(alloc, "1.1: box 10 10, colour ff0000")?;
    send(rt, links, &mut other, Message::Op(made))?;
    send(rt, links, &mut other, Message::End)?;
    let script = second_script(alloc)?;
    let site = Site::new(alloc, 2);
    marks.begin();
    let end = site_worker(rt, alloc, site, script, Ends { links, peers }, &OpenGate);
    marks.end();
    let came = [
        take_next(rt, links, &mut other),
        take_next(rt, links, &mut other),
    ];
    Some((end.short, is_worked(&end, came)))
}

/// Whether these messages come from a worker with this end.
fn is_worked(end: &WorkerEnd, came: [Taken; 2]) -> bool {
    let is_told = came[0] == Taken::Op(PAINT);
    if end.short {
        (is_told && came[1] == Taken::Stop || came == [Taken::Stop, Taken::Nothing])
            && is_stopped(end, is_told)
    } else {
        is_told && came[1] == Taken::End && is_whole(end)
    }
}

/// Whether a worker sent and took this many messages.
fn has_passed(end: &WorkerEnd, sent: u32, taken: u32) -> bool {
    match end.seats.as_slice() {
        [peer] => peer.send.sent() == sent && peer.take.taken() == taken,
        _ => false,
    }
}

fn is_whole(end: &WorkerEnd) -> bool {
    has_passed(end, 2, 2) && is_done(&end.site, &end.report, &[PAINT], &[NEVER])
}

/// Whether a worker that stopped took all that came, and made and told a prefix of what it has to.
/// Such a worker tells nothing else.
fn is_stopped(end: &WorkerEnd, is_told: bool) -> bool {
    let accepted = end.report.accepted.as_slice();
    if accepted.is_empty() {
        !is_told && has_passed(end, 1, 2) && (has(&end.site, &[]) || has(&end.site, &[BOX]))
    } else {
        has_passed(end, if is_told { 2 } else { 1 }, 2)
            && accepted == [PAINT].as_slice()
            && has(&end.site, &[BOX, PAINT])
    }
}

fn link<R: Wait>(rt: &R, alloc: Global, marks: &mut Marks) -> Option<Came> {
    let (made, same) = (circle(alloc)?, circle(alloc)?);
    marks.begin();
    let first = Link::new(rt, alloc);
    marks.end();
    Some(match first {
        Ok(link) => Came::first(passes(rt, link, made)),
        Err(OutOfMemory) => {
            let is_right = match Link::new(rt, alloc) {
                Ok(link) => passes(rt, link, same),
                Err(OutOfMemory) => false,
            };
            Came::after_memory(true, is_right)
        }
    })
}

/// An operation that makes a circle.
fn circle(alloc: Global) -> Option<Op> {
    operation(alloc, "1.1: circle 3")
}

/// Whether a new link passes an operation and End, and nothing else.
fn passes<R: Wait>(rt: &R, new: (Link, SendSeat, TakeSeat), op: Op) -> bool
    requires { IsNewLink new.0 new.1 new.2 }
{
    let (link, mut send, mut take) = new;
    let want = [Taken::Op(op.id), Taken::End, Taken::Nothing];
    link.send(rt, &mut send, Message::Op(op));
    link.send(rt, &mut send, Message::End);
    let came = [
        take_on(rt, &link, &mut take),
        take_on(rt, &link, &mut take),
        take_on(rt, &link, &mut take),
    ];
    let settled = settle(rt, link, send, take);
    came == want && settled.sent == 2 && settled.taken == 2
}

/// Three sites have six links.
fn six_links<R: Wait>(rt: &R, alloc: Global, marks: &mut Marks) -> Came {
    marks.begin();
    let first = links(rt, alloc, 6);
    marks.end();
    match first {
        Ok(links) => Came::first(are_new(&links)),
        Err(OutOfMemory) => {
            let is_right = match links(rt, alloc, 6) {
                Ok(links) => are_new(&links),
                Err(OutOfMemory) => false,
            };
            Came::after_memory(true, is_right)
        }
    }
}

fn are_new(links: &[(Link, SendSeat, TakeSeat)]) -> bool {
    links.len() == 6 && links.iter().all(|(_, send, take)| is_new(send, take))
}

fn is_new(send: &SendSeat, take: &TakeSeat) -> bool {
    send.sent() == 0 && !send.ended() && take.taken() == 0 && !take.ended()
}
