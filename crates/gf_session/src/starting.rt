//! How sites are run at the same time.

ghost use Rattle.std.specs.Prelude.{◌≡◌, ◌≤◌, ◌++◌, ◌∷◌, [], ◌+◌, All, length, vec_len};
ghost use Rattle.std.specs.Vec.{vec_capacity};
ghost use Rattle.gf_session.specs.Starting.{IsReadyToStart, Gave, GaveAll};
ghost use Rattle.gf_worker.specs.Ending.{HasWorked, HasStopped};
ghost use denote.Param.Send.{IsSync};

use gf_gate::Gate;
use gf_link::Link;
use gf_site::Site;
use gf_worker::{Ends, Peer, Script, WorkerEnd, site_worker, stop_worker};
use std::alloc::Global;
use std::snapshot::Snapshot;
use std::sync::Wait;
use std::sync::atomic::{AtomicBool, Ordering};
use std::thread;
use std::thread::{Promise, Threads};

/// A site that is to run.
#[derive(Drop)]
pub(crate) struct SiteToRun {
    pub(crate) site: Site,
    pub(crate) script: Script,
    pub(crate) peers: Vec<Peer>,
}

/// What the thread of a site gives back.
#[derive(Drop)]
struct Runs(Snapshot<SiteToRun>);

impl Promise<WorkerEnd> for Runs {
    ghost use Rattle.gf_session.specs.Starting.{Gave};

    ghost kept_by = { λ p end. Gave p.0.value end };
}

/// Sends Stop for a site that does not run.
fn stop_one<R: Wait>(rt: &R, alloc: Global, links: &[Link], to_run: SiteToRun) -> WorkerEnd
    requires { IsReadyToStart links.now to_run }
    ensures { HasStopped to_run.site to_run.peers.items result }
{
    let SiteToRun { site, peers, .. } = to_run;
    stop_worker(rt, alloc, site, Ends { links, peers })
}

/// Runs one site.
fn run_one<R: Wait, G: Gate>(
    rt: &R,
    alloc: Global,
    gate: &G,
    links: &[Link],
    to_run: SiteToRun,
) -> WorkerEnd
    requires { IsReadyToStart links.now to_run }
    ensures { HasWorked to_run.site.number to_run.script.0.items to_run.peers.items result }
{
    let SiteToRun {
        site,
        script,
        peers,
    } = to_run;
    site_worker(rt, alloc, site, script, Ends { links, peers }, gate)
}

/// Runs a site, or sends Stop for it where its thread was not started.
fn run_or_stop<R: Wait, G: Gate>(
    rt: &R,
    alloc: Global,
    gate: &G,
    links: &[Link],
    unstarted: &AtomicBool,
    to_run: SiteToRun,
) -> WorkerEnd
    requires { IsReadyToStart links.now to_run }
    ensures { Gave to_run result }
{
    if unstarted.load(Ordering::SeqCst) {
        return stop_one(rt, alloc, links, to_run);
    }
    run_one(rt, alloc, gate, links, to_run)
}

/// Runs sites at the same time. What they give back goes where `ends` has room.
#[cycle(sites)]
pub(crate) fn fork<R: Threads + Wait + Sync, G: Gate + Sync>(
    rt: &R,
    alloc: Global,
    gate: &G,
    links: &[Link],
    mut sites: Vec<SiteToRun>,
    mut ends: Vec<WorkerEnd>,
) -> Vec<WorkerEnd>
    requires ready { All (IsReadyToStart links.now) sites.items }
    requires empty { ends.items ≡ [] }
    requires room { vec_len sites ≤ vec_capacity ends }
    ensures gave { GaveAll sites.items result.items }
    ensures room { vec_capacity result ≡ vec_capacity ends }
{
    if 1 < sites.len() {
        return fork_last(rt, alloc, gate, links, sites, ends);
    }
    let Some(only) = sites.pop() else {
        return ends;
    };
    ends.push_reserved(run_one(rt, alloc, gate, links, only));
    ends
}

/// Runs the last site in a thread of its own, beside the others. If the thread is refused, this
/// site is stopped before the others run, so none of them waits for it.
#[cycle(sites)]
fn fork_last<R: Threads + Wait + Sync, G: Gate + Sync>(
    rt: &R,
    alloc: Global,
    gate: &G,
    links: &[Link],
    mut sites: Vec<SiteToRun>,
    ends: Vec<WorkerEnd>,
) -> Vec<WorkerEnd>
    requires ready { All (IsReadyToStart links.now) sites.items }
    requires empty { ends.items ≡ [] }
    requires room { vec_len sites ≤ vec_capacity ends }
    ensures gave { GaveAll sites.items result.items }
    ensures room { vec_capacity result ≡ vec_capacity ends }
{
    let Some(last) = sites.pop() else {
        return ends;
    };
    let unstarted = AtomicBool::new(false);
    let flag = &unstarted;
    thread::scope(
        thread::scope_env(),
        rt,
        move |scope| -> Vec<WorkerEnd>
            requires { IsSync R.row × IsSync G.row × All (IsReadyToStart links.now) sites.items
                × IsReadyToStart links.now last × (ends.items ≡ [])
                × (length sites.items + 1 ≤ vec_capacity ends) }
            ensures { GaveAll (sites.items ++ last ∷ []) result.items
                × (vec_capacity result ≡ vec_capacity ends) }
        {
            let promise = Runs(Snapshot::of(&last));
            let theirs = move || -> WorkerEnd
                requires { IsSync R.row × IsSync G.row × IsReadyToStart links.now last }
                ensures { Gave last result }
            { run_or_stop(rt, alloc, gate, links, flag, last) };
            match scope.spawn_with(promise, theirs) {
                Ok(child) => {
                    let mut ends = fork(rt, alloc, gate, links, sites, ends);
                    ends.push_reserved(child.join(rt));
                    ends
                }
                Err(refused) => {
                    flag.store(true, Ordering::SeqCst);
                    let theirs = refused.value;
                    let end = theirs();
                    let mut ends = fork(rt, alloc, gate, links, sites, ends);
                    ends.push_reserved(end);
                    ends
                }
            }
        },
    )
}
