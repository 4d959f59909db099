//! Sessions of two to eight sites.

ghost use Rattle.std.specs.Prelude.{◌≡◌, ◌↔◌, ◌⊎◌, ◌<◌, ◌≤◌, Err, Some, All, IfOk, map, vec_len};
ghost use Rattle.std.specs.List.{list_any};
ghost use Rattle.gf_mesh.specs.Linked.{rows_of};
ghost use Rattle.gf_session.specs.Session.{IsSession, done_of};
ghost use Rattle.gf_session.specs.SessionErrors.{session_error_text};
ghost use Rattle.gf_session.specs.Starting.{AreSitesToRun};
ghost use denote.Param.Send.{IsSync};

use crate::starting::{SiteToRun, fork};
use gf_base::OutOfMemory;
use gf_gate::Gate;
use gf_mesh::Mesh;
use gf_site::Site;
use gf_worker::{Peer, Report, Script, WorkerEnd};
use std::alloc::Global;
use std::fmt;
use std::sync::Wait;
use std::thread::Threads;

/// Why a session gave nothing, in the order of the checks.
#[derive(Clone, Copy, Debug, PartialEq, Eq)]
pub enum SessionError {
    /// There are fewer than two scripts, or more than eight.
    Sites,
    /// Memory was refused: for a link or a list of sites before any ran, or for a thread. Or it was
    /// refused to a site, or for the list of what the sites came to.
    OutOfMemory,
}

impl fmt::Display for SessionError {
    ghost output = { λ e. Some (session_error_text e) };

    fn fmt<W: fmt::Write>(&self, f: &mut fmt::Formatter<W>) -> fmt::Result {
        match self {
            SessionError::Sites => f.write_str("sites must be 2 to 8"),
            SessionError::OutOfMemory => f.write_str("session: out of memory"),
        }
    }
}

impl std::error::Error for SessionError {}

/// What a site came to: its history, and what became of its commands.
#[derive(Drop)]
pub struct Done {
    pub site: Site,
    pub report: Report,
}

/// Runs the scripts of two to eight sites, of at most 1,000 commands each, in threads of their own.
/// The first script is that of site 1, and so on. No thread waits for one that was not started.
pub fn run_session<R: Threads + Wait + Sync, G: Gate + Sync>(
    rt: &R,
    alloc: Global,
    scripts: Vec<Script>,
    gate: &G,
) -> Result<Vec<Done>, SessionError>
    requires { All (λ s. vec_len s.0 ≤ 1000) scripts.items }
    ensures ok { IfOk result (λ v. IsSession scripts.items v.items) }
    ensures sites { result ≡ Err SessionError.Sites
        ↔ ((vec_len scripts < 2) ⊎ (8 < vec_len scripts)) }
{
    if scripts.len() < 2 || scripts.len() > 8 {
        return Err(SessionError::Sites);
    }
    match run_sites(rt, alloc, scripts, gate) {
        Ok(dones) => Ok(dones),
        Err(OutOfMemory) => Err(SessionError::OutOfMemory),
    }
}

/// Joins the sites, runs their scripts, and settles the links between them. Until all sites are
/// joined nothing runs, so nothing waits where memory is refused.
fn run_sites<R: Threads + Wait + Sync, G: Gate + Sync>(
    rt: &R,
    alloc: Global,
    scripts: Vec<Script>,
    gate: &G,
) -> Result<Vec<Done>, OutOfMemory>
    requires few { vec_len scripts ≤ 8 }
    requires short { All (λ s. vec_len s.0 ≤ 1000) scripts.items }
    ensures { IfOk result (λ v. IsSession scripts.items v.items) }
{
    let (mesh, peers) = Mesh::new(rt, alloc, scripts.len())?;
    let sites = sites_to_run(alloc, scripts, peers)?;
    let room = Vec::with_capacity(alloc, sites.len())?;
    let ends = fork(rt, alloc, gate, mesh.links(), sites, room);
    if any_short(&ends) {
        return Err(OutOfMemory);
    }
    let (dones, peers) = dones_of(alloc, ends)?;
    mesh.settle(rt, peers);
    Ok(dones)
}

/// The sites that are to run, numbered from 1: the scripts with the peers in their order.
fn sites_to_run(
    alloc: Global,
    scripts: Vec<Script>,
    peers: Vec<Vec<Peer>>,
) -> Result<Vec<SiteToRun>, OutOfMemory>
    requires few { vec_len scripts ≤ 8 }
    requires long { vec_len peers ≡ vec_len scripts }
    ensures { IfOk result (λ v. AreSitesToRun scripts.items (rows_of peers.items) v.items) }
{
    let mut sites = Vec::new(alloc);
    let mut number = 0;
    for (script, peers) in scripts.into_iter().zip(peers) {
        number += 1;
        sites.push(SiteToRun {
            site: Site::new(alloc, number),
            script,
            peers,
        })?;
    }
    Ok(sites)
}

/// Whether memory was refused to a worker.
fn any_short(ends: &[WorkerEnd]) -> bool
    ensures { result ≡ list_any (λ e. e.short) ends.now }
{
    ends.iter().any(|end| end.short)
}

/// What the sites came to, and their peers.
fn dones_of(alloc: Global, ends: Vec<WorkerEnd>) -> Result<(Vec<Done>, Vec<Vec<Peer>>), OutOfMemory>
    ensures dones { IfOk result (λ p. p.0.items ≡ map done_of ends.items) }
    ensures peers { IfOk result (λ p. rows_of p.1.items ≡ map (λ e. e.seats.items) ends.items) }
{
    let mut dones = Vec::new(alloc);
    let mut peers = Vec::new(alloc);
    for end in ends {
        let WorkerEnd {
            site,
            seats,
            report,
            ..
        } = end;
        dones.push(Done { site, report })?;
        peers.push(seats)?;
    }
    Ok((dones, peers))
}
