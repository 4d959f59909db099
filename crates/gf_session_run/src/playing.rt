//! From the bytes of a session text to the text that tells what came of it.

ghost use Rattle.std.specs.Prelude.{◌≡◌, ◌≢◌, ◌≤◌, ◌++◌, Err, All, IfOk, IfErr, IfSome, vec_len};
ghost use Rattle.gf_session.specs.Session.{IsSession};
ghost use Rattle.gf_run.specs.RefusedRuns.{IsBetween};
ghost use Rattle.gf_session_run.specs.Reports.{report_text};
ghost use Rattle.gf_session_run.specs.SessionRun.{IsSiteCount, RefusesSession, TellsSession};
ghost use Rattle.gf_session_run.specs.SessionRun.{of_session};
ghost use Rattle.gf_session_run.specs.SessionSteps.{RefusesTelling, TellsHistory};

use crate::SessionRunError;
use crate::reports::push_reports;
use crate::scripts::read_scripts;
use gf_base::OutOfMemory;
use gf_fig_write::fig_bytes;
use gf_gate::Gate;
use gf_run::{Answer, StudioError};
use gf_session::{Done, SessionError, run_session};
use gf_site::Site;
use gf_studio::draw_replica;
use gf_worker::Script;
use std::alloc::Global;
use std::sync::Wait;
use std::thread::Threads;

/// Runs the scripts that these bytes denote, and tells what came of them.
pub(crate) fn play<T: Threads + Wait + Sync, G: Gate + Sync>(
    rt: &T,
    alloc: Global,
    bytes: Vec<u8>,
    sites: u8,
    gate: &G,
) -> Result<Answer<()>, SessionRunError>
    requires { IsSiteCount sites }
    ensures ok { IfOk result (λ told. TellsSession sites bytes.items told.text.items) }
    ensures refused { IfErr result (RefusesSession sites bytes.items) }
    ensures between { IfErr result (λ e. IfSome (of_session e) IsBetween) }
{
    let scripts = read_scripts(alloc, bytes, sites)?;
    let dones = run(rt, alloc, scripts, gate)?;
    match tell(alloc, dones.as_slice(), &dones[0].site) {
        Ok(text) => Ok(Answer { text, value: () }),
        Err(fault) => Err(SessionRunError::Run(fault)),
    }
}

/// What the sites of these scripts come to.
fn run<T: Threads + Wait + Sync, G: Gate + Sync>(
    rt: &T,
    alloc: Global,
    scripts: Vec<Script>,
    gate: &G,
) -> Result<Vec<Done>, SessionError>
    requires sites { IsSiteCount (vec_len scripts) }
    requires few { All (λ s. vec_len s.0 ≤ 1000) scripts.items }
    ensures ok { IfOk result (λ dones. IsSession scripts.items dones.items) }
    ensures err { result ≢ Err SessionError.Sites }
{
    run_session(rt, alloc, scripts, gate)
}

/// The lines of all sites, and the FIG text of this one's history behind them.
fn tell(alloc: Global, dones: &[Done], site: &Site) -> Result<Vec<u8>, StudioError>
    ensures ok { IfOk result (λ text. TellsHistory site.now.ops dones.now text.items) }
    ensures err { IfErr result (RefusesTelling site.now.ops) }
{
    let drawing = draw_replica(alloc, site.replica())?;
    let Ok(fig) = fig_bytes(alloc, &drawing) else {
        return Err(StudioError::OutOfMemory);
    };
    match told(alloc, dones, fig.as_slice()) {
        Ok(text) => Ok(text),
        Err(OutOfMemory) => Err(StudioError::OutOfMemory),
    }
}

/// The lines of all sites, and these bytes behind them.
fn told(alloc: Global, dones: &[Done], fig: &[u8]) -> Result<Vec<u8>, OutOfMemory>
    ensures { IfOk result (λ text. text.items ≡ report_text dones.now ++ fig.now) }
{
    let mut text = Vec::new(alloc);
    push_reports(&mut text, dones)?;
    text.extend_from_slice(fig)?;
    Ok(text)
}
