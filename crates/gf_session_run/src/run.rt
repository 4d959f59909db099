//! The whole run over a session text.

ghost use Rattle.std.specs.Prelude.{◌≡◌, ◌↔◌, Err, IfSome, IfErr, IsTrue, OnOk};
ghost use Rattle.gf_session.specs.declared.session.SessionError.{SessionError};
ghost use Rattle.gf_run.specs.RunAnswers.{LeavesSinkBy, ReadsInputBy};
ghost use Rattle.gf_session_run.specs.SessionRun.{IsSiteCount, RefusesSession, TellsSession};
ghost use Rattle.gf_session_run.specs.SessionRun.{WritesSession, of_session};

use crate::SessionRunError;
use crate::playing::play;
use gf_gate::Gate;
use gf_run::run;
use gf_session::SessionError;
use gf_streams::{Sink, Source};
use std::alloc::Global;
use std::sync::Wait;
use std::thread::Threads;

/// Reads script lines to their end, and runs the scripts of `sites` sites at the same time. What
/// became of the commands of each site is written, and then the FIG text of the common history. All
/// is read before any script begins, and all scripts have ended before the first write. Scripts
/// that await each other in a circle may wait for ever.
pub fn session_run<T: Threads + Wait + Sync, R: Source, W: Sink, G: Gate + Sync>(
    rt: &T,
    alloc: Global,
    source: &mut R,
    sink: &mut W,
    sites: u8,
    gate: &G,
) -> Result<(), SessionRunError>
    // What is written is the text of a session of the scripts that the bytes denote. It shows the
    // history that all its sites have.
    ensures tells { OnOk result (IfSome (R.left source.old) (λ bytes.
        WritesSession sites bytes (W.taken sink.old) (W.taken sink.new))) }

    // Where a session may not have this many sites, nothing is read. Else this is the same as
    // `fig_run` promises, with scripts in place of operations. Want of memory in a session is an
    // error of its own, with a text of its own.
    ensures sites { result ≡ Err (SessionRunError.Session SessionError.Sites) ↔
        (¬ (IsSiteCount sites)) }
    ensures unread { ¬ (IsSiteCount sites) → source.new ≡ source.old }
    ensures source { IsSiteCount sites → ReadsInputBy R.Source source.old source.new of_session
        result }
    ensures refused { IfErr result (λ e. IfSome (R.left source.old) (λ bytes.
        RefusesSession sites bytes e)) }

    // At most a prefix of the text is written, and that only where the sink failed.
    ensures sink { LeavesSinkBy W.Sink (R.left source.old) (TellsSession sites) sink.old sink.new
        of_session result }
{
    if !is_site_count(sites) {
        return Err(SessionRunError::Session(SessionError::Sites));
    }
    run(
        alloc,
        source,
        sink,
        |bytes|
            requires { IsSiteCount sites }
        { play(rt, alloc, bytes, sites, gate) },
    )
}

fn is_site_count(sites: u8) -> bool
    ensures { IsTrue result ↔ IsSiteCount sites }
{
    2 <= sites && sites <= 8
}
