//! How a worker runs the commands of its script.

ghost use Rattle.std.specs.Prelude.{◌≡◌, ◌≤◌, false, vec_len};
ghost use Rattle.gf_json.specs.declared.scripts.Command.{Command};
ghost use Rattle.gf_worker.specs.Peers.{ArePlaced};
ghost use Rattle.gf_worker.specs.Sending.{AreOpen};
ghost use Rattle.gf_worker.specs.Playing.{IsRefusal, IsFaultReported, IsBegun, PlaysOn, Through};
ghost use Rattle.gf_worker.specs.Playing.{cause_of};

use crate::sending::send_all;
use crate::work::Work;
use crate::{Refused, Report};
use gf_gate::Gate;
use gf_json::Command;
use gf_link::Link;
use gf_ops::{Change, OpId};
use gf_site::{AuthorFault, Cause};
use std::alloc::Global;
use std::sync::Wait;

/// Reports a refusal, if there is one, and says whether there was memory for it.
fn report_refusal(report: &mut Report, number: u32, cause: Option<Cause>) -> bool
    ensures { IsRefusal number cause result report.old report.new }
{
    let Some(cause) = cause else {
        return true;
    };
    report
        .refused
        .push(Refused {
            command: number,
            cause,
        })
        .is_ok()
}

/// The cause of a refused change; want of memory is no cause.
fn cause_of(fault: AuthorFault) -> Option<Cause>
    ensures { result ≡ cause_of fault }
{
    match fault {
        AuthorFault::Exhausted => Some(Cause::Exhausted),
        AuthorFault::Range => Some(Cause::Range),
        AuthorFault::NoObject => Some(Cause::NoObject),
        AuthorFault::WrongKind => Some(Cause::WrongKind),
        AuthorFault::BadAim => Some(Cause::BadAim),
        AuthorFault::OutOfMemory => None,
    }
}

/// Reports why a change was refused, and says whether memory was there for that and for the
/// change.
fn report_fault(report: &mut Report, number: u32, fault: AuthorFault) -> bool
    ensures { IsFaultReported number fault result report.old report.new }
{
    let Some(cause) = cause_of(fault) else {
        return false;
    };
    report_refusal(report, number, Some(cause))
}

impl Work {
    /// Runs the commands of a script in turn, each behind a call of the gate. A worker that is
    /// short runs no more commands.
    pub(crate) fn play_all<R: Wait, G: Gate>(
        &mut self,
        rt: &R,
        alloc: Global,
        links: &[Link],
        gate: &G,
        script: Vec<Command>,
    )
        requires placed { ArePlaced links.now self.old.peers.items }
        requires few { vec_len script ≤ 1000 }
        requires begun { IsBegun self.old }
        ensures { Through script.items self.old self.new }
    {
        let mut number = 0;
        for command in script {
            number += 1;
            self.play(rt, alloc, links, gate, number, command);
        }
    }

    /// Runs one command, unless the worker is short.
    fn play<R: Wait, G: Gate>(
        &mut self,
        rt: &R,
        alloc: Global,
        links: &[Link],
        gate: &G,
        number: u32,
        command: Command,
    )
        requires placed { ArePlaced links.now self.old.peers.items }
        requires still { self.old.short ≡ false → AreOpen self.old.peers.items }
        ensures { PlaysOn number command self.old self.new }
    {
        if self.short {
            return;
        }
        gate.enter(self.site.number(), number);
        match command {
            Command::Author(change) => {
                self.play_author(rt, alloc, links, number, change);
                return;
            }
            Command::Await(id) => {
                self.play_await(rt, links, number, id);
                return;
            }
        }
    }

    /// Runs an Author: makes the operation and sends a copy to each peer.
    fn play_author<R: Wait>(
        &mut self,
        rt: &R,
        alloc: Global,
        links: &[Link],
        number: u32,
        change: Change,
    )
        requires placed { ArePlaced links.now self.old.peers.items }
        requires still { AreOpen self.old.peers.items }
        requires long { self.old.short ≡ false }
        ensures { PlaysOn number (Command.Author change) self.old self.new }
    {
        if self.report.accepted.reserve(1).is_err() {
            self.short = true;
            return;
        }
        match self.site.author(change) {
            Ok(op) => {
                self.site.recall_state();
                self.report.accepted.push_reserved(op.id);
                self.short = !send_all(rt, alloc, links, &mut self.peers, &op);
                return;
            }
            Err(fault) => {
                self.short = !report_fault(&mut self.report, number, fault);
                return;
            }
        }
    }

    /// Runs an Await.
    pub(crate) fn play_await<R: Wait>(&mut self, rt: &R, links: &[Link], number: u32, id: OpId)
        requires { ArePlaced links.now self.old.peers.items }
        ensures { PlaysOn number (Command.Await id) self.old self.new }
    {
        let cause = self.judge(rt, links, id);
        if self.short {
            return;
        }
        self.short = !report_refusal(&mut self.report, number, cause);
    }
}
