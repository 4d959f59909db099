//! The answer to each request, by what a service keeps.

ghost use Rattle.std.specs.Prelude.{◌≡◌, ◌≤◌, ◌+◌, ◌++◌, List, IfSome, length};
ghost use Rattle.gf_ops.specs.Accepted.{AreAccepted};
ghost use Rattle.gf_ops.specs.ValidHistory.{IsValid};
ghost use Rattle.gf_ops.specs.declared.op.Op.{Op};
ghost use Rattle.gf_status.specs.KeptStatuses.{AreKept};
ghost use Rattle.gf_causal.specs.HeldOperations.{AreHeld};
ghost use Rattle.gf_replay.specs.Behind.{HasDelivered};
ghost use Rattle.gf_serve.specs.Serving.{AnswersNext};
ghost use Rattle.gf_serve.specs.ServingSteps.{KeepsBoth};
ghost use Rattle.gf_serve.specs.declared.request.Request.TheVariants as request;

use crate::kept::Kept;
use crate::request::TakeText;
use crate::two_replicas::TwoReplicas;
use crate::{Arrival, Refusal, Reply};
use gf_base::OutOfMemory;
use gf_json::Notation;
use gf_ops::Op;
use gf_replay::read_behind;
use gf_run::StudioError;
use gf_site::Replica;
use gf_status::{KeptStatuses, status_of_replica};
use gf_studio::named_of_replica;
use gf_take_run::{TakeRunError, TakenDrawing, take_behind};
use std::alloc::Global;
use std::thread::Threads;

/// Takes operation lines. A copy of the replica takes them, so a refusal leaves it as it was. What
/// was kept of the objects of new operations is forgotten.
pub(crate) fn lines<R: Threads + Sync>(
    rt: &R,
    alloc: Global,
    replicas: &mut TwoReplicas,
    kept: &mut Kept,
    text: Vec<u8>,
    workers: u8,
) -> Reply
    requires workers { (1 ≤ workers) × (workers ≤ 16) }
    requires keeps { KeepsBoth replicas.old.ops kept.old }
    ensures keeps { KeepsBoth replicas.new.ops kept.new }
    ensures answers { (known : List Op) → HasDelivered known replicas.old
        → AnswersNext known (request.Lines text) result replicas.new }
{
    let Ok(copy) = replicas.copy(alloc) else {
        return Reply::Refused(Refusal::Run(StudioError::OutOfMemory));
    };
    match read_behind(rt, alloc, copy, text, workers) {
        Ok(next) => match arrival(replicas.newest(), &next) {
            Some(came) => {
                let had = replicas.newest().history().ops().len();
                replicas.replace(next);
                kept.forget_behind(alloc, replicas.newest().history(), had);
                Reply::Lines(came)
            }
            None => Reply::Refused(Refusal::Run(StudioError::OutOfMemory)),
        },
        Err(fault) => Reply::Refused(Refusal::Run(StudioError::from(fault))),
    }
}

/// What came between two moments of a replica. None where no number tells it.
fn arrival(old: &Replica, new: &Replica) -> Option<Arrival>
    ensures new { IfSome result (λ came. came.new + (length old.now.ops + length old.now.held)
        ≡ length new.now.ops + length new.now.held) }
    ensures waiting { IfSome result (λ came. came.waiting ≡ length new.now.held) }
    ensures valid { AreHeld old.now.held × AreHeld new.now.held }
{
    old.recall_state();
    new.recall_state();
    let before = count(old)?;
    let after = count(new)?;
    match after.checked_sub(before) {
        Some(more) => Some(Arrival {
            new: more,
            waiting: new.held(),
        }),
        None => None,
    }
}

/// How many operations a replica has and holds.
fn count(replica: &Replica) -> Option<usize>
    ensures { IfSome result (λ n. n ≡ length replica.now.ops + length replica.now.held) }
{
    replica.history().ops().len().checked_add(replica.held())
}

/// Takes operations of a FIG text, as [`lines`] takes those of lines, by a copy of what was kept.
pub(crate) fn take(
    alloc: Global,
    replicas: &mut TwoReplicas,
    kept: &mut Kept,
    text: &TakeText,
) -> Reply
    requires { KeepsBoth replicas.old.ops kept.old }
    ensures keeps { KeepsBoth replicas.new.ops kept.new }
    ensures answers { (known : List Op) → HasDelivered known replicas.old
        → AnswersNext known (request.Take text.now) result replicas.new }
{
    if !text.fig.starts_with(b"#FIG") {
        return Reply::Refused(Refusal::Take(TakeRunError::NoDrawing));
    }
    let Ok(copy) = replicas.copy(alloc) else {
        return Reply::Refused(Refusal::Take(TakeRunError::from(OutOfMemory)));
    };
    let Ok(found) = kept.versions.copy(alloc) else {
        return Reply::Refused(Refusal::Take(TakeRunError::from(OutOfMemory)));
    };
    replicas.newest().recall_state();
    match take_behind(alloc, copy, found, &text.fig, text.request) {
        Ok(taken) => {
            let TakenDrawing { ops, answer, site } = taken;
            let (site, found) = site.into_parts();
            replicas.take_history(site);
            replicas.newest().recall_state();
            kept.versions = found;
            forget_all(&mut kept.statuses, &ops);
            Reply::Taken(answer)
        }
        Err(fault) => Reply::Refused(Refusal::Take(fault)),
    }
}

/// Forgets the statuses of the objects of these operations, which stand behind the history now.
fn forget_all(statuses: &mut KeptStatuses, ops: &[Op])
    ensures { (h : List Op) → IsValid h → AreAccepted h → IsValid (h ++ ops.now)
        → AreAccepted (h ++ ops.now) → AreKept h statuses.old
        → AreKept (h ++ ops.now) statuses.new }
{
    for op in ops {
        statuses.forget(op.object());
    }
}

/// Answers with the named text.
pub(crate) fn named(alloc: Global, replica: &Replica, kept: &mut Kept) -> Reply
    requires { KeepsBoth replica.now.ops kept.old }
    ensures keeps { KeepsBoth replica.now.ops kept.new }
    ensures answers { (known : List Op) → HasDelivered known replica.now
        → AnswersNext known request.Named result replica.now }
{
    replica.recall_state();
    match named_of_replica(alloc, replica, &mut kept.versions) {
        Ok(named) => Reply::Named(named),
        Err(fault) => Reply::Refused(Refusal::Run(StudioError::from(fault))),
    }
}

/// Answers with the status.
pub(crate) fn status(alloc: Global, replica: &Replica, kept: &mut Kept, notation: Notation) -> Reply
    requires { KeepsBoth replica.now.ops kept.old }
    ensures keeps { KeepsBoth replica.now.ops kept.new }
    ensures answers { (known : List Op) → HasDelivered known replica.now
        → AnswersNext known (request.Status notation) result replica.now }
{
    replica.recall_state();
    match status_of_replica(alloc, replica, &mut kept.statuses, notation) {
        Ok(status) => Reply::Status(status),
        Err(_) => Reply::Refused(Refusal::Run(StudioError::OutOfMemory)),
    }
}
