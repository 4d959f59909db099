//! From the bytes of operation lines to the status of their history.

ghost use Rattle.std.specs.Prelude.{◌≡◌, ◌≤◌, IfSome, IfOk, IfErr, map};
ghost use Rattle.std.specs.List.{list_all};
ghost use Rattle.gf_run.specs.RefusedRuns.{IsBetween};
ghost use Rattle.gf_run.specs.RefusedRuns.{RefusesReading};
ghost use Rattle.gf_run.specs.RunAnswers.{LeavesSink, ReadsInput};
ghost use Rattle.gf_status.specs.KeptStatuses.{AreKept};
ghost use Rattle.gf_status.specs.StatusRun.{DenotesStatus, IsStatusOf, TellsStatus, WritesStatus};
ghost use Rattle.gf_status.specs.StatusRun.{status_in};
ghost use Rattle.gf_status.specs.StatusLines.{are_clean, is_at_most_one, is_clean, state_of};

use crate::counting::shown_in;
use crate::json::status_json;
use crate::lines::status_text;
use crate::{KeptStatuses, ObjectStatus, State};
use gf_base::OutOfMemory;
use gf_json::Notation;
use gf_listing::Versions;
use gf_ops::{History, Op, OpId};
use gf_replay::read_replica;
use gf_run::{Answer, StudioError, run};
use gf_site::Replica;
use gf_streams::{Sink, Source};
use gf_versions::MOST_VERSIONS;
use std::alloc::Global;
use std::thread::Threads;

/// Reads operation lines to their end, by 1 to 16 workers, and writes the status of their history.
/// It has a line for each site with operations, and one for each operation that waits. The lines of
/// an object say how many versions it has, and which attributes differ among the visible ones. They
/// name hidings of a hidden object that crossed, and who changed what is hidden without knowing it.
/// The last line says where more versions are shown than a drawing has. As JSON each object has one
/// line, and the last line has how many versions are shown, and whether the status is clean. The
/// answer is whether something waits or is open. All is read before the first write.
pub fn status_run<T: Threads + Sync, R: Source, W: Sink>(
    rt: &T,
    alloc: Global,
    source: &mut R,
    sink: &mut W,
    notation: Notation,
    workers: u8,
) -> Result<State, StudioError>
    requires { (1 ≤ workers) × (workers ≤ 16) }
    // What is written is the status of the history that the bytes denote.
    ensures tells { IfOk result (λ state. IfSome (R.left source.old) (λ bytes.
        WritesStatus notation bytes state (W.taken sink.old) (W.taken sink.new))) }

    // The same as `fig_run` promises, with no drawing.
    ensures source { ReadsInput R.Source source.old source.new result }
    ensures refused { IfErr result (λ e. IfSome (R.left source.old) (λ bytes.
        RefusesReading bytes e)) }

    // At most a prefix of the text is written, and that only where the sink failed.
    ensures sink { LeavesSink W.Sink (R.left source.old) (IsStatusOf notation) sink.old sink.new
        result }
{
    run(
        alloc,
        source,
        sink,
        |bytes|
            requires { (1 ≤ workers) × (workers ≤ 16) }
        { status_of(rt, alloc, bytes, notation, workers) },
    )
}

/// The status of the history that these bytes denote.
fn status_of<T: Threads + Sync>(
    rt: &T,
    alloc: Global,
    bytes: Vec<u8>,
    notation: Notation,
    workers: u8,
) -> Result<Answer<State>, StudioError>
    requires { (1 ≤ workers) × (workers ≤ 16) }
    ensures ok { IfOk result (λ status.
        DenotesStatus notation bytes.items status.text.items status.value) }
    ensures refused { IfErr result (RefusesReading bytes.items) }
    ensures between { IfErr result IsBetween }
{
    let replica = read_replica(rt, alloc, bytes, workers)?;
    let mut statuses = KeptStatuses::new(alloc);
    match status_of_replica(alloc, &replica, &mut statuses, notation) {
        Ok(status) => Ok(status),
        Err(OutOfMemory) => Err(StudioError::OutOfMemory),
    }
}

/// The status of a replica's history, and of what waits behind it. What is kept of that history
/// grows by what was made.
pub fn status_of_replica(
    alloc: Global,
    replica: &Replica,
    statuses: &mut KeptStatuses,
    notation: Notation,
) -> Result<Answer<State>, OutOfMemory>
    requires { AreKept replica.now.ops statuses.old }
    ensures keeps { AreKept replica.now.ops statuses.new }
    ensures tells { IfOk result (λ status.
        TellsStatus notation replica.now.ops replica.now.held status.text.items status.value) }
{
    let history = replica.history();
    let waiting = replica.held_ops(alloc)?;
    statuses.refresh(alloc, &Versions::of(replica.indexed()))?;
    let text = status_in(alloc, notation, history, &waiting, statuses.as_slice())?;
    let state = state_of(&waiting, statuses.as_slice());
    Ok(Answer { text, value: state })
}

/// The text of a status in this notation.
fn status_in(
    alloc: Global,
    notation: Notation,
    history: &History,
    waiting: &[&Op],
    objects: &[ObjectStatus],
) -> Result<Vec<u8>, OutOfMemory>
    ensures { IfOk result (λ text. text.items
        ≡ status_in notation history.now.ops (map (λ a. a.now) waiting.now) objects.now) }
{
    match notation {
        Notation::Words => status_text(alloc, history, waiting, objects),
        Notation::Json => {
            let state = state_of(waiting, objects);
            status_json(alloc, history, waiting, objects, state)
        }
    }
}

/// Whether something waits, something of an object is open, or more versions are shown than a
/// drawing has.
fn state_of(waiting: &[&Op], objects: &[ObjectStatus]) -> State
    ensures { result ≡ state_of (map (λ a. a.now) waiting.now) objects.now }
{
    if are_clean(waiting, objects) {
        State::Clean
    } else {
        State::Open
    }
}

fn are_clean(waiting: &[&Op], objects: &[ObjectStatus]) -> bool
    ensures { result ≡ are_clean (map (λ a. a.now) waiting.now) objects.now }
{
    waiting.is_empty() && all_clean(objects) && shown_in(objects) <= MOST_VERSIONS
}

fn all_clean(objects: &[ObjectStatus]) -> bool
    ensures { result ≡ list_all is_clean objects.now }
{
    objects.iter().all(|status| is_clean(status))
}

/// Whether the shown versions of the object agree, no two last hidings of a hidden object crossed,
/// and no operation changed what is hidden.
fn is_clean(status: &ObjectStatus) -> bool
    ensures { result ≡ is_clean status.now }
{
    status.differences.is_empty()
        && is_at_most_one(status.hidings.as_slice())
        && status.changed.as_slice().is_empty()
}

fn is_at_most_one(ids: &[OpId]) -> bool
    ensures { result ≡ is_at_most_one ids.now }
{
    match ids {
        [] | [_] => true,
        [_, _, ..] => false,
    }
}
