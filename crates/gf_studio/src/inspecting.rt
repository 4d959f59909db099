//! From the bytes of operation lines to the lines of versions.

ghost use Rattle.std.specs.Prelude.{◌≤◌, IfSome, IfOk, IfErr, OnOk};
ghost use Rattle.gf_studio.specs.InspectRun.{AnswersQuery, Tells, TellsPresent, TellsTop};
ghost use Rattle.gf_studio.specs.InspectRun.{WritesAnswer};
ghost use Rattle.gf_run.specs.RefusedRuns.{IsBetween};
ghost use Rattle.gf_studio.specs.RefusedParts.{RefusesQuery};
ghost use Rattle.gf_studio.specs.RefusedRuns.{RefusesAnswer};
ghost use Rattle.gf_run.specs.RunAnswers.{LeavesSink, ReadsInput};

use gf_base::OutOfMemory;
use gf_groups::GroupFault;
use gf_inspect::{lines, object_lines, top_at_with, top_line, versions_with};
use gf_json::Notation;
use gf_listing::Versions;
use gf_ops::ObjectId;
use gf_replay::read_replica;
use gf_run::{Answer, StudioError, run};
use gf_shape::Point;
use gf_site::Replica;
use gf_streams::{Sink, Source};
use std::alloc::Global;
use std::thread::Threads;

/// What is asked of a history.
#[derive(Clone, Copy, Debug, PartialEq, Eq)]
pub enum Query {
    /// The versions of this object, hidden ones too, topmost first.
    Object(ObjectId),
    /// The versions of each object that has several. The objects rise by id.
    Several,
    /// The versions of each object. The objects rise by id.
    All,
    /// The version on top at this point.
    At(Point),
}

/// What is asked of a history, and how the answer is told.
#[derive(Clone, Copy, Debug, PartialEq, Eq)]
pub struct Inspection {
    pub query: Query,
    pub notation: Notation,
}

/// Reads operation lines to their end, by 1 to 16 workers, and writes what their history answers to
/// a query. The answer is a line for each version of one object or of many, or that of the version
/// on top. Of many objects, one with more than 1,000 versions has a line that says so instead. All is
/// read before the first write.
pub fn inspect_run<T: Threads + Sync, R: Source, W: Sink>(
    rt: &T,
    alloc: Global,
    source: &mut R,
    sink: &mut W,
    inspection: Inspection,
    workers: u8,
) -> Result<(), StudioError>
    requires { (1 ≤ workers) × (workers ≤ 16) }
    // What is written answers the query about the history that the bytes denote.
    ensures tells { OnOk result (IfSome (R.left source.old) (λ bytes.
        WritesAnswer inspection bytes (W.taken sink.old) (W.taken sink.new))) }

    // The same as `fig_run` promises, with an object that the history lacks in place of a drawing.
    ensures source { ReadsInput R.Source source.old source.new result }
    ensures refused { IfErr result (λ e. IfSome (R.left source.old) (λ bytes.
        RefusesAnswer inspection.query bytes e)) }

    // At most a prefix of the text is written, and that only where the sink failed.
    ensures sink { LeavesSink W.Sink (R.left source.old) (AnswersQuery inspection) sink.old
        sink.new result }
{
    run(
        alloc,
        source,
        sink,
        |bytes|
            requires { (1 ≤ workers) × (workers ≤ 16) }
        { answer(rt, alloc, bytes, inspection, workers) },
    )
}

/// The text that answers a query about the history that these bytes denote.
fn answer<T: Threads + Sync>(
    rt: &T,
    alloc: Global,
    bytes: Vec<u8>,
    inspection: Inspection,
    workers: u8,
) -> Result<Answer<()>, StudioError>
    requires { (1 ≤ workers) × (workers ≤ 16) }
    ensures ok { IfOk result (λ told. AnswersQuery inspection bytes.items told.text.items) }
    ensures refused { IfErr result (RefusesAnswer inspection.query bytes.items) }
    ensures between { IfErr result IsBetween }
{
    let replica = read_replica(rt, alloc, bytes, workers)?;
    match tell(alloc, &replica, inspection) {
        Ok(text) => Ok(Answer { text, value: () }),
        Err(e) => Err(e),
    }
}

/// The text that answers a query about the history of a replica.
fn tell(alloc: Global, replica: &Replica, inspection: Inspection) -> Result<Vec<u8>, StudioError>
    ensures ok { IfOk result (λ text.
        Tells inspection.notation replica.now.ops inspection.query text.items) }
    ensures err { IfErr result (RefusesQuery replica.now.ops inspection.query) }
{
    let notation = inspection.notation;
    let told = match inspection.query {
        Query::Object(object) => return tell_versions(alloc, notation, replica, object),
        Query::Several => object_lines(alloc, notation, &Versions::of(replica.indexed()), true),
        Query::All => object_lines(alloc, notation, &Versions::of(replica.indexed()), false),
        Query::At(point) => tell_top(alloc, notation, replica, point),
    };
    match told {
        Ok(text) => Ok(text),
        Err(OutOfMemory) => Err(StudioError::OutOfMemory),
    }
}

/// The lines of the versions of an object.
fn tell_versions(
    alloc: Global,
    notation: Notation,
    replica: &Replica,
    object: ObjectId,
) -> Result<Vec<u8>, StudioError>
    ensures ok { IfOk result (λ text. TellsPresent notation replica.now.ops object text.items) }
    ensures err { IfErr result (RefusesQuery replica.now.ops (Query.Object object)) }
{
    match versions_with(alloc, &Versions::of(replica.indexed()), object) {
        Ok(versions) => match lines(alloc, notation, versions.as_slice()) {
            Ok(text) => Ok(text),
            Err(OutOfMemory) => Err(StudioError::OutOfMemory),
        },
        Err(GroupFault::NoObject) => Err(StudioError::NoObject(object)),
        Err(GroupFault::OutOfMemory) => Err(StudioError::OutOfMemory),
    }
}

/// The line of the version on top at a point.
fn tell_top(
    alloc: Global,
    notation: Notation,
    replica: &Replica,
    point: Point,
) -> Result<Vec<u8>, OutOfMemory>
    ensures { IfOk result (λ text. TellsTop notation replica.now.ops point text.items) }
{
    let name = top_at_with(alloc, &Versions::of(replica.indexed()), point)?;
    top_line(alloc, notation, point, name.as_ref())
}
