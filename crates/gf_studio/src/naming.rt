//! The run from operation lines to a FIG text whose figures are named.

ghost use Rattle.std.specs.Prelude.{◌≡◌, ◌≤◌, IfSome, IfOk, IfErr, OnOk, length};
ghost use Rattle.gf_fig_named.specs.NamedText.{IsNamedText};
ghost use Rattle.gf_kept.specs.Keeping.{Keeps};
ghost use Rattle.gf_versions.specs.Ranking.{AreRanked};
ghost use Rattle.gf_fig_named.specs.ThinPolygons.{AreThinOf};
ghost use Rattle.gf_studio.specs.FigRun.{Exports, HasThin, HoldsBack, IsNamedOf};
ghost use Rattle.gf_studio.specs.FigRun.{RefusesHistory, WritesNamed};
ghost use Rattle.gf_run.specs.RefusedRuns.{IsBetween};
ghost use Rattle.gf_studio.specs.RefusedRuns.{RefusesLines};
ghost use Rattle.gf_run.specs.RunAnswers.{LeavesSink, ReadsInput};

use crate::drawings::listed;
use gf_drawing::CompileFault;
use gf_fig_named::{named_bytes, thin_polygons};
use gf_kept::KeptVersions;
use gf_listing::Versions;
use gf_ops::ObjectId;
use gf_replay::read_replica;
use gf_run::{Answer, StudioError, run};
use gf_shape::AnyShape;
use gf_site::Replica;
use gf_streams::{Sink, Source};
use gf_versions::{MOST_VERSIONS, Ranked};
use std::alloc::Global;
use std::thread::Threads;

/// What is told of a named text.
#[derive(Drop)]
pub struct NamedRun {
    /// How many operations wait, and are not drawn.
    pub waiting: usize,
    /// The objects of polygons that xfig does not keep, one for each visible version.
    pub thin: Vec<ObjectId>,
}

/// Reads operation lines to their end, by 1 to 16 workers, and writes the FIG text of their
/// history's drawing, each figure behind a comment that names it. The answer tells what the text
/// leaves out, and what xfig will. All is read before the first write.
#[tactic(auto, using(crate::proofs::ExportLemmas::named_exported))]
pub fn named_fig_run<T: Threads + Sync, R: Source, W: Sink>(
    rt: &T,
    alloc: Global,
    source: &mut R,
    sink: &mut W,
    workers: u8,
) -> Result<NamedRun, StudioError>
    requires { (1 ≤ workers) × (workers ≤ 16) }
    // By the FIG grammar, what is written reads as a drawing. At every grid point this has the
    // colour that the denoted history means there. To the byte, the text is the named one of that
    // history.
    ensures exports { OnOk result (IfSome (R.left source.old) (λ bytes.
        Exports bytes (W.taken sink.old) (W.taken sink.new))) }
    ensures text { OnOk result (IfSome (R.left source.old) (λ bytes.
        WritesNamed bytes (W.taken sink.old) (W.taken sink.new))) }
    // The answer tells how many operations wait behind that history, and which of its polygons xfig
    // does not keep.
    ensures waiting { IfOk result (λ run. IfSome (R.left source.old) (λ bytes.
        HoldsBack bytes run.waiting)) }
    ensures thin { IfOk result (λ run. IfSome (R.left source.old) (λ bytes.
        HasThin bytes run.thin.items)) }

    // The same as `fig_run` promises.
    ensures source { ReadsInput R.Source source.old source.new result }
    ensures refused { IfErr result (λ e. IfSome (R.left source.old) (λ bytes.
        RefusesLines bytes e)) }

    // At most a prefix of the text is written, and that only where the sink failed.
    ensures sink { LeavesSink W.Sink (R.left source.old) IsNamedOf sink.old sink.new result }
{
    run(
        alloc,
        source,
        sink,
        |bytes|
            requires { (1 ≤ workers) × (workers ≤ 16) }
        { name(rt, alloc, bytes, workers) },
    )
}

/// The named text of the history that these bytes denote, and what is told of it.
fn name<T: Threads + Sync>(
    rt: &T,
    alloc: Global,
    bytes: Vec<u8>,
    workers: u8,
) -> Result<Answer<NamedRun>, StudioError>
    requires { (1 ≤ workers) × (workers ≤ 16) }
    ensures ok { IfOk result (λ named. IsNamedOf bytes.items named.text.items) }
    ensures waiting { IfOk result (λ named. HoldsBack bytes.items named.value.waiting) }
    ensures thin { IfOk result (λ named. HasThin bytes.items named.value.thin.items) }
    ensures refused { IfErr result (RefusesLines bytes.items) }
    ensures between { IfErr result IsBetween }
{
    let replica = read_replica(rt, alloc, bytes, workers)?;
    let mut kept = KeptVersions::new(alloc);
    let named = named_of_replica(alloc, &replica, &mut kept)?;
    Ok(named)
}

/// The named text of a replica's history, and what is told of it. What is kept of that history
/// grows by what was found.
pub fn named_of_replica(
    alloc: Global,
    replica: &Replica,
    kept: &mut KeptVersions,
) -> Result<Answer<NamedRun>, CompileFault>
    requires { Keeps replica.now.ops kept.old }
    ensures keeps { Keeps replica.now.ops kept.new }
    ensures ok { IfOk result (λ named. IsNamedText replica.now.ops named.text.items) }
    ensures waiting { IfOk result (λ named. named.value.waiting ≡ length replica.now.held) }
    ensures thin { IfOk result (λ named. AreThinOf replica.now.ops named.value.thin.items) }
    ensures err { IfErr result (RefusesHistory replica.now.ops) }
{
    let ranked = ranked_kept(alloc, replica, kept)?;
    let thin = thin_polygons(alloc, &ranked.items)?;
    let text = named_bytes(alloc, replica.history(), ranked)?;
    let waiting = replica.held();
    Ok(Answer {
        text,
        value: NamedRun { waiting, thin },
    })
}

/// The visible versions of a replica's history, topmost first, by what is kept of it.
fn ranked_kept(
    alloc: Global,
    replica: &Replica,
    kept: &mut KeptVersions,
) -> Result<Ranked<AnyShape>, CompileFault>
    requires { Keeps replica.now.ops kept.old }
    ensures keeps { Keeps replica.now.ops kept.new }
    ensures ranked { IfOk result (λ ranked. AreRanked replica.now.ops ranked.items.items) }
    ensures err { IfErr result (RefusesHistory replica.now.ops) }
{
    let versions = Versions::of(replica.indexed());
    listed(kept.ranked_within(alloc, &versions, MOST_VERSIONS))
}
