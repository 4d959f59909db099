//! From the bytes of a source to a drawing.

ghost use Rattle.std.specs.Prelude.{◌≡◌, ◌≢◌, ◌≤◌, IfSome, IfOk, IfErr};
ghost use Rattle.gf_shape.specs.ShapeMeaning.{any_holds};
ghost use Rattle.gf_figures.specs.DrawingColour.{drawing_colour};
ghost use Rattle.gf_fig_read.specs.FigGrammar.{Reads};
ghost use Rattle.gf_versions.specs.Ranking.{AreRanked};
ghost use Rattle.gf_studio.specs.FigRun.{Draws, HoldsBack, IsDrawn, RefusesHistory};
ghost use Rattle.gf_studio.specs.Refusals.{of_ranked};
ghost use Rattle.gf_run.specs.RefusedRuns.{IsBetween};
ghost use Rattle.gf_run.specs.RefusedRuns.{RefusesFig};
ghost use Rattle.gf_studio.specs.RefusedRuns.{RefusesLines};
ghost use Rattle.gf_studio.specs.PaintRun.{IsMeant};
ghost use Rattle.gf_run.specs.RunAnswers.{ReadsInput};

use gf_base::OutOfMemory;
use gf_drawing::{CompileFault, compile};
use gf_fig_read::read_fig;
use gf_figures::Drawing;
use gf_listing::Versions;
use gf_replay::read_replica;
use gf_run::{StudioError, input};
use gf_shape::{AnyShape, Outline};
use gf_site::Replica;
use gf_streams::Source;
use gf_versions::{MOST_VERSIONS, Ranked};
use gf_visible::ranked_within;
use std::alloc::Global;
use std::thread::Threads;

/// A drawing of lines, and what it leaves out.
#[derive(Drop)]
pub struct DrawnLines {
    pub drawing: Drawing<AnyShape>,
    /// How many operations wait, and are not drawn.
    pub waiting: usize,
}

/// The drawing of the history that the lines of a source denote, read by 1 to 16 workers, and how
/// many operations wait behind this history.
pub fn drawing_of_lines<T: Threads + Sync, R: Source>(
    rt: &T,
    alloc: Global,
    source: &mut R,
    workers: u8,
) -> Result<DrawnLines, StudioError>
    requires { (1 ≤ workers) × (workers ≤ 16) }
    ensures ok { IfOk result (λ drawn. IfSome (R.left source.old) (λ bytes.
        Draws bytes drawn.drawing)) }
    ensures meant { IfOk result (λ drawn. IfSome (R.left source.old) (λ bytes.
        IsMeant bytes (drawing_colour any_holds drawn.drawing.table drawn.drawing.figures))) }
    ensures waiting { IfOk result (λ drawn. IfSome (R.left source.old) (λ bytes.
        HoldsBack bytes drawn.waiting)) }
    ensures source { ReadsInput R.Source source.old source.new result }
    ensures refused { IfErr result (λ e. IfSome (R.left source.old) (λ bytes.
        RefusesLines bytes e)) }
    ensures no_write { IfErr result (λ e. e ≢ StudioError.WriteFailed) }
{
    let bytes = input(alloc, source)?;
    draw(rt, alloc, bytes, workers)
}

/// The drawing that the FIG text of a source reads as.
pub fn drawing_of_fig<R: Source>(
    alloc: Global,
    source: &mut R,
) -> Result<Drawing<Outline>, StudioError>
    ensures ok { IfOk result (λ drawing. IfSome (R.left source.old) (λ text. Reads text drawing)) }
    ensures source { ReadsInput R.Source source.old source.new result }
    ensures refused { IfErr result (λ e. IfSome (R.left source.old) (λ text. RefusesFig text e)) }
    ensures no_write { IfErr result (λ e. e ≢ StudioError.WriteFailed) }
{
    let text = input(alloc, source)?;
    outlines(alloc, &text)
}

/// The drawing of the history that these bytes denote, and how many operations wait behind it.
pub(crate) fn draw<T: Threads + Sync>(
    rt: &T,
    alloc: Global,
    bytes: Vec<u8>,
    workers: u8,
) -> Result<DrawnLines, StudioError>
    requires { (1 ≤ workers) × (workers ≤ 16) }
    ensures ok { IfOk result (λ drawn. Draws bytes.items drawn.drawing) }
    ensures waiting { IfOk result (λ drawn. HoldsBack bytes.items drawn.waiting) }
    ensures refused { IfErr result (RefusesLines bytes.items) }
    ensures between { IfErr result IsBetween }
{
    let replica = read_replica(rt, alloc, bytes, workers)?;
    let drawing = draw_replica(alloc, &replica)?;
    let waiting = replica.held();
    Ok(DrawnLines { drawing, waiting })
}

/// The drawing of a replica's history.
pub fn draw_replica(alloc: Global, replica: &Replica) -> Result<Drawing<AnyShape>, CompileFault>
    ensures ok { IfOk result (λ drawing. IsDrawn replica.now.ops drawing) }
    ensures err { IfErr result (RefusesHistory replica.now.ops) }
{
    let ranked = ranked_replica(alloc, replica)?;
    compile(alloc, ranked)
}

/// The visible versions of a replica's history, if they are no more than a drawing has.
fn ranked_replica(alloc: Global, replica: &Replica) -> Result<Ranked<AnyShape>, CompileFault>
    ensures ranked { IfOk result (λ ranked. AreRanked replica.now.ops ranked.items.items) }
    ensures err { IfErr result (RefusesHistory replica.now.ops) }
{
    listed(ranked_within(alloc, &Versions::of(replica.indexed()), MOST_VERSIONS))
}

/// The list that was made, or why there is none.
pub(crate) fn listed(
    found: Result<Option<Ranked<AnyShape>>, OutOfMemory>,
) -> Result<Ranked<AnyShape>, CompileFault>
    ensures { result ≡ of_ranked found }
{
    match found {
        Ok(Some(ranked)) => Ok(ranked),
        Ok(None) => Err(CompileFault::TooManyVersions),
        Err(OutOfMemory) => Err(CompileFault::OutOfMemory),
    }
}

/// The drawing that this text reads as.
fn outlines(alloc: Global, text: &[u8]) -> Result<Drawing<Outline>, StudioError>
    ensures ok { IfOk result (λ drawing. Reads text.now drawing) }
    ensures refused { IfErr result (RefusesFig text.now) }
    ensures between { IfErr result IsBetween }
{
    let drawing = read_fig(alloc, text)?;
    Ok(drawing)
}
