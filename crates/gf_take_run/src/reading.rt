//! The operation lines and the drawing that a take reads.

ghost use Rattle.std.specs.Prelude.{◌≡◌, ◌≤◌, ℕ, List, IfErr, IfOk, IfSome};
ghost use Rattle.gf_fig_named.specs.NamedFigures.{AreNamed};
ghost use Rattle.gf_ops.specs.declared.op.Op.{Op};
ghost use Rattle.gf_ops.specs.OperationOrder.{IsSite};
ghost use Rattle.gf_run.specs.RefusedRuns.{IsBetween};
ghost use Rattle.gf_replay.specs.Behind.{Divides};
ghost use Rattle.gf_take.specs.Bases.{AreRead};
ghost use Rattle.gf_site.specs.SiteState.{at_site};
ghost use Rattle.gf_take_run.specs.TakenText.{DenotesDrawing, DenotesLines};
ghost use Rattle.gf_take_run.specs.TakeRun.{RefusesFigText, RefusesParts, of_take};
ghost use Rattle.gf_take_run.specs.LeavingSteps.{AreNamesAt};
ghost use Rattle.gf_take_run.specs.declared.request.TakeRequest.{TakeRequest};

use crate::{TakeRequest, TakeRunError};
use gf_base::OutOfMemory;
use gf_changes::{Target, targets};
use gf_edit::{EditError, check_waiting};
use gf_fig_faults::drawing_faults;
use gf_fig_named::{Named, read_names};
use gf_fig_read::read_fig;
use gf_figures::Drawing;
use gf_objects::{start_fault, start_of};
use gf_ops::{Clock, ObjectId};
use gf_replay::read_replica;
use gf_run::StudioError;
use gf_shape::Outline;
use gf_site::{Replica, Site};
use gf_table::{Positions, push_position};
use gf_versions::MOST_VERSIONS;
use std::alloc::Global;
use std::collections::BTreeMap;
use std::thread::Threads;

/// The site that has the operations of these lines, where nothing that waits blocks it.
pub(crate) fn read_lines<T: Threads + Sync>(
    rt: &T,
    alloc: Global,
    lines: Vec<u8>,
    request: TakeRequest,
    workers: u8,
) -> Result<Site, TakeRunError>
    requires site { IsSite request.site }
    requires workers { (1 ≤ workers) × (workers ≤ 16) }
    ensures ok { IfOk result (λ x. DenotesLines request.site lines.items x.ops) }
    ensures number { IfOk result (λ x. x.number ≡ request.site) }
    ensures refused { (fig : List ℕ) → IfErr result (RefusesParts request lines.items fig) }
    ensures between { IfErr result (λ e. IfSome (of_take e) IsBetween) }
{
    let replica = match read_replica(rt, alloc, lines, workers) {
        Ok(replica) => replica,
        Err(fault) => return Err(TakeRunError::Run(StudioError::from(fault))),
    };
    site_of(alloc, replica, request.site)
}

/// The site that has what a replica has, where nothing that waits there blocks it.
pub(crate) fn site_of(alloc: Global, replica: Replica, number: u8) -> Result<Site, TakeRunError>
    requires site { IsSite number }
    ensures ok { (known : List Op) → Divides known replica.ops replica.held
        → IfOk result (λ x. AreRead number known x.ops) }
    ensures same { IfOk result (λ x. x ≡ at_site number replica) }
    ensures refused { (q : TakeRequest) (known : List Op) (fig : List ℕ) → q.site ≡ number
        → Divides known replica.ops replica.held → IfErr result (RefusesFigText q known fig) }
    ensures between { IfErr result (λ e. IfSome (of_take e) IsBetween) }
{
    replica.recall_state();
    let site = Site::with_replica(alloc, number, replica);
    match check_waiting(alloc, &site) {
        Ok(()) => Ok(site),
        Err(EditError::Waits(id, other)) => Err(TakeRunError::Waits(id, other)),
        Err(EditError::Run(fault)) => Err(TakeRunError::Run(fault)),
        Err(EditError::Refused(..)) => unreachable!(),
        Err(EditError::NoVersion(_)) => unreachable!(),
    }
}

/// A drawing, its figures from the front to the back, and what it knew.
#[derive(Drop)]
pub(crate) struct ReadDrawing {
    pub(crate) drawing: Drawing<Outline>,
    /// What the comments above each figure name, in file order.
    pub(crate) names: Vec<Option<Named>>,
    /// For each object the indices of the names of its figures.
    pub(crate) places: BTreeMap<ObjectId, Positions>,
    pub(crate) targets: Vec<Target>,
    pub(crate) knew: Clock,
}

/// The drawing that a FIG text reads as, with the names of its figures.
pub(crate) fn read_drawing(alloc: Global, fig: &[u8]) -> Result<ReadDrawing, TakeRunError>
    ensures ok { IfOk result (λ read. DenotesDrawing fig.now read.drawing read.knew) }
    ensures named { IfOk result (λ read. AreNamed fig.now read.drawing read.names.items) }
    ensures places { IfOk result (λ read. AreNamesAt read.names.items read.places.entries) }
    ensures refused { (q : TakeRequest) (known h : List Op) → AreRead q.site known h
        → IfErr result (RefusesFigText q known fig.now) }
    ensures between { IfErr result (λ e. IfSome (of_take e) IsBetween) }
{
    let drawing = match read_fig(alloc, fig) {
        Ok(drawing) => drawing,
        Err(_) => return Err(fig_refusal(alloc, fig)),
    };
    if MOST_VERSIONS < drawing.figures().len() {
        return Err(TakeRunError::TooManyFigures);
    }
    let names = read_names(alloc, fig)?;
    let Some(knew) = names.known else {
        return Err(TakeRunError::Unnamed);
    };
    let targets = targets_of(alloc, &drawing, &names.figures)?;
    let places = places_of(alloc, &names.figures)?;
    Ok(ReadDrawing {
        drawing,
        names: names.figures,
        places,
        targets,
        knew,
    })
}

/// For each object the indices of the names of its figures.
fn places_of(
    alloc: Global,
    names: &[Option<Named>],
) -> Result<BTreeMap<ObjectId, Positions>, OutOfMemory>
    ensures { IfOk result (λ places. AreNamesAt names.now places.entries) }
{
    let mut places = BTreeMap::new(alloc);
    for (index, name) in names.iter().enumerate() {
        if let Some(named) = name {
            push_position(alloc, &mut places, named.name.object, index)?;
        }
    }
    Ok(places)
}

/// The figures of a drawing from the front to the back, with these names in file order.
fn targets_of(
    alloc: Global,
    drawing: &Drawing<Outline>,
    names: &[Option<Named>],
) -> Result<Vec<Target>, OutOfMemory> {
    let mut starts = Vec::with_capacity(alloc, drawing.figures().len())?;
    for figure in drawing.figures() {
        let start = start_of(alloc, drawing, figure)?;
        let is_within = start_fault(&start).is_none();
        starts.push((start, is_within))?;
    }
    targets(alloc, drawing, starts, names)
}

/// Why a FIG text that can't be read is not taken.
fn fig_refusal(alloc: Global, fig: &[u8]) -> TakeRunError
    ensures refused { (q : TakeRequest) (known h : List Op) → AreRead q.site known h
        → RefusesFigText q known fig.now result }
    ensures between { IfSome (of_take result) IsBetween }
{
    match drawing_faults(alloc, fig) {
        // A text without faults can be read, so memory was refused.
        Ok(faults) if faults.as_slice().is_empty() => TakeRunError::from(OutOfMemory),
        Ok(faults) => TakeRunError::Fig(faults),
        Err(OutOfMemory) => TakeRunError::from(OutOfMemory),
    }
}
