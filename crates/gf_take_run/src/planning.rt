//! The changes by which a site comes to show a drawing, made behind its base.

ghost use Rattle.std.specs.Prelude.{◌≡◌, ◌≤◌, ◌++◌, ℕ, IfErr, IfOk, IfSome, List, OnOk, length};
ghost use Rattle.gf_fig_read.specs.FaultLines.{BeginsOn};
ghost use Rattle.gf_fig_read.specs.FigGrammar.{Reads};
ghost use Rattle.gf_fig_read.specs.Objects.{Drawn};
ghost use Rattle.gf_ops.specs.declared.change.Change.{Change};
ghost use Rattle.gf_ops.specs.declared.op.Op.{Op};
ghost use Rattle.gf_versions.specs.Ranking.{AreRanked};
ghost use Rattle.gf_versions.specs.declared.ranking.TheConstants.{MOST_VERSIONS};
ghost use Rattle.gf_take.specs.Taking.{RefusesMaking};
ghost use Rattle.gf_take_run.specs.TakeRun.{BreaksLimit};
ghost use Rattle.gf_take_run.specs.TakenText.{DenotesDrawing};
ghost use Rattle.gf_take_run.specs.TakeSteps.{AreListed, AreListedBehind, IsMaking, RefusesPlan};

use crate::BrokenLimit;
use crate::drawing_error::DrawingError;
use crate::reading::ReadDrawing;
use crate::showing::listed;
use gf_base::OutOfMemory;
use gf_changes::{
    Matching, Target, alterations, arranged, first_beyond, has_change, matched, objects_not_shown,
    showing_again,
};
use gf_fig_faults::located_at;
use gf_fig_read::object_line;
use gf_figures::Drawing;
use gf_groups::{GroupFault, is_made};
use gf_inspect::versions_with;
use gf_kept::KeptSite;
use gf_listing::Versions;
use gf_objects::{object_of, start_fault, start_of};
use gf_ops::{Change, ObjectId, Op};
use gf_shape::{AnyShape, Outline};
use gf_site::AuthorFault;
use gf_table::{Positions, positions_at, push_position};
use gf_take::make_all;
use gf_versions::{MOST_VERSIONS, Placed, Ranked, Version};
use std::alloc::Global;
use std::collections::BTreeMap;

/// A site at work behind its base, with the operations that it made there.
#[derive(Drop)]
pub(crate) struct Making {
    pub(crate) site: KeptSite,
    pub(crate) ops: Vec<Op>,
}

/// Makes the changes by which a site, which shows these versions, is to come to show the drawing.
/// Answers what it then shows, or None where nothing was made. The caller checks that this is the
/// drawing.
pub(crate) fn make_planned(
    alloc: Global,
    making: &mut Making,
    fig: &[u8],
    shown: &[Placed<AnyShape>],
    drawn: &ReadDrawing,
) -> Result<Option<Ranked<AnyShape>>, DrawingError>
    requires ranked { AreRanked making.old.site.ops shown.now }
    requires drawn { DenotesDrawing fig.now drawn.now.drawing drawn.now.knew }
    ensures made { (s : ℕ) (b : List Op) → IsMaking s b making.old
        → IfOk result (λ last. IsMaking s b making.new) }
    ensures listed { IfOk result (AreListedBehind making.old making.new) }
    ensures refused { (s : ℕ) (b : List Op) → IsMaking s b making.old
        → IfErr result (RefusesPlan s b fig.now drawn.now.drawing) }
{
    let restored = restorations(alloc, &making.site, shown, &drawn.targets)?;
    if restored.is_empty() {
        return make_matched(alloc, making, fig, shown, drawn);
    }
    let shown = make_more(alloc, making, restored)?;
    let last = make_matched(alloc, making, fig, &shown.items, drawn)?;
    Ok(Some(last.unwrap_or(shown)))
}

/// Makes the changes by which these versions, which a site shows, become the figures of a drawing.
/// Answers what the site then shows, or None where nothing was made.
fn make_matched(
    alloc: Global,
    making: &mut Making,
    fig: &[u8],
    before: &[Placed<AnyShape>],
    drawn: &ReadDrawing,
) -> Result<Option<Ranked<AnyShape>>, DrawingError>
    requires ranked { AreRanked making.old.site.ops before.now }
    requires drawn { DenotesDrawing fig.now drawn.now.drawing drawn.now.knew }
    ensures made { (s : ℕ) (b : List Op) → IsMaking s b making.old
        → IfOk result (λ last. IsMaking s b making.new) }
    ensures listed { IfOk result (AreListedBehind making.old making.new) }
    ensures refused { (s : ℕ) (b : List Op) → IsMaking s b making.old
        → IfErr result (RefusesPlan s b fig.now drawn.now.drawing) }
{
    let matching = matched(
        alloc,
        making.site.history(),
        before,
        &drawn.targets,
        &drawn.knew,
    )?;
    if let Some(index) = first_beyond(&drawn.targets, &matching) {
        return Err(beyond(alloc, fig, &drawn.drawing, index));
    }
    let altered = alterations(
        alloc,
        making.site.indexed(),
        before,
        &drawn.targets,
        &matching,
    )?;
    if altered.is_empty() {
        return make_arranged(alloc, making, before, before, &drawn.targets, &matching);
    }
    let shown = make_more(alloc, making, altered)?;
    let last = make_arranged(
        alloc,
        making,
        before,
        &shown.items,
        &drawn.targets,
        &matching,
    )?;
    Ok(Some(last.unwrap_or(shown)))
}

/// Makes the changes of layers and the creations of new figures, where the versions that were
/// matched became others. Answers what the site then shows, or None where nothing was made.
fn make_arranged(
    alloc: Global,
    making: &mut Making,
    before: &[Placed<AnyShape>],
    after: &[Placed<AnyShape>],
    targets: &[Target],
    matching: &Matching,
) -> Result<Option<Ranked<AnyShape>>, DrawingError>
    ensures made { (s : ℕ) (b : List Op) → IsMaking s b making.old
        → IfOk result (λ last. IsMaking s b making.new) }
    ensures listed { IfOk result (AreListedBehind making.old making.new) }
    ensures refused { (s : ℕ) (b : List Op) (fig : List ℕ) (d : Drawn) → IsMaking s b making.old
        → IfErr result (RefusesPlan s b fig d) }
{
    let changes = arranged(
        alloc,
        making.site.indexed(),
        before,
        after,
        targets,
        matching,
    )?;
    if changes.is_empty() {
        return Ok(None);
    }
    let shown = make_more(alloc, making, changes)?;
    Ok(Some(shown))
}

/// Makes changes, and answers what the site then shows.
fn make_more(
    alloc: Global,
    making: &mut Making,
    changes: Vec<Change>,
) -> Result<Ranked<AnyShape>, DrawingError>
    ensures made { (s : ℕ) (b : List Op) → IsMaking s b making.old
        → IfOk result (λ shown. IsMaking s b making.new) }
    ensures listed { IfOk result (AreListed making.new.site.ops) }
    ensures refused { (s : ℕ) (b : List Op) (fig : List ℕ) (d : Drawn) → IsMaking s b making.old
        → IfErr result (RefusesPlan s b fig d) }
{
    let more = match make_all(alloc, &mut making.site, changes) {
        Ok(ops) => ops,
        Err(fault) => return Err(refusal(fault)),
    };
    add_all(&mut making.ops, more)?;
    match listed(alloc, &mut making.site)? {
        Some(shown) => Ok(shown),
        None => Err(DrawingError::Differs),
    }
}

/// Puts operations behind others.
fn add_all(ops: &mut Vec<Op>, mut more: Vec<Op>) -> Result<(), OutOfMemory>
    ensures { OnOk result (ops.new.items ≡ ops.old.items ++ more.items) }
{
    ops.append(&mut more)?;
    Ok(())
}

/// Why nothing is taken, where a site refuses a change for this.
fn refusal(fault: AuthorFault) -> DrawingError
    ensures { (s : ℕ) (b : List Op) (changes : List Change) (fig : List ℕ) (d : Drawn)
        → RefusesMaking s b changes fault → RefusesPlan s b fig d result }
{
    match fault {
        AuthorFault::Exhausted => DrawingError::Exhausted,
        AuthorFault::Range | AuthorFault::NoObject => DrawingError::Differs,
        AuthorFault::WrongKind | AuthorFault::BadAim => DrawingError::Differs,
        AuthorFault::OutOfMemory => DrawingError::OutOfMemory,
    }
}

/// Why nothing is taken, where the figure of this index in file order would become what no
/// operation can make.
fn beyond(alloc: Global, fig: &[u8], drawing: &Drawing<Outline>, index: usize) -> DrawingError
    requires reads { Reads fig.now drawing.now }
    requires few { length drawing.now.figures ≤ MOST_VERSIONS }
    ensures { (s : ℕ) (b : List Op) → RefusesPlan s b fig.now drawing.now result }
{
    match broken_at(alloc, fig, drawing, index) {
        Ok(Some(broken)) => DrawingError::Figure(broken),
        Ok(None) => DrawingError::Differs,
        Err(OutOfMemory) => DrawingError::OutOfMemory,
    }
}

/// The limit that the figure of this index in file order breaks, if it breaks one.
fn broken_at(
    alloc: Global,
    fig: &[u8],
    drawing: &Drawing<Outline>,
    index: usize,
) -> Result<Option<BrokenLimit>, OutOfMemory>
    requires reads { Reads fig.now drawing.now }
    requires few { length drawing.now.figures ≤ MOST_VERSIONS }
    ensures { IfOk result (λ broken. IfSome broken (λ b.
        BreaksLimit b.object b.fault drawing.now × BeginsOn fig.now b.object b.line)) }
{
    let Some(figure) = drawing.figures().get(index) else {
        return Ok(None);
    };
    let start = start_of(alloc, drawing, figure)?;
    let Some(fault) = start_fault(&start) else {
        return Ok(None);
    };
    let object = object_of(drawing, index);
    match object_line(alloc, fig, object)? {
        Some(line) => Ok(Some(BrokenLimit {
            line,
            object,
            fault,
            located: located_at(fig, line),
        })),
        None => Ok(None),
    }
}

/// The changes that show hidden versions again, each of which a figure names and looks like.
fn restorations(
    alloc: Global,
    base: &KeptSite,
    shown: &[Placed<AnyShape>],
    targets: &[Target],
) -> Result<Vec<Change>, OutOfMemory> {
    let wanted = objects_not_shown(alloc, shown, targets)?;
    let figures = figures_of(alloc, &wanted)?;
    let mut changes = Vec::new(alloc);
    for (index, object) in wanted.iter().enumerate() {
        if let Some(object) = *object {
            let of_object = positions_at(&figures, object);
            if of_object.first() == Some(&index) {
                let mut more = restored(alloc, base, object, targets, of_object)?;
                changes.append(&mut more)?;
            }
        }
    }
    Ok(changes)
}

/// For each object the indices of the figures that want it.
fn figures_of(
    alloc: Global,
    wanted: &[Option<ObjectId>],
) -> Result<BTreeMap<ObjectId, Positions>, OutOfMemory> {
    let mut figures = BTreeMap::new(alloc);
    for (index, object) in wanted.iter().enumerate() {
        if let Some(object) = *object {
            push_position(alloc, &mut figures, object, index)?;
        }
    }
    Ok(figures)
}

/// The changes that show versions of an object again, where figures at these indices look like
/// them. An object of more versions than a drawing has stays hidden.
fn restored(
    alloc: Global,
    base: &KeptSite,
    object: ObjectId,
    targets: &[Target],
    figures: &[usize],
) -> Result<Vec<Change>, OutOfMemory> {
    let mut changes = Vec::new(alloc);
    if !is_made(base.history(), object) {
        return Ok(changes);
    }
    if MOST_VERSIONS < Versions::of(base.indexed()).count(alloc, object)? {
        return Ok(changes);
    }
    let versions = match versions_with(alloc, &Versions::of(base.indexed()), object) {
        Ok(versions) => versions,
        Err(GroupFault::NoObject) => return Ok(changes),
        Err(GroupFault::OutOfMemory) => return Err(OutOfMemory),
    };
    for index in figures {
        if let Some(figure) = targets.get(*index) {
            show_again(alloc, base, &versions, figure, &mut changes)?;
        }
    }
    Ok(changes)
}

/// Adds the change that shows one of these versions again, where one looks like the figure and is
/// not shown again already.
fn show_again(
    alloc: Global,
    base: &KeptSite,
    versions: &[Version],
    figure: &Target,
    changes: &mut Vec<Change>,
) -> Result<(), OutOfMemory> {
    if let Some(change) = showing_again(alloc, base.indexed(), versions, figure)? {
        if !has_change(changes, &change) {
            changes.push(change)?;
        }
    }
    Ok(())
}
