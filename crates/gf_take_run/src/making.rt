//! What a site makes behind the base of a drawing.

ghost use Rattle.std.specs.Prelude.{◌≡◌, ◌≤◌, [], IfErr, IfNone, IfOk, IfSome, unwrap_or};
ghost use Rattle.gf_ops.specs.OperationOrder.{count_of};
ghost use Rattle.gf_fig_named.specs.NamedFigures.{AreNamed};
ghost use Rattle.gf_take_run.specs.LeavingSteps.{AreNamesAt};
ghost use Rattle.gf_take_run.specs.TakenText.{DenotesDrawing};
ghost use Rattle.gf_take_run.specs.declared.making.MadeFrom.{MadeFrom};
ghost use Rattle.gf_take_run.specs.TakeSteps.{AreListed, IsBeyondMost, MakesFrom, MakesOther};
ghost use Rattle.gf_take_run.specs.TakeSteps.{RefusesBase, RefusesPlan};

use crate::drawing_error::DrawingError;
use crate::leaving::leave_standing;
use crate::planning::{Making, make_planned};
use crate::reading::ReadDrawing;
use crate::showing::{Shown, are_on_shown, shown_by};
use gf_fig_named::{Places, names_of};
use gf_kept::KeptSite;
use gf_ops::{ObjectId, Op, OpId};
use gf_shape::AnyShape;
use gf_take::{looks_like, shows};
use gf_versions::Ranked;
use std::alloc::Global;

/// A site with the operations that it made, what it shows with them, and the polygons of its base
/// that xfig does not keep.
#[derive(Drop)]
pub(crate) struct MadeFrom {
    pub(crate) site: KeptSite,
    pub(crate) ops: Vec<Op>,
    pub(crate) shown: Ranked<AnyShape>,
    pub(crate) thin: Vec<ObjectId>,
}

/// What a site makes of a drawing behind its base: nothing where it looks like the drawing. Else
/// the base has at most so many operations of the site.
pub(crate) fn make_from(
    alloc: Global,
    mut base: KeptSite,
    fig: &[u8],
    drawn: &ReadDrawing,
    after: Option<u32>,
) -> Result<MadeFrom, DrawingError>
    requires drawn { DenotesDrawing fig.now drawn.now.drawing drawn.now.knew }
    requires named { AreNamed fig.now drawn.now.drawing drawn.now.names.items }
    requires places { AreNamesAt drawn.now.names.items drawn.now.places.entries }
    ensures ok { IfOk result (MakesFrom base.number after base.ops fig.now drawn.now.drawing) }
    ensures refused { IfErr result
        (RefusesBase base.number after base.ops fig.now drawn.now.drawing) }
{
    base.recall_history();
    let shown = shown_by(alloc, &mut base)?;
    if looks_like(alloc, &shown.versions.items, &drawn.drawing)? {
        return Ok(MadeFrom {
            site: base,
            ops: Vec::new(alloc),
            shown: shown.versions,
            thin: shown.thin,
        });
    }
    if let Some(last) = beyond(&base, after) {
        return Err(DrawingError::Behind(last));
    }
    make_other(alloc, base, shown, fig, drawn)
}

/// What a site makes of a drawing that its base does not look like.
fn make_other(
    alloc: Global,
    base: KeptSite,
    shown: Shown,
    fig: &[u8],
    drawn: &ReadDrawing,
) -> Result<MadeFrom, DrawingError>
    requires listed { AreListed base.ops shown.versions }
    requires drawn { DenotesDrawing fig.now drawn.now.drawing drawn.now.knew }
    requires named { AreNamed fig.now drawn.now.drawing drawn.now.names.items }
    requires places { AreNamesAt drawn.now.names.items drawn.now.places.entries }
    ensures ok { IfOk result (MakesOther base.number base.ops fig.now drawn.now.drawing) }
    ensures thin { IfOk result (λ made. made.thin ≡ shown.thin) }
    ensures refused { IfErr result
        (RefusesPlan base.number base.ops fig.now drawn.now.drawing) }
{
    let mut making = Making {
        site: base,
        ops: Vec::new(alloc),
    };
    let last = make_shown(alloc, &mut making, &shown.versions, fig, drawn)?;
    let Making { site, ops } = making;
    Ok(MadeFrom {
        site,
        ops,
        shown: last.unwrap_or(shown.versions),
        thin: shown.thin,
    })
}

/// Makes what becomes a drawing, behind a base that shows these versions. Answers what the site
/// then shows, or None where nothing was made.
fn make_shown(
    alloc: Global,
    making: &mut Making,
    shown: &Ranked<AnyShape>,
    fig: &[u8],
    drawn: &ReadDrawing,
) -> Result<Option<Ranked<AnyShape>>, DrawingError>
    requires none { making.old.ops.items ≡ [] }
    requires listed { AreListed making.old.site.ops shown.now }
    requires drawn { DenotesDrawing fig.now drawn.now.drawing drawn.now.knew }
    requires named { AreNamed fig.now drawn.now.drawing drawn.now.names.items }
    requires places { AreNamesAt drawn.now.names.items drawn.now.places.entries }
    ensures ok { IfOk result (λ last. (made : MadeFrom) → made.site ≡ making.new.site
        → made.ops.items ≡ making.new.ops.items → made.shown ≡ unwrap_or last shown.now
        → MakesOther making.old.site.number making.old.site.ops fig.now drawn.now.drawing made) }
    ensures refused { IfErr result
        (RefusesPlan making.old.site.number making.old.site.ops fig.now drawn.now.drawing) }
{
    let names = names_of(alloc, making.site.history(), &shown.items)?;
    let places = Places::of(alloc, &shown.items)?;
    let last = make_planned(alloc, making, fig, &shown.items, drawn)?;
    if !are_on_shown(alloc, fig, &drawn.names, &making.ops, &shown.items, &places)? {
        return Err(DrawingError::Differs);
    }
    if !leave_standing(alloc, &shown.items, &places, &names, drawn, &making.ops)? {
        return Err(DrawingError::Differs);
    }
    if !shows(alloc, &shown_last(&last, shown).items, &drawn.drawing)? {
        return Err(DrawingError::Differs);
    }
    making.site.recall_history();
    Ok(last)
}

/// What was listed last, or at first.
fn shown_last<'a>(
    last: &'a Option<Ranked<AnyShape>>,
    first: &'a Ranked<AnyShape>,
) -> &'a Ranked<AnyShape>
    ensures { result.now ≡ unwrap_or last.now first.now }
{
    match last {
        Some(last) => last,
        None => first,
    }
}

/// The last operation of a site, where there are more than so many.
fn beyond(base: &KeptSite, after: Option<u32>) -> Option<OpId>
    ensures some { IfSome result (IsBeyondMost base.now.number after base.now.ops) }
    ensures none { IfNone result
        (IfSome after (λ n. count_of base.now.ops base.now.number ≤ n)) }
{
    let most = after?;
    let site = base.number();
    let seq = base.history().count(site);
    if most < seq {
        Some(OpId { site, seq })
    } else {
        None
    }
}
