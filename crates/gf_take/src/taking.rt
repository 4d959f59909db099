//! What a site makes of changes, and whether it then shows a drawing.

ghost use Rattle.std.specs.Prelude.{◌≡◌, true, false, All, IfOk, IfErr, List, OnOk};
ghost use Rattle.gf_ops.specs.declared.op.Op.{Op};
ghost use Rattle.gf_ops.specs.ValidHistory.{IsValid};
ghost use Rattle.gf_versions.specs.Ranking.{AreRanked};
ghost use Rattle.gf_shape.specs.ShapeLaws.{IsLawful};
ghost use Rattle.gf_drawing.specs.CanonicalDrawing.{PaintsAsFig};
ghost use Rattle.gf_take.specs.ShownDrawing.{LooksLike, ShowsDrawing, look_at, look_of};
ghost use Rattle.gf_take.specs.Taking.{HasMade, RefusesMaking};
ghost use Rattle.gf_take.specs.TakingSteps.{MakesOne, RefusesOne};

use crate::matching::{is_like, look_alike, show_figures};
use gf_base::OutOfMemory;
use gf_figures::{Drawing, Figure};
use gf_kept::KeptSite;
use gf_ops::{Change, Op};
use gf_shape::{AnyShape, Outline};
use gf_site::AuthorFault;
use gf_versions::Placed;
use std::alloc::Global;

/// Makes changes one after the other behind the history of a site, and answers the operations. A
/// refusal leaves the site with what was made.
pub fn make_all(
    alloc: Global,
    site: &mut KeptSite,
    changes: Vec<Change>,
) -> Result<Vec<Op>, AuthorFault>
    ensures ok { IfOk result (λ ops.
        HasMade site.old.number site.old.ops changes.items site.new ops.items) }
    ensures err { IfErr result (RefusesMaking site.old.number site.old.ops changes.items) }
{
    let mut ops = Vec::new(alloc);
    for change in changes {
        make(site, &mut ops, change)?;
    }
    Ok(ops)
}

/// Makes a change, and appends its operation.
fn make(site: &mut KeptSite, ops: &mut Vec<Op>, change: Change) -> Result<(), AuthorFault>
    ensures ok { OnOk result (MakesOne change site.old site.new ops.old.items ops.new.items) }
    ensures err { IfErr result (RefusesOne change site.old) }
{
    match site.author(change) {
        Ok(op) => match ops.push(op) {
            Ok(()) => Ok(()),
            Err(_) => Err(AuthorFault::OutOfMemory),
        },
        Err(fault) => Err(fault),
    }
}

/// Whether the visible versions of a history look like the figures of a drawing, one like the
/// other.
pub fn looks_like(
    alloc: Global,
    items: &[Placed<AnyShape>],
    drawing: &Drawing<Outline>,
) -> Result<bool, OutOfMemory>
    ensures alike { (h : List Op) → IsValid h → AreRanked h items.now
        → IfOk result (λ alike. alike ≡ true → LooksLike h drawing.now) }
    ensures other { (h : List Op) → AreRanked h items.now
        → All (λ f. IsLawful f.shape) drawing.now.figures
        → IfOk result (λ alike. alike ≡ false → ¬ (LooksLike h drawing.now)) }
{
    Ok(look_alike(alloc, items, drawing)?)
}

/// Whether a version looks like a figure of a drawing: the answer is yes where it does.
pub fn version_looks_like(
    alloc: Global,
    item: &Placed<AnyShape>,
    drawing: &Drawing<Outline>,
    figure: &Figure<Outline>,
) -> Result<bool, OutOfMemory>
    ensures { IsLawful figure.now.shape → look_of drawing.now.table figure.now ≡ look_at item.now
        → IfOk result (λ like. like ≡ true) }
{
    Ok(is_like(alloc, item, drawing, figure)?)
}

/// Whether the visible versions of a history show a drawing.
pub fn shows(
    alloc: Global,
    items: &[Placed<AnyShape>],
    drawing: &Drawing<Outline>,
) -> Result<bool, OutOfMemory>
    ensures shows { (h : List Op) → IsValid h → AreRanked h items.now
        → IfOk result (λ shown. shown ≡ true → ShowsDrawing h drawing.now) }
    ensures paints { (h : List Op) → IsValid h → AreRanked h items.now
        → IfOk result (λ shown. shown ≡ true → PaintsAsFig h drawing.now) }
    ensures other { (h : List Op) → AreRanked h items.now
        → All (λ f. IsLawful f.shape) drawing.now.figures
        → IfOk result (λ shown. shown ≡ false → ¬ (ShowsDrawing h drawing.now)) }
{
    Ok(show_figures(alloc, items, drawing)?)
}
