//! What a site makes behind the base of a drawing, and the named text of all operations with it.

ghost use Rattle.std.specs.Prelude.{◌≡◌, ◌++◌, Contains, IfErr, IfOk};
ghost use Rattle.gf_fig_named.specs.NamedFigures.{AreNamed};
ghost use Rattle.gf_kept.specs.Keeping.{Keeps};
ghost use Rattle.gf_kept.specs.SameOn.{HaveSameBut};
ghost use Rattle.gf_ops.specs.Accepted.{AreAccepted};
ghost use Rattle.gf_ops.specs.Limits.{IsInRange};
ghost use Rattle.gf_ops.specs.OperationOrder.{IsSite};
ghost use Rattle.gf_ops.specs.declared.op.Op.{Op};
ghost use Rattle.gf_take_run.specs.ShownText.{IsShownText, IsTextOf};
ghost use Rattle.gf_take_run.specs.LeavingSteps.{AreNamesAt};
ghost use Rattle.gf_take_run.specs.TakenText.{DenotesDrawing};
ghost use Rattle.gf_take_run.specs.TakeSteps.{AreListed, MakesBehind, RefusesBehind};

use crate::TakeRequest;
use crate::drawing_error::DrawingError;
use crate::making::{MadeFrom, make_from};
use crate::reading::ReadDrawing;
use crate::showing::listed;
use gf_base::OutOfMemory;
use gf_drawing::CompileFault;
use gf_fig_named::named_bytes;
use gf_kept::{KeptSite, KeptVersions};
use gf_ops::{History, ObjectId, Op};
use gf_shape::AnyShape;
use gf_site::Site;
use gf_take::{base_site, is_whole_base};
use gf_versions::Ranked;
use std::alloc::Global;

/// The operations that a site made behind its base, the site with these, the polygons of the base
/// that xfig does not keep, and the named text of all operations, where it was asked for.
#[derive(Drop)]
pub(crate) struct MadeBehind {
    pub(crate) ops: Vec<Op>,
    pub(crate) site: KeptSite,
    pub(crate) thin: Vec<ObjectId>,
    pub(crate) text: Vec<u8>,
}

/// What a site makes of a drawing behind what this knew. Where that is all that the site has, the
/// site itself is the base, and what it shows at the end is what its text shows. Else what is kept
/// goes to the base and back, but for the objects on which the two differ.
pub(crate) fn make_behind(
    alloc: Global,
    site: KeptSite,
    fig: &[u8],
    drawn: &ReadDrawing,
    request: TakeRequest,
) -> Result<MadeBehind, DrawingError>
    requires site { IsSite request.site }
    requires number { site.number ≡ request.site }
    requires drawn { DenotesDrawing fig.now drawn.now.drawing drawn.now.knew }
    requires named { AreNamed fig.now drawn.now.drawing drawn.now.names.items }
    requires places { AreNamesAt drawn.now.names.items drawn.now.places.entries }
    ensures ok { IfOk result
        (MakesBehind request site.ops fig.now drawn.now.drawing drawn.now.knew) }
    ensures refused { IfErr result
        (RefusesBehind request site.ops fig.now drawn.now.drawing drawn.now.knew) }
{
    if is_whole_base(request.site, site.history(), &drawn.knew) {
        let made = make_from(alloc, site, fig, drawn, request.after)?;
        return Ok(shown_whole(alloc, made, request.named)?);
    }
    let base = base_site(alloc, request.site, site.history(), &drawn.knew)?;
    let apart = objects_apart(alloc, site.history(), base.history())?;
    let (whole, kept) = site.into_parts();
    let base = with_kept(whole.history(), kept, base, &apart);
    let made = make_from(alloc, base, fig, drawn, request.after)?;
    let mut site = joined(whole, made.site, &made.ops, &apart)?;
    let text = text_of_site(alloc, &mut site, request.named)?;
    Ok(MadeBehind {
        ops: made.ops,
        site,
        thin: made.thin,
        text,
    })
}

/// The objects of the operations that a history has and its base has not.
fn objects_apart(
    alloc: Global,
    history: &History,
    base: &History,
) -> Result<Vec<ObjectId>, OutOfMemory>
    requires { (a : Op) → Contains base.now.ops a → Contains history.now.ops a }
    ensures { IfOk result (λ objects. HaveSameBut objects.items history.now.ops base.now.ops) }
{
    history.recall_valid();
    let mut objects = Vec::new(alloc);
    for op in history.ops() {
        match base.get(op.id) {
            Some(_) => {}
            None => objects.push(op.object())?,
        }
    }
    Ok(objects)
}

/// A site with what is kept of a history that differs from its own on these objects alone.
fn with_kept(history: &History, kept: KeptVersions, site: Site, apart: &[ObjectId]) -> KeptSite
    requires keeps { Keeps history.now.ops kept }
    requires same { HaveSameBut apart.now history.now.ops site.ops }
    ensures { result ≡ site }
{
    let mut kept = kept;
    history.recall_valid();
    site.history().recall_valid();
    kept.forget_all(apart);
    KeptSite::new(site, kept)
}

/// The whole site with the operations that were made behind its base. What is kept of the base with
/// these is kept of it, but for the objects on which the two differ.
fn joined(
    whole: Site,
    base: KeptSite,
    new: &[Op],
    apart: &[ObjectId],
) -> Result<KeptSite, OutOfMemory>
    requires in_range { (a : Op) → Contains new.now a → IsInRange a }
    requires accepted { AreAccepted (whole.ops ++ new.now) }
    requires same { HaveSameBut apart.now base.ops (whole.ops ++ new.now) }
    ensures { IfOk result (λ site. site.ops ≡ whole.ops ++ new.now) }
{
    let mut whole = whole;
    whole.add_all(new)?;
    let (base, kept) = base.into_parts();
    Ok(with_kept(base.history(), kept, whole, apart))
}

/// What a site made behind all that it has, with the named text, where it is asked for.
fn shown_whole(alloc: Global, made: MadeFrom, named: bool) -> Result<MadeBehind, OutOfMemory>
    requires { AreListed made.site.ops made.shown }
    ensures ops { IfOk result (λ whole. whole.ops ≡ made.ops) }
    ensures thin { IfOk result (λ whole. whole.thin ≡ made.thin) }
    ensures site { IfOk result (λ whole. whole.site ≡ made.site) }
    ensures text { IfOk result (λ whole. IsShownText named made.site.ops whole.text.items) }
{
    let MadeFrom {
        site,
        ops,
        shown,
        thin,
    } = made;
    let text = if named {
        named_text(alloc, site.history(), shown)?
    } else {
        Vec::new(alloc)
    };
    Ok(MadeBehind {
        ops,
        site,
        thin,
        text,
    })
}

/// The named text of a site, where it is asked for.
fn text_of_site(alloc: Global, site: &mut KeptSite, named: bool) -> Result<Vec<u8>, OutOfMemory>
    ensures same { site.new ≡ site.old }
    ensures text { IfOk result (λ text. IsShownText named site.old.ops text.items) }
{
    if !named {
        return Ok(Vec::new(alloc));
    }
    match listed(alloc, site)? {
        Some(ranked) => named_text(alloc, site.history(), ranked),
        None => Ok(Vec::new(alloc)),
    }
}

/// The named text of a history with these visible versions; empty where it has none.
fn named_text(
    alloc: Global,
    history: &History,
    ranked: Ranked<AnyShape>,
) -> Result<Vec<u8>, OutOfMemory>
    requires { AreListed history.now.ops ranked }
    ensures { IfOk result (λ text. IsTextOf history.now.ops text.items) }
{
    match named_bytes(alloc, history, ranked) {
        Ok(text) => Ok(text),
        Err(CompileFault::TooManyColours) => Ok(Vec::new(alloc)),
        Err(CompileFault::TooManyVersions) => unreachable!(),
        Err(CompileFault::OutOfMemory) => Err(OutOfMemory),
    }
}
