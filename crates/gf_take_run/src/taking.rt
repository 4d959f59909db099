//! From the bytes of a text to the lines of what is taken.

ghost use Rattle.std.specs.Prelude.{◌≡◌, ◌≤◌, ◌++◌, Bool, Contains, IfErr, IfOk, IfSome, List};
ghost use Rattle.gf_fig_named.specs.NamedFigures.{AreNamed};
ghost use Rattle.gf_ops.specs.Limits.{IsInRange};
ghost use Rattle.gf_ops.specs.OperationOrder.{IsSite};
ghost use Rattle.gf_run.specs.RefusedRuns.{IsBetween};
ghost use Rattle.gf_edit.specs.MadeOperations.{made_of};
ghost use Rattle.gf_ops.specs.declared.op.Op.{Op};
ghost use Rattle.gf_take_run.specs.LeavingSteps.{AreNamesAt};
ghost use Rattle.gf_take_run.specs.TakenText.{DenotesDrawing};
ghost use Rattle.gf_take_run.specs.TakeRun.{RefusesFigText, RefusesParts, RefusesTaking};
ghost use Rattle.gf_take_run.specs.TakeRun.{TakesText, of_take};
ghost use Rattle.gf_take_run.specs.ShownText.{IsShownText};
ghost use Rattle.gf_take_run.specs.TakeSteps.{RefusesDrawing};
ghost use Rattle.gf_take_run.specs.TakenBehind.{AreWritten, IsWrittenText};
ghost use Rattle.gf_take_run.specs.TakeSteps.{TakesParts};
ghost use Rattle.gf_take_run.specs.TakenBehind.{TakesBehind, TakesSo};
ghost use Rattle.gf_kept.specs.Keeping.{Keeps};
ghost use Rattle.gf_replay.specs.Behind.{Divides};

use crate::behind::make_behind;
use crate::counting::counts_of;
use crate::drawing_error::DrawingError;
use crate::knowing::{check_age, check_known, made_since};
use crate::parting::{Parts, part};
use crate::reading::{ReadDrawing, read_drawing, read_lines, site_of};
use crate::{TakeRequest, TakeRunError, Taken};
use gf_base::OutOfMemory;
use gf_edit::{Made, push_line};
use gf_kept::{KeptSite, KeptVersions};
use gf_ops::Op;
use gf_run::Answer;
use gf_site::Replica;
use std::alloc::Global;
use std::thread::Threads;

/// What a site takes of these bytes: operation lines, and a FIG text behind them.
pub(crate) fn take_text<T: Threads + Sync>(
    rt: &T,
    alloc: Global,
    bytes: Vec<u8>,
    request: TakeRequest,
    workers: u8,
) -> Result<Answer<Taken>, TakeRunError>
    requires site { IsSite request.site }
    requires workers { (1 ≤ workers) × (workers ≤ 16) }
    ensures ok { IfOk result (λ t. TakesText request bytes.items t.text.items t.value) }
    ensures refused { IfErr result (RefusesTaking request bytes.items) }
    ensures between { IfErr result (λ e. IfSome (of_take e) IsBetween) }
{
    let parts = part(alloc, bytes)?;
    let Some(parts) = parts else {
        return Err(TakeRunError::NoDrawing);
    };
    take_parts(rt, alloc, parts, request, workers)
}

/// What a site takes of operation lines and the FIG text behind them.
fn take_parts<T: Threads + Sync>(
    rt: &T,
    alloc: Global,
    parts: Parts,
    request: TakeRequest,
    workers: u8,
) -> Result<Answer<Taken>, TakeRunError>
    requires site { IsSite request.site }
    requires workers { (1 ≤ workers) × (workers ≤ 16) }
    ensures ok { IfOk result (TakesParts request parts.lines.items parts.fig.items) }
    ensures refused { IfErr result (RefusesParts request parts.lines.items parts.fig.items) }
    ensures between { IfErr result (λ e. IfSome (of_take e) IsBetween) }
{
    let site = read_lines(rt, alloc, parts.lines, request, workers)?;
    let drawn = read_drawing(alloc, &parts.fig)?;
    let site = KeptSite::of(alloc, site);
    let taken = take_drawing(alloc, site, &parts.fig, &drawn, request)?;
    Ok(taken.answer)
}

/// What a site takes of a FIG text behind the operations of a replica, and the site with what it
/// made. What is kept of the history of the replica goes to the site.
pub fn take_behind(
    alloc: Global,
    replica: Replica,
    kept: KeptVersions,
    fig: &[u8],
    request: TakeRequest,
) -> Result<TakenDrawing, TakeRunError>
    requires site { IsSite request.site }
    requires keeps { Keeps replica.ops kept }
    ensures ok { (known : List Op) → Divides known replica.ops replica.held
        → IfOk result (λ t. TakesBehind request known replica.ops fig.now t.ops.items t.answer) }
    ensures site { IfOk result (λ t. t.site.ops ≡ replica.ops ++ t.ops.items) }
    ensures refused { (known : List Op) → Divides known replica.ops replica.held
        → IfErr result (RefusesFigText request known fig.now) }
{
    let site = site_of(alloc, replica, request.site)?;
    let drawn = read_drawing(alloc, fig)?;
    let site = KeptSite::new(site, kept);
    Ok(take_drawing(alloc, site, fig, &drawn, request)?)
}

/// What a site took of a drawing: the new operations, their lines with what is told of them, and
/// the site with these operations.
#[derive(Drop)]
pub struct TakenDrawing {
    pub ops: Vec<Op>,
    pub answer: Answer<Taken>,
    pub site: KeptSite,
}

/// What a site takes of a drawing.
fn take_drawing(
    alloc: Global,
    site: KeptSite,
    fig: &[u8],
    drawn: &ReadDrawing,
    request: TakeRequest,
) -> Result<TakenDrawing, DrawingError>
    requires site { IsSite request.site }
    requires number { site.number ≡ request.site }
    requires drawn { DenotesDrawing fig.now drawn.now.drawing drawn.now.knew }
    requires named { AreNamed fig.now drawn.now.drawing drawn.now.names.items }
    requires places { AreNamesAt drawn.now.names.items drawn.now.places.entries }
    ensures ok { IfOk result (λ t. TakesSo request site.ops fig.now drawn.now.drawing
        drawn.now.knew t.ops.items t.answer) }
    ensures site { IfOk result (λ t. t.site.ops ≡ site.ops ++ t.ops.items) }
    ensures refused { IfErr result (RefusesDrawing request site.ops fig.now
        drawn.now.drawing drawn.now.knew) }
{
    check_known(site.history(), request.site, &drawn.knew)?;
    check_age(site.history(), request.site, &drawn.knew)?;
    let since = made_since(site.history(), request.site, &drawn.knew);
    let made = make_behind(alloc, site, fig, drawn, request)?;
    let counts = counts_of(alloc, &made.ops)?;
    let text = text_of(alloc, &made.ops, &made.text)?;
    let taken = Taken {
        made: made_of(&made.ops),
        since,
        thin: made.thin,
        changed: counts.changed,
        hidden: counts.hidden,
        drawn: counts.drawn,
    };
    Ok(TakenDrawing {
        ops: made.ops,
        answer: Answer { text, value: taken },
        site: made.site,
    })
}

/// The first and the last of these operations, if there are any.
fn made_of(ops: &[Op]) -> Option<Made>
    ensures { result ≡ made_of ops.now }
{
    let mut made = None;
    for op in ops {
        made = Some(Made::until(made, op.id));
    }
    made
}

/// The lines of operations, and a text behind them.
fn text_of(alloc: Global, ops: &[Op], shown: &[u8]) -> Result<Vec<u8>, OutOfMemory>
    requires { (a : Op) → Contains ops.now a → IsInRange a }
    ensures { (named : Bool) (h : List Op) → IsShownText named (h ++ ops.now) shown.now
        → IfOk result (λ text. IsWrittenText named h ops.now text.items) }
{
    let mut text = lines_of(alloc, ops)?;
    text.extend_from_slice(shown)?;
    Ok(text)
}

/// The lines of operations.
fn lines_of(alloc: Global, ops: &[Op]) -> Result<Vec<u8>, OutOfMemory>
    requires { (a : Op) → Contains ops.now a → IsInRange a }
    ensures { IfOk result (λ text. AreWritten ops.now text.items) }
{
    let mut text = Vec::new(alloc);
    for op in ops {
        push_line(alloc, &mut text, op)?;
    }
    Ok(text)
}
