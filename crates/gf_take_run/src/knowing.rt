//! What a drawing knew of a history.

ghost use Rattle.std.specs.Prelude.{◌≡◌, ◌≢◌, ◌≤◌, ℕ, Contains, IfErr, IfSome, IfNone, OnOk};
ghost use Rattle.gf_ops.specs.declared.op.Op.{Op};
ghost use Rattle.gf_ops.specs.ValidHistory.{IsValid};
ghost use Rattle.gf_ops.specs.OperationOrder.{IsSite, entry};
ghost use Rattle.gf_take_run.specs.KnownHistory.{AreThere, IsNewer, since_drawing};
ghost use Rattle.gf_take.specs.Reaching.{AreReached};
ghost use Rattle.gf_take_run.specs.TakeSteps.{IsBeyond, IsNewerThan, RefusesKnown};

use crate::drawing_error::DrawingError;
use gf_edit::Made;
use gf_ops::{Clock, History, Op, OpId};
use gf_take::reach;

/// Refuses a drawing that knew an operation which the history lacks.
pub(crate) fn check_known(history: &History, site: u8, knew: &Clock) -> Result<(), DrawingError>
    ensures ok { OnOk result (AreThere knew.now history.now.ops) }
    ensures err { IfErr result (RefusesKnown site history.now.ops knew.now) }
{
    for other in 1..9 {
        let last = knew.entry(other);
        if history.count(other) < last {
            return Err(DrawingError::Absent(OpId {
                site: other,
                seq: last,
            }));
        }
    }
    Ok(())
}

/// Refuses a drawing that is older than an operation of the site, where this knows what others made
/// and the drawing did not know.
pub(crate) fn check_age(history: &History, site: u8, knew: &Clock) -> Result<(), DrawingError>
    ensures ok { OnOk result ((a x : Op) → ¬ (IsNewer site knew.now history.now.ops a x)) }
    ensures err { IfErr result (RefusesKnown site history.now.ops knew.now) }
{
    if history.count(site) <= knew.entry(site) {
        // All operations of the site are known to the drawing, and none of them is newer.
        history.recall_valid();
        return Ok(());
    }
    // Of site 0 there is no operation: these are the ones that the drawing knew.
    let known = reach(0, knew, history.ops());
    for op in history.ops() {
        if let Some(id) = newer(history, site, knew, op, &known) {
            return Err(DrawingError::Older(op.id, id));
        }
    }
    Ok(())
}

/// Another site's operation that this one knows and the drawing did not. None, where this one is of
/// another site, or no newer than the drawing.
fn newer(history: &History, site: u8, knew: &Clock, op: &Op, known: &Clock) -> Option<OpId>
    requires contained { Contains history.now.ops op.now }
    requires valid { IsValid history.now.ops }
    requires reached { AreReached 0 knew.now history.now.ops known.now }
    ensures some { IfSome result (IsNewerThan site knew.now history.now.ops op.now) }
    ensures none { IfNone result ((x : Op) → ¬ (IsNewer site knew.now history.now.ops op.now x)) }
{
    if op.id.site != site || op.id.seq <= knew.entry(site) {
        return None;
    }
    first_beyond(site, &op.past, known)
}

/// The last operation of the first other site of which a clock counts more than another one.
fn first_beyond(site: u8, past: &Clock, known: &Clock) -> Option<OpId>
    ensures some { IfSome result (IsBeyond site past.now known.now) }
    ensures none { IfNone result ((t : ℕ) → IsSite t → t ≢ site
        → entry past.now t ≤ entry known.now t) }
{
    for other in 1..9 {
        let seq = past.entry(other);
        if other != site && known.entry(other) < seq {
            return Some(OpId { site: other, seq });
        }
    }
    None
}

/// The first and the last operation of the site behind what the drawing knew, if there are any.
pub(crate) fn made_since(history: &History, site: u8, knew: &Clock) -> Option<Made>
    requires { IsSite site }
    ensures { result ≡ since_drawing site knew.now history.now.ops }
{
    let known = knew.entry(site);
    let last = history.count(site);
    if last <= known {
        return None;
    }
    Some(Made {
        first: OpId {
            site,
            seq: known + 1,
        },
        last: OpId { site, seq: last },
    })
}
