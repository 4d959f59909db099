//! What blocks a site: an operation that waits, by which the next number of the site is not known.

ghost use Rattle.std.specs.Prelude.{◌≡◌, OnOk, IfErr, find, map, option_map};
ghost use Rattle.gf_edit.specs.EntrySteps.{IsUnblocked, RefusesWaiting};
ghost use Rattle.gf_edit.specs.Waiting.{is_blocking};

use crate::EditError;
use gf_base::OutOfMemory;
use gf_causal::waits_for;
use gf_ops::{History, Op};
use gf_run::StudioError;
use gf_site::Site;
use std::alloc::Global;

/// Refuses the edit where one of the operations that the site holds blocks it.
pub fn check_waiting(alloc: Global, site: &Site) -> Result<(), EditError>
    ensures ok { OnOk result (IsUnblocked site.now) }
    ensures err { IfErr result (RefusesWaiting site.now) }
{
    let held = match site.held_ops(alloc) {
        Ok(held) => held,
        Err(OutOfMemory) => return Err(EditError::Run(StudioError::OutOfMemory)),
    };
    match first_blocking(site.history(), site.number(), &held) {
        Some(op) => Err(EditError::Waits(op.id, waits_for(site.history(), op))),
        None => Ok(()),
    }
}

/// The first of these operations that blocks the site.
fn first_blocking<'a>(history: &History, editor: u8, ops: &[&'a Op]) -> Option<&'a Op>
    ensures { option_map (λ a. a.now) result
        ≡ find (is_blocking editor history.now.ops) (map (λ a. a.now) ops.now) }
{
    for op in ops {
        if is_blocking(history, editor, op) {
            return Some(*op);
        }
    }
    None
}

/// Whether an operation that waits blocks the site. It is of the site, or knows more operations of
/// the site than there are.
fn is_blocking(history: &History, editor: u8, op: &Op) -> bool
    ensures { result ≡ is_blocking editor history.now.ops op.now }
{
    op.id.site == editor || history.count(editor) < op.past.entry(editor)
}
