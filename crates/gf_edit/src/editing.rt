//! From the bytes of an edited text to the lines of what its commands make.

ghost use Rattle.std.specs.Prelude.{ℕ, List, [], IfSome, IfOk, IfErr};
ghost use Rattle.gf_ops.specs.OperationOrder.{IsSite};
ghost use Rattle.gf_run.specs.RefusedRuns.{IsBetween};
ghost use Rattle.gf_edit.specs.EditRun.{Edits, RefusesEdit, of_edit};
ghost use Rattle.gf_edit.specs.EntrySteps.{HasReadLines};

use crate::making::make_all;
use crate::reading::{ReadLines, read_lines};
use crate::waiting::check_waiting;
use crate::{EditError, Made};
use gf_run::Answer;
use gf_site::Site;
use std::alloc::Global;

/// The lines of the operations that the commands of these bytes make.
pub(crate) fn edit(
    alloc: Global,
    bytes: Vec<u8>,
    editor: u8,
) -> Result<Answer<Option<Made>>, EditError>
    requires { IsSite editor }
    ensures ok { IfOk result (λ edited. Edits editor bytes.items edited.text.items edited.value) }
    ensures refused { IfErr result (RefusesEdit editor bytes.items) }
    ensures between { IfErr result (λ e. IfSome (of_edit e) IsBetween) }
{
    let read = read_lines(alloc, bytes, editor)?;
    make(alloc, read, editor)
}

/// The lines of the operations that the site of this number makes of these commands, where nothing
/// that was read blocks it.
fn make(alloc: Global, read: ReadLines, editor: u8) -> Result<Answer<Option<Made>>, EditError>
    requires { IsSite editor }
    ensures ok { IfOk result (λ edited. (bytes : List ℕ) → HasReadLines editor bytes [] read
        → Edits editor bytes edited.text.items edited.value) }
    ensures refused { IfErr result (λ e. (bytes : List ℕ) → HasReadLines editor bytes [] read
        → RefusesEdit editor bytes e) }
    ensures between { IfErr result (λ e. IfSome (of_edit e) IsBetween) }
{
    let ReadLines { replica, commands } = read;
    replica.recall_state();
    let mut site = Site::with_replica(alloc, editor, replica);
    match check_waiting(alloc, &site) {
        Ok(()) => make_all(alloc, &mut site, commands),
        Err(fault) => Err(fault),
    }
}
