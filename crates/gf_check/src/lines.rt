//! From the lines of a text to all of its faults.

ghost use Rattle.std.specs.Prelude.{◌≡◌, ℕ, List, Ok, Option, IfOk, IfSome, OnOk};
ghost use Rattle.gf_ops.specs.Limits.{IsInRange};
ghost use Rattle.gf_ops.specs.OperationOrder.{IsSite};
ghost use Rattle.gf_replay.specs.Taking.{of_line};
ghost use Rattle.gf_edit.specs.Entries.{denoted_by};
ghost use Rattle.gf_check.specs.FaultLines.{Told};
ghost use Rattle.gf_check.specs.AllFaults.{AnswersText};
ghost use Rattle.gf_check.specs.Telling.{HasTold, TellsOne, TellsOnce};
ghost use Rattle.gf_check.specs.CheckedLines.{GoesOn, StepsOn};

use crate::arrived::Arrived;
use crate::line_reasons::line_reason;
use crate::operation_reasons::{clash_reason, operation_reason};
use crate::reasons::OperationReason;
use crate::telling::Telling;
use gf_base::OutOfMemory;
use gf_causal::OfferFault;
use gf_edit::{Entry, read_entry};
use gf_json::LineError;
use gf_ops::{Op, OpFault, OpId};
use gf_replay::{LineCause, ReadingError};
use gf_site::{Replica, Step};
use gf_streams::TextLines;
use std::alloc::Global;

/// What was read so far: a replica, the lines by id, the faults, and the number of commands.
#[derive(Drop)]
struct Check {
    replica: Replica,
    arrived: Arrived,
    telling: Telling,
    commands: u64,
}

/// A line for each fault of a text, in the order in which they are met. Where a site edits, its
/// commands are no faults. What is at fault is passed over, and nothing is told of what only waits.
pub fn faults_of(alloc: Global, text: Vec<u8>, editor: Option<u8>) -> Result<Vec<u8>, OutOfMemory>
    requires { IfSome editor IsSite }
    ensures { IfOk result (λ told. AnswersText editor text.items told.items) }
{
    let mut check = Check {
        replica: Replica::new(alloc),
        arrived: Arrived::new(alloc),
        telling: Telling::new(alloc),
        commands: 0,
    };
    let mut lines = TextLines::new(text);
    while let Some((number, line)) = lines.first() {
        take_line(alloc, &mut check, number, line, editor)?;
        lines.advance();
    }
    check.replica.recall_state();
    Ok(check.telling.into_text())
}

/// Takes what a line denotes, or tells what is wrong with the line. A command is counted.
fn take_line(
    alloc: Global,
    check: &mut Check,
    number: u64,
    line: &[u8],
    editor: Option<u8>,
) -> Result<(), OutOfMemory>
    ensures { OnOk result (GoesOn editor number line.now check.old.replica check.old.telling
        check.new.replica check.new.telling) }
{
    match read_entry(alloc, line, editor) {
        Ok(Entry::Operation(op)) => take_op(
            alloc,
            &mut check.replica,
            &mut check.arrived,
            &mut check.telling,
            number,
            op,
        ),
        Ok(Entry::Command(_)) => {
            check.commands = check.commands.saturating_add(1);
            Ok(())
        }
        Err(fault) => {
            let cause = cause_of(fault)?;
            tell_line(alloc, check, number, line, cause, editor)
        }
    }
}

/// The cause of a line with this fault, if that is no want of memory.
fn cause_of(fault: LineError) -> Result<LineCause, OutOfMemory>
    ensures { IfOk result (λ cause. (n : ℕ) → of_line n fault ≡ ReadingError.Line n cause) }
{
    match fault {
        LineError::Json => Ok(LineCause::Json),
        LineError::Field => Ok(LineCause::Field),
        LineError::Range => Ok(LineCause::Range),
        LineError::OutOfMemory => Err(OutOfMemory),
    }
}

/// Receives an operation, and steps until nothing is ready.
fn take_op(
    alloc: Global,
    replica: &mut Replica,
    arrived: &mut Arrived,
    telling: &mut Telling,
    number: u64,
    op: Op,
) -> Result<(), OutOfMemory>
    requires { IsInRange op }
    ensures { (editor : Option ℕ) (text : List ℕ) → denoted_by editor text ≡ Ok (Entry.Operation op)
        → OnOk result (GoesOn editor number text replica.old telling.old
        replica.new telling.new) }
{
    let copy = op.copy(alloc)?;
    match replica.receive(op) {
        Ok(_) => {
            arrived.put(number, copy)?;
            step_all(alloc, replica, arrived, telling)
        }
        Err(OfferFault::Clash) => tell_clash(alloc, arrived, telling, number, &copy),
        Err(OfferFault::Range) => unreachable!(),
        Err(OfferFault::OutOfMemory) => Err(OutOfMemory),
    }
}

/// Steps until nothing is ready, and tells each operation that is dropped.
fn step_all(
    alloc: Global,
    replica: &mut Replica,
    arrived: &Arrived,
    telling: &mut Telling,
) -> Result<(), OutOfMemory>
    ensures { OnOk result (StepsOn replica.old telling.old replica.new telling.new) }
{
    loop {
        replica.recall_state();
        match replica.step() {
            Ok(Step::Applied(_)) => {}
            Ok(Step::Dropped(id, fault)) => tell_drop(
                alloc,
                replica,
                arrived,
                telling,
                (id, fault),
            )?,
            Ok(Step::Idle) => return Ok(()),
            Err(OutOfMemory) => return Err(OutOfMemory),
        }
    }
}

/// Tells what is wrong with a line.
fn tell_line(
    alloc: Global,
    check: &mut Check,
    number: u64,
    line: &[u8],
    cause: LineCause,
    editor: Option<u8>,
) -> Result<(), OutOfMemory>
    ensures tells { (told : List Told) → HasTold told check.old.telling → OnOk result
        (TellsOne (ReadingError.Line number cause) told check.new.telling) }
    ensures replica { check.new.replica ≡ check.old.replica }
{
    let why = line_reason(alloc, line, cause, editor, &mut check.commands)?;
    check.telling.tell_line(number, cause, why.as_bytes())
}

/// Tells that another operation arrived under an id.
fn tell_clash(
    alloc: Global,
    arrived: &Arrived,
    telling: &mut Telling,
    number: u64,
    op: &Op,
) -> Result<(), OutOfMemory>
    ensures { (told : List Told) → HasTold told telling.old → OnOk result
        (TellsOne (ReadingError.Line number LineCause.Clash) told telling.new) }
{
    let reason = match arrived.get(op.id) {
        Some(first) => clash_reason(first, op),
        None => OperationReason::Unclear,
    };
    let why = format!(in alloc; "{reason}")?;
    telling.tell_line(number, LineCause::Clash, why.as_bytes())
}

/// Tells that an operation was dropped, if no line tells that drop with this cause.
fn tell_drop(
    alloc: Global,
    replica: &Replica,
    arrived: &Arrived,
    telling: &mut Telling,
    dropped: (OpId, OpFault),
) -> Result<(), OutOfMemory>
    ensures { (told : List Told) → HasTold told telling.old → OnOk result
        (TellsOnce (ReadingError.Dropped dropped.0 dropped.1) told telling.new) }
{
    if telling.has_drop(dropped.0, dropped.1) {
        return Ok(());
    }
    let reason = match arrived.get(dropped.0) {
        Some(last) => operation_reason(replica.history(), &last.op, dropped.1),
        None => OperationReason::Unclear,
    };
    let why = format!(in alloc; "{reason}")?;
    telling.tell_drop(dropped.0, dropped.1, why.as_bytes())
}
