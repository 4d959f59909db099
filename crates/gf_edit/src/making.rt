//! What a site makes of its commands.

ghost use Rattle.std.specs.Prelude.{◌≡◌, ◌++◌, [], true, false, Ok, Some, IfOk, IfErr, OnOk};
ghost use Rattle.gf_ops.specs.Limits.{IsInRange};
ghost use Rattle.gf_causal.specs.HeldOperations.{IsFree};
ghost use Rattle.gf_edit.specs.declared.edit_command.EditCommand.{EditCommand};
ghost use Rattle.gf_json.specs.OperationLines.{denoted};
ghost use Rattle.gf_json.specs.WrittenLines.{op_text};
ghost use Rattle.gf_site.specs.CommandAnswers.{AwaitAnswer, HasOp};
ghost use Rattle.gf_edit.specs.Making.{written_line};
ghost use Rattle.gf_edit.specs.MakingSteps.{HasPassed, Passes, RefusesCommand, RefusesMaking};
ghost use Rattle.gf_edit.specs.MakingSteps.{RefusesEach, WritesEach, WritesKeep, WritesOp};
ghost use Rattle.gf_edit.specs.MakingSteps.{of_author, of_keep};

use crate::{EditCommand, EditError, Made, Numbered};
use gf_base::OutOfMemory;
use gf_json::op_line;
use gf_keep::{Keep, KeepFault, keeping};
use gf_ops::{Change, History, Op, OpId};
use gf_run::{Answer, StudioError};
use gf_site::{AuthorFault, Cause, Site};
use std::alloc::Global;

/// The lines of the operations that the site makes of these commands, in order.
pub(crate) fn make_all(
    alloc: Global,
    site: &mut Site,
    commands: Vec<Numbered>,
) -> Result<Answer<Option<Made>>, EditError>
    ensures ok { IfOk result (HasPassed site.old.number site.old.ops commands.items site.new) }
    ensures err { IfErr result (RefusesMaking site.old.number site.old.ops commands.items) }
{
    let mut edited = Answer {
        text: Vec::new(alloc),
        value: None,
    };
    for numbered in commands {
        pass(alloc, site, &mut edited, numbered.line, numbered.command)?;
    }
    Ok(edited)
}

/// Passes the command of a line: makes an operation and appends its line, or looks for the awaited
/// one.
fn pass(
    alloc: Global,
    site: &mut Site,
    edited: &mut Answer<Option<Made>>,
    number: u64,
    command: EditCommand,
) -> Result<(), EditError>
    ensures ok { OnOk result (Passes command site.old site.new edited.old edited.new) }
    ensures err { IfErr result (RefusesCommand number command site.old) }
{
    match command {
        EditCommand::Author(change) => author(alloc, site, edited, number, change),
        EditCommand::Await(id) => match refusal(site, id) {
            Some(cause) => Err(EditError::Refused(number, cause)),
            None => Ok(()),
        },
        EditCommand::Keep(keep) => keep_versions(alloc, site, edited, number, &keep),
    }
}

/// Makes the operations that keep versions of an object, and appends their lines.
fn keep_versions(
    alloc: Global,
    site: &mut Site,
    edited: &mut Answer<Option<Made>>,
    number: u64,
    keep: &Keep,
) -> Result<(), EditError>
    ensures ok { OnOk result (WritesKeep keep.now site.old site.new edited.old edited.new) }
    ensures err { IfErr result (RefusesCommand number (EditCommand.Keep keep.now) site.old) }
{
    match keeping(alloc, site.history(), keep) {
        Ok(changes) => author_each(alloc, site, edited, number, changes),
        Err(fault) => Err(keep_refusal(number, fault)),
    }
}

fn keep_refusal(number: u64, fault: KeepFault) -> EditError
    ensures { result ≡ of_keep number fault }
{
    match fault {
        KeepFault::NoObject => EditError::Refused(number, Cause::NoObject),
        KeepFault::Range => EditError::Refused(number, Cause::Range),
        KeepFault::NoVersion => EditError::NoVersion(number),
        KeepFault::OutOfMemory => EditError::Run(StudioError::OutOfMemory),
    }
}

/// Makes an operation of each of the changes in order, and appends their lines.
fn author_each(
    alloc: Global,
    site: &mut Site,
    edited: &mut Answer<Option<Made>>,
    number: u64,
    changes: Vec<Change>,
) -> Result<(), EditError>
    ensures ok { OnOk result (WritesEach changes.items site.old site.new edited.old edited.new) }
    ensures err { IfErr result (RefusesEach number changes.items site.old) }
{
    for change in changes {
        author(alloc, site, edited, number, change)?;
    }
    Ok(())
}

fn author(
    alloc: Global,
    site: &mut Site,
    edited: &mut Answer<Option<Made>>,
    number: u64,
    change: Change,
) -> Result<(), EditError>
    ensures ok { OnOk result (WritesOp change site.old site.new edited.old edited.new) }
    ensures err { IfErr result (RefusesCommand number (EditCommand.Author change) site.old) }
{
    match site.author(change) {
        Ok(op) => match push_line(alloc, &mut edited.text, &op) {
            Ok(()) => {
                edited.value = Some(Made::until(edited.value, op.id));
                Ok(())
            }
            Err(OutOfMemory) => Err(EditError::Run(StudioError::OutOfMemory)),
        },
        Err(fault) => Err(author_refusal(number, fault)),
    }
}

fn author_refusal(number: u64, fault: AuthorFault) -> EditError
    ensures { result ≡ of_author number fault }
{
    match fault {
        AuthorFault::Exhausted => EditError::Refused(number, Cause::Exhausted),
        AuthorFault::Range => EditError::Refused(number, Cause::Range),
        AuthorFault::NoObject => EditError::Refused(number, Cause::NoObject),
        AuthorFault::WrongKind => EditError::Refused(number, Cause::WrongKind),
        AuthorFault::BadAim => EditError::Refused(number, Cause::BadAim),
        AuthorFault::OutOfMemory => EditError::Run(StudioError::OutOfMemory),
    }
}

/// Appends the line of an operation, with LF.
pub fn push_line(alloc: Global, text: &mut Vec<u8>, op: &Op) -> Result<(), OutOfMemory>
    requires { IsInRange op.now }
    ensures text { OnOk result (text.new.items ≡ text.old.items ++ written_line op.now) }
    ensures reads { OnOk result (denoted (op_text op.now) ≡ Ok op.now) }
{
    let line = op_line(alloc, op)?;
    text.extend_from_slice(line.as_bytes())?;
    text.push(b'\n')?;
    Ok(())
}

/// Why an Await of this operation is refused, if it is.
fn refusal(site: &Site, id: OpId) -> Option<Cause>
    ensures { AwaitAnswer site.now.number site.now.ops [] id result }
{
    if !id.in_range() {
        return Some(Cause::Range);
    }
    if id.site == site.number() {
        return Some(Cause::OwnId);
    }
    if has(site.history(), id) {
        None
    } else {
        Some(Cause::NeverComes)
    }
}

fn has(history: &History, id: OpId) -> bool
    ensures yes { result ≡ true → HasOp history.now.ops id }
    ensures no { result ≡ false → IsFree history.now.ops id }
{
    match history.get(id) {
        Some(_) => true,
        None => false,
    }
}
