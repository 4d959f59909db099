//! Lines of two sorts: operations, and commands of one site.

ghost use Rattle.std.specs.Prelude.{◌≡◌, ◌⊎◌, Err, IfOk, IsTrue};
ghost use Rattle.gf_json.specs.KeepLines.{IsKeepInRange, keep_denoted};
ghost use Rattle.gf_json.specs.ScriptLines.{IsScriptInRange, script_denoted};
ghost use Rattle.gf_edit.specs.Entries.{command_of, denoted_by, for_site, keep_for_site};
ghost use Rattle.gf_edit.specs.Entries.{IsEntryInRange, of_script};

use crate::EditCommand;
use gf_json::{Command, KeepLine, LineError, ScriptLine, read_keep, read_op, read_script};
use gf_keep::Keep;
use gf_ops::Op;
use std::alloc::Global;

/// What a line of an edited text denotes.
#[derive(Drop)]
pub enum Entry {
    /// An operation of any site.
    Operation(Op),
    /// A command of the site that edits.
    Command(EditCommand),
}

/// What a line denotes, or its first fault. Where a site edits, a line without the form of an
/// operation is read as a command. A command of another site has the fault Range.
pub fn read_entry(alloc: Global, line: &[u8], editor: Option<u8>) -> Result<Entry, LineError>
    ensures denoted { (result ≡ Err LineError.OutOfMemory)
        ⊎ (result ≡ denoted_by editor line.now) }
    ensures in_range { IfOk result IsEntryInRange }
{
    match read_op(alloc, line) {
        Ok(op) => Ok(Entry::Operation(op)),
        Err(LineError::Field) => match editor {
            Some(site) => read_command(alloc, line, site),
            None => Err(LineError::Field),
        },
        Err(fault) => Err(fault),
    }
}

/// The command that a line denotes for this site, or its first fault. A line without the form of a
/// script line is read as one that keeps versions.
fn read_command(alloc: Global, line: &[u8], site: u8) -> Result<Entry, LineError>
    ensures denoted { (result ≡ Err LineError.OutOfMemory)
        ⊎ (result ≡ command_of site (script_denoted line.now) (keep_denoted line.now)) }
    ensures in_range { IfOk result IsEntryInRange }
{
    match read_script(alloc, line) {
        Ok(script) => for_site(script, site),
        Err(LineError::Field) => match read_keep(alloc, line) {
            Ok(keep) => keep_for_site(keep, site),
            Err(fault) => Err(fault),
        },
        Err(fault) => Err(fault),
    }
}

/// The command of a script line, where it is of this site.
fn for_site(script: ScriptLine, site: u8) -> Result<Entry, LineError>
    requires { IsScriptInRange script }
    ensures value { result ≡ for_site site script }
    ensures in_range { IfOk result IsEntryInRange }
{
    if script.site == site {
        Ok(Entry::Command(of_script(script.command)))
    } else {
        Err(LineError::Range)
    }
}

/// The command of a script, as one of an edit.
fn of_script(command: Command) -> EditCommand
    ensures { result ≡ of_script command }
{
    match command {
        Command::Author(change) => EditCommand::Author(change),
        Command::Await(id) => EditCommand::Await(id),
    }
}

/// What a line keeps, where it is of this site.
fn keep_for_site(line: KeepLine, site: u8) -> Result<Entry, LineError>
    requires { IsKeepInRange line }
    ensures value { result ≡ keep_for_site site line }
    ensures in_range { IfOk result IsEntryInRange }
{
    if line.site == site {
        Ok(Entry::Command(EditCommand::Keep(Keep {
            object: line.object,
            with: line.with,
        })))
    } else {
        Err(LineError::Range)
    }
}
