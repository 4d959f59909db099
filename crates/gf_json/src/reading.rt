//! Operation lines, script lines, and lines that keep versions.
//!
//! Each part is read as a `Result<Option<A>, LineError>`. `Err(Field)` is a wrong form, and
//! `Ok(None)` a broken limit. So a `?` tells the faults of form, and the limits are joined last.

ghost use Rattle.std.specs.Prelude.{◌≡◌, ◌⊎◌, Err, IfOk, codes, option_map};
ghost use Rattle.serde_json.specs.View.{view};
ghost use Rattle.gf_ops.specs.Limits.{IsInRange, is_in_range};
ghost use Rattle.gf_json.specs.LineValues.{mapped};
ghost use Rattle.gf_json.specs.LineForms as form;
ghost use Rattle.gf_json.specs.LineForms.{◌&◌};
ghost use Rattle.gf_json.specs.LineChanges.{at};
ghost use Rattle.gf_json.specs.OperationLines.{json, denoted};
ghost use Rattle.gf_json.specs.ScriptLines.{IsScriptInRange, is_command, is_script};
ghost use Rattle.gf_json.specs.ScriptLines.{script_denoted};
ghost use Rattle.gf_json.specs.KeepLines.{IsKeepInRange, is_keep, keep_of, keep_denoted};
ghost use Rattle.gf_json.specs.ReadLines.{read_command, read_operation, read_script_line};
ghost use Rattle.gf_json.specs.Limited.{limited, ranged};

mod aims;
mod changes;
mod keys;
mod points;
mod values;

use crate::reading::aims::ids;
use crate::reading::changes::change;
use crate::reading::keys::tells;
pub use crate::reading::keys::{has_count, says};
use crate::reading::values::{clock, name, site};
use crate::{Command, KeepLine, LineError, ScriptLine};
use gf_ops::{Change, Clock, Ids, ObjectId, Op, OpId};
use serde_json::Value;
use std::alloc::Global;

/// The operation that a line denotes, or its first fault.
pub fn read_op(alloc: Global, line: &[u8]) -> Result<Op, LineError>
    ensures denoted { (result ≡ Err LineError.OutOfMemory) ⊎ (result ≡ denoted line.now) }
    ensures in_range { IfOk result (λ op. IsInRange op) }
{
    match json(alloc, line) {
        Ok(value) => ranged(op_of(alloc, &value)),
        Err(fault) => Err(fault),
    }
}

/// The command that a line of a script denotes, or its first fault.
pub fn read_script(alloc: Global, line: &[u8]) -> Result<ScriptLine, LineError>
    ensures denoted { (result ≡ Err LineError.OutOfMemory) ⊎ (result ≡ script_denoted line.now) }
    ensures in_range { IfOk result (λ s. IsScriptInRange s) }
{
    match json(alloc, line) {
        Ok(value) => ranged(script_of(alloc, &value)),
        Err(fault) => Err(fault),
    }
}

/// What a line that keeps versions denotes, or its first fault.
pub fn read_keep(alloc: Global, line: &[u8]) -> Result<KeepLine, LineError>
    ensures denoted { (result ≡ Err LineError.OutOfMemory) ⊎ (result ≡ keep_denoted line.now) }
    ensures in_range { IfOk result (λ k. IsKeepInRange k) }
{
    match json(alloc, line) {
        Ok(value) => ranged(keep_of(alloc, &value)),
        Err(fault) => Err(fault),
    }
}

/// What is read, where a broken limit is a fault.
fn ranged<A: Drop>(read: Result<Option<A>, LineError>) -> Result<A, LineError>
    ensures { result ≡ ranged read }
{
    match read {
        Ok(Some(value)) => Ok(value),
        Ok(None) => Err(LineError::Range),
        Err(fault) => Err(fault),
    }
}

/// The value of a line.
fn json(alloc: Global, line: &[u8]) -> Result<Value, LineError>
    ensures { (result ≡ Err LineError.OutOfMemory) ⊎ (mapped view result ≡ json line.now) }
{
    match Value::from_slice(alloc, line) {
        Ok(value) => Ok(value),
        Err(error) => {
            if error.is_memory() {
                Err(LineError::OutOfMemory)
            } else {
                Err(LineError::Json)
            }
        }
    }
}

/// The operation of a line's value.
fn op_of(alloc: Global, line: &Value) -> Result<Option<Op>, LineError>
    ensures { (result ≡ Err LineError.OutOfMemory)
        ⊎ (result ≡ limited is_in_range (read_operation (view line.now))) }
{
    let id = name(line.get("id"))?;
    let past = clock(line.get("past"))?;
    let change = change(alloc, line, "op", 3)?;
    Ok(op(id, past, change))
}

/// The operation of these parts.
fn op(id: Option<OpId>, past: Option<Clock>, change: Option<Change>) -> Option<Op>
    ensures { result ≡ option_map
        (λ (i, (known, new)). record { id = i; past = known; change = new })
        (id & past & change) }
{
    Some(Op {
        id: id?,
        past: past?,
        change: change?,
    })
}

/// The line of a script, by its value.
fn script_of(alloc: Global, line: &Value) -> Result<Option<ScriptLine>, LineError>
    ensures { (result ≡ Err LineError.OutOfMemory)
        ⊎ (result ≡ limited is_script (read_script_line (view line.now))) }
{
    let site = site(line.get("site"))?;
    let command = command(alloc, line)?;
    Ok(script(site, command))
}

/// The line of this command to this site.
fn script(site: Option<u8>, command: Option<Command>) -> Option<ScriptLine>
    ensures { result ≡ option_map (λ p. record { site = p.0; command = p.1 }) (site & command) }
{
    Some(ScriptLine {
        site: site?,
        command: command?,
    })
}

/// The command of a line: to wait for an operation, or to make a change.
#[tactic(auto, unfolding(crate::specs::ReadLines::read_command))]
fn command(alloc: Global, line: &Value) -> Result<Option<Command>, LineError>
    ensures { (result ≡ Err LineError.OutOfMemory)
        ⊎ (result ≡ limited is_command (read_command (view line.now))) }
{
    if tells(line, 3, "do", "await") {
        Ok(name(line.get("id"))?.map(Command::Await))
    } else {
        Ok(change(alloc, line, "do", 2)?.map(Command::Author))
    }
}

/// What a line that keeps versions says, by its value.
fn keep_of(alloc: Global, line: &Value) -> Result<Option<KeepLine>, LineError>
    ensures { (result ≡ Err LineError.OutOfMemory)
        ⊎ (result ≡ limited is_keep (keep_of (view line.now))) }
{
    if tells(line, 4, "do", "keep") {
        kept(alloc, line)
    } else {
        Err(LineError::Field)
    }
}

/// What a line of four keys keeps.
fn kept(alloc: Global, line: &Value) -> Result<Option<KeepLine>, LineError>
    ensures { (result ≡ Err LineError.OutOfMemory)
        ⊎ (result ≡ limited is_keep (option_map
        (λ p. record { site = p.0; object = record { 0 = p.1.0 }; with = p.1.1 })
        (at (codes "site") form.natural (view line.now)
        & at (codes "object") form.name (view line.now)
        & at (codes "with") form.ids (view line.now)))) }
{
    let site = site(line.get("site"))?;
    let object = name(line.get("object"))?;
    let with = ids(alloc, line.get("with"))?;
    Ok(keep(site, object, with))
}

/// The line of these parts.
fn keep(site: Option<u8>, object: Option<OpId>, with: Option<Ids>) -> Option<KeepLine>
    ensures { result ≡ option_map
        (λ p. record { site = p.0; object = record { 0 = p.1.0 }; with = p.1.1 })
        (site & object & with) }
{
    Some(KeepLine {
        site: site?,
        object: ObjectId(object?),
        with: with?,
    })
}
