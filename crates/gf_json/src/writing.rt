//! Operations and commands as lines.

ghost use Rattle.std.specs.Prelude.{◌≡◌, ◌++◌, Ok, false, IfOk, OnOk, length, string_bytes};
ghost use Rattle.serde_json.specs.View.{view, members_view};
ghost use Rattle.serde_json.specs.Written.{has_float};
ghost use Rattle.gf_ops.specs.Limits.{IsInRange};
ghost use Rattle.gf_json.specs.OperationLines.{denoted};
ghost use Rattle.gf_json.specs.ScriptLines.{IsScriptInRange, script_denoted};
ghost use Rattle.gf_json.specs.WrittenValues.{name_data, clock_data};
ghost use Rattle.gf_json.specs.WrittenLines.{creation_data, setting_data, data_of, op_text};
ghost use Rattle.gf_json.specs.WrittenMembers.{put_all, begun};
ghost use Rattle.gf_json.specs.WrittenScripts.{authored_members, command_members, script_data};
ghost use Rattle.gf_json.specs.WrittenScripts.{script_text};
ghost use Rattle.gf_json.specs.Notations.{json_line};

mod members;
mod values;

pub use crate::writing::members::put_form;
use crate::writing::members::{put_look, put_setting};
use crate::writing::values::clock_data;
pub use crate::writing::values::{colour_data, ids_data, name_data, point_data};
use crate::{Command, ScriptLine};
use gf_base::OutOfMemory;
use gf_ops::{Change, Ids, ObjectId, Op, Start};
use serde_json::{Map, Value, put};
use std::alloc::{AllocError, Global};

/// The line of an operation, with no newline.
pub fn op_line(alloc: Global, op: &Op) -> Result<String, OutOfMemory>
    ensures text { IfOk result (λ line. string_bytes line ≡ op_text op.now) }
    ensures read_again { IfOk result (λ line. IsInRange op.now
        → denoted (string_bytes line) ≡ Ok op.now) }
{
    Ok(line(alloc, op)?)
}

/// The line of a command, with no newline.
pub fn script_line(alloc: Global, script: &ScriptLine) -> Result<String, OutOfMemory>
    ensures text { IfOk result (λ line. string_bytes line ≡ script_text script.now) }
    ensures read_again { IfOk result (λ line. IsScriptInRange script.now
        → script_denoted (string_bytes line) ≡ Ok script.now) }
{
    Ok(command_line(alloc, script)?)
}

/// Appends the text of a value that has no float, and a line end.
pub fn push_line(out: &mut Vec<u8>, alloc: Global, value: &Value) -> Result<(), AllocError>
    requires { has_float (view value.now) ≡ false }
    ensures { OnOk result (out.new.items ≡ out.old.items ++ json_line (view value.now)) }
{
    let text = value.to_string(alloc)?;
    out.extend_from_slice(text.as_bytes())?;
    out.push(b'\n')?;
    Ok(())
}

fn line(alloc: Global, op: &Op) -> Result<String, AllocError>
    ensures text { IfOk result (λ line. string_bytes line ≡ op_text op.now) }
    ensures read_again { IfOk result (λ line. IsInRange op.now
        → denoted (string_bytes line) ≡ Ok op.now) }
{
    let value = data_of(alloc, op)?;
    let line = value.to_string(alloc)?;
    Ok(line)
}

fn command_line(alloc: Global, script: &ScriptLine) -> Result<String, AllocError>
    ensures text { IfOk result (λ line. string_bytes line ≡ script_text script.now) }
    ensures read_again { IfOk result (λ line. IsScriptInRange script.now
        → script_denoted (string_bytes line) ≡ Ok script.now) }
{
    let value = script_data(alloc, script)?;
    let line = value.to_string(alloc)?;
    Ok(line)
}

fn data_of(alloc: Global, op: &Op) -> Result<Value, AllocError>
    ensures value { IfOk result (λ v. view v ≡ data_of op.now) }
    ensures eight { OnOk result (length op.now.past.0 ≡ 8) }
{
    match &op.change {
        Change::Create(start) => creation_data(alloc, op, start),
        Change::Set { object, value, aim } => setting_data(alloc, op, *object, value, aim),
    }
}

/// The line that creates an object.
fn creation_data(alloc: Global, op: &Op, start: &Start) -> Result<Value, AllocError>
    ensures value { IfOk result (λ v. view v
        ≡ creation_data (name_data op.now.id) (clock_data op.now.past) start.now start.now.form) }
    ensures eight { OnOk result (length op.now.past.0 ≡ 8) }
{
    let mut members = begun(alloc, op, "create")?;
    put_look(alloc, &mut members, start)?;
    put_form(alloc, &mut members, &start.form)?;
    Ok(Value::Object(members))
}

/// The members that each line of an operation has, with the word for what it does.
fn begun(alloc: Global, op: &Op, word: &str) -> Result<Map<String, Value>, AllocError>
    ensures value { IfOk result (λ ms. members_view ms.entries ≡ begun op.now word.now) }
    ensures eight { OnOk result (length op.now.past.0 ≡ 8) }
{
    let mut members = Map::new(alloc);
    put(&mut members, alloc, "id", name_data(alloc, op.id)?)?;
    put(&mut members, alloc, "op", Value::try_from_str(alloc, word)?)?;
    put(&mut members, alloc, "past", clock_data(alloc, &op.past)?)?;
    Ok(members)
}

/// The line that sets an attribute.
fn setting_data(
    alloc: Global,
    op: &Op,
    object: ObjectId,
    value: &gf_ops::Value,
    aim: &Ids,
) -> Result<Value, AllocError>
    ensures value { IfOk result (λ v. view v
        ≡ setting_data (name_data op.now.id) (clock_data op.now.past) object value.now aim.now) }
    ensures eight { OnOk result (length op.now.past.0 ≡ 8) }
{
    let mut members = begun(alloc, op, "set")?;
    put_setting(alloc, &mut members, object, value, aim)?;
    Ok(Value::Object(members))
}

fn script_data(alloc: Global, script: &ScriptLine) -> Result<Value, AllocError>
    ensures { IfOk result (λ v. view v ≡ script_data script.now) }
{
    let mut members = Map::new(alloc);
    put(&mut members, alloc, "site", Value::from(script.site))?;
    put_command(alloc, &mut members, &script.command)?;
    Ok(Value::Object(members))
}

fn put_command(
    alloc: Global,
    members: &mut Map<String, Value>,
    command: &Command,
) -> Result<(), AllocError>
    ensures { OnOk result (members_view members.new.entries
        ≡ put_all (command_members command.now) (members_view members.old.entries)) }
{
    match command {
        Command::Author(change) => put_authored(alloc, members, change),
        Command::Await(id) => {
            put(members, alloc, "do", Value::try_from_str(alloc, "await")?)?;
            put(members, alloc, "id", name_data(alloc, *id)?)
        }
    }
}

/// Puts the members of a command to make this change.
fn put_authored(
    alloc: Global,
    members: &mut Map<String, Value>,
    change: &Change,
) -> Result<(), AllocError>
    ensures { OnOk result (members_view members.new.entries
        ≡ put_all (authored_members change.now) (members_view members.old.entries)) }
{
    match change {
        Change::Create(start) => {
            put(members, alloc, "do", Value::try_from_str(alloc, "create")?)?;
            put_look(alloc, members, start)?;
            put_form(alloc, members, &start.form)
        }
        Change::Set { object, value, aim } => {
            put(members, alloc, "do", Value::try_from_str(alloc, "set")?)?;
            put_setting(alloc, members, *object, value, aim)
        }
    }
}
