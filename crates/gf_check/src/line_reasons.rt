//! Why a line is no operation and no command.

ghost use Rattle.std.specs.Prelude.{◌≢◌};

use crate::forms::form_of;
use crate::json_reasons::json_reason;
use crate::keys::{Key, Keys, Sort, is_known, keys_of};
use crate::limits::limit_fault;
use crate::reasons::KeyReason;
use gf_base::OutOfMemory;
use gf_replay::LineCause;
use serde_json::{Map, Value};
use std::alloc::Global;

/// A key of more bytes is not shown.
const LONGEST_KEY: usize = 40;

/// What is wrong with a line that has this fault. The count is of the commands so far, and rises
/// where the line has the key of a command. The call takes time in proportion to the line, as
/// reading the line does.
pub(crate) fn line_reason(
    alloc: Global,
    line: &[u8],
    cause: LineCause,
    editor: Option<u8>,
    commands: &mut u64,
) -> Result<String, OutOfMemory> {
    match Value::from_slice(alloc, line) {
        Ok(value) => {
            if value.get("do").is_some() {
                *commands = commands.saturating_add(1);
                command_reason(alloc, &value, cause, editor, *commands)
            } else {
                Ok(format!(in alloc; "{}", operation_reason(&value, cause))?)
            }
        }
        Err(error) => {
            if error.is_memory() {
                return Err(OutOfMemory);
            }
            let reason = json_reason(alloc, line, error.is_eof(), error.column())?;
            Ok(String::from_str(alloc, reason.words())?)
        }
    }
}

/// What is wrong with the value of an operation line that has this fault.
fn operation_reason(line: &Value, cause: LineCause) -> KeyReason<'_> {
    match cause {
        LineCause::Field => field_reason(line, Sort::Operation),
        LineCause::Range => range_reason(line, Sort::Operation),
        LineCause::Json | LineCause::Clash => KeyReason::Unclear,
    }
}

/// What is wrong with the value of a line that has the key of a command. Where no site edits, that
/// it is a command.
fn command_reason(
    alloc: Global,
    line: &Value,
    cause: LineCause,
    editor: Option<u8>,
    number: u64,
) -> Result<String, OutOfMemory> {
    let Some(site) = editor else {
        return Ok(format!(in alloc; "{}", KeyReason::Command)?);
    };
    let reason = match cause {
        LineCause::Field => field_reason(line, Sort::Command),
        LineCause::Range => command_range(line, site),
        LineCause::Json | LineCause::Clash => KeyReason::Unclear,
    };
    Ok(format!(in alloc; "command {number}: {reason}")?)
}

/// The first number that is not within its limits, or else the other site of the command.
fn command_range(line: &Value, editor: u8) -> KeyReason<'static>
    ensures { result ≢ KeyReason.Unclear }
{
    match range_reason(line, Sort::Command) {
        KeyReason::Limits => match other_site(line, editor) {
            Some(site) => KeyReason::OtherSite(site, editor),
            None => KeyReason::Limits,
        },
        reason => reason,
    }
}

/// The site of the command, where it is not this one.
fn other_site(line: &Value, editor: u8) -> Option<i64> {
    let site = line.get("site")?.as_i64()?;
    if site == i64::from(editor) {
        None
    } else {
        Some(site)
    }
}

/// The first key at fault: unknown, missing, not of this kind of line, or of another form.
fn field_reason(line: &Value, sort: Sort) -> KeyReason<'_> {
    let Some(members) = line.as_object() else {
        return KeyReason::NoObject;
    };
    for name in members.keys() {
        if !is_known(sort, name) {
            return unknown(name);
        }
    }
    match keys_of(line, sort) {
        Ok(keys) => wrong_key(line, members, keys),
        Err(reason) => reason,
    }
}

/// The first of the keys that is at fault, where each key of the line is one of some line.
fn wrong_key<'a>(line: &'a Value, members: &'a Map<String, Value>, keys: Keys) -> KeyReason<'a> {
    if let Some(name) = missing(line, keys.beside) {
        return KeyReason::Missing(name);
    }
    if let Some(name) = missing(line, keys.change) {
        return KeyReason::Missing(name);
    }
    for name in members.keys() {
        if !keys.have_name(name) {
            return KeyReason::Misplaced(name);
        }
    }
    if let Some(key) = misshapen(line, keys.beside) {
        return KeyReason::OtherForm(key.name(), form_of(line, key).words());
    }
    if let Some(key) = misshapen(line, keys.change) {
        return KeyReason::OtherForm(key.name(), form_of(line, key).words());
    }
    KeyReason::Unclear
}

/// The first of the keys that the line has not.
fn missing(line: &Value, keys: &[Key]) -> Option<&'static str> {
    for key in keys {
        if line.get(key.name()).is_none() {
            return Some(key.name());
        }
    }
    None
}

/// The first of the keys whose value has another form.
fn misshapen(line: &Value, keys: &[Key]) -> Option<Key> {
    for key in keys {
        if let Some(value) = line.get(key.name()) {
            if !form_of(line, *key).suits(value) {
                return Some(*key);
            }
        }
    }
    None
}

/// The first number that is not within its limits.
fn range_reason(line: &Value, sort: Sort) -> KeyReason<'static>
    ensures { result ≢ KeyReason.Unclear }
{
    let Ok(keys) = keys_of(line, sort) else {
        return KeyReason::Limits;
    };
    if let Some(beyond) = limit_fault(line, keys.beside) {
        return KeyReason::Beyond(beyond);
    }
    match limit_fault(line, keys.change) {
        Some(beyond) => KeyReason::Beyond(beyond),
        None => KeyReason::Limits,
    }
}

/// The reason that no line has a key of this name.
fn unknown(name: &str) -> KeyReason<'_> {
    if name.len() <= LONGEST_KEY && name.bytes().all(is_plain) {
        KeyReason::UnknownKey(name)
    } else {
        KeyReason::OddKey(name.len())
    }
}

/// Whether a byte is shown as it is: printable, and neither a quotation mark nor a backslash.
fn is_plain(byte: u8) -> bool {
    b' ' <= byte && byte <= b'~' && byte != b'"' && byte != b'\\'
}
