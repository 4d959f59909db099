//! What lines of JSON denote, which are refused, and how they are written.

use gf_json::{Command, LineError, ScriptLine, op_line, read_op, read_script, script_line};
use gf_ops::Op;
use std::alloc::Global;
use test_kit::notation;
use test_kit::notation::{unescaped, yes};

/// The answer to a question on lines.
pub(crate) fn answer(alloc: Global, verb: &str, text: &str) -> Option<String> {
    match verb {
        "denotes" => denotes(alloc, text),
        "written" => written(alloc, text),
        "writes" => writes(alloc, text),
        "line" => changed(alloc, text),
        "bytes" => bytes(alloc, text),
        "aim" => aimed(alloc, text),
        _ => None,
    }
}

/// Whether the line before ` as ` denotes what stands behind it.
fn denotes(alloc: Global, text: &str) -> Option<String> {
    let text = unescaped(alloc, text)?;
    let (line, what) = text.as_str().split_once(" as ")?;
    let denoted = match what.strip_prefix("site ") {
        Some(rest) => is_command(alloc, &read_script(alloc, line.as_bytes()).ok()?, rest)?,
        None => is_operation(alloc, &read_op(alloc, line.as_bytes()).ok()?, what)?,
    };
    String::from_str(alloc, yes(denoted)).ok()
}

fn is_command(alloc: Global, read: &ScriptLine, what: &str) -> Option<bool> {
    let want = script(alloc, what)?;
    Some(read.site == want.site && is_same(&read.command, &want.command))
}

fn is_same(a: &Command, b: &Command) -> bool {
    match (a, b) {
        (Command::Author(a), Command::Author(b)) => a == b,
        (Command::Await(a), Command::Await(b)) => a == b,
        _ => false,
    }
}

fn is_operation(alloc: Global, read: &Op, what: &str) -> Option<bool> {
    Some(notation::operation(alloc, what)? == *read)
}

/// `2 await 1.1`, or a site and the change that it makes.
fn script(alloc: Global, text: &str) -> Option<ScriptLine> {
    let (site, what) = text.split_once(' ')?;
    let site = site.parse().ok()?;
    Some(ScriptLine {
        site,
        command: command(alloc, what)?,
    })
}

fn command(alloc: Global, text: &str) -> Option<Command> {
    match text.strip_prefix("await ") {
        Some(id) => Some(Command::Await(notation::id(id)?)),
        None => Some(Command::Author(notation::change(alloc, text)?)),
    }
}

/// Whether the line of the operation that a line denotes is this line.
fn written(alloc: Global, line: &str) -> Option<String> {
    let op = read_op(alloc, line.as_bytes()).ok()?;
    let again = op_line(alloc, &op).ok()?;
    String::from_str(alloc, yes(again.as_str() == line)).ok()
}

/// The line of a command.
fn writes(alloc: Global, text: &str) -> Option<String> {
    script_line(alloc, &script(alloc, text)?).ok()
}

/// Of `box: 400] -> 0]`, the answer to the line `box` with `0]` in the place of its first `400]`.
fn changed(alloc: Global, text: &str) -> Option<String> {
    let (name, change) = text.split_once(": ").unwrap_or((text, ""));
    let (part, new) = change.split_once(" ->").unwrap_or((change, ""));
    let line = named(name)?.replacen(alloc, part, new.trim(), 1).ok()?;
    if name.starts_with("do ") {
        told(alloc, script_fault(alloc, line.as_bytes()))
    } else {
        told(alloc, op_fault(alloc, line.as_bytes()))
    }
}

fn op_fault(alloc: Global, line: &[u8]) -> Option<LineError> {
    read_op(alloc, line).err()
}

fn script_fault(alloc: Global, line: &[u8]) -> Option<LineError> {
    read_script(alloc, line).err()
}

fn told(alloc: Global, fault: Option<LineError>) -> Option<String> {
    match fault {
        Some(fault) => format!(in alloc; "{fault}").ok(),
        None => String::from_str(alloc, "ok").ok(),
    }
}

/// The line of this name.
fn named(name: &str) -> Option<&'static str> {
    match name {
        "box" => Some(
            r#"{"op":"create","id":[1,1],"past":[0,0,0,0,0,0,0,0],"kind":"box","place":[100,200],"size":[300,400],"colour":"ff0000","layer":0,"shown":true}"#,
        ),
        "circle" => Some(
            r#"{"op":"create","id":[1,1],"past":[0,0,0,0,0,0,0,0],"kind":"circle","place":[100,200],"size":[7,7],"colour":"ff0000","layer":0,"shown":true}"#,
        ),
        "polygon" => Some(
            r#"{"op":"create","id":[1,1],"past":[0,0,0,0,0,0,0,0],"kind":"polygon","place":[100,200],"points":[[0,0],[10,-20],[0,30]],"colour":"ff0000","layer":0,"shown":true}"#,
        ),
        "set" => Some(
            r#"{"op":"set","id":[1,2],"past":[1,0,0,0,0,0,0,0],"object":[1,1],"set":"colour","to":"0000ff"}"#,
        ),
        "do create" => Some(
            r#"{"site":1,"do":"create","kind":"box","place":[0,0],"size":[10,10],"colour":"ff0000","layer":0,"shown":true}"#,
        ),
        "do set" => Some(r#"{"site":2,"do":"set","object":[1,1],"set":"colour","to":"0000ff"}"#),
        "do await" => Some(r#"{"site":2,"do":"await","id":[1,9]}"#),
        _ => None,
    }
}

/// The fault that both readers find in a line of bytes. Each character stands for one.
fn bytes(alloc: Global, text: &str) -> Option<String> {
    let mut line = Vec::new(alloc);
    for letter in text.chars() {
        line.push(u8::try_from(u32::from(letter)).ok()?).ok()?;
    }
    let fault = op_fault(alloc, &line)?;
    if script_fault(alloc, &line)? == fault {
        told(alloc, Some(fault))
    } else {
        None
    }
}

/// The answer to a line whose aim has this many ids.
fn aimed(alloc: Global, count: &str) -> Option<String> {
    let count: u32 = count.parse().ok()?;
    let mut line = String::from_str(
        alloc,
        r#"{"op":"set","id":[1,2],"past":[1,0,0,0,0,0,0,0],"object":[1,1],"set":"layer","to":0,"aim":[[1,1]"#,
    )
    .ok()?;
    for seq in 2..=count {
        let id = format!(in alloc; ",[1,{seq}]").ok()?;
        line.push_str(id.as_str()).ok()?;
    }
    line.push_str("]}").ok()?;
    told(alloc, op_fault(alloc, line.as_bytes()))
}
