//! The bytes of a reply.

ghost use Rattle.std.specs.Prelude.{◌≡◌, ◌++◌, IfOk, false};
ghost use Rattle.serde_json.specs.View.{view};
ghost use Rattle.gf_json.specs.WrittenValues.{name_data};
ghost use Rattle.gf_json.specs.Notations.{json_line};
ghost use Rattle.gf_serve.specs.ReplyTexts.{IsReplyText, arrival_data, is_clean, made_data};
ghost use Rattle.gf_serve.specs.ReplyTexts.{named_data, objects_data, refused_data, refused_text};
ghost use Rattle.gf_serve.specs.ReplyTexts.{state_data, taken_data};
ghost use Rattle.serde_json.specs.Written.{has_float};

use crate::{Arrival, Refusal, Reply};
use gf_base::OutOfMemory;
use gf_edit::Made;
use gf_json::{name_data, push_line};
use gf_ops::ObjectId;
use gf_status::State;
use gf_studio::NamedRun;
use gf_take_run::Taken;
use serde_json::{Map, Value, put};
use std::alloc::{AllocError, Global};

/// The bytes of a reply: a line of JSON, and as many bytes behind it as it says.
pub(crate) fn reply_text(alloc: Global, reply: &Reply) -> Result<Vec<u8>, OutOfMemory>
    ensures { IfOk result (λ text. IsReplyText reply.now text.items) }
{
    match reply {
        Reply::Lines(came) => with_body(alloc, &arrival_data(alloc, *came)?, b""),
        Reply::Taken(answer) => {
            let data = taken_data(alloc, answer.text.len(), &answer.value)?;
            with_body(alloc, &data, &answer.text)
        }
        Reply::Named(answer) => {
            let data = named_data(alloc, answer.text.len(), &answer.value)?;
            with_body(alloc, &data, &answer.text)
        }
        Reply::Status(answer) => {
            let data = state_data(alloc, answer.text.len(), answer.value)?;
            with_body(alloc, &data, &answer.text)
        }
        Reply::Refused(why) => {
            let words = format!(in alloc; "{why}")?;
            refused_text(alloc, words.as_bytes())
        }
    }
}

/// A line of JSON with a body behind it.
fn with_body(alloc: Global, line: &Value, body: &[u8]) -> Result<Vec<u8>, OutOfMemory>
    requires { has_float (view line.now) ≡ false }
    ensures { IfOk result (λ text. text.items ≡ json_line (view line.now) ++ body.now) }
{
    let mut text = Vec::new(alloc);
    push_line(&mut text, alloc, line)?;
    text.extend_from_slice(body)?;
    Ok(text)
}

/// A refusal in these words.
pub(crate) fn refused_text(alloc: Global, words: &[u8]) -> Result<Vec<u8>, OutOfMemory>
    ensures { IfOk result (λ text. text.items ≡ refused_text words.now) }
{
    with_body(alloc, &refused_data(alloc, words.len())?, words)
}

fn refused_data(alloc: Global, bytes: usize) -> Result<Value, AllocError>
    ensures { IfOk result (λ v. view v ≡ refused_data bytes) }
{
    let mut members = Map::new(alloc);
    put(&mut members, alloc, "bytes", Value::from(bytes as u64))?;
    put(&mut members, alloc, "refused", Value::Bool(true))?;
    Ok(Value::Object(members))
}

fn arrival_data(alloc: Global, came: Arrival) -> Result<Value, AllocError>
    ensures { IfOk result (λ v. view v ≡ arrival_data came) }
{
    let mut members = Map::new(alloc);
    put(&mut members, alloc, "bytes", Value::from(0u64))?;
    put(&mut members, alloc, "new", Value::from(came.new as u64))?;
    put(
        &mut members,
        alloc,
        "waiting",
        Value::from(came.waiting as u64),
    )?;
    Ok(Value::Object(members))
}

fn taken_data(alloc: Global, bytes: usize, taken: &Taken) -> Result<Value, AllocError>
    ensures { IfOk result (λ v. view v ≡ taken_data bytes taken.now) }
{
    let mut members = Map::new(alloc);
    put(&mut members, alloc, "bytes", Value::from(bytes as u64))?;
    put(
        &mut members,
        alloc,
        "changed",
        Value::from(taken.changed as u64),
    )?;
    put(
        &mut members,
        alloc,
        "drawn",
        Value::from(taken.drawn as u64),
    )?;
    put(
        &mut members,
        alloc,
        "hidden",
        Value::from(taken.hidden as u64),
    )?;
    put(&mut members, alloc, "made", made_data(alloc, taken.made)?)?;
    put(&mut members, alloc, "since", made_data(alloc, taken.since)?)?;
    put(
        &mut members,
        alloc,
        "thin",
        objects_data(alloc, &taken.thin)?,
    )?;
    Ok(Value::Object(members))
}

fn named_data(alloc: Global, bytes: usize, named: &NamedRun) -> Result<Value, AllocError>
    ensures { IfOk result (λ v. view v ≡ named_data bytes named.now) }
{
    let mut members = Map::new(alloc);
    put(&mut members, alloc, "bytes", Value::from(bytes as u64))?;
    put(
        &mut members,
        alloc,
        "thin",
        objects_data(alloc, &named.thin)?,
    )?;
    put(
        &mut members,
        alloc,
        "waiting",
        Value::from(named.waiting as u64),
    )?;
    Ok(Value::Object(members))
}

fn state_data(alloc: Global, bytes: usize, state: State) -> Result<Value, AllocError>
    ensures { IfOk result (λ v. view v ≡ state_data bytes state) }
{
    let mut members = Map::new(alloc);
    put(&mut members, alloc, "bytes", Value::from(bytes as u64))?;
    put(&mut members, alloc, "clean", Value::Bool(is_clean(state)))?;
    Ok(Value::Object(members))
}

fn is_clean(state: State) -> bool
    ensures { result ≡ is_clean state }
{
    match state {
        State::Clean => true,
        State::Open => false,
    }
}

/// The first and the last of some operations, if there are any.
fn made_data(alloc: Global, made: Option<Made>) -> Result<Value, AllocError>
    ensures { IfOk result (λ v. view v ≡ made_data made) }
{
    let mut ends = Vec::new(alloc);
    if let Some(made) = made {
        ends.push(name_data(alloc, made.first)?)?;
        ends.push(name_data(alloc, made.last)?)?;
    }
    Ok(Value::Array(ends))
}

/// The ids of objects.
fn objects_data(alloc: Global, objects: &[ObjectId]) -> Result<Value, AllocError>
    ensures { IfOk result (λ v. view v ≡ objects_data objects.now) }
{
    let mut values = Vec::new(alloc);
    for object in objects {
        values.push(name_data(alloc, object.0)?)?;
    }
    Ok(Value::Array(values))
}
