//! What a line of a request asks for, and how many bytes stand behind it.

ghost use Rattle.std.specs.Prelude.{◌≡◌, ◌≤◌, IfOk, IfSome, option_map};
ghost use Rattle.gf_ops.specs.OperationOrder.{IsSite};
ghost use Rattle.serde_json.specs.View.{view};
ghost use Rattle.gf_serve.specs.Requests.{HasSite, after_at, asked, between, body_bytes, flag_at};
ghost use Rattle.gf_serve.specs.Requests.{is_bare, is_status, is_take, json, lines_of, named_of};
ghost use Rattle.gf_serve.specs.Requests.{notation_of, present, site_at, status_of, take_of};

use gf_base::OutOfMemory;
use gf_json::{Notation, has_count, says};
use gf_streams::MOST_INPUT_BYTES;
use gf_take_run::TakeRequest;
use serde_json::Value;
use std::alloc::Global;

/// What a request asks for, whatever its body is.
#[derive(Clone, Copy)]
pub enum Task {
    Lines,
    Take(TakeRequest),
    Named,
    Status(Notation),
}

/// The value of a line, if it is JSON.
pub(crate) fn json(alloc: Global, line: &[u8]) -> Result<Option<Value>, OutOfMemory>
    ensures { IfOk result (λ value. option_map view value ≡ json line.now) }
{
    match Value::from_slice(alloc, line) {
        Ok(value) => Ok(Some(value)),
        Err(error) => {
            if error.is_memory() {
                Err(OutOfMemory)
            } else {
                Ok(None)
            }
        }
    }
}

/// How many bytes stand behind the line of this value: as many as it says, or none.
pub(crate) fn body_bytes(line: &Value) -> Option<u64>
    ensures bytes { result ≡ body_bytes (view line.now) }
    ensures within { IfSome result (λ n. n ≤ MOST_INPUT_BYTES) }
{
    line.as_object()?;
    match line.get("bytes") {
        Some(value) => between(value, 0, MOST_INPUT_BYTES as u64),
        None => Some(0),
    }
}

/// What the line of this value asks for, if that is a request.
pub(crate) fn asked(line: &Value) -> Option<Task>
    ensures asked { result ≡ asked (view line.now) }
    ensures in_range { IfSome result HasSite }
{
    if says(line, "do", "lines") {
        lines_of(line)
    } else if says(line, "do", "take") {
        take_of(line)
    } else if says(line, "do", "named") {
        named_of(line)
    } else if says(line, "do", "status") {
        status_of(line)
    } else {
        None
    }
}

fn lines_of(line: &Value) -> Option<Task>
    ensures lines { result ≡ lines_of (view line.now) }
    ensures in_range { IfSome result HasSite }
{
    if has_count(line, 1 + present(line, "bytes")) {
        Some(Task::Lines)
    } else {
        None
    }
}

fn named_of(line: &Value) -> Option<Task>
    ensures named { result ≡ named_of (view line.now) }
    ensures in_range { IfSome result HasSite }
{
    if has_count(line, 1 + present(line, "bytes")) && is_bare(line) {
        Some(Task::Named)
    } else {
        None
    }
}

/// Whether nothing stands behind a line.
fn is_bare(line: &Value) -> bool
    ensures { result ≡ is_bare (view line.now) }
{
    match body_bytes(line) {
        Some(bytes) => bytes == 0,
        None => false,
    }
}

fn status_of(line: &Value) -> Option<Task>
    ensures status { result ≡ status_of (view line.now) }
    ensures in_range { IfSome result HasSite }
{
    if !is_status(line) {
        return None;
    }
    match flag_at(line, "json") {
        Some(is_json) => Some(Task::Status(notation_of(is_json))),
        None => None,
    }
}

/// Whether a line that asks for a status has no key but its own, and nothing behind it.
fn is_status(line: &Value) -> bool
    ensures { result ≡ is_status (view line.now) }
{
    has_count(line, 1 + present(line, "bytes") + present(line, "json")) && is_bare(line)
}

fn notation_of(is_json: bool) -> Notation
    ensures { result ≡ notation_of is_json }
{
    if is_json {
        Notation::Json
    } else {
        Notation::Words
    }
}

fn take_of(line: &Value) -> Option<Task>
    ensures take { result ≡ take_of (view line.now) }
    ensures in_range { IfSome result HasSite }
{
    if !is_take(line) {
        return None;
    }
    match (site_at(line), after_at(line), flag_at(line, "named")) {
        (Some(site), Some(after), Some(named)) => Some(Task::Take(TakeRequest {
            site,
            after,
            named,
        })),
        _ => None,
    }
}

/// Whether a line that asks for a take has no key but its own.
fn is_take(line: &Value) -> bool
    ensures { result ≡ is_take (view line.now) }
{
    let optional = present(line, "after") + present(line, "named");
    has_count(line, 2 + present(line, "bytes") + optional)
}

/// How many members a line has at a key.
fn present(line: &Value, key: &str) -> usize
    ensures is { result ≡ present key.now (view line.now) }
    ensures within { result ≤ 1 }
{
    if line.get(key).is_some() { 1 } else { 0 }
}

#[tactic(auto, using(std::proofs::lemmas::Int::ints))]
fn site_at(line: &Value) -> Option<u8>
    ensures site { result ≡ site_at (view line.now) }
    ensures within { IfSome result IsSite }
{
    match line.get("site") {
        Some(value) => match between(value, 1, 8) {
            Some(site) => Some(site as u8),
            None => None,
        },
        None => None,
    }
}

/// The number at the key `after`, if there is one: None inside where there is no such key.
#[tactic(auto, using(std::proofs::lemmas::Int::ints))]
fn after_at(line: &Value) -> Option<Option<u32>>
    ensures { result ≡ after_at (view line.now) }
{
    match line.get("after") {
        Some(value) => match between(value, 0, 10_000) {
            Some(after) => Some(Some(after as u32)),
            None => None,
        },
        None => Some(None),
    }
}

/// Whether true stands at a key; false where there is no such key. None where no such value is.
fn flag_at(line: &Value, key: &str) -> Option<bool>
    ensures { result ≡ flag_at key.now (view line.now) }
{
    match line.get(key) {
        Some(value) => value.as_bool(),
        None => Some(false),
    }
}

/// The number, where it is one from `low` to `high`.
fn between(value: &Value, low: u64, high: u64) -> Option<u64>
    ensures is { result ≡ between low high (view value.now) }
    ensures within { IfSome result (λ n. (low ≤ n) × (n ≤ high)) }
{
    match value.as_u64() {
        Some(n) => { if low <= n && n <= high { Some(n) } else { None } }
        None => None,
    }
}
