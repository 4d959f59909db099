//! Why a line is no JSON.

use crate::reasons::JsonReason;
use gf_base::OutOfMemory;
use serde_json::Value;
use std::alloc::Global;

/// Why a line is no JSON: it may be cut short, and the fault is met at this column.
pub(crate) fn json_reason(
    alloc: Global,
    line: &[u8],
    is_short: bool,
    column: usize,
) -> Result<JsonReason, OutOfMemory> {
    if line.starts_with(b"\xef\xbb\xbf") {
        return Ok(JsonReason::ByteOrderMark);
    }
    if is_marker(line) {
        return Ok(JsonReason::Marker);
    }
    if std::str::from_utf8(line).is_err() {
        return Ok(JsonReason::NoUtf8);
    }
    if !is_short && ends_before(alloc, line, column)? {
        return Ok(JsonReason::MoreBehind);
    }
    if begins_within(line) {
        return Ok(JsonReason::BeginsWithin);
    }
    if is_short {
        Ok(JsonReason::DoesNotEnd)
    } else {
        Ok(JsonReason::NoValue)
    }
}

/// Whether the line begins as git begins the lines that part two sides of a conflict.
fn is_marker(line: &[u8]) -> bool {
    line.starts_with(b"<<<<<<<")
        || line.starts_with(b"|||||||")
        || line.starts_with(b"=======")
        || line.starts_with(b">>>>>>>")
}

/// Whether the bytes before this column are one object.
fn ends_before(alloc: Global, line: &[u8], column: usize) -> Result<bool, OutOfMemory> {
    match line.get(..column.saturating_sub(1)) {
        Some(front) => is_object(alloc, front),
        None => Ok(false),
    }
}

/// Whether these bytes are one object.
fn is_object(alloc: Global, bytes: &[u8]) -> Result<bool, OutOfMemory> {
    match Value::from_slice(alloc, bytes) {
        Ok(value) => Ok(value.is_object()),
        Err(error) => {
            if error.is_memory() {
                Err(OutOfMemory)
            } else {
                Ok(false)
            }
        }
    }
}

/// Whether the first byte that is no blank is `{`, and another one stands behind it.
fn begins_within(line: &[u8]) -> bool {
    let mut begun = false;
    for byte in line {
        match *byte {
            b' ' | b'\t' | b'\r' if !begun => {}
            b'{' if begun => return true,
            b'{' => begun = true,
            _ if begun => {}
            _ => return false,
        }
    }
    false
}
