//! Reads the lines of standard input as JSON and counts the objects among them. Any program that
//! reads operation lines does at least this.
#![tactic(auto)]

use gf_streams::{In, Source, TextLines, read_input};
use serde_json::Value;
use std::alloc::Global;
use std::fmt::Write;
use std::process::ExitCode;

fn main(rt: HostRuntime) -> ExitCode {
    let alloc = rt.alloc();
    let mut line = String::new(alloc);
    let told = match counted(alloc, &mut In::new(rt.reader())) {
        Some(count) => writeln!(line, "{count} objects"),
        None => writeln!(line, "give lines of JSON"),
    };
    match told {
        Ok(()) => {
            if rt.stdout().write_all(line.as_bytes()).is_ok() {
                ExitCode::from(0)
            } else {
                ExitCode::from(1)
            }
        }
        Err(_) => ExitCode::from(1),
    }
}

/// How many lines of a source are JSON objects, if all are JSON.
fn counted<R: Source>(alloc: Global, source: &mut R) -> Option<u64> {
    let bytes = read_input(alloc, source).ok()?;
    let mut lines = TextLines::new(bytes);
    let mut count = 0u64;
    while let Some((_, line)) = lines.first() {
        if Value::from_slice(alloc, line).ok()?.is_object() {
            count = count.saturating_add(1);
        }
        lines.advance();
    }
    Some(count)
}
