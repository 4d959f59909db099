//! Splits, reads, or reads and writes again the FIG text of standard input, as the one word asks.
#![tactic(auto)]

use gf_fig_read::{FigError, read_fig};
use gf_fig_write::write_fig;
use gf_streams::{In, InputError, Out, Sink, Source, WriteError, read_input, write_whole};
use std::alloc::{AllocError, Global};
use std::process::ExitCode;
use thiserror::Error;

const USAGE: &[u8] = b"usage: bench_fig scan|read|again < TEXT\n";

/// Why a run was refused.
#[derive(Debug, Drop, Error)]
enum Fault {
    #[error(transparent)]
    Input(#[from] InputError),
    #[error(transparent)]
    Fig(#[from] FigError),
    #[error(transparent)]
    Write(#[from] WriteError),
}

fn main(rt: HostRuntime) -> ExitCode {
    let alloc = rt.alloc();
    let mut source = In::new(rt.reader());
    let mut output = Out::new(rt.stdout());
    let mut faults = Out::new(rt.stderr());
    let Some(word) = word(&rt) else {
        return misused(&mut faults);
    };
    let done = match word.as_str() {
        "scan" => scan(alloc, &mut source, &mut output),
        "read" => read(alloc, &mut source, &mut output),
        "again" => again(alloc, &mut source, &mut output),
        _ => return misused(&mut faults),
    };
    match done {
        Ok(()) => ExitCode::from(0),
        Err(fault) => refused(alloc, fault, &mut faults),
    }
}

/// The one word behind the program's name.
fn word(rt: &HostRuntime) -> Option<String> {
    let mut words: Vec<String> = std::env::args(rt).ok()?.collect(rt.alloc()).ok()?;
    if words.len() == 2 { words.pop() } else { None }
}

fn is_blank(b: u8) -> bool {
    b == b' ' || b == b'\t' || b == b'\r' || b == b'\n'
}

/// How many tokens a text has: what any reader of it finds out at least.
fn count_tokens(text: &[u8]) -> u64 {
    let mut count = 0u64;
    for token in text.split(|b| is_blank(*b)) {
        if !token.is_empty() {
            count = count.saturating_add(1);
        }
    }
    count
}

/// Tells how many tokens a source has.
fn scan<R: Source, W: Sink>(alloc: Global, source: &mut R, output: &mut W) -> Result<(), Fault> {
    let text = read_input(alloc, source)?;
    let count = count_tokens(&text);
    tell(output, format!(in alloc; "{count} tokens\n"))?;
    Ok(())
}

/// Tells how much is in the drawing that a source reads as.
fn read<R: Source, W: Sink>(alloc: Global, source: &mut R, output: &mut W) -> Result<(), Fault> {
    let text = read_input(alloc, source)?;
    let drawing = read_fig(alloc, &text)?;
    let (colours, figures) = (drawing.colours().len(), drawing.figures().len());
    tell(
        output,
        format!(in alloc; "{colours} colours, {figures} figures\n"),
    )?;
    Ok(())
}

/// Writes the drawing that a source reads as.
fn again<R: Source, W: Sink>(alloc: Global, source: &mut R, output: &mut W) -> Result<(), Fault> {
    let text = read_input(alloc, source)?;
    let drawing = read_fig(alloc, &text)?;
    write_fig(alloc, &drawing, output)?;
    Ok(())
}

/// Writes a line, if there was memory for it.
fn tell<W: Sink>(output: &mut W, line: Result<String, AllocError>) -> Result<(), WriteError> {
    let line = line?;
    write_whole(output, line.as_bytes())?;
    Ok(())
}

fn misused<E: Sink>(faults: &mut E) -> ExitCode {
    let _ = write_whole(faults, USAGE);
    ExitCode::from(2)
}

fn refused<E: Sink>(alloc: Global, fault: Fault, faults: &mut E) -> ExitCode {
    let _ = match format!(in alloc; "{fault}\n") {
        Ok(text) => write_whole(faults, text.as_bytes()),
        Err(_) => write_whole(faults, b"out of memory\n"),
    };
    ExitCode::from(1)
}
