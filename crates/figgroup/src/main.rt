//! figgroup: figures drawn by a group, exported as FIG text or as pictures.
#![tactic(auto)]

use gf_command::{command, refuse_words};
use gf_streams::{In, Out};
use std::io;
use std::process::ExitCode;

/// Runs the words of the command line on the standard streams.
fn main(rt: HostRuntime) -> ExitCode {
    let alloc = rt.alloc();
    let mut faults = Out::new(rt.stderr());
    let status = match words(&rt) {
        Ok(words) => command(
            &rt,
            alloc,
            &words,
            &mut In::new(rt.reader()),
            &mut Out::new(rt.stdout()),
            &mut faults,
        ),
        Err(fault) => refuse_words(&fault, &mut faults),
    };
    ExitCode::from(status)
}

fn words(rt: &HostRuntime) -> io::Result<Vec<String>> {
    let words = std::env::args(rt)?.collect(rt.alloc())?;
    Ok(words)
}
