//! A table of sessions: for each site the operations that it made, and its refused commands. Behind
//! these stands how many operations it has at the end.

use crate::scripts::scripts;
use gf_gate::{Gate, OpenGate};
use gf_session::{Done, Report, SessionError, run_session};
use std::alloc::Global;
use std::sync::Wait;
use std::test::Fail;
use std::thread::Threads;

const SESSIONS: [(&str, &str); 14] = [
    // The second waits for the box of the first, and for an operation that nobody makes.
    (
        "box 9 9 / await 1.1; 1.1 colour 0000ff; await 1.9",
        "1.1 has 2 / 2.1 3:NeverComes has 2 / ",
    ),
    // Each waits for the other in turn.
    (
        "box 9 9; await 2.1; 2.1 layer 3 / await 1.1; circle 3; await 1.2",
        "1.1 1.2 has 3 / 2.1 has 3 / ",
    ),
    ("await 1.1 / await 2.1", "1:OwnId has 0 / 1:OwnId has 0 / "),
    ("await 9.1 / box 9 9", "1:Range has 1 / 2.1 has 1 / "),
    (
        "box 0 9; circle 3 / circle 3",
        "1.1 1:Range has 2 / 2.1 has 2 / ",
    ),
    ("1.1 layer 3 / box 9 9", "1:NoObject has 1 / 2.1 has 1 / "),
    (
        "circle 3; 1.1 points 0,0 8,0 0,8 / box 9 9",
        "1.1 2:WrongKind has 2 / 2.1 has 2 / ",
    ),
    // An aim at an operation that nobody made.
    (
        "box 9 9 / await 1.1; 1.1 colour 0000ff; 1.1 layer 1 aim 1.9",
        "1.1 has 2 / 2.1 3:BadAim has 2 / ",
    ),
    // The same aim beside a third site, which waits for the box alone.
    (
        "box 10 10, colour ff0000 / await 1.1; 1.1 colour 0000ff; 1.1 layer 1 aim 1.9 / await 1.1",
        "1.1 has 2 / 2.1 3:BadAim has 2 / has 2 / ",
    ),
    // A chain: the third waits for what the second makes of the first one's box.
    (
        "box 9 9; await 3.1; 3.1 layer 4 / await 1.1; 1.1 layer 3 / await 2.1; circle 3; await 2.2",
        "1.1 1.2 has 4 / 2.1 has 4 / 3.1 3:NeverComes has 4 / ",
    ),
    (
        "box 9 9 / await 3.1; 3.1 layer 5 / box 8 8",
        "1.1 has 3 / 2.1 has 3 / 3.1 has 3 / ",
    ),
    (
        "box 9 9 / box 9 9 / box 9 9 / box 9 9 / box 9 9 / box 9 9 / box 9 9 / box 9 9",
        "1.1 has 8 / 2.1 has 8 / 3.1 has 8 / 4.1 has 8 / 5.1 has 8 / 6.1 has 8 / 7.1 has 8 \
         / 8.1 has 8 / ",
    ),
    ("box 9 9", "Sites"),
    (
        "box 9 9 / box 9 9 / box 9 9 / box 9 9 / box 9 9 / box 9 9 / box 9 9 / box 9 9 / box 9 9",
        "Sites",
    ),
];

/// What became of the commands of a site.
pub(crate) fn reported(alloc: Global, report: &Report) -> Option<String> {
    let mut text = String::new(alloc);
    for id in report.accepted.iter() {
        let word = format!(in alloc; "{id} ").ok()?;
        text.push_str(word.as_str()).ok()?;
    }
    for refused in report.refused.iter() {
        let word = format!(in alloc; "{}:{:?} ", refused.command, refused.cause).ok()?;
        text.push_str(word.as_str()).ok()?;
    }
    Some(text)
}

/// What one site came to.
fn told(alloc: Global, done: &Done) -> Option<String> {
    let report = reported(alloc, &done.report)?;
    format!(in alloc; "{report}has {} / ", done.site.history().ops().len()).ok()
}

/// What all sites came to.
fn all_told(alloc: Global, dones: &[Done]) -> Option<String> {
    let mut text = String::new(alloc);
    for done in dones {
        text.push_str(told(alloc, done)?.as_str()).ok()?;
    }
    Some(text)
}

/// What the session of these scripts gives behind this gate.
pub(crate) fn ran<R: Threads + Wait + Sync, G: Gate + Sync>(
    rt: &R,
    alloc: Global,
    gate: &G,
    text: &str,
) -> Option<String> {
    match run_session(rt, alloc, scripts(alloc, text)?, gate) {
        Ok(dones) => all_told(alloc, dones.as_slice()),
        Err(SessionError::Sites) => String::from_str(alloc, "Sites").ok(),
        Err(SessionError::OutOfMemory) => None,
    }
}

#[test]
fn each_session_has_its_outcome(rt: HostRuntime) -> Result<(), Fail> {
    for (text, want) in SESSIONS {
        let Some(outcome) = ran(&rt, rt.alloc(), &OpenGate, text) else {
            return Err(Fail::new(text));
        };
        assert_eq!(rt; outcome.as_str(), want, "{text}");
    }
    Ok(())
}

/// A script of 1,000 boxes, and one that awaits the last of them.
fn long(alloc: Global) -> Option<String> {
    let mut text = String::new(alloc);
    for _ in 1..1_000u32 {
        text.push_str("box 9 9; ").ok()?;
    }
    text.push_str("box 9 9 / await 1.1000").ok()?;
    Some(text)
}

#[test]
fn a_thousand_operations_come(rt: HostRuntime) -> Result<(), Fail> {
    let Some(text) = long(rt.alloc()) else {
        return Err(Fail::new("no memory"));
    };
    let Some(outcome) = ran(&rt, rt.alloc(), &OpenGate, text.as_str()) else {
        return Err(Fail::new("no session"));
    };
    assert!(rt; outcome.ends_with("1.999 1.1000 has 1000 / has 1000 / "));
    Ok(())
}
