//! A box, and what two sites make of it at the same time: one colours it red, the other blue.

use anyhow::Result;
use gf_json::read_op;
use gf_ops::History;
use std::alloc::Global;

pub const LINES: [&str; 3] = [
    r#"{"op":"create","id":[1,1],"past":[0,0,0,0,0,0,0,0],"kind":"box","place":[0,0],"size":[3,1],"colour":"ffffff","layer":0,"shown":true}"#,
    r#"{"op":"set","id":[1,2],"past":[1,0,0,0,0,0,0,0],"object":[1,1],"set":"colour","to":"ff0000"}"#,
    r#"{"op":"set","id":[2,1],"past":[1,0,0,0,0,0,0,0],"object":[1,1],"set":"colour","to":"0000ff"}"#,
];

/// The history of both sites.
pub fn history(alloc: Global) -> Result<History> {
    let mut history = History::new(alloc);
    for line in LINES {
        history.add(read_op(alloc, line.as_bytes())?)?;
    }
    Ok(history)
}
