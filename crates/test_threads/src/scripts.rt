//! Scripts as the table writes them, such as `box 3 4; await 2.1; 2.1 layer 3`. Between sites
//! stands ` / `.

ghost use Rattle.std.specs.Prelude.{◌≤◌, All, IfSome, vec_len};

use gf_json::Command;
use gf_session::Script;
use std::alloc::Global;
use test_kit::notation::{change, id};

/// `await 2.1`, or the change that is to be made.
fn command(alloc: Global, text: &str) -> Option<Command> {
    match text.split_once("await ") {
        Some((_, name)) => Some(Command::Await(id(name)?)),
        None => Some(Command::Author(change(alloc, text)?)),
    }
}

/// The commands of one site, at most 1,000.
pub(crate) fn script(alloc: Global, text: &str) -> Option<Script>
    ensures { IfSome result (λ s. vec_len s.0 ≤ 1000) }
{
    let mut commands = Vec::new(alloc);
    for part in text.split("; ") {
        commands.push(command(alloc, part)?).ok()?;
    }
    if commands.len() > 1_000 {
        return None;
    }
    Some(Script(commands))
}

/// The scripts of all sites.
pub(crate) fn scripts(alloc: Global, text: &str) -> Option<Vec<Script>>
    ensures { IfSome result (λ v. All (λ s. vec_len s.0 ≤ 1000) v.items) }
{
    let mut scripts = Vec::new(alloc);
    for part in text.split(" / ") {
        let script = script(alloc, part)?;
        scripts.push(script).ok()?;
    }
    Some(scripts)
}
