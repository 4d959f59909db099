//! From the lines of a session text to the scripts of its sites.

ghost use Rattle.std.specs.Prelude.{◌<◌, ◌↔◌, ◌∷◌, ℕ, List, [], length, IsTrue, IfOk, IfErr, OnOk};
ghost use Rattle.gf_session_run.specs.DenotedScripts.{AreScriptsOf, DenotesScripts};
ghost use Rattle.gf_session_run.specs.SessionSteps.{GainsCommand, HasNoRoomAt, HasScripts};
ghost use Rattle.gf_session_run.specs.SessionSteps.{RefusesScripts};

use gf_base::OutOfMemory;
use gf_json::{Command, ScriptLine, read_script};
use gf_replay::{LineCause, ReadingError, line_refusal};
use gf_streams::TextLines;
use gf_worker::Script;
use std::alloc::Global;

/// The most commands of a script.
const MOST_COMMANDS: usize = 1_000;

/// The scripts of this many sites that the lines of a text denote, the first that of site 1.
pub(crate) fn read_scripts(
    alloc: Global,
    text: Vec<u8>,
    sites: u8,
) -> Result<Vec<Script>, ReadingError>
    ensures ok { IfOk result (λ scripts. DenotesScripts sites text.items scripts.items) }
    ensures err { IfErr result (RefusesScripts sites text.items) }
{
    let Ok(mut scripts) = empty_scripts(alloc, sites) else {
        return Err(ReadingError::OutOfMemory);
    };
    let mut lines = TextLines::new(text);
    while let Some((number, line)) = lines.first() {
        take_line(alloc, &mut scripts, number, line)?;
        lines.advance();
    }
    Ok(scripts)
}

/// Scripts without commands, one for each of this many sites.
fn empty_scripts(alloc: Global, sites: u8) -> Result<Vec<Script>, OutOfMemory>
    ensures { IfOk result (λ scripts. AreScriptsOf sites [] scripts.items) }
{
    let mut scripts = Vec::new(alloc);
    for _ in 0..sites {
        scripts.push(Script(Vec::new(alloc)))?;
    }
    Ok(scripts)
}

/// Gives the command that a line denotes to the script of its site.
fn take_line(
    alloc: Global,
    scripts: &mut [Script],
    number: u64,
    line: &[u8],
) -> Result<(), ReadingError>
    ensures ok { (n : ℕ) (bytes : List ℕ) (left : List (ℕ × List ℕ))
        → HasScripts n bytes ((number, line.now) ∷ left) scripts.old
        → OnOk result (HasScripts n bytes left scripts.new) }
    ensures err { (n : ℕ) (bytes : List ℕ) (left : List (ℕ × List ℕ))
        → HasScripts n bytes ((number, line.now) ∷ left) scripts.old
        → IfErr result (RefusesScripts n bytes) }
{
    let ScriptLine { site, command } = match read_script(alloc, line) {
        Ok(read) => read,
        Err(fault) => return Err(line_refusal(number, fault)),
    };
    let index = usize::from(site) - 1;
    if is_full(scripts, index) {
        return Err(ReadingError::Line(number, LineCause::Range));
    }
    match give(scripts, index, command) {
        Ok(()) => Ok(()),
        Err(OutOfMemory) => Err(ReadingError::OutOfMemory),
    }
}

/// Whether no command more fits into the script with this index.
fn is_full(scripts: &[Script], index: usize) -> bool
    ensures { IsTrue result ↔ HasNoRoomAt scripts.now index }
{
    match scripts.get(index) {
        Some(script) => MOST_COMMANDS <= script.0.len(),
        None => true,
    }
}

/// Puts a command behind those of the script with this index.
fn give(scripts: &mut [Script], index: usize, command: Command) -> Result<(), OutOfMemory>
    requires { index < length scripts.old }
    ensures { OnOk result (GainsCommand scripts.old index command scripts.new) }
{
    scripts[index].0.push(command)?;
    Ok(())
}
