//! From the bytes of a FIG text to the lines of the commands that create its figures.

ghost use Rattle.std.specs.Prelude.{◌≡◌, ◌++◌, ◌⊎◌, IfOk, IfErr, OnOk};
ghost use Rattle.gf_ops.specs.OperationOrder.{IsSite};
ghost use Rattle.gf_fig_tokens.specs.declared.faults.FigFault.TheVariants as fault;
ghost use Rattle.gf_fig_read.specs.FigGrammar.{Fails};
ghost use Rattle.gf_import.specs.CommandLines.{command_line};
ghost use Rattle.gf_import.specs.ImportRun.{HasNoCreations, Imports, RefusesImport};
ghost use Rattle.gf_import.specs.ImportSteps.{AreWritten, HasCreations, IsReadAgain};

use crate::{CreationError, ImportError, creations};
use gf_base::OutOfMemory;
use gf_fig_read::{FigError, fault_line, object_line, read_fig};
use gf_json::{Command, ScriptLine, script_line};
use gf_ops::Change;
use gf_run::{Answer, StudioError};
use std::alloc::Global;

/// The lines of the commands of a site that create the figures of a FIG text.
pub(crate) fn import(alloc: Global, fig: Vec<u8>, site: u8) -> Result<Answer<()>, ImportError>
    requires { IsSite site }
    ensures ok { IfOk result (λ lines. Imports site fig.items lines.text.items) }
    ensures err { IfErr result (RefusesImport fig.items) }
{
    let changes = changes_of(alloc, &fig)?;
    let text = write_commands(alloc, changes, site)?;
    Ok(Answer { text, value: () })
}

/// The creations of the figures of the drawing that a FIG text reads as.
fn changes_of(alloc: Global, fig: &[u8]) -> Result<Vec<Change>, ImportError>
    ensures ok { IfOk result (λ changes. HasCreations fig.now changes.items) }
    ensures err { IfErr result (RefusesImport fig.now) }
{
    match read_fig(alloc, fig) {
        Ok(drawing) => match creations(alloc, &drawing) {
            Ok(changes) => Ok(changes),
            Err(error) => Err(figure_refusal(alloc, fig, error)),
        },
        Err(error) => Err(fig_refusal(alloc, fig, error)),
    }
}

/// Why a FIG text with this fault is not imported.
fn fig_refusal(alloc: Global, fig: &[u8], error: FigError) -> ImportError
    requires { ((error.fault ≡ fault.OutOfMemory) × (error.object ≡ 0))
        ⊎ Fails fig.now error.fault error.object }
    ensures { RefusesImport fig.now result }
{
    match fault_line(alloc, fig, error) {
        Ok(Some(line)) => ImportError::Fig(line, error),
        // Each fault that a text has is reported at a line, so memory was refused.
        Ok(None) => ImportError::Run(StudioError::OutOfMemory),
        Err(OutOfMemory) => ImportError::Run(StudioError::OutOfMemory),
    }
}

/// Why a FIG text whose drawing has no creations for this reason is not imported.
fn figure_refusal(alloc: Global, fig: &[u8], error: CreationError) -> ImportError
    requires { HasNoCreations fig.now error }
    ensures { RefusesImport fig.now result }
{
    match error {
        CreationError::TooManyFigures => ImportError::TooManyFigures,
        CreationError::Figure(object, fault) => match object_line(alloc, fig, object) {
            Ok(Some(line)) => ImportError::Figure {
                line,
                object,
                fault,
            },
            Ok(None) => unreachable!(),
            Err(OutOfMemory) => ImportError::Run(StudioError::OutOfMemory),
        },
        CreationError::OutOfMemory => ImportError::Run(StudioError::OutOfMemory),
    }
}

/// The lines of the commands of a site to make these changes, in order.
fn write_commands(alloc: Global, changes: Vec<Change>, site: u8) -> Result<Vec<u8>, OutOfMemory>
    ensures { IfOk result (λ text. AreWritten site changes.items text.items) }
{
    let mut text = Vec::new(alloc);
    for change in changes {
        push_command(alloc, &mut text, site, change)?;
    }
    Ok(text)
}

/// Appends the line of the command of a site to make a change.
fn push_command(
    alloc: Global,
    text: &mut Vec<u8>,
    site: u8,
    change: Change,
) -> Result<(), OutOfMemory>
    ensures text { OnOk result (text.new.items ≡ text.old.items ++ command_line site change) }
    ensures again { OnOk result (IsReadAgain site change) }
{
    let command = Command::Author(change);
    let line = script_line(alloc, &ScriptLine { site, command })?;
    text.extend_from_slice(line.as_bytes())?;
    text.push(b'\n')?;
    Ok(())
}
