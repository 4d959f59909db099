//! Why an edit was refused.

ghost use Rattle.std.specs.Prelude.{◌≡◌};
ghost use Rattle.gf_edit.specs.declared.edit_error.EditError.TheVariants as edit;
ghost use Rattle.gf_edit.specs.EditRun.{of_edit};
ghost use Rattle.gf_run.specs.Refusals.{of_reading};

use gf_ops::OpId;
use gf_replay::ReadingError;
use gf_run::{RunError, StudioError};
use gf_site::Cause;
use thiserror::Error;

/// Why an edit was refused.
#[derive(Clone, Copy, Debug, PartialEq, Eq, Error)]
pub enum EditError {
    /// The run over the operation lines was refused.
    #[error("{0}")]
    Run(StudioError),
    /// The first operation waits for the second one. The first one is of the site that edits, or
    /// knows more of its operations than were read. The next number of the site is then not known.
    #[error("operation {0} waits for {1}")]
    Waits(OpId, OpId),
    /// The command of the line of this number, counted from 1, was refused.
    #[error("line {}: {}", .0, cause_text(.1))]
    Refused(u64, Cause),
    /// The line of this number, counted from 1, keeps versions that hold some operations. No
    /// visible version of the object holds them.
    #[error("line {0}: NoVersion")]
    NoVersion(u64),
}

fn cause_text(cause: &Cause) -> &'static str {
    match cause {
        Cause::Exhausted => "Exhausted",
        Cause::Range => "Range",
        Cause::NoObject => "NoObject",
        Cause::WrongKind => "WrongKind",
        Cause::BadAim => "BadAim",
        Cause::OwnId => "OwnId",
        Cause::NeverComes => "NeverComes",
    }
}

impl From<StudioError> for EditError {
    ghost from_gives = { λ fault e. e ≡ edit.Run fault };

    fn from(fault: StudioError) -> EditError {
        EditError::Run(fault)
    }
}

impl From<ReadingError> for EditError {
    ghost from_gives = { λ fault e. e ≡ edit.Run (of_reading fault) };

    fn from(fault: ReadingError) -> EditError {
        EditError::Run(StudioError::from(fault))
    }
}

impl RunError for EditError {
    ghost shared = { of_edit };

    fn of_run(fault: StudioError) -> EditError {
        EditError::Run(fault)
    }
}
