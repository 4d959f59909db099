//! Why the run over a session text was refused.

ghost use Rattle.std.specs.Prelude.{◌≡◌};
ghost use Rattle.gf_run.specs.Refusals.{of_reading};
ghost use Rattle.gf_session_run.specs.declared.session_run_error.SessionRunError.TheVariants as run;
ghost use Rattle.gf_session_run.specs.ErrorTexts.{error_text};
ghost use Rattle.gf_session_run.specs.SessionRun.{of_session};

use gf_replay::ReadingError;
use gf_run::{RunError, StudioError};
use gf_session::SessionError;
use std::fmt;

/// Why the run over a session text was refused.
#[derive(Clone, Copy, Debug, PartialEq, Eq)]
pub enum SessionRunError {
    /// The run over the script lines was refused.
    Run(StudioError),
    /// The session was refused.
    Session(SessionError),
}

impl fmt::Display for SessionRunError {
    ghost output = { error_text };

    fn fmt<W: fmt::Write>(&self, f: &mut fmt::Formatter<W>) -> fmt::Result {
        match self {
            SessionRunError::Run(error) => write!(f, "{error}"),
            SessionRunError::Session(error) => write!(f, "{error}"),
        }
    }
}

impl std::error::Error for SessionRunError {}

impl From<StudioError> for SessionRunError {
    ghost from_gives = { λ fault e. e ≡ run.Run fault };

    fn from(fault: StudioError) -> SessionRunError {
        SessionRunError::Run(fault)
    }
}

impl From<ReadingError> for SessionRunError {
    ghost from_gives = { λ fault e. e ≡ run.Run (of_reading fault) };

    fn from(fault: ReadingError) -> SessionRunError {
        SessionRunError::Run(StudioError::from(fault))
    }
}

impl From<SessionError> for SessionRunError {
    ghost from_gives = { λ fault e. e ≡ run.Session fault };

    fn from(fault: SessionError) -> SessionRunError {
        SessionRunError::Session(fault)
    }
}

impl RunError for SessionRunError {
    ghost shared = { of_session };

    fn of_run(fault: StudioError) -> SessionRunError {
        SessionRunError::Run(fault)
    }
}
