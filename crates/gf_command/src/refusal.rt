//! Why a run of the program was refused.

use gf_edit::EditError;
use gf_import::ImportError;
use gf_run::StudioError;
use gf_serve::ServeError;
use gf_session_run::SessionRunError;
use gf_take_run::TakeRunError;
use thiserror::Error;

/// Why a run was refused, as the run says it.
#[derive(Debug, Drop, Error)]
pub(crate) enum Refusal {
    #[error(transparent)]
    Run(#[from] StudioError),
    #[error(transparent)]
    Edit(#[from] EditError),
    #[error(transparent)]
    Take(#[from] TakeRunError),
    #[error(transparent)]
    Import(#[from] ImportError),
    #[error(transparent)]
    Session(#[from] SessionRunError),
    #[error(transparent)]
    Serve(#[from] ServeError),
    /// An option that clap took is outside its limits.
    #[error("an option is out of range")]
    Options,
}
