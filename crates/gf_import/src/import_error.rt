//! Why an import was refused.

ghost use Rattle.std.specs.Prelude.{◌≡◌};
ghost use Rattle.gf_import.specs.declared.import_error.ImportError.TheVariants as import_error;
ghost use Rattle.gf_import.specs.ImportRun.{of_import};
ghost use Rattle.gf_run.specs.declared.studio_error.StudioError.TheVariants as studio;

use gf_base::OutOfMemory;
use gf_fig_read::FigError;
use gf_objects::FigureFault;
use gf_run::{RunError, StudioError};
use thiserror::Error;

/// Why an import was refused.
#[derive(Clone, Copy, Debug, PartialEq, Eq, Error)]
pub enum ImportError {
    /// The run over the FIG text was refused.
    #[error("{0}")]
    Run(StudioError),
    /// The FIG text reads as no drawing, by a fault at the line of this number, counted from 1.
    #[error("line {0}: {1}")]
    Fig(u64, FigError),
    /// The drawing has more than 10,000 figures, and a site makes no more operations.
    #[error("TooManyFigures")]
    TooManyFigures,
    /// The figure of an object, counted from 1 with the colours, breaks a limit. The object begins
    /// on the line of this number, counted from 1.
    #[error("line {line}: figure object {object}: {fault}")]
    Figure {
        line: u64,
        object: u64,
        fault: FigureFault,
    },
}

impl From<StudioError> for ImportError {
    ghost from_gives = { λ fault e. e ≡ import_error.Run fault };

    fn from(fault: StudioError) -> ImportError {
        ImportError::Run(fault)
    }
}

impl From<OutOfMemory> for ImportError {
    ghost from_gives = { λ _ e. e ≡ import_error.Run studio.OutOfMemory };

    fn from(_: OutOfMemory) -> ImportError {
        ImportError::Run(StudioError::OutOfMemory)
    }
}

impl RunError for ImportError {
    ghost shared = { of_import };

    fn of_run(fault: StudioError) -> ImportError {
        ImportError::Run(fault)
    }
}
