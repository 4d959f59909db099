//! Why a drawing has no creations.

use gf_base::OutOfMemory;
use gf_objects::FigureFault;
use thiserror::Error;

/// Why a drawing has no creations.
#[derive(Clone, Copy, Debug, PartialEq, Eq, Error)]
pub enum CreationError {
    /// The drawing has more than 10,000 figures, and a site makes no more operations.
    #[error("TooManyFigures")]
    TooManyFigures,
    /// The figure of this FIG object, counted from 1 with the colours, breaks a limit.
    #[error("figure object {0}: {1}")]
    Figure(u64, FigureFault),
    /// A growth of memory was refused.
    #[error("out of memory")]
    OutOfMemory,
}

impl From<OutOfMemory> for CreationError {
    ghost use Rattle.std.specs.Prelude.{◌≡◌};
    ghost use Rattle.gf_import.specs.declared.creation_error.CreationError.{CreationError};

    ghost from_gives = { λ _ e. e ≡ CreationError.OutOfMemory };

    fn from(_: OutOfMemory) -> CreationError {
        CreationError::OutOfMemory
    }
}
