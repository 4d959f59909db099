//! Why nothing is taken of a drawing that was read.

ghost use Rattle.std.specs.Prelude.{◌≡◌};
ghost use Rattle.gf_take_run.specs.declared.drawing_error.DrawingError.TheVariants as error;
ghost use Rattle.gf_take_run.specs.TakeSteps.{told};

use crate::{BrokenLimit, TakeRunError};
use gf_base::OutOfMemory;
use gf_ops::OpId;

/// Why nothing is taken of a drawing that was read, as [`TakeRunError`] tells it.
#[derive(Clone, Copy)]
pub(crate) enum DrawingError {
    Absent(OpId),
    Older(OpId, OpId),
    TooManyFigures,
    Figure(BrokenLimit),
    Behind(OpId),
    Exhausted,
    Differs,
    OutOfMemory,
}

impl From<OutOfMemory> for DrawingError {
    ghost from_gives = { λ _ e. e ≡ error.OutOfMemory };

    fn from(_: OutOfMemory) -> DrawingError {
        DrawingError::OutOfMemory
    }
}

impl From<DrawingError> for TakeRunError {
    ghost from_gives = { λ fault e. e ≡ told fault };

    fn from(fault: DrawingError) -> TakeRunError {
        match fault {
            DrawingError::Absent(id) => TakeRunError::Absent(id),
            DrawingError::Older(id, other) => TakeRunError::Older(id, other),
            DrawingError::TooManyFigures => TakeRunError::TooManyFigures,
            DrawingError::Figure(broken) => TakeRunError::Figure(broken),
            DrawingError::Behind(id) => TakeRunError::Behind(id),
            DrawingError::Exhausted => TakeRunError::Exhausted,
            DrawingError::Differs => TakeRunError::Differs,
            DrawingError::OutOfMemory => TakeRunError::from(OutOfMemory),
        }
    }
}
