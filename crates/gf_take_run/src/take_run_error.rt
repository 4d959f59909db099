//! Why nothing is taken.

ghost use Rattle.std.specs.Prelude.{◌≡◌};
ghost use Rattle.gf_run.specs.declared.studio_error.StudioError.TheVariants as studio;
ghost use Rattle.gf_take_run.specs.ErrorTexts.{error_text};
ghost use Rattle.gf_take_run.specs.TakeRun.{of_take};
ghost use Rattle.gf_take_run.specs.declared.take_run_error.TakeRunError.TheVariants as refused;

use crate::BrokenLimit;
use gf_base::OutOfMemory;
use gf_fig_faults::DrawingFaults;
use gf_ops::OpId;
use gf_run::{RunError, StudioError};
use std::fmt;

/// Why nothing is taken.
#[derive(Debug, Drop)]
pub enum TakeRunError {
    /// The run over the operation lines was refused.
    Run(StudioError),
    /// The first operation waits for the second one, as an edit tells it.
    Waits(OpId, OpId),
    /// No line begins a FIG text.
    NoDrawing,
    /// The FIG text reads as no drawing, and has these faults.
    Fig(DrawingFaults),
    /// A figure that does not look like its version breaks a limit.
    Figure(BrokenLimit),
    /// The drawing has more than 1,000 figures, or what it knew shows more versions.
    TooManyFigures,
    /// The FIG text doesn't tell which operations it knew.
    Unnamed,
    /// The drawing knew an operation that was not read.
    Absent(OpId),
    /// The first operation, of the site itself, is newer than the drawing and knows the second one,
    /// of another site, which the drawing did not know.
    Older(OpId, OpId),
    /// The site has made more operations than the request allows, of which this is the last.
    Behind(OpId),
    /// The site has made 10,000 operations.
    Exhausted,
    /// No operations were found by which the site shows the drawing.
    Differs,
}

impl fmt::Display for TakeRunError {
    ghost output = { error_text };

    fn fmt<W: fmt::Write>(&self, f: &mut fmt::Formatter<W>) -> fmt::Result {
        match self {
            TakeRunError::Run(error) => write!(f, "{error}"),
            TakeRunError::Fig(faults) => write!(f, "{faults}"),
            TakeRunError::Figure(broken) => write!(f, "{broken}"),
            TakeRunError::Waits(id, other) => write!(f, "operation {id} waits for {other}"),
            TakeRunError::Absent(id) => {
                write!(f, "operation {id} is in the drawing and was not read")
            }
            TakeRunError::Older(id, other) => write!(
                f,
                "drawing older than operation {id}, which knows {other}: open the drawing anew"
            ),
            TakeRunError::Behind(id) => {
                write!(
                    f,
                    "operation {id} was made meanwhile: open the drawing anew"
                )
            }
            TakeRunError::NoDrawing => f.write_str("no drawing behind the operation lines"),
            TakeRunError::TooManyFigures => f.write_str("TooManyFigures"),
            TakeRunError::Unnamed => {
                f.write_str("drawing without names: write it by fig --named, or import it")
            }
            TakeRunError::Exhausted => f.write_str("Exhausted"),
            TakeRunError::Differs => {
                f.write_str("no operations found that show the drawing: change less at once")
            }
        }
    }
}

impl std::error::Error for TakeRunError {}

impl From<StudioError> for TakeRunError {
    ghost from_gives = { λ fault e. e ≡ refused.Run fault };

    fn from(fault: StudioError) -> TakeRunError {
        TakeRunError::Run(fault)
    }
}

impl From<OutOfMemory> for TakeRunError {
    ghost from_gives = { λ _ e. e ≡ refused.Run studio.OutOfMemory };

    fn from(_: OutOfMemory) -> TakeRunError {
        TakeRunError::Run(StudioError::OutOfMemory)
    }
}

impl RunError for TakeRunError {
    ghost shared = { of_take };

    fn of_run(fault: StudioError) -> TakeRunError {
        TakeRunError::Run(fault)
    }
}
