//! Why a run was refused.

ghost use Rattle.std.specs.Prelude.{◌≡◌};
ghost use Rattle.gf_run.specs.ErrorTexts.{error_text};
ghost use Rattle.gf_run.specs.Refusals.{of_input, of_reading, of_compile, of_fig, of_write};

use gf_drawing::CompileFault;
use gf_fig_read::{FigError, FigFault};
use gf_ops::{ObjectId, OpFault, OpId};
use gf_replay::{LineCause, ReadingError};
use gf_streams::{InputError, WriteError};
use std::fmt;

/// Why a run was refused.
#[derive(Clone, Copy, Debug, PartialEq, Eq)]
pub enum StudioError {
    /// The source failed before its end was seen.
    ReadFailed,
    /// The input has more than 16,777,216 bytes.
    TooLong,
    /// The line of this number, counted from 1, is no operation, or another one under an earlier
    /// id.
    Line(u64, LineCause),
    /// The operation of this id came in its turn and doesn't fit behind those before it.
    Dropped(OpId, OpFault),
    /// The FIG text reads as no drawing.
    Fig(FigError),
    /// The history has no drawing.
    Compile(CompileFault),
    /// The history has no such object.
    NoObject(ObjectId),
    /// The sink failed before it had all the bytes, or as it was flushed.
    WriteFailed,
    /// A growth of memory was refused.
    OutOfMemory,
}

impl fmt::Display for StudioError {
    ghost output = { error_text };

    fn fmt<W: fmt::Write>(&self, f: &mut fmt::Formatter<W>) -> fmt::Result {
        match self {
            StudioError::ReadFailed => f.write_str("read failed"),
            StudioError::TooLong => f.write_str("input too long"),
            StudioError::Line(number, cause) => write!(f, "line {number}: {cause}"),
            StudioError::Dropped(id, fault) => write!(f, "operation {id} dropped: {fault}"),
            StudioError::Fig(error) => write!(f, "{error}"),
            StudioError::Compile(fault) => write!(f, "export refused: {fault}"),
            StudioError::NoObject(object) => write!(f, "no object {}", object.0),
            StudioError::WriteFailed => f.write_str("write failed"),
            StudioError::OutOfMemory => f.write_str("out of memory"),
        }
    }
}

impl std::error::Error for StudioError {}

impl From<InputError> for StudioError {
    ghost from_gives = { λ fault e. e ≡ of_input fault };

    fn from(fault: InputError) -> StudioError {
        match fault {
            InputError::ReadFailed => StudioError::ReadFailed,
            InputError::TooLong => StudioError::TooLong,
            InputError::OutOfMemory => StudioError::OutOfMemory,
        }
    }
}

impl From<ReadingError> for StudioError {
    ghost from_gives = { λ fault e. e ≡ of_reading fault };

    fn from(fault: ReadingError) -> StudioError {
        match fault {
            ReadingError::Line(number, cause) => StudioError::Line(number, cause),
            ReadingError::Dropped(id, fault) => StudioError::Dropped(id, fault),
            ReadingError::OutOfMemory => StudioError::OutOfMemory,
        }
    }
}

impl From<FigError> for StudioError {
    ghost from_gives = { λ fault e. e ≡ of_fig fault };

    fn from(fault: FigError) -> StudioError {
        match fault.fault {
            FigFault::OutOfMemory => StudioError::OutOfMemory,
            _ => StudioError::Fig(fault),
        }
    }
}

impl From<CompileFault> for StudioError {
    ghost from_gives = { λ fault e. e ≡ of_compile fault };

    fn from(fault: CompileFault) -> StudioError {
        match fault {
            CompileFault::OutOfMemory => StudioError::OutOfMemory,
            CompileFault::TooManyVersions | CompileFault::TooManyColours => {
                StudioError::Compile(fault)
            }
        }
    }
}

impl From<WriteError> for StudioError {
    ghost from_gives = { λ fault e. e ≡ of_write fault };

    fn from(fault: WriteError) -> StudioError {
        match fault {
            WriteError::OutOfMemory => StudioError::OutOfMemory,
            WriteError::WriteFailed => StudioError::WriteFailed,
        }
    }
}
