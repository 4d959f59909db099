//! Why a text was not written.

ghost use Rattle.std.specs.Prelude.{◌≡◌};
ghost use Rattle.gf_streams.specs.declared.write_error.WriteError.{WriteError};

use crate::SinkFault;
use std::alloc::{AllocError, AllocFailed};
use thiserror::Error;

/// Why a text was not written.
#[derive(Clone, Copy, Debug, PartialEq, Eq, Error)]
pub enum WriteError {
    /// A growth of memory was refused.
    #[error("out of memory")]
    OutOfMemory,

    /// The sink failed before it had all the bytes, or as it was flushed.
    #[error("write failed")]
    WriteFailed,
}

impl From<AllocError> for WriteError {
    ghost from_gives = { λ _ e. e ≡ WriteError.OutOfMemory };

    fn from(_: AllocError) -> WriteError {
        WriteError::OutOfMemory
    }
}

impl<T: Drop> From<AllocFailed<T>> for WriteError {
    ghost from_gives = { λ _ e. e ≡ WriteError.OutOfMemory };

    fn from(_: AllocFailed<T>) -> WriteError {
        WriteError::OutOfMemory
    }
}

impl From<SinkFault> for WriteError {
    ghost from_gives = { λ _ e. e ≡ WriteError.WriteFailed };

    fn from(_: SinkFault) -> WriteError {
        WriteError::WriteFailed
    }
}
