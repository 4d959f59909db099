//! Why a service ended before its requests did.

use thiserror::Error;

/// Why a service ended before its requests did.
#[derive(Clone, Copy, Debug, PartialEq, Eq, Error)]
pub enum ServeError {
    /// The source failed.
    #[error("read failed")]
    ReadFailed,
    /// The input ended within a request.
    #[error("input ended within a request")]
    CutOff,
    /// A line is no request that says how many bytes stand behind it.
    #[error("no request")]
    NoRequest,
    /// The sink failed before it had all of an answer, or as it was flushed.
    #[error("write failed")]
    WriteFailed,
    /// There were 2^64 - 1 requests.
    #[error("too many requests")]
    TooMany,
    /// A growth of memory was refused where a request was read, or an answer written.
    #[error("out of memory")]
    OutOfMemory,
}
