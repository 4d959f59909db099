//! Why a line is no operation and no command.

use thiserror::Error;

/// Why a line is no operation and no command, in the order of the checks.
#[derive(Clone, Copy, Debug, PartialEq, Eq, Error)]
pub enum LineError {
    /// The line is no JSON.
    #[error("Json")]
    Json,
    /// A key is missing or unknown, or a value has another form.
    #[error("Field")]
    Field,
    /// A value is outside its limits.
    #[error("Range")]
    Range,
    /// A growth of memory was refused.
    #[error("out of memory")]
    OutOfMemory,
}
