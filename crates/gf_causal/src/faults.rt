//! Why a buffer refused an operation.

use thiserror::Error;

/// Why [`Buffer::offer`](crate::Buffer::offer) refused an operation.
#[derive(Clone, Copy, Debug, PartialEq, Eq, Error)]
pub enum OfferFault {
    /// The operation breaks a limit of operations.
    #[error("Range")]
    Range,
    /// Another operation under its id is held, or in the history.
    #[error("Clash")]
    Clash,
    /// A growth of memory was refused.
    #[error("out of memory")]
    OutOfMemory,
}
