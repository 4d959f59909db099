//! Why an object has no list of its groups.

use thiserror::Error;

/// Why an object has no list of its groups.
#[derive(Clone, Copy, Debug, PartialEq, Eq, Error)]
pub enum GroupFault {
    /// The history made no such object.
    #[error("NoObject")]
    NoObject,
    /// A growth of memory was refused.
    #[error("out of memory")]
    OutOfMemory,
}
