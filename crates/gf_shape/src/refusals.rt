//! Why a call was refused, where there is one cause alone.

use thiserror::Error;

/// A number or a point beyond its limits.
#[derive(Clone, Copy, Debug, PartialEq, Eq, Error)]
#[error("out of range")]
pub struct Range;

/// Why points make no polygon.
#[derive(Clone, Copy, Debug, PartialEq, Eq, Error)]
pub enum PolygonError {
    /// The points are fewer than 3 or more than 64.
    #[error("Count")]
    Count,
    /// The points are 3 to 64, and one of them is out of reach.
    #[error("Range")]
    Range,
    /// A growth of memory was refused.
    #[error("out of memory")]
    OutOfMemory,
}
