//! Which limit a figure breaks.

use thiserror::Error;

/// Which limit of operations a figure breaks, in the order of the checks.
#[derive(Clone, Copy, Debug, PartialEq, Eq, Error)]
pub enum FigureFault {
    /// The least corner of a box, the place of a polygon or the centre has a coordinate beyond
    /// ±1,000,000.
    #[error("Place")]
    Place,
    /// A side or a radius is beyond 1,000,000.
    #[error("Size")]
    Size,
    /// The polygon has more than 64 points.
    #[error("Points")]
    Points,
    /// The polygon is wider or higher than 2,000,000, so a point is more than 1,000,000 from its
    /// place.
    #[error("Point")]
    Point,
}
