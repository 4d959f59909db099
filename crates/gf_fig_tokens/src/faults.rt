//! Why a FIG text reads as no drawing.

ghost use Rattle.std.specs.Prelude.{◌≡◌};
ghost use Rattle.gf_fig_tokens.specs.declared.faults.FigFault.TheVariants.{OutOfMemory};

use std::alloc::{AllocError, AllocFailed};
use std::fmt;

/// The first fault of a FIG text, its fields taken in their order. Each fault is written as its
/// name.
#[derive(Clone, Copy, Debug, PartialEq, Eq)]
pub enum FigFault {
    /// The text does not begin with `#FIG 3.2`.
    Version,
    /// Fewer than seven lines that are no comments follow the first line.
    Header,
    /// The first two tokens behind the header are not `1200` and `2`.
    Resolution,
    /// A token has not the form of its field.
    Token,
    /// The text ends within an object.
    Cut,
    /// An object code is not 0, 1 or 2: a colour, an ellipse or a polyline.
    Object,
    /// The sub type of a polyline is not 2, a box, or 3, a polygon. Or that of an ellipse is none
    /// of 1 and 2, with two radii, and 3 and 4, circles.
    SubType,
    /// The thickness of a figure's outline is not 0.
    Outline,
    /// The area fill of a figure is not 20, its full colour.
    Fill,
    /// A polyline has an arrow.
    Arrow,
    /// The count of a box's points is not 5, or that of a polygon's not 4 to 65,536.
    Count,
    /// The last point of a polyline is not its first.
    Open,
    /// A radius of an ellipse is not 1 to 10,000,000, or the two radii of a circle are different.
    Radius,
    /// A coordinate is not within 10,000,000 of 0, or the number of a colour is not 32 to 543.
    Range,
    /// A colour stands behind a figure.
    LateColour,
    /// A colour has the number of one before it.
    ColourTwice,
    /// A figure is filled in a colour that is neither a standard one, 0 to 7, nor one before it.
    NoColour,
    /// A depth is not 0 to 999.
    Depth,
    /// Memory was refused; this says nothing of the text.
    OutOfMemory,
    /// The angle of an ellipse of sub type 1 or 2 has a digit that is not 0.
    Angle,
}

impl fmt::Display for FigFault {
    fn fmt<W: fmt::Write>(&self, f: &mut fmt::Formatter<W>) -> fmt::Result {
        match self {
            FigFault::OutOfMemory => f.write_str("out of memory"),
            named => fmt::Debug::fmt(named, f),
        }
    }
}

impl std::error::Error for FigFault {}

impl From<AllocError> for FigFault {
    ghost from_gives = { λ _ e. e ≡ OutOfMemory };

    fn from(_: AllocError) -> FigFault {
        FigFault::OutOfMemory
    }
}

impl<T: Drop> From<AllocFailed<T>> for FigFault {
    ghost from_gives = { λ _ e. e ≡ OutOfMemory };

    fn from(_: AllocFailed<T>) -> FigFault {
        FigFault::OutOfMemory
    }
}

impl From<gf_base::OutOfMemory> for FigFault {
    ghost from_gives = { λ _ e. e ≡ OutOfMemory };

    fn from(_: gf_base::OutOfMemory) -> FigFault {
        FigFault::OutOfMemory
    }
}
