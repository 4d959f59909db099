//! What is told of operations that a site made since a drawing was written.

use gf_edit::Made;
use std::fmt;

/// The first and the last of these operations.
#[derive(Clone, Copy)]
pub(crate) struct Since(pub(crate) Made);

impl fmt::Display for Since {
    fn fmt<W: fmt::Write>(&self, f: &mut fmt::Formatter<W>) -> fmt::Result {
        let Made { first, last } = self.0;
        if first == last {
            write!(f, "{first} was made since the drawing was written")
        } else {
            write!(
                f,
                "{first} to {last} were made since the drawing was written"
            )
        }
    }
}
