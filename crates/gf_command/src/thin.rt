//! What is told of polygons that xfig does not keep.

use gf_ops::ObjectId;
use std::fmt;

/// How many polygons are named at most.
const MOST_NAMED: usize = 10;

/// The objects of these polygons, at least one.
#[derive(Clone, Copy)]
pub(crate) struct Thin<'a>(pub(crate) &'a [ObjectId]);

impl fmt::Display for Thin<'_> {
    fn fmt<W: fmt::Write>(&self, f: &mut fmt::Formatter<W>) -> fmt::Result {
        for object in self.0.iter().take(MOST_NAMED) {
            writeln!(
                f,
                "figgroup: polygon {} has fewer than three different points, which xfig does not keep",
                object.0
            )?;
        }
        match self.0.len().saturating_sub(MOST_NAMED) {
            0 => Ok(()),
            more => writeln!(f, "figgroup: and {more} more"),
        }
    }
}
