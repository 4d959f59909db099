//! What is told of a take.

use gf_edit::Made;
use gf_ops::ObjectId;
use std::fmt;

/// What a take made, how many objects it was about, and what xfig does not keep.
#[derive(Drop)]
pub struct Taken {
    /// The first and the last of the operations that were made.
    pub made: Option<Made>,
    /// The first and the last operation that the site made since the drawing was written.
    pub since: Option<Made>,
    /// The objects of the drawing's polygons that xfig does not keep, as it was written.
    pub thin: Vec<ObjectId>,
    /// How many objects got another look or another layer.
    pub changed: usize,
    /// How many objects were hidden, whole or in part.
    pub hidden: usize,
    /// How many objects were created.
    pub drawn: usize,
}

impl fmt::Display for Taken {
    fn fmt<W: fmt::Write>(&self, f: &mut fmt::Formatter<W>) -> fmt::Result {
        let Some(made) = self.made else {
            return write!(f, "the drawing is as it was");
        };
        write!(f, "{made}")?;
        let mut mark = ":";
        for (count, word) in [
            (self.changed, "changed"),
            (self.hidden, "hidden"),
            (self.drawn, "drawn"),
        ] {
            if count != 0 {
                write!(f, "{mark} {count} {word}")?;
                mark = ",";
            }
        }
        Ok(())
    }
}
