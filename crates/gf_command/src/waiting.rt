//! What is told of operations that wait.

use std::fmt;

/// How many operations wait, at least one, which the drawing of a run leaves out.
#[derive(Clone, Copy)]
pub(crate) struct Waiting(pub(crate) usize);

impl fmt::Display for Waiting {
    fn fmt<W: fmt::Write>(&self, f: &mut fmt::Formatter<W>) -> fmt::Result {
        if self.0 == 1 {
            write!(
                f,
                "1 operation waits and is not drawn: figgroup status names it"
            )
        } else {
            write!(
                f,
                "{} operations wait and are not drawn: figgroup status names them",
                self.0
            )
        }
    }
}
