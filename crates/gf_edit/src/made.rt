//! What an edit tells of the operations that it made.

ghost use Rattle.std.specs.Prelude.{◌≡◌, Some};
ghost use Rattle.gf_edit.specs.MadeOperations.{made_until};

use gf_ops::OpId;
use std::fmt;

/// The first and the last of the operations that an edit made, which are numbered without a gap.
#[derive(Clone, Copy, Debug, PartialEq, Eq)]
pub struct Made {
    pub first: OpId,
    pub last: OpId,
}

impl Made {
    /// What is told of the operations that were made, with one more behind them.
    pub fn until(made: Option<Made>, last: OpId) -> Made
        ensures { result ≡ made_until made last }
    {
        match made {
            Some(made) => Made {
                first: made.first,
                last,
            },
            None => Made { first: last, last },
        }
    }
}

impl fmt::Display for Made {
    fn fmt<W: fmt::Write>(&self, f: &mut fmt::Formatter<W>) -> fmt::Result {
        if self.first == self.last {
            write!(f, "made {}", self.first)
        } else {
            write!(f, "made {} to {}", self.first, self.last)
        }
    }
}
