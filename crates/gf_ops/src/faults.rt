//! Why an operation was not added to a history.

ghost use Rattle.std.specs.Prelude.{◌≡◌, Some};
ghost use Rattle.gf_ops.specs.FaultWords.{fault_word};

use std::fmt;
use thiserror::Error;

/// Why an operation doesn't fit behind a history, in the order of the checks.
#[derive(Clone, Copy, Debug, PartialEq, Eq)]
pub enum OpFault {
    /// The number is not the next of its site, or the clock counts another number of its site. Or
    /// the clock counts more of another site than there are. Or it counts fewer operations of some
    /// site than one of those that it counts knew.
    BadClock,
    /// The operation changes an object whose creation it doesn't know.
    NoObject,
    /// The new value doesn't suit the kind of the object. Only polygons have points, polygons have
    /// no size, and a circle's two numbers are one.
    WrongKind,
    /// The aim has an operation that is not there, not before this one, or on another object. Or
    /// two of them conflict directly, or it lacks an operation that one of them aims at.
    BadAim,
}

impl OpFault {
    /// The name of the fault, the word for it in messages.
    pub fn word(&self) -> &'static str
        ensures { result.now ≡ fault_word self.now }
    {
        match self {
            OpFault::BadClock => "BadClock",
            OpFault::NoObject => "NoObject",
            OpFault::WrongKind => "WrongKind",
            OpFault::BadAim => "BadAim",
        }
    }
}

impl fmt::Display for OpFault {
    ghost output = { λ f. Some (fault_word f) };

    fn fmt<W: fmt::Write>(&self, f: &mut fmt::Formatter<W>) -> fmt::Result {
        f.write_str(self.word())
    }
}

impl std::error::Error for OpFault {}

/// Why [`History::add`](crate::History::add) refused an operation.
#[derive(Clone, Copy, Debug, PartialEq, Eq, Error)]
pub enum AddFault {
    /// The operation doesn't fit behind the history.
    #[error("{0}")]
    Op(OpFault),
    /// A growth of memory was refused.
    #[error("out of memory")]
    OutOfMemory,
}
