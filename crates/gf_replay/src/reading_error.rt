//! Why lines were not taken.

ghost use Rattle.std.specs.Prelude.{◌≡◌, Some};
ghost use Rattle.gf_replay.specs.CauseWords.{cause_word};

use gf_ops::{OpFault, OpId};
use std::fmt;
use thiserror::Error;

/// What is wrong with a line.
#[derive(Clone, Copy, Debug, PartialEq, Eq)]
pub enum LineCause {
    /// The line is no JSON.
    Json,
    /// A key is missing or unknown, or a value has another form.
    Field,
    /// A value is outside its limits.
    Range,
    /// The line is another operation under the id of an earlier line's operation.
    Clash,
}

impl LineCause {
    /// The name of the cause, the word for it in messages.
    pub fn word(&self) -> &'static str
        ensures { result.now ≡ cause_word self.now }
    {
        match self {
            LineCause::Json => "Json",
            LineCause::Field => "Field",
            LineCause::Range => "Range",
            LineCause::Clash => "Clash",
        }
    }
}

impl fmt::Display for LineCause {
    ghost output = { λ c. Some (cause_word c) };

    fn fmt<W: fmt::Write>(&self, f: &mut fmt::Formatter<W>) -> fmt::Result {
        f.write_str(self.word())
    }
}

impl std::error::Error for LineCause {}

/// Why lines are no history.
#[derive(Clone, Copy, Debug, PartialEq, Eq, Error)]
pub enum ReadingError {
    /// The line of this number, counted from 1, is no operation, or it is another operation under
    /// the id of an earlier one.
    #[error("line {0}: {1}")]
    Line(u64, LineCause),
    /// The operation of this id came in its turn and doesn't fit behind those before it.
    #[error("operation {0} dropped: {1}")]
    Dropped(OpId, OpFault),
    /// A growth of memory was refused.
    #[error("out of memory")]
    OutOfMemory,
}
