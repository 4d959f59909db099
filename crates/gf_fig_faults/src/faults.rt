//! The faults of a FIG text, as they are told.

ghost use Rattle.std.specs.Prelude.{◌≡◌};

use crate::problems::Explanation;
use gf_fig_tokens::FigFault;
use std::fmt;
use std::marker::Model;

/// A fault of a FIG text, and the line at which it is reported, counted from 1.
#[derive(Clone, Copy, Debug, PartialEq, Eq)]
pub struct DrawingFault {
    pub line: u64,
    pub fault: FigFault,
    /// The object that begins on the line. None, where its fields don't bear the fault out.
    pub explanation: Option<Explanation>,
}

impl fmt::Display for DrawingFault {
    fn fmt<W: fmt::Write>(&self, f: &mut fmt::Formatter<W>) -> fmt::Result {
        write!(f, "drawing line {}: {}", self.line, self.fault)?;
        match self.explanation {
            Some(explanation) => write!(f, ": {explanation}"),
            None => Ok(()),
        }
    }
}

/// The faults of a FIG text, seen as their list.
#[derive(Debug, Drop)]
pub struct DrawingFaults {
    faults: Vec<DrawingFault>,
}

impl Model for DrawingFaults {
    ghost use Rattle.std.specs.Prelude.{List};
    ghost use Rattle.gf_fig_faults.specs.declared.faults.DrawingFault.{DrawingFault};

    ghost Value = { List DrawingFault };

    ghost view = { λ s. s.faults.items };
}

impl DrawingFaults {
    pub(crate) fn new(faults: Vec<DrawingFault>) -> DrawingFaults
        ensures { result ≡ faults.items }
    {
        DrawingFaults { faults }
    }

    /// The faults in the order in which they are told.
    pub fn as_slice(&self) -> &[DrawingFault]
        ensures { result.now ≡ self.now }
    {
        &self.faults
    }
}

/// Each fault is written as a line, without LF behind the last one.
impl fmt::Display for DrawingFaults {
    fn fmt<W: fmt::Write>(&self, f: &mut fmt::Formatter<W>) -> fmt::Result {
        let mut behind = "";
        for fault in self.as_slice() {
            write!(f, "{behind}{fault}")?;
            behind = "\n";
        }
        Ok(())
    }
}
