//! A figure that no operation can make.

use gf_fig_faults::Located;
use gf_objects::FigureFault;
use std::fmt;

/// A figure that breaks a limit of operations. Its object, counted from 1 with the colours, begins
/// on the FIG text's line of this number, counted from 1.
#[derive(Clone, Copy, Debug, PartialEq, Eq)]
pub struct BrokenLimit {
    pub line: u64,
    pub object: u64,
    pub fault: FigureFault,
    /// The object that the line begins with.
    pub located: Option<Located>,
}

impl fmt::Display for BrokenLimit {
    fn fmt<W: fmt::Write>(&self, f: &mut fmt::Formatter<W>) -> fmt::Result {
        write!(f, "drawing line {}: {}", self.line, self.fault)?;
        match self.located {
            Some(located) => write!(f, ": {located} {}", advice(self.fault)),
            None => Ok(()),
        }
    }
}

/// What is wrong with a figure that breaks a limit, and what to do.
fn advice(fault: FigureFault) -> &'static str {
    match fault {
        FigureFault::Place => "lies beyond 1000000: move it",
        FigureFault::Size => "is larger than 1000000: scale it down",
        FigureFault::Points => "has more than 64 corners: delete some",
        FigureFault::Point => "is wider or higher than 2000000: scale it down",
    }
}
