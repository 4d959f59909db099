//! What the words of the command line can ask for.

ghost use Rattle.std.specs.Prelude.{◌≤◌};
ghost use Rattle.gf_ops.specs.OperationOrder.{IsSite};

use gf_json::Notation;
use gf_studio::{Extent, Inspection};

/// What the words ask for.
#[derive(Clone, Copy)]
pub enum Run {
    /// The FIG text of operation lines, which these workers read.
    Fig(Workers),
    /// The same with a name for each figure.
    NamedFig(Workers),
    /// The picture of operation lines.
    Paint(Canvas),
    /// The picture of a FIG text.
    Repaint(Canvas),
    /// What the history of operation lines answers to a query.
    Inspect {
        inspection: Inspection,
        workers: Workers,
    },
    /// The commands of this site that create the figures of a FIG text.
    Import(Editor),
    /// The operations that the commands of this site make behind the others.
    Edit(Editor),
    /// The operations by which this site shows the FIG text behind operation lines, which these
    /// workers read. `after` and `named` are those of a `TakeRequest`.
    Take {
        editor: Editor,
        after: Option<u32>,
        named: bool,
        workers: Workers,
    },
    /// What has come, what waits, and which versions differ. If `check` is true, what waits or
    /// differs is told by the status too.
    Status {
        check: bool,
        notation: Notation,
        workers: Workers,
    },
    /// What is wrong with operation lines, and with the command lines of this site where one is
    /// given.
    Check(Option<Editor>),
    /// What a session of the scripts of this many sites came to.
    Session(u8),
    /// The answers to requests until these end, by these workers.
    Serve(Workers),
}

/// What a command line that clap took asks for.
pub enum Asked {
    Run(Run),
    Mistake(Mistake),
}

/// Why options that clap took ask for nothing.
#[derive(Clone, Copy)]
pub enum Mistake {
    /// `inspect` has no query.
    Query(QueryFault),
    /// A window that is to fit has a corner or a step.
    PlacedFit,
}

/// Why the options of `inspect` ask for nothing, in the order of the checks.
#[derive(Clone, Copy)]
pub enum QueryFault {
    /// Neither an object nor a point is given, or both are.
    NotOne,
    /// The text names no objects, or no point.
    Unreadable,
}

/// The site that makes the operations.
#[derive(Clone, Copy)]
pub struct Editor {
    pub site: u8,
    ghost in_range: { IsSite site },
}

/// How many threads read operation lines and paint, 1 to 16.
#[derive(Clone, Copy)]
pub struct Workers {
    pub count: u8,
    ghost in_range: { (1 ≤ count) × (count ≤ 16) },
}

/// What a picture shows, and the workers that paint it.
#[derive(Clone, Copy)]
pub struct Canvas {
    pub extent: Extent,
    pub workers: Workers,
}
