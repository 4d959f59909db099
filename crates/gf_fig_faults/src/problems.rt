//! What is wrong with an object, in the words of an editor, and what to do.

use crate::fields::number_at;
use crate::kinds::{Kind, Located, located_first};
use gf_fig_tokens::FigFault;
use std::fmt;

/// What is wrong with an object, and what to do.
#[derive(Clone, Copy, Debug, PartialEq, Eq)]
pub enum Problem {
    /// The object is of a kind that can't be taken.
    Kind,
    Compound,
    Unreadable,
    LineWidth(i64),
    FillStyle(i64),
    Colour(i64),
    Depth(i64),
    Arrow,
    Points(i64),
    Open,
    Radii(i64, i64),
    Turned,
    Beyond,
}

impl fmt::Display for Problem {
    fn fmt<W: fmt::Write>(&self, f: &mut fmt::Formatter<W>) -> fmt::Result {
        let words = match self {
            Problem::LineWidth(width) => {
                return write!(f, " has line width {width}: set it to 0");
            }
            Problem::FillStyle(style) => {
                return write!(f, " has fill style {style}: set it to 20");
            }
            Problem::Colour(number) => {
                return write!(
                    f,
                    " has colour {number}: take one of the first eight, or a user colour"
                );
            }
            Problem::Depth(depth) => return write!(f, " has depth {depth}: set it to 0 to 999"),
            Problem::Points(count) => return write!(f, " has {count} points: delete it"),
            Problem::Radii(rx, ry) => return write!(f, " has radii {rx} and {ry}: draw it anew"),
            Problem::Kind => ": delete it",
            Problem::Compound => ": break it up",
            Problem::Unreadable => " can't be read: delete it",
            Problem::Arrow => " has an arrow: take it off",
            Problem::Open => " does not end where it begins: delete it",
            Problem::Turned => " is turned: set its angle to 0",
            Problem::Beyond => " has a point beyond 10000000: move it",
        };
        write!(f, "{words}")
    }
}

/// An object, and what is wrong with it.
#[derive(Clone, Copy, Debug, PartialEq, Eq)]
pub struct Explanation {
    pub located: Located,
    pub problems: [Option<Problem>; 4],
}

impl fmt::Display for Explanation {
    fn fmt<W: fmt::Write>(&self, f: &mut fmt::Formatter<W>) -> fmt::Result {
        write!(f, "{}", self.located)?;
        let mut behind = "";
        for problem in self.problems {
            if let Some(problem) = problem {
                write!(f, "{behind}{problem}")?;
                behind = "; it";
            }
        }
        Ok(())
    }
}

/// What explains this fault of the object that a text begins with, where its fields bear it out.
pub(crate) fn explained(object: &[u8], fault: FigFault) -> Option<Explanation> {
    let located = located_first(object)?;
    let problems = problems_of(object, located.kind, fault);
    if problems == [None; 4] {
        return None;
    }
    Some(Explanation { located, problems })
}

/// What is wrong with an object of this kind. With a fault of its style comes what is wrong with
/// the rest of the style.
fn problems_of(object: &[u8], kind: Kind, fault: FigFault) -> [Option<Problem>; 4] {
    match fault {
        FigFault::Outline | FigFault::NoColour | FigFault::Depth | FigFault::Fill => [
            number_outside(object, 3, 0, 0).map(Problem::LineWidth),
            colour_problem(object, fault),
            number_outside(object, 6, 0, 999).map(Problem::Depth),
            number_outside(object, 8, 20, 20).map(Problem::FillStyle),
        ],
        _ => [other_problem(object, kind, fault), None, None, None],
    }
}

/// What is wrong with the colour of an object. Unless this is the fault, a user colour is one that
/// the drawing has.
fn colour_problem(object: &[u8], fault: FigFault) -> Option<Problem> {
    let number = number_outside(object, 5, 0, 7)?;
    if fault == FigFault::NoColour || number < 32 {
        Some(Problem::Colour(number))
    } else {
        None
    }
}

/// What is wrong with an object of this kind whose style is not at fault.
fn other_problem(object: &[u8], kind: Kind, fault: FigFault) -> Option<Problem> {
    match fault {
        FigFault::Object | FigFault::SubType => kind_problem(kind),
        FigFault::Arrow => Some(Problem::Arrow),
        FigFault::Count => Some(Problem::Points(number_at(object, 15)?)),
        FigFault::Open => Some(Problem::Open),
        FigFault::Radius => Some(Problem::Radii(number_at(object, 14)?, number_at(object, 15)?)),
        FigFault::Angle => Some(Problem::Turned),
        FigFault::Range => Some(Problem::Beyond),
        FigFault::Token | FigFault::Cut => Some(Problem::Unreadable),
        _ => None,
    }
}

/// What is wrong with an object whose kind can't be taken.
fn kind_problem(kind: Kind) -> Option<Problem> {
    match kind {
        Kind::Compound => Some(Problem::Compound),
        Kind::Polyline | Kind::ArcBox | Kind::Picture => Some(Problem::Kind),
        Kind::Spline | Kind::Text | Kind::Arc => Some(Problem::Kind),
        Kind::Ellipse | Kind::Circle | Kind::Box | Kind::Polygon => None,
    }
}

/// The number in the field of this index, where it is not within these limits.
fn number_outside(object: &[u8], index: usize, low: i64, high: i64) -> Option<i64> {
    let number = number_at(object, index)?;
    if low <= number && number <= high {
        None
    } else {
        Some(number)
    }
}
