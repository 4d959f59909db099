//! An object by its kind and its place, as the window of an editor shows it.

ghost use Rattle.std.specs.Prelude.{◌≤◌};

use crate::fields::{from_line, number_at};
use std::fmt;

/// The kinds of objects of FIG, as an editor names them.
#[derive(Clone, Copy, Debug, PartialEq, Eq)]
pub enum Kind {
    Ellipse,
    Circle,
    Polyline,
    Box,
    Polygon,
    ArcBox,
    Picture,
    Spline,
    Text,
    Arc,
    Compound,
}

impl Kind {
    /// The word for the kind.
    pub fn word(self) -> &'static str {
        match self {
            Kind::Ellipse => "ellipse",
            Kind::Circle => "circle",
            Kind::Polyline => "polyline",
            Kind::Box => "box",
            Kind::Polygon => "polygon",
            Kind::ArcBox => "arc-box",
            Kind::Picture => "picture",
            Kind::Spline => "spline",
            Kind::Text => "text",
            Kind::Arc => "arc",
            Kind::Compound => "compound",
        }
    }
}

/// An object by its kind and place.
#[derive(Clone, Copy, Debug, PartialEq, Eq)]
pub struct Located {
    pub kind: Kind,
    /// The coordinates of the centre of an ellipse or a circle, of a compound's first corner, or
    /// of another object's first point.
    pub place: Option<(i64, i64)>,
}

impl fmt::Display for Located {
    fn fmt<W: fmt::Write>(&self, f: &mut fmt::Formatter<W>) -> fmt::Result {
        let kind = self.kind.word();
        match self.place {
            Some((x, y)) => write!(f, "{kind} at {x},{y}"),
            None => write!(f, "{kind}"),
        }
    }
}

/// The object that begins on a line, counted from 1.
pub fn located_at(text: &[u8], line: u64) -> Option<Located> {
    located_first(from_line(text, line))
}

/// The object that a text begins with.
pub(crate) fn located_first(object: &[u8]) -> Option<Located> {
    let kind = kind_of(object)?;
    Some(Located {
        kind,
        place: place_of(object, kind),
    })
}

/// The kind of the object that a text begins with, by its code and sub type.
fn kind_of(object: &[u8]) -> Option<Kind> {
    match number_at(object, 0)? {
        1 => match number_at(object, 1)? {
            1 | 2 => Some(Kind::Ellipse),
            3 | 4 => Some(Kind::Circle),
            _ => None,
        },
        2 => match number_at(object, 1)? {
            1 => Some(Kind::Polyline),
            2 => Some(Kind::Box),
            3 => Some(Kind::Polygon),
            4 => Some(Kind::ArcBox),
            5 => Some(Kind::Picture),
            _ => None,
        },
        3 => Some(Kind::Spline),
        4 => Some(Kind::Text),
        5 => Some(Kind::Arc),
        6 => Some(Kind::Compound),
        _ => None,
    }
}

/// The place of an object of this kind.
fn place_of(object: &[u8], kind: Kind) -> Option<(i64, i64)> {
    let first = match kind {
        Kind::Ellipse | Kind::Circle => 12,
        Kind::Polyline | Kind::Box | Kind::Polygon | Kind::ArcBox => {
            16 + arrow_fields(object, 13) + arrow_fields(object, 14)
        }
        // The name of a file stands before the points.
        Kind::Picture => 18,
        Kind::Spline => 14 + arrow_fields(object, 11) + arrow_fields(object, 12),
        Kind::Text => 11,
        Kind::Arc => 16,
        Kind::Compound => 1,
    };
    Some((number_at(object, first)?, number_at(object, first + 1)?))
}

/// How many fields the line of an arrow has, where the field of this index tells that there is one.
fn arrow_fields(object: &[u8], index: usize) -> usize
    ensures { result ≤ 5 }
{
    if number_at(object, index) == Some(1) {
        5
    } else {
        0
    }
}
