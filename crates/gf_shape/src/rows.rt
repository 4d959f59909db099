//! Rows: the points of a shape at one height.

ghost use Rattle.std.specs.Prelude.{◌≡◌, ◌∷◌, [], ◌+◌, ◌%◌, IsTrue, OnOk, All, length, List};
ghost use Rattle.gf_shape.specs.FigureMeaning.{chain_holds};
ghost use Rattle.gf_plane.specs.Reach.{is_within_reach};
ghost use Rattle.gf_shape.specs.RowParts.{end_of};
ghost use Rattle.gf_shape.specs.Rows.{IsRow};

use crate::passing::meet_along;
use crate::{Point, Span};
use gf_base::OutOfMemory;
use gf_spans::Meetings;
use std::alloc::Global;
use std::marker::Model;

/// A row as its spans, with the memory in which further rows are found.
#[derive(Drop)]
pub struct Row {
    spans: Vec<Span>,
    meetings: Meetings,
}

impl Model for Row {
    ghost use Rattle.std.specs.Prelude.{List};
    ghost use Rattle.gf_spans.specs.declared.span.Span.{Span};

    ghost Value = { List Span };

    ghost view = { λ r. r.spans.items };
}

impl Row {
    /// The row of no points. It takes no memory yet.
    pub fn new(alloc: Global) -> Row
        ensures { result ≡ [] }
    {
        Row {
            spans: Vec::new(alloc),
            meetings: Meetings::new(alloc),
        }
    }

    /// The spans of the row.
    pub fn spans(&self) -> &[Span]
        ensures { result.now ≡ self.now }
    {
        &self.spans
    }

    /// The spans of the row, without the memory for further rows.
    pub(crate) fn into_spans(self) -> Vec<Span>
        ensures { result.items ≡ self }
    {
        self.spans
    }

    /// Makes the row that of no points.
    pub(crate) fn clear(&mut self)
        ensures { self.new ≡ [] }
    {
        self.spans.clear();
    }

    /// Makes the row that of one span.
    pub(crate) fn set(&mut self, first: i32, last: i32) -> Result<(), OutOfMemory>
        ensures { OnOk result (self.new ≡ record { first = first; last = last } ∷ []) }
    {
        self.spans.clear();
        self.spans.push(Span { first, last })?;
        Ok(())
    }

    /// Makes the row that of the closed chain of a point and those after it.
    pub(crate) fn set_path(
        &mut self,
        first: Point,
        rest: &[Point],
        y: i32,
    ) -> Result<(), OutOfMemory>
        requires first { IsTrue (is_within_reach first) }
        requires rest { All (λ p. IsTrue (is_within_reach p)) rest.now }
        requires closed { end_of first rest.now ≡ first }
        ensures { OnOk result (IsRow (chain_holds (first ∷ rest.now)) y self.new) }
    {
        self.meetings.clear();
        meet_along(first, rest, y, &mut self.meetings)?;
        self.meetings.join_into(&mut self.spans)?;
        Ok(())
    }
}
