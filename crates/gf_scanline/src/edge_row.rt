//! Rows found from edges.

ghost use Rattle.std.specs.Prelude.{◌≡◌, ◌++◌, ◌%◌, [], Bool, All, OnOk, length};
ghost use Rattle.gf_spans.specs.Joining.{IsJoined};
ghost use Rattle.gf_plane.specs.declared.point.Point.{Point};
ghost use Rattle.gf_scanline.specs.Between.{IsWithinReach};
ghost use Rattle.gf_scanline.specs.Telling.{contacts_at, crossings_at};

use crate::Edge;
use gf_base::OutOfMemory;
use gf_shape::meet;
use gf_spans::{Meetings, Span};
use std::alloc::Global;
use std::marker::Model;

/// A row as its spans, with the memory in which further rows are found.
#[derive(Drop)]
pub struct EdgeRow {
    spans: Vec<Span>,
    meetings: Meetings,
}

impl Model for EdgeRow {
    ghost use Rattle.std.specs.Prelude.{List};
    ghost use Rattle.gf_spans.specs.declared.span.Span.{Span};

    ghost Value = { List Span };

    ghost view = { λ r. r.spans.items };
}

impl EdgeRow {
    /// The row of no points. It takes no memory yet.
    pub fn new(alloc: Global) -> EdgeRow
        ensures { result ≡ [] }
    {
        EdgeRow {
            spans: Vec::new(alloc),
            meetings: Meetings::new(alloc),
        }
    }

    /// The spans of the row.
    pub fn spans(&self) -> &[Span]
        ensures { result.now ≡ self.now }
    {
        &self.spans
    }

    /// Makes the row what edges enclose in the row `y`.
    pub(crate) fn set(&mut self, edges: &[Edge], y: i32) -> Result<(), OutOfMemory>
        requires reach { All IsWithinReach edges.now }
        requires even { length (crossings_at y edges.now) % 2 ≡ 0 }
        ensures { OnOk result (IsJoined (crossings_at y edges.now) (contacts_at y edges.now)
            self.new) }
    {
        self.meetings.clear();
        meet_all(edges, y, &mut self.meetings)?;
        self.meetings.join_into(&mut self.spans)?;
        Ok(())
    }
}

/// Adds where edges meet a row.
fn meet_all(edges: &[Edge], y: i32, meetings: &mut Meetings) -> Result<(), OutOfMemory>
    requires { All IsWithinReach edges.now }
    ensures crossings { OnOk result (meetings.new.crossings.items
        ≡ meetings.old.crossings.items ++ crossings_at y edges.now) }
    ensures contacts { OnOk result (meetings.new.contacts.items
        ≡ meetings.old.contacts.items ++ contacts_at y edges.now) }
{
    for edge in edges {
        meet(edge.from, edge.to, y, meetings)?;
    }
    Ok(())
}
