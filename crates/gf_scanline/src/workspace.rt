//! Where rows are found.

use crate::EdgeRow;
use gf_shape::Row;
use std::alloc::Global;

/// The memory in which the rows of pieces are found, kept from row to row.
#[derive(Drop)]
pub struct Workspace {
    pub(crate) found: Row,
    pub(crate) told: EdgeRow,
}

impl Workspace {
    /// A workspace that takes no memory yet.
    pub fn new(alloc: Global) -> Workspace {
        Workspace {
            found: Row::new(alloc),
            told: EdgeRow::new(alloc),
        }
    }
}
