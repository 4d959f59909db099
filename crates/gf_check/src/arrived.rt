//! The operations that arrived, by id.

use gf_base::OutOfMemory;
use gf_ops::{Op, OpId, same_op};
use std::alloc::Global;
use std::collections::BTreeMap;

/// An operation, and the number of its line.
#[derive(Drop)]
pub(crate) struct ArrivedLine {
    pub(crate) number: u64,
    pub(crate) op: Op,
}

/// The last operation that arrived under each id.
#[derive(Drop)]
pub(crate) struct Arrived {
    lines: BTreeMap<OpId, ArrivedLine>,
}

impl Arrived {
    /// No operations.
    pub(crate) fn new(alloc: Global) -> Arrived {
        Arrived {
            lines: BTreeMap::new(alloc),
        }
    }

    /// The operation under this id.
    pub(crate) fn get(&self, id: OpId) -> Option<&ArrivedLine> {
        self.lines.get(&id)
    }

    /// Puts an operation under its id. Where the same operation is there, its first line stays.
    pub(crate) fn put(&mut self, number: u64, op: Op) -> Result<(), OutOfMemory> {
        if self.has(&op) {
            return Ok(());
        }
        match self.lines.insert(op.id, ArrivedLine { number, op }) {
            Ok(_) => Ok(()),
            Err(_) => Err(OutOfMemory),
        }
    }

    /// Whether this operation is there.
    fn has(&self, op: &Op) -> bool {
        match self.get(op.id) {
            Some(line) => same_op(&line.op, op),
            None => false,
        }
    }
}
