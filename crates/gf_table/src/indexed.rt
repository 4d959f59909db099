//! A history with its table, which grows by one operation at a time.

ghost use Rattle.std.specs.Prelude.{◌≡◌, ◌++◌, ◌∷◌, [], IfOk, OnErr, OnOk};
ghost use Rattle.gf_ops.specs.Accepted.{IsAccepted};
ghost use Rattle.gf_ops.specs.Limits.{IsInRange};
ghost use Rattle.gf_ops.specs.ValidHistory.{IsValid};
ghost use Rattle.gf_table.specs.Standing.{StandsFor};

use crate::GroupTable;
use gf_base::OutOfMemory;
use gf_ops::{History, Op};
use std::alloc::Global;
use std::marker::Model;

/// A history and the table of its positions, seen as the list of its operations.
#[derive(Drop)]
pub struct IndexedHistory {
    history: History,
    table: GroupTable,
}

impl Model for IndexedHistory {
    ghost use Rattle.std.specs.Prelude.{List};
    ghost use Rattle.gf_ops.specs.declared.op.Op.{Op};
    ghost use Rattle.gf_table.specs.Standing.{StandsFor};

    ghost Value = { List Op };

    ghost view = { λ i. i.history.ops };

    ghost invariant = { λ i. StandsFor i.history.ops i.table };
}

impl IndexedHistory {
    /// The empty history.
    pub fn new(alloc: Global) -> IndexedHistory
        ensures { result ≡ [] }
    {
        IndexedHistory {
            history: History::new(alloc),
            table: GroupTable::new(alloc),
        }
    }

    /// A history with the table of its positions. The operations are added one by one.
    pub fn of(alloc: Global, history: &History) -> Result<IndexedHistory, OutOfMemory>
        ensures { IfOk result (λ indexed. indexed ≡ history.now.ops) }
    {
        let mut indexed = IndexedHistory::new(alloc);
        for op in history.ops() {
            indexed.add(op.copy(alloc)?)?;
        }
        Ok(indexed)
    }

    /// A copy of the history with its table.
    pub fn copy(&self, alloc: Global) -> Result<IndexedHistory, OutOfMemory>
        ensures { IfOk result (λ copy. copy ≡ self.now) }
    {
        Ok(IndexedHistory {
            history: self.history.copy(alloc)?,
            table: self.table.copy(alloc)?,
        })
    }

    /// The history.
    pub fn history(&self) -> &History
        ensures ops { result.now.ops ≡ self.now }
        ensures valid { IsValid self.now }
    {
        let _ = self.history.ops();
        &self.history
    }

    /// The table, which stands for the history.
    pub fn table(&self) -> &GroupTable
        ensures { StandsFor self.now result.now }
    {
        &self.table
    }

    /// Adds an operation that the history accepts. All memory is there before anything changes.
    pub fn add(&mut self, op: Op) -> Result<(), OutOfMemory>
        requires in_range { IsInRange op }
        requires accepted { IsAccepted self.old op }
        ensures ok { OnOk result (self.new ≡ self.old ++ op ∷ []) }
        ensures err { OnErr result (self.new ≡ self.old) }
    {
        self.history.room()?;
        self.table.add(&self.history, &op)?;
        self.history.push(op);
        Ok(())
    }
}
