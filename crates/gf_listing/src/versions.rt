//! A history with its table, as those who ask for versions borrow it.

ghost use Rattle.std.specs.Prelude.{◌≡◌, ◌↔◌, Err, IfOk, filter_map, map, slice_get};
ghost use Rattle.gf_ops.specs.ValidHistory.{IsValid};
ghost use Rattle.gf_classes.specs.ConflictClasses.{AreClassesOf};
ghost use Rattle.gf_groups.specs.declared.faults.GroupFault.{GroupFault};
ghost use Rattle.gf_table.specs.Positions.{positions_on};
ghost use Rattle.gf_groups.specs.Versions.{AreVersions, IsMade};
ghost use Rattle.gf_listing.specs.Counting.{IsCount};
ghost use Rattle.gf_listing.specs.Listed.{AreOn};
ghost use Rattle.gf_table.specs.Standing.{StandsFor};

use gf_base::OutOfMemory;
use gf_classes::classes_of;
use gf_groups::{GroupFault, Groups, groups_from, is_made};
use gf_maximal::Classes;
use gf_ops::{History, ObjectId, Op};
use gf_table::{GroupTable, IndexedHistory};
use std::alloc::Global;
use std::marker::Model;

/// Versions are counted up to this number.
pub const MOST_COUNTED: usize = 1_000;

/// A history with the table of its positions, seen as the list of its operations.
#[derive(Drop)]
pub struct Versions<'h> {
    history: &'h History,
    table: &'h GroupTable,
}

impl<'h> Model for Versions<'h> {
    ghost use Rattle.std.specs.Prelude.{List};
    ghost use Rattle.gf_ops.specs.declared.op.Op.{Op};
    ghost use Rattle.gf_table.specs.Standing.{StandsFor};

    ghost Value = { List Op };

    ghost view = { λ v. v.history.now.ops };

    ghost invariant = { λ v. StandsFor v.history.now.ops v.table.now };
}

impl<'h> Versions<'h> {
    /// The history with a table that stands for it.
    pub fn new(history: &'h History, table: &'h GroupTable) -> Versions<'h>
        requires { StandsFor history.now.ops table.now }
        ensures { result ≡ history.now.ops }
    {
        Versions { history, table }
    }

    /// A history with its own table.
    pub fn of(indexed: &'h IndexedHistory) -> Versions<'h>
        ensures ops { result ≡ indexed.now }
        ensures valid { IsValid indexed.now }
    {
        Versions::new(indexed.history(), indexed.table())
    }

    /// The history.
    pub fn history(&self) -> &'h History
        ensures ops { result.now.ops ≡ self.now }
        ensures valid { IsValid self.now }
    {
        let _ = self.history.ops();
        self.history
    }

    /// Recalls that the history is valid. A caller takes no more of the call than its clause.
    pub fn recall_valid(&self)
        ensures { IsValid self.now }
    {
        let _ = self.history();
    }

    /// The operations, in the order of the history.
    pub fn ops(&self) -> &'h [Op]
        ensures ops { result.now ≡ self.now }
        ensures valid { IsValid self.now }
    {
        self.history.ops()
    }

    /// All versions of an object, hidden ones too, rising by their ids as a dictionary orders them.
    pub fn groups(&self, alloc: Global, object: ObjectId) -> Result<Groups, GroupFault>
        ensures groups { IfOk result (λ groups. AreVersions self.now object groups) }
        ensures no_object { result ≡ Err GroupFault.NoObject ↔ (¬ IsMade self.now object) }
    {
        if !is_made(self.history, object) {
            return Err(GroupFault::NoObject);
        }
        match self.made_groups(alloc, object) {
            Ok(groups) => Ok(groups),
            Err(OutOfMemory) => Err(GroupFault::OutOfMemory),
        }
    }

    /// All versions of an object that the history made.
    fn made_groups(&self, alloc: Global, object: ObjectId) -> Result<Groups, OutOfMemory>
        requires { IsMade self.now object }
        ensures { IfOk result (λ groups. AreVersions self.now object groups) }
    {
        let classes = self.classes(alloc, object)?;
        let sets = classes.sets(alloc)?;
        let sets = classes.spread_all(alloc, &sets)?;
        groups_from(alloc, self.history, object, sets)
    }

    /// How many versions an object has, hidden ones too; 1,001 where there are more than 1,000. No
    /// version is made.
    pub fn count(&self, alloc: Global, object: ObjectId) -> Result<usize, OutOfMemory>
        requires { IsMade self.now object }
        ensures { IfOk result (λ count. IsCount self.now object count) }
    {
        self.recall_valid();
        let classes = self.classes(alloc, object)?;
        classes.count(alloc, MOST_COUNTED)
    }

    /// The operations on an object, in the order of the history.
    pub fn operations(&self, alloc: Global, object: ObjectId) -> Result<Vec<&'h Op>, OutOfMemory>
        ensures { IfOk result (λ found. AreOn self.now object (map (λ a. a.now) found.items)) }
    {
        operations_at(alloc, self.history, self.table.positions(object))
    }

    /// The classes of the operations on an object, by their positions in the history.
    pub fn classes(&self, alloc: Global, object: ObjectId) -> Result<Classes, OutOfMemory>
        ensures { IfOk result (λ found.
            AreClassesOf self.now (positions_on self.now object) found) }
    {
        classes_of(alloc, self.history, object, self.table.positions(object))
    }
}

/// The operations at these positions.
fn operations_at<'h>(
    alloc: Global,
    history: &'h History,
    positions: &[usize],
) -> Result<Vec<&'h Op>, OutOfMemory>
    ensures { IfOk result (λ found. map (λ a. a.now) found.items
        ≡ filter_map (slice_get history.now.ops) positions.now) }
{
    let ops = history.ops();
    let mut found = Vec::new(alloc);
    for position in positions {
        if let Some(op) = ops.get(*position) {
            found.push(op)?;
        }
    }
    Ok(found)
}
