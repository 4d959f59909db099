//! Numbers in classes of which all members have the same rivals.

ghost use Rattle.std.specs.Prelude.{◌≡◌, ◌+◌, ◌++◌, ◌<◌, ◌^◌, [], ℕ, List, cond, filter, length};
ghost use Rattle.std.specs.Prelude.{map};
ghost use Rattle.std.specs.Prelude.{nat_le, slice_index_or, IfOk, OnOk};
ghost use Rattle.std.specs.List.{flat_map, range_with_len};
ghost use Rattle.gf_maximal.specs.Classes.{has_some, used, spread};
ghost use Rattle.gf_maximal.specs.LargestSets.{AreLargestSets};
ghost use Rattle.gf_maximal.specs.Rows.{conflict, AreRows};
ghost use Rattle.gf_maximal.specs.Runs;

use crate::listing::{all_sets, count_sets};
use crate::numbers::Numbers;
use crate::run::Run;
use gf_base::OutOfMemory;
use std::alloc::Global;
use std::marker::Model;

/// The members of each class, and for each class the classes that it conflicts with. A class may
/// have no members.
#[derive(Drop)]
pub struct Classes {
    members: Vec<Numbers>,
    rows: Vec<Numbers>,
}

impl Model for Classes {
    ghost use Rattle.gf_maximal.specs.Classes.{ClassesState};

    ghost Value = { ClassesState };

    ghost view = { λ s. record { members = s.members.items; rows = s.rows.items } };
}

/// The classes that have a member.
fn used_of(alloc: Global, classes: &[Numbers]) -> Result<Numbers, OutOfMemory>
    ensures { IfOk result (λ found. found
        ≡ filter (λ k. has_some (slice_index_or classes.now k []))
        (range_with_len 0 (length classes.now))) }
{
    let mut found = Numbers::new(alloc);
    for number in 0..classes.len() {
        if !classes[number].is_empty() {
            found.join(number)?;
        }
    }
    Ok(found)
}

/// Adds the runs of a class behind others.
fn push_class(classes: &[Numbers], number: usize, runs: &mut Vec<Run>) -> Result<(), OutOfMemory>
    ensures { OnOk result (Runs.members runs.new.items
        ≡ Runs.members runs.old.items ++ slice_index_or classes.now number []) }
{
    if let Some(members) = classes.get(number) {
        runs.extend_from_slice(members.runs())?;
    }
    Ok(())
}

/// The runs of all members of the classes of a set.
fn runs_of_all(
    alloc: Global,
    classes: &[Numbers],
    numbers: &[usize],
) -> Result<Vec<Run>, OutOfMemory>
    ensures { IfOk result (λ runs. Runs.members runs.items
        ≡ flat_map (λ k. slice_index_or classes.now k []) numbers.now) }
{
    let mut runs = Vec::new(alloc);
    for number in numbers {
        push_class(classes, *number, &mut runs)?;
    }
    Ok(runs)
}

impl Classes {
    /// The classes with these members and these rows.
    pub fn new(members: Vec<Numbers>, rows: Vec<Numbers>) -> Classes
        ensures { result ≡ record { members = members.items; rows = rows.items } }
    {
        Classes { members, rows }
    }

    /// The members of each class.
    pub fn members(&self) -> &[Numbers]
        ensures { result.now ≡ self.now.members }
    {
        &self.members
    }

    /// For each class the classes that it conflicts with.
    pub fn rows(&self) -> &[Numbers]
        ensures { result.now ≡ self.now.rows }
    {
        &self.rows
    }

    /// The classes that have a member.
    pub fn used(&self, alloc: Global) -> Result<Numbers, OutOfMemory>
        ensures { IfOk result (λ found. found ≡ used self.now) }
    {
        used_of(alloc, &self.members)
    }

    /// All largest compatible sets of the classes that have a member.
    pub fn sets(&self, alloc: Global) -> Result<Vec<Numbers>, OutOfMemory>
        requires rows { AreRows self.now.rows }
        requires count { length self.now.rows ≡ length self.now.members }
        ensures { IfOk result (λ found.
            AreLargestSets (conflict self.now.rows) (used self.now) found.items) }
    {
        let numbers = self.used(alloc)?.to_vec(alloc)?;
        all_sets(alloc, &self.rows, &numbers)
    }

    /// How many largest compatible sets there are, or one more than the most.
    pub fn count(&self, alloc: Global, most: usize) -> Result<usize, OutOfMemory>
        requires rows { AreRows self.now.rows }
        requires count { length self.now.rows ≡ length self.now.members }
        ensures { IfOk result (λ count. (gs : List (List ℕ))
            → AreLargestSets (conflict self.now.rows) (used self.now) gs
            → count ≡ cond (nat_le (length gs) most) (length gs) (most + 1)) }
    {
        let numbers = self.used(alloc)?.to_vec(alloc)?;
        count_sets(alloc, &self.rows, &numbers, most)
    }

    /// All members of the classes of a set.
    pub fn spread(&self, alloc: Global, set: &Numbers) -> Result<Numbers, OutOfMemory>
        ensures { IfOk result (λ members. members ≡ spread self.now set.now) }
    {
        let numbers = set.to_vec(alloc)?;
        Numbers::of_runs(alloc, runs_of_all(alloc, &self.members, &numbers)?)
    }

    /// All members of the classes of each set.
    pub fn spread_all(&self, alloc: Global, sets: &[Numbers]) -> Result<Vec<Numbers>, OutOfMemory>
        ensures { IfOk result (λ found. found.items ≡ map (spread self.now) sets.now) }
    {
        let mut found = Vec::new(alloc);
        for set in sets {
            found.push(self.spread(alloc, set)?)?;
        }
        Ok(found)
    }
}
