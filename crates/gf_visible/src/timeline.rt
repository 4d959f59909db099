//! Classes with what they say, asked for what they do to each other.

ghost use Rattle.std.specs.Prelude.{◌≡◌, ◌+◌, ◌^◌, ◌<◌, ◌||◌, ℕ, All, Contains, IfOk};
ghost use Rattle.std.specs.Prelude.{filter, length, not};
ghost use Rattle.gf_ops.specs.OperationOrder.{IsSite};
ghost use Rattle.std.specs.List.{list_all};
ghost use Rattle.gf_maximal.specs.Growing.{intersects};
ghost use Rattle.gf_maximal.specs.Rows.{row, conflict, AreRows};
ghost use Rattle.gf_visible.specs.ClassSays.{are_calm, are_sides, covers, hides, is_after};
ghost use Rattle.gf_visible.specs.ClassSays.{is_deciding, is_other, matters, said};
ghost use Rattle.gf_visible.specs.Seen.{seen};

use crate::Showing;
use crate::says::{Says, hides, is_after, known_in, knows_some, said};
use gf_base::OutOfMemory;
use gf_maximal::Numbers;
use gf_ops::Clock;
use std::alloc::Global;
use std::marker::Model;

/// For each class the classes that it conflicts with, and what it says.
#[derive(Drop)]
pub(crate) struct Timeline<'a> {
    rows: &'a [Numbers],
    says: &'a [Says],
}

impl<'a> Model for Timeline<'a> {
    ghost use Rattle.gf_maximal.specs.Rows.{AreRows};
    ghost use Rattle.gf_visible.specs.ClassSays.{TimelineState};

    ghost Value = { TimelineState };

    ghost view = { λ t. record { rows = t.rows.now; says = t.says.now } };

    ghost invariant = { λ t. AreRows t.rows.now };
}

impl<'a> Timeline<'a> {
    /// The classes with these rows, which say this.
    pub(crate) fn new(rows: &'a [Numbers], says: &'a [Says]) -> Timeline<'a>
        requires { AreRows rows.now }
        ensures { result ≡ record { rows = rows.now; says = says.now } }
    {
        Timeline { rows, says }
    }

    /// The rows of the classes.
    pub(crate) fn rows(&self) -> &'a [Numbers]
        ensures rows { result.now ≡ self.now.rows }
        ensures known { AreRows self.now.rows }
    {
        self.rows
    }

    /// Recalls that the rows agree with each other, and how many there are at most. A caller takes
    /// no more of the call than its clauses.
    pub(crate) fn recall_rows(&self)
        ensures known { AreRows self.now.rows }
        ensures few { length self.now.rows < 2 ^ 64 }
    {
        let _ = self.rows();
    }

    /// Whether the class conflicts with one of these.
    fn meets(&self, class: usize, others: &Numbers) -> bool
        ensures { result ≡ intersects (row self.now.rows class) others.now }
    {
        match self.rows.get(class) {
            Some(row) => row.intersects(others),
            None => false,
        }
    }

    /// Whether the class shows, or conflicts with one of the hiders.
    fn matters(&self, hiders: &Numbers, class: usize) -> bool
        ensures { result ≡ matters self.now.rows self.now.says hiders.now class }
    {
        knows_some(said(self.says, class).known) || self.meets(class, hiders)
    }

    /// The classes of these that hide.
    pub(crate) fn hiders(&self, alloc: Global, classes: &[usize]) -> Result<Vec<usize>, OutOfMemory>
        ensures { IfOk result (λ found. found.items ≡ filter (hides self.now.says) classes.now) }
    {
        let mut found = Vec::new(alloc);
        for class in classes {
            if hides(self.says, *class) {
                found.push(*class)?;
            }
        }
        Ok(found)
    }

    /// Whether the class matters, and is no hider.
    fn is_other(&self, hiders: &Numbers, class: usize) -> bool
        requires { class + 1 < 2 ^ 64 }
        ensures { result ≡ is_other self.now.rows self.now.says hiders.now class }
    {
        !hiders.has(class) && self.matters(hiders, class)
    }

    /// The classes of these that matter, and are no hiders.
    pub(crate) fn others(
        &self,
        alloc: Global,
        classes: &[usize],
        hiders: &Numbers,
    ) -> Result<Vec<usize>, OutOfMemory>
        requires { All (λ n. n + 1 < 2 ^ 64) classes.now }
        ensures { IfOk result (λ found. found.items
            ≡ filter (is_other self.now.rows self.now.says hiders.now) classes.now) }
    {
        let mut found = Vec::new(alloc);
        for class in classes {
            if self.is_other(hiders, *class) {
                found.push(*class)?;
            }
        }
        Ok(found)
    }

    /// Whether the class hides or matters.
    fn is_deciding(&self, hiders: &Numbers, class: usize) -> bool
        requires { class + 1 < 2 ^ 64 }
        ensures { result ≡ is_deciding self.now.rows self.now.says hiders.now class }
    {
        hiders.has(class) || self.matters(hiders, class)
    }

    /// The classes of these that hide or matter.
    pub(crate) fn deciding(
        &self,
        alloc: Global,
        classes: &[usize],
        hiders: &Numbers,
    ) -> Result<Vec<usize>, OutOfMemory>
        requires { All (λ n. n + 1 < 2 ^ 64) classes.now }
        ensures { IfOk result (λ found. found.items
            ≡ filter (is_deciding self.now.rows self.now.says hiders.now) classes.now) }
    {
        let mut found = Vec::new(alloc);
        for class in classes {
            if self.is_deciding(hiders, *class) {
                found.push(*class)?;
            }
        }
        Ok(found)
    }

    /// Whether no two of these classes conflict.
    fn are_calm(&self, classes: &[usize], set: &Numbers) -> bool
        requires { set.now ≡ classes.now }
        ensures { result ≡ are_calm self.now.rows classes.now }
    {
        classes.iter().all(|class| !self.meets(*class, set))
    }

    /// Whether no hider matters.
    fn none_matters(&self, hiders: &[usize], set: &Numbers) -> bool
        ensures { result ≡ list_all
            (λ k. not (matters self.now.rows self.now.says set.now k)) hiders.now }
    {
        hiders.iter().all(|class| !self.matters(set, *class))
    }

    /// Whether the hiders and the others are two sides without a conflict within.
    pub(crate) fn are_sides(
        &self,
        hiders: &[usize],
        hiding: &Numbers,
        others: &[usize],
        other: &Numbers,
    ) -> bool
        requires hiding { hiding.now ≡ hiders.now }
        requires other { other.now ≡ others.now }
        ensures { result ≡ are_sides self.now.rows self.now.says hiders.now others.now }
    {
        self.none_matters(hiders, hiding) && self.are_calm(others, other)
    }

    /// Whether the class is covered by showings that know this, or conflicts with one of the set.
    fn stands(&self, known: Clock, set: &Numbers, class: usize) -> bool
        ensures { result ≡ (is_after (said self.now.says class) known
            || intersects (row self.now.rows class) set.now) }
    {
        is_after(said(self.says, class), known) || self.meets(class, set)
    }

    /// Whether each of the hiders is covered by showings that know this, or conflicts with one of
    /// the set.
    fn all_stand(&self, known: Clock, set: &Numbers, hiders: &[usize]) -> bool
        ensures { result ≡ list_all (λ k. is_after (said self.now.says k) known
            || intersects (row self.now.rows k) set.now) hiders.now }
    {
        hiders.iter().all(|class| self.stands(known, set, *class))
    }

    /// Whether each of the hiders is covered in the set, or conflicts with one of it.
    pub(crate) fn is_seen(
        &self,
        alloc: Global,
        hiders: &[usize],
        set: &Numbers,
    ) -> Result<bool, OutOfMemory>
        requires { (k : ℕ) → Contains hiders.now k → IsSite (said self.now.says k).site }
        ensures { IfOk result (λ test. test
            ≡ seen (covers self.now.says) (conflict self.now.rows) hiders.now set.now) }
    {
        if hiders.is_empty() {
            return Ok(true);
        }
        let classes = set.to_vec(alloc)?;
        let known = known_in(self.says, &classes);
        Ok(self.all_stand(known, set, hiders))
    }
}

impl Showing for Timeline<'_> {
    ghost use Rattle.gf_maximal.specs.Rows.{conflict};
    ghost use Rattle.gf_visible.specs.ClassSays.{covers, hides};

    ghost hides = { λ t k. hides t.says k };

    ghost covers = { λ t k j. covers t.says k j };

    ghost rivals = { λ t k j. conflict t.rows k j };

    fn hides(&self, class: usize) -> bool {
        hides(self.says, class)
    }

    fn covers(&self, class: usize, other: usize) -> bool {
        is_after(said(self.says, class), said(self.says, other).known)
    }

    fn rivals(&self, class: usize, other: usize) -> bool {
        match self.rows.get(class) {
            Some(row) => other < self.rows.len() && row.has(other),
            None => false,
        }
    }
}
