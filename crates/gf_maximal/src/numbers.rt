//! Sets of numbers.

ghost use Rattle.std.specs.Prelude.{◌≡◌, ◌+◌, ◌-◌, ◌^◌, ◌<◌, [], IfOk, OnOk, OnErr, IsTrue, ◌↔◌};
ghost use Rattle.std.specs.Prelude.{All, bytes_eq, ℕ, Contains, ◌&&◌, nat_lt};
ghost use Rattle.std.specs.BTreeSet.{insert_key};
ghost use Rattle.std.specs.List.{fold, list_any, list_all, range_with_len};
ghost use Rattle.std.specs.Ordering.{nat_cmp};
ghost use Rattle.gf_maximal.specs.Growing.{is_in, intersects, without, is_within, joined};
ghost use Rattle.gf_maximal.specs.LargestSets.{IsRising};
ghost use Rattle.gf_maximal.specs.Growing.{united, common};
ghost use Rattle.gf_maximal.specs.Runs.{is_inside, members, numbers_of, until};
ghost use Rattle.gf_maximal.specs.declared.run.Run.{Run};

use crate::run::{
    Run, all_cut, any_touches, are_same, covers, gathered_full, numbers_in, one_run, put, runs_of,
    touches, united,
};
use gf_base::OutOfMemory;
use std::alloc::Global;
use std::marker::Model;

/// A set of numbers, kept as runs and seen as the rising list of its numbers.
#[derive(Drop)]
pub struct Numbers {
    runs: Vec<Run>,
}

impl Model for Numbers {
    ghost use Rattle.std.specs.Prelude.{List, ℕ};
    ghost use Rattle.gf_maximal.specs.Runs.{AreRuns, members};

    ghost Value = { List ℕ };

    ghost view = { λ s. members s.runs.items };

    ghost invariant = { λ s. AreRuns s.runs.items };
}

/// Whether the numbers of all of these runs are among the numbers.
fn all_covered(runs: &[Run], numbers: &Numbers) -> bool
    ensures { result ≡ list_all (λ r. list_all (is_in numbers.now) (numbers_of r)) runs.now }
{
    runs.iter().all(|run| numbers.covers(*run))
}

/// Whether a number of these runs below `end` is among the numbers.
fn any_below(runs: &[Run], end: usize, numbers: &Numbers) -> bool
    ensures { result ≡ list_any (λ r. list_any (is_inside (until end r)) numbers.now) runs.now }
{
    for run in runs {
        if numbers.touches(Run {
            start: run.start,
            end: run.end.min(end),
        }) {
            return true;
        }
    }
    false
}

impl Numbers {
    /// The set of no number.
    pub fn new(alloc: Global) -> Numbers
        ensures { result ≡ [] }
    {
        Numbers {
            runs: Vec::new(alloc),
        }
    }

    /// The numbers from `start` on that are below `end`.
    pub fn between(alloc: Global, start: usize, end: usize) -> Result<Numbers, OutOfMemory>
        ensures { IfOk result (λ numbers. numbers ≡ range_with_len start (end - start)) }
    {
        Ok(Numbers {
            runs: one_run(alloc, Run { start, end })?,
        })
    }

    /// The set of these numbers, which may stand in any order.
    pub fn of(alloc: Global, numbers: &[usize]) -> Result<Numbers, OutOfMemory>
        requires { All (λ n. n + 1 < 2 ^ 64) numbers.now }
        ensures { IfOk result (λ set. set ≡ fold (insert_key nat_cmp) [] numbers.now) }
    {
        Ok(Numbers {
            runs: runs_of(alloc, numbers)?,
        })
    }

    /// The set of the numbers of these runs, which may be empty or overlap and stand in any order.
    pub fn of_runs(alloc: Global, runs: Vec<Run>) -> Result<Numbers, OutOfMemory>
        ensures numbers { IfOk result (λ set.
            set ≡ fold (insert_key nat_cmp) [] (members runs.items)) }
        ensures has { IfOk result (λ set. (a : ℕ) → Contains set a
            ↔ ((r : Run) × Contains runs.items r × Contains (numbers_of r) a)) }
    {
        Ok(Numbers {
            runs: gathered_full(alloc, runs)?,
        })
    }

    /// The runs of the numbers, in their order.
    pub fn runs(&self) -> &[Run]
        ensures { members result.now ≡ self.now }
    {
        &self.runs
    }

    /// The numbers, rising.
    pub fn to_vec(&self, alloc: Global) -> Result<Vec<usize>, OutOfMemory>
        ensures value { IfOk result (λ numbers. numbers.items ≡ self.now) }
        ensures rising { IfOk result (λ numbers. IsRising numbers.items) }
    {
        numbers_in(alloc, &self.runs)
    }

    /// A copy of the set.
    pub fn copy(&self, alloc: Global) -> Result<Numbers, OutOfMemory>
        ensures { IfOk result (λ copy. copy ≡ self.now) }
    {
        Ok(Numbers {
            runs: Vec::from_slice(alloc, &self.runs)?,
        })
    }

    /// Whether a number of the set is in this run.
    fn touches(&self, run: Run) -> bool
        ensures { result ≡ list_any (is_inside run) self.now }
    {
        touches(run, &self.runs)
    }

    /// Whether the set has all numbers of this run.
    fn covers(&self, run: Run) -> bool
        ensures { result ≡ list_all (is_in self.now) (numbers_of run) }
    {
        covers(run, &self.runs)
    }

    /// Whether the set has this number.
    pub fn has(&self, number: usize) -> bool
        requires { number + 1 < 2 ^ 64 }
        ensures { result ≡ is_in self.now number }
    {
        self.touches(Run {
            start: number,
            end: number + 1,
        })
    }

    /// Whether both sets have the same numbers.
    pub fn equals(&self, others: &Numbers) -> bool
        ensures { result ≡ bytes_eq self.now others.now }
    {
        are_same(&self.runs, &others.runs)
    }

    /// Whether a number of the set is one of the others.
    pub fn intersects(&self, others: &Numbers) -> bool
        ensures { result ≡ intersects self.now others.now }
    {
        if self.runs.len() <= others.runs.len() {
            any_touches(&self.runs, &others.runs)
        } else {
            any_touches(&others.runs, &self.runs)
        }
    }

    /// Whether a number of the set below `end` is one of the others.
    pub fn meets_below(&self, others: &Numbers, end: usize) -> bool
        ensures { result ≡ list_any (λ a. nat_lt a end && is_in self.now a) others.now }
    {
        any_below(&self.runs, end, others)
    }

    /// Whether each number of the set is one of the others.
    pub fn is_within(&self, others: &Numbers) -> bool
        ensures { result ≡ is_within self.now others.now }
    {
        all_covered(&self.runs, others)
    }

    /// The numbers that the other set lacks.
    pub fn without(&self, alloc: Global, others: &Numbers) -> Result<Numbers, OutOfMemory>
        ensures { IfOk result (λ left. left ≡ without others.now self.now) }
    {
        Ok(Numbers {
            runs: all_cut(alloc, &self.runs, &others.runs)?,
        })
    }

    /// Adds a number, unless it is there.
    pub fn join(&mut self, number: usize) -> Result<(), OutOfMemory>
        requires { number + 1 < 2 ^ 64 }
        ensures ok { OnOk result (self.new ≡ joined number self.old) }
        ensures err { OnErr result (self.new ≡ self.old) }
    {
        put(&mut self.runs, number)
    }

    /// The numbers that both sets have.
    pub fn common(&self, alloc: Global, others: &Numbers) -> Result<Numbers, OutOfMemory>
        ensures { IfOk result (λ found. found ≡ common others.now self.now) }
    {
        let rest = self.without(alloc, others)?;
        self.without(alloc, &rest)
    }

    /// The numbers that either set has.
    pub fn united(&self, alloc: Global, others: &Numbers) -> Result<Numbers, OutOfMemory>
        ensures { IfOk result (λ all. all ≡ united self.now others.now) }
    {
        Ok(Numbers {
            runs: united(alloc, &self.runs, &others.runs)?,
        })
    }

    /// Whether the set has no number.
    pub fn is_empty(&self) -> bool
        ensures { IsTrue result ↔ (self.now ≡ []) }
    {
        self.runs.is_empty()
    }
}
