//! Runs of numbers that follow each other, and lists of such runs.

ghost use Rattle.std.specs.Prelude.{◌≡◌, ◌++◌, ◌+◌, ◌^◌, ◌<◌, ◌≤◌, ◌&&◌, nat_lt, [], map, filter};
ghost use Rattle.std.specs.Prelude.{All};
ghost use Rattle.std.specs.Prelude.{take, drop, length, slice_index_or, IfOk, OnOk, OnErr};
ghost use Rattle.std.specs.List.{fold, list_any};
ghost use Rattle.std.specs.List.Sorted.{IsPermutation, IsNonDecreasingBy};
ghost use Rattle.gf_maximal.specs.Runs.{AreRuns, numbers_of, members, single, after};
ghost use Rattle.gf_maximal.specs.Runs.{first_touches, first_covers, touches, covers};
ghost use Rattle.gf_maximal.specs.Runs.{piece, cut, all_cut, absorb, put_at, put, IsFirstFrom};
ghost use Rattle.gf_maximal.specs.Runs.{pushed, are_same, is_full, IsGathered};

use gf_base::OutOfMemory;
use std::alloc::Global;

/// The numbers from `start` on that are below `end`.
#[derive(Clone, Copy, Debug, PartialEq, Eq)]
pub struct Run {
    pub start: usize,
    pub end: usize,
}

/// Whether the runs are the others.
pub(crate) fn are_same(runs: &[Run], others: &[Run]) -> bool
    ensures { result ≡ are_same runs.now others.now }
{
    runs == others
}

/// The runs from the first one on that has this number or one above it, found by binary search.
fn searched(runs: &[Run], number: usize) -> &[Run]
    requires { AreRuns runs.now }
    ensures { result.now ≡ after number runs.now }
{
    let index = runs.partition_point(|run| run.end <= number);
    runs.split_at(index).1
}

/// The runs from the first one on that has this number or a greater one. This run mostly is one of
/// the first.
fn after(runs: &[Run], number: usize) -> &[Run]
    requires { AreRuns runs.now }
    ensures { result.now ≡ after number runs.now }
{
    let mut rest = runs;
    for _ in 0..3 {
        match rest.split_first() {
            Some((first, others)) if first.end <= number => rest = others,
            _ => return rest,
        }
    }
    searched(rest, number)
}

/// Whether the first of these runs begins before this one ends.
fn first_touches(run: Run, runs: &[Run]) -> bool
    ensures { result ≡ first_touches run runs.now }
{
    match runs.first() {
        Some(first) => first.start < run.end,
        None => false,
    }
}

/// Whether the first of these runs has all of this one.
fn first_covers(run: Run, runs: &[Run]) -> bool
    ensures { result ≡ first_covers run runs.now }
{
    match runs.first() {
        Some(first) => first.start <= run.start && run.end <= first.end,
        None => false,
    }
}

/// Adds a run behind the others, unless it is empty.
fn push_piece(run: Run, pieces: &mut Vec<Run>) -> Result<(), OutOfMemory>
    ensures { OnOk result (pieces.new.items ≡ pieces.old.items ++ piece run) }
{
    if run.start < run.end {
        pieces.push(run)?;
    }
    Ok(())
}

/// Adds what is in the run and in none of the others, which end after it begins.
fn cut(run: Run, others: &[Run], pieces: &mut Vec<Run>) -> Result<(), OutOfMemory>
    ensures { OnOk result (pieces.new.items ≡ pieces.old.items ++ cut run others.now) }
{
    let mut left = run;
    for other in others {
        if left.end <= other.start {
            return push_piece(left, pieces);
        }
        push_piece(
            Run {
                start: left.start,
                end: other.start,
            },
            pieces,
        )?;
        left = Run {
            start: other.end,
            end: left.end,
        };
    }
    push_piece(left, pieces)
}

/// A run alone, or none where it is empty.
pub(crate) fn one_run(alloc: Global, run: Run) -> Result<Vec<Run>, OutOfMemory>
    ensures { IfOk result (λ runs. runs.items ≡ piece run) }
{
    let mut runs = Vec::new(alloc);
    push_piece(run, &mut runs)?;
    Ok(runs)
}

/// Whether the run has a number, and the first of these runs begins before it ends.
fn touches_front(run: Run, runs: &[Run]) -> bool
    ensures { result ≡ (nat_lt run.start run.end && first_touches run runs.now) }
{
    run.start < run.end && first_touches(run, runs)
}

/// Whether one of these runs has a number of this one.
pub(crate) fn touches(run: Run, runs: &[Run]) -> bool
    requires { AreRuns runs.now }
    ensures { result ≡ touches runs.now run }
{
    touches_front(run, after(runs, run.start))
}

/// Whether these runs have all numbers of this one.
pub(crate) fn covers(run: Run, runs: &[Run]) -> bool
    requires { AreRuns runs.now }
    ensures { result ≡ covers runs.now run }
{
    run.end <= run.start || first_covers(run, after(runs, run.start))
}

/// Whether one of the others has a number of these runs.
pub(crate) fn any_touches(runs: &[Run], others: &[Run]) -> bool
    requires runs { AreRuns runs.now }
    requires others { AreRuns others.now }
    ensures { result ≡ list_any (touches others.now) runs.now }
{
    let mut rest = others;
    for run in runs {
        rest = after(rest, run.start);
        if touches_front(*run, rest) {
            return true;
        }
    }
    false
}

/// What is in the runs and in none of the others.
pub(crate) fn all_cut(alloc: Global, runs: &[Run], others: &[Run]) -> Result<Vec<Run>, OutOfMemory>
    requires runs { AreRuns runs.now }
    requires others { AreRuns others.now }
    ensures { IfOk result (λ pieces. pieces.items ≡ all_cut others.now runs.now) }
{
    let mut pieces = Vec::new(alloc);
    let mut rest = others;
    for run in runs {
        rest = after(rest, run.start);
        cut(*run, rest, &mut pieces)?;
    }
    Ok(pieces)
}

/// The index of the first run that ends at this number or above it.
fn first_from(runs: &[Run], number: usize) -> usize
    requires { AreRuns runs.now }
    ensures { IsFirstFrom number runs.now result }
{
    runs.partition_point(|run| run.end < number)
}

/// Lets the run at this index end behind a number, and take up the next one if it begins there.
fn lengthen(runs: &mut Vec<Run>, index: usize, number: usize)
    requires index { index < length runs.old.items }
    requires number { number + 1 < 2 ^ 64 }
    ensures { (d : Run) → runs.new.items ≡ take index runs.old.items ++ absorb (record {
      start = (slice_index_or runs.old.items index d).start;
      end = number + 1;
    }) (drop (index + 1) runs.old.items) }
{
    let start = runs[index].start;
    if index + 1 < runs.len() && runs[index + 1].start == number + 1 {
        let end = runs[index + 1].end;
        runs[index] = Run { start, end };
        runs.remove(index + 1);
    } else {
        runs[index] = Run {
            start,
            end: number + 1,
        };
    }
}

/// Adds a number at the index of the first run that ends at it or above it.
fn put_at(runs: &mut Vec<Run>, index: usize, number: usize) -> Result<(), OutOfMemory>
    requires index { index ≤ length runs.old.items }
    requires number { number + 1 < 2 ^ 64 }
    ensures ok { OnOk result (runs.new.items
        ≡ take index runs.old.items ++ put_at number (drop index runs.old.items)) }
    ensures err { OnErr result (runs.new.items ≡ runs.old.items) }
{
    if index < runs.len() {
        let run = runs[index];
        if run.end == number {
            lengthen(runs, index, number);
            return Ok(());
        }
        if run.start <= number {
            return Ok(());
        }
        if run.start == number + 1 {
            runs[index] = Run {
                start: number,
                end: run.end,
            };
            return Ok(());
        }
    }
    runs.insert(
        index,
        Run {
            start: number,
            end: number + 1,
        },
    )?;
    Ok(())
}

/// Adds a number.
pub(crate) fn put(runs: &mut Vec<Run>, number: usize) -> Result<(), OutOfMemory>
    requires runs { AreRuns runs.old.items }
    requires number { number + 1 < 2 ^ 64 }
    ensures ok { OnOk result (runs.new.items ≡ put number runs.old.items) }
    ensures err { OnErr result (runs.new.items ≡ runs.old.items) }
{
    let index = first_from(runs, number);
    put_at(runs, index, number)
}

/// Adds a run behind others, which begin no later. Where the run touches the last one, the two are
/// joined.
fn push_run(run: Run, runs: &mut Vec<Run>) -> Result<(), OutOfMemory>
    ensures { OnOk result (runs.new.items ≡ pushed runs.old.items run) }
{
    let len = runs.len();
    if 0 < len {
        let last = runs[len - 1];
        if run.start <= last.end {
            runs[len - 1] = Run {
                start: last.start,
                end: last.end.max(run.end),
            };
            return Ok(());
        }
    }
    runs.push(run)?;
    Ok(())
}

/// The runs, in the order in which they begin.
fn sorted(mut runs: Vec<Run>) -> Result<Vec<Run>, OutOfMemory>
    ensures permutation { IfOk result (λ all. IsPermutation runs.items all.items) }
    ensures sorted { IfOk result (λ all. IsNonDecreasingBy (λ r. r.start) all.items) }
{
    runs.sort_by_key(|run| run.start)?;
    Ok(runs)
}

/// Runs of all numbers of these ones, which may overlap and stand in any order.
fn gathered(alloc: Global, runs: Vec<Run>) -> Result<Vec<Run>, OutOfMemory>
    ensures { IfOk result (λ all. IsGathered runs.items all.items) }
{
    let mut all = Vec::new(alloc);
    for run in sorted(runs)? {
        push_run(run, &mut all)?;
    }
    Ok(all)
}

/// Drops the runs that have no number.
fn drop_empty(runs: &mut Vec<Run>)
    ensures { runs.new.items ≡ filter is_full runs.old.items }
{
    runs.retain(|run| run.start < run.end);
}

/// Runs of all numbers of these ones, which may be empty or overlap and stand in any order.
pub(crate) fn gathered_full(alloc: Global, mut runs: Vec<Run>) -> Result<Vec<Run>, OutOfMemory>
    ensures { IfOk result (λ all. IsGathered (filter is_full runs.items) all.items) }
{
    drop_empty(&mut runs);
    gathered(alloc, runs)
}

/// Runs with the numbers of both lists.
pub(crate) fn united(alloc: Global, some: &[Run], others: &[Run]) -> Result<Vec<Run>, OutOfMemory>
    ensures { IfOk result (λ runs. IsGathered (some.now ++ others.now) runs.items) }
{
    let mut runs = Vec::from_slice(alloc, some)?;
    runs.extend_from_slice(others)?;
    gathered(alloc, runs)
}

/// A run of each number.
fn singles(alloc: Global, numbers: &[usize]) -> Result<Vec<Run>, OutOfMemory>
    requires { All (λ n. n + 1 < 2 ^ 64) numbers.now }
    ensures { IfOk result (λ runs. runs.items ≡ map single numbers.now) }
{
    let mut runs = Vec::new(alloc);
    for number in numbers {
        runs.push(Run {
            start: *number,
            end: *number + 1,
        })?;
    }
    Ok(runs)
}

/// Runs with these numbers, which may stand in any order.
pub(crate) fn runs_of(alloc: Global, numbers: &[usize]) -> Result<Vec<Run>, OutOfMemory>
    requires { All (λ n. n + 1 < 2 ^ 64) numbers.now }
    ensures { IfOk result (λ runs. IsGathered (map single numbers.now) runs.items) }
{
    gathered(alloc, singles(alloc, numbers)?)
}

/// Adds the numbers of a run behind others.
fn push_numbers(run: Run, numbers: &mut Vec<usize>) -> Result<(), OutOfMemory>
    ensures { OnOk result (numbers.new.items ≡ numbers.old.items ++ numbers_of run) }
{
    for number in run.start..run.end {
        numbers.push(number)?;
    }
    Ok(())
}

/// The numbers of all runs.
pub(crate) fn numbers_in(alloc: Global, runs: &[Run]) -> Result<Vec<usize>, OutOfMemory>
    ensures { IfOk result (λ numbers. numbers.items ≡ members runs.now) }
{
    let mut numbers = Vec::new(alloc);
    for run in runs {
        push_numbers(*run, &mut numbers)?;
    }
    Ok(numbers)
}
