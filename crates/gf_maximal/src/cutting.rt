//! The growth of largest compatible sets by one number, so that each new set is the cut of one old
//! set. What may be refused is asked first, and of the other numbers only those in doubt.

ghost use Rattle.std.specs.Prelude.{◌≡◌, ◌||◌, ◌&&◌, ◌<◌, ◌++◌, ℕ, true, false, length, map};
ghost use Rattle.std.specs.Prelude.{filter};
ghost use Rattle.std.specs.Prelude.{List, Contains, IfOk, OnOk, ◌+◌, ◌^◌, nat_lt};
ghost use Rattle.std.specs.List.{list_any, list_all, fold};
ghost use Rattle.std.specs.Option.{MatchOption};
ghost use Rattle.gf_maximal.specs.Growing.{is_in, intersects, without, common};
ghost use Rattle.gf_maximal.specs.LargestSets.{IsLargest, AreLargest};
ghost use Rattle.gf_maximal.specs.Parents.{met, cut, is_told, is_parent, next_cut};
ghost use Rattle.gf_maximal.specs.Rows.{row, conflict, AreRows};
ghost use Rattle.gf_maximal.specs.Cutting.{spared, keepers, IsWitness, IsAsked, AreDoubtful};
ghost use Rattle.gf_maximal.specs.Cutting.{IsRest};

use crate::numbers::Numbers;
use gf_base::OutOfMemory;
use std::alloc::Global;

/// Whether a number with this row is in the set, or the rest keeps it out, or it is a rival that a
/// number of the set below it keeps out.
fn is_told_by(row: &Numbers, rivals: &Numbers, set: &Numbers, rest: &Numbers, number: usize) -> bool
    requires { number + 1 < 2 ^ 64 }
    ensures { result ≡ (is_in set.now number || (intersects row.now rest.now
        || (is_in rivals.now number
        && list_any (λ b. nat_lt b number && is_in row.now b) set.now))) }
{
    set.has(number)
        || (row.intersects(rest) || (rivals.has(number) && row.meets_below(set, number)))
}

/// Whether a number is told.
fn is_told(rows: &[Numbers], rivals: &Numbers, set: &Numbers, rest: &Numbers, number: usize) -> bool
    requires number { number < length rows.now }
    requires rest { rest.now ≡ without rivals.now set.now }
    ensures { result ≡ is_told (conflict rows.now) rivals.now set.now number }
{
    is_told_by(&rows[number], rivals, set, rest, number)
}

/// The first of the numbers that is not told.
fn first_untold(
    rows: &[Numbers],
    rivals: &Numbers,
    set: &Numbers,
    rest: &Numbers,
    numbers: &[usize],
) -> Option<usize>
    requires numbers { (a : ℕ) → Contains numbers.now a → a < length rows.now }
    requires rest { rest.now ≡ without rivals.now set.now }
    ensures { IsAsked (conflict rows.now) numbers.now rivals.now set.now result }
{
    for number in numbers {
        if !is_told(rows, rivals, set, rest, *number) {
            return Some(*number);
        }
    }
    None
}

/// What the row of a number leaves.
fn without_row(
    alloc: Global,
    rows: &[Numbers],
    number: usize,
    left: &Numbers,
) -> Result<Numbers, OutOfMemory>
    requires { number < length rows.now }
    ensures { IfOk result (λ found. found ≡ without (row rows.now number) left.now) }
{
    left.without(alloc, &rows[number])
}

/// What the rows of all numbers leave.
fn spared(
    alloc: Global,
    rows: &[Numbers],
    numbers: &[usize],
    mut left: Numbers,
) -> Result<Numbers, OutOfMemory>
    requires { (a : ℕ) → Contains numbers.now a → a < length rows.now }
    ensures { IfOk result (λ found. found ≡ spared rows.now left numbers.now) }
{
    for number in numbers {
        left = without_row(alloc, rows, *number, &left)?;
    }
    Ok(left)
}

/// The numbers that conflict with one that the set loses: those in doubt where it loses few.
fn let_go(
    alloc: Global,
    rows: &[Numbers],
    others: Numbers,
    lost: &[usize],
) -> Result<Numbers, OutOfMemory>
    requires { (a : ℕ) → Contains lost.now a → a < length rows.now }
    ensures { IfOk result (λ found.
        found ≡ without (spared rows.now others lost.now) others) }
{
    let left = others.copy(alloc)?;
    let far = spared(alloc, rows, lost, left)?;
    others.without(alloc, &far)
}

/// The numbers in doubt: the set's rest may not keep them out.
fn in_doubt(
    alloc: Global,
    rows: &[Numbers],
    met: &Numbers,
    rivals: &Numbers,
    set: &Numbers,
    rest: &Numbers,
) -> Result<Numbers, OutOfMemory>
    requires met { (a : ℕ) → Contains met.now a → a < length rows.now }
    requires known { AreRows rows.now }
    requires set { IsLargest (conflict rows.now) (Contains met.now) (Contains set.now) }
    requires rest { rest.now ≡ without rivals.now set.now }
    ensures { IfOk result (AreDoubtful (conflict rows.now) met.now rivals.now set.now) }
{
    let others = met.without(alloc, set)?;
    let lost = set.common(alloc, rivals)?.to_vec(alloc)?;
    let kept = rest.to_vec(alloc)?;
    if kept.len() <= lost.len() {
        spared(alloc, rows, &kept, others)
    } else {
        let_go(alloc, rows, others, &lost)
    }
}

/// A number that is not told. Of those in doubt the ones that are no rivals are asked first.
fn untold(
    alloc: Global,
    rows: &[Numbers],
    met: &Numbers,
    rivals: &Numbers,
    set: &Numbers,
    rest: &Numbers,
) -> Result<Option<usize>, OutOfMemory>
    requires met { (a : ℕ) → Contains met.now a → a < length rows.now }
    requires known { AreRows rows.now }
    requires set { IsLargest (conflict rows.now) (Contains met.now) (Contains set.now) }
    requires rest { rest.now ≡ without rivals.now set.now }
    ensures { IfOk result (IsAsked (conflict rows.now) met.now rivals.now set.now) }
{
    let doubtful = in_doubt(alloc, rows, met, rivals, set, rest)?;
    let beyond = doubtful.without(alloc, rivals)?.to_vec(alloc)?;
    if let Some(number) = first_untold(rows, rivals, set, rest, &beyond) {
        return Ok(Some(number));
    }
    let others = doubtful.common(alloc, rivals)?.to_vec(alloc)?;
    Ok(first_untold(rows, rivals, set, rest, &others))
}

/// The numbers of its row that keep this number out of a set.
fn keepers(
    alloc: Global,
    row: &Numbers,
    rivals: &Numbers,
    number: usize,
) -> Result<Numbers, OutOfMemory>
    requires { number + 1 < 2 ^ 64 }
    ensures { IfOk result (λ found. found ≡ keepers rivals.now row.now number) }
{
    if !rivals.has(number) {
        return row.without(alloc, rivals);
    }
    let below = row.common(alloc, &Numbers::between(alloc, 0, number)?)?;
    row.without(alloc, rivals)?.united(alloc, &below)
}

/// The numbers of which a set must have one to tell this number.
fn reach(
    alloc: Global,
    rows: &[Numbers],
    rivals: &Numbers,
    number: usize,
) -> Result<Numbers, OutOfMemory>
    requires { number < length rows.now }
    ensures { IfOk result (λ found. (g : List ℕ) →
        intersects found g ≡ is_told (conflict rows.now) rivals.now g number) }
{
    let mut found = keepers(alloc, &rows[number], rivals, number)?;
    found.join(number)?;
    Ok(found)
}

/// What the rivals leave of a set that is a parent. The witness is asked first, and is another one
/// where a number is not told.
fn rest_of_parent(
    alloc: Global,
    rows: &[Numbers],
    met: &Numbers,
    rivals: &Numbers,
    set: &Numbers,
    witness: &mut Numbers,
) -> Result<Option<Numbers>, OutOfMemory>
    requires met { (a : ℕ) → Contains met.now a → a < length rows.now }
    requires known { AreRows rows.now }
    requires set { IsLargest (conflict rows.now) (Contains met.now) (Contains set.now) }
    requires witness { IsWitness (conflict rows.now) met.now rivals.now witness.old }
    ensures rest { IfOk result
        (IsRest (conflict rows.now) met.now rivals.now set.now) }
    ensures witness { OnOk result (IsWitness (conflict rows.now) met.now rivals.now witness.new) }
{
    if !rivals.intersects(set) || !witness.intersects(set) {
        return Ok(None);
    }
    let rest = set.without(alloc, rivals)?;
    let found = untold(alloc, rows, met, rivals, set, &rest)?;
    if let Some(number) = found {
        *witness = reach(alloc, rows, rivals, number)?;
        return Ok(None);
    }
    Ok(Some(rest))
}

/// The cuts of parents.
fn cuts(
    alloc: Global,
    rows: &[Numbers],
    met: &Numbers,
    rivals: &Numbers,
    number: usize,
    sets: &[Numbers],
) -> Result<Vec<Numbers>, OutOfMemory>
    requires number { number + 1 < 2 ^ 64 }
    requires met { (a : ℕ) → Contains met.now a → a < length rows.now }
    requires known { AreRows rows.now }
    requires sets { AreLargest (conflict rows.now) met.now sets.now }
    ensures { IfOk result (λ found. found.items
        ≡ map (cut rivals.now number)
        (filter (is_parent (conflict rows.now) met.now rivals.now) sets.now)) }
{
    let mut found = Vec::new(alloc);
    let mut witness = rivals.copy(alloc)?;
    for set in sets {
        if let Some(mut rest) = rest_of_parent(alloc, rows, met, rivals, set, &mut witness)? {
            rest.join(number)?;
            found.push(rest)?;
        }
    }
    Ok(found)
}

/// Adds the number to a set that has none of its rivals.
fn take(rivals: &Numbers, number: usize, set: &mut Numbers) -> Result<(), OutOfMemory>
    requires { number + 1 < 2 ^ 64 }
    ensures { OnOk result (set.new ≡ met rivals.now number set.old) }
{
    if !rivals.intersects(set) {
        set.join(number)?;
    }
    Ok(())
}

/// Adds the number to each set that has none of its rivals.
fn take_all(rivals: &Numbers, number: usize, sets: &mut Vec<Numbers>) -> Result<(), OutOfMemory>
    requires { number + 1 < 2 ^ 64 }
    ensures { OnOk result (sets.new.items ≡ map (met rivals.now number) sets.old.items) }
{
    for set in sets.iter_mut() {
        take(rivals, number, set)?;
    }
    Ok(())
}

/// Turns largest compatible sets of the numbers met so far into those with one more, as far as they
/// come from these.
pub fn meet(
    alloc: Global,
    rows: &[Numbers],
    number: usize,
    met: &Numbers,
    sets: &mut Vec<Numbers>,
) -> Result<(), OutOfMemory>
    requires number { number < length rows.now }
    requires met { (a : ℕ) → Contains met.now a → a < length rows.now }
    requires known { AreRows rows.now }
    requires sets { AreLargest (conflict rows.now) met.now sets.old.items }
    ensures { OnOk result (sets.new.items
        ≡ next_cut (conflict rows.now) met.now (common (row rows.now number) met.now) number
        sets.old.items) }
{
    let rivals = met.common(alloc, &rows[number])?;
    let mut found = cuts(alloc, rows, met, &rivals, number, sets)?;
    take_all(&rivals, number, sets)?;
    sets.append(&mut found)?;
    Ok(())
}
