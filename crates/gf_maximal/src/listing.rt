//! All largest compatible sets of some numbers, listed or counted.

ghost use Rattle.std.specs.Prelude.{◌≡◌, ◌+◌, ◌<◌, ℕ, [], ◌∷◌, List, Contains, cond, length};
ghost use Rattle.std.specs.Prelude.{nat_le};
ghost use Rattle.std.specs.Prelude.{IfOk, OnOk};
ghost use Rattle.gf_maximal.specs.Cutting.{IsGrown, IsGrownTo};
ghost use Rattle.gf_maximal.specs.Growing.{joined};
ghost use Rattle.gf_maximal.specs.LargestSets.{IsRising, AreLargestSets};
ghost use Rattle.gf_maximal.specs.Rows.{conflict, AreRows};

use crate::cutting::meet;
use crate::numbers::Numbers;
use gf_base::OutOfMemory;
use std::alloc::Global;

/// The largest sets of no number.
fn first_sets(alloc: Global) -> Result<Vec<Numbers>, OutOfMemory>
    ensures { IfOk result (λ sets. sets.items ≡ [] ∷ []) }
{
    let mut sets = Vec::new(alloc);
    sets.push(Numbers::new(alloc))?;
    Ok(sets)
}

/// Lets all largest sets of the numbers that were met meet one more.
fn grow_by(
    alloc: Global,
    rows: &[Numbers],
    number: usize,
    met: &mut Numbers,
    sets: &mut Vec<Numbers>,
) -> Result<(), OutOfMemory>
    requires number { number < length rows.now }
    requires fresh { ¬ (Contains met.old number) }
    requires known { AreRows rows.now }
    requires grown { IsGrown rows.now met.old sets.old.items }
    ensures met { OnOk result (met.new ≡ joined number met.old) }
    ensures grown { OnOk result (IsGrown rows.now met.new sets.new.items) }
{
    meet(alloc, rows, number, met, sets)?;
    met.join(number)?;
    Ok(())
}

/// Lets the number at a place meet all largest sets of those before it.
fn grow_at(
    alloc: Global,
    rows: &[Numbers],
    numbers: &[usize],
    place: usize,
    met: &mut Numbers,
    sets: &mut Vec<Numbers>,
) -> Result<(), OutOfMemory>
    requires place { place < length numbers.now }
    requires rising { IsRising numbers.now }
    requires numbers { (a : ℕ) → Contains numbers.now a → a < length rows.now }
    requires known { AreRows rows.now }
    requires grown { IsGrownTo rows.now numbers.now place met.old sets.old.items }
    ensures { OnOk result (IsGrownTo rows.now numbers.now (place + 1) met.new sets.new.items) }
{
    grow_by(alloc, rows, numbers[place], met, sets)?;
    Ok(())
}

/// All largest sets of the numbers.
pub(crate) fn all_sets(
    alloc: Global,
    rows: &[Numbers],
    numbers: &[usize],
) -> Result<Vec<Numbers>, OutOfMemory>
    requires rising { IsRising numbers.now }
    requires numbers { (a : ℕ) → Contains numbers.now a → a < length rows.now }
    requires known { AreRows rows.now }
    ensures { IfOk result (λ sets.
        AreLargestSets (conflict rows.now) numbers.now sets.items) }
{
    let mut met = Numbers::new(alloc);
    let mut sets = first_sets(alloc)?;
    for place in 0..numbers.len() {
        grow_at(alloc, rows, numbers, place, &mut met, &mut sets)?;
    }
    Ok(sets)
}

/// The number, or one more than the most where it is above that.
fn at_most(number: usize, most: usize) -> usize
    ensures { result ≡ cond (nat_le number most) number (most + 1) }
{
    if number <= most { number } else { most + 1 }
}

/// How many largest sets the numbers have, or one more than the most.
pub(crate) fn count_sets(
    alloc: Global,
    rows: &[Numbers],
    numbers: &[usize],
    most: usize,
) -> Result<usize, OutOfMemory>
    requires rising { IsRising numbers.now }
    requires numbers { (a : ℕ) → Contains numbers.now a → a < length rows.now }
    requires known { AreRows rows.now }
    ensures { IfOk result (λ count. (gs : List (List ℕ))
        → AreLargestSets (conflict rows.now) numbers.now gs
        → count ≡ cond (nat_le (length gs) most) (length gs) (most + 1)) }
{
    let mut met = Numbers::new(alloc);
    let mut sets = first_sets(alloc)?;
    for place in 0..numbers.len() {
        if most < sets.len() {
            return Ok(most + 1);
        }
        grow_at(alloc, rows, numbers, place, &mut met, &mut sets)?;
    }
    Ok(at_most(sets.len(), most))
}
