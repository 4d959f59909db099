//! The sets that show, of positions that are asked only for what they say of each other.

ghost use Rattle.std.specs.Prelude.{◌≡◌, ◌<◌, ◌+◌, ◌^◌, ◌∷◌, [], ℕ, Bool, All};
ghost use Rattle.std.specs.Prelude.{IfOk, cond, filter, take};
ghost use Rattle.std.specs.Fn.{CalledAt};
ghost use Rattle.std.specs.List.Retain.{IsFiltered};
ghost use Rattle.std.specs.List.Sorted.{IsStrictlySortedBy};
ghost use Rattle.std.specs.Ordering.{nat_cmp};
ghost use Rattle.gf_visible.specs.Choices.{hiding_first, showing, step_of, steps_of};

use crate::searching::search;
use crate::step::ChoiceStep;
use gf_base::OutOfMemory;
use gf_maximal::Numbers;
use std::alloc::Global;

/// What the operations at positions say of each other.
pub trait Showing {
    /// Whether the position hides.
    ghost hides: { Self → ℕ → Bool };

    /// Whether the second position covers the first: the second one shows, and comes after the
    /// first.
    ghost covers: { Self → ℕ → ℕ → Bool };

    /// Whether two positions conflict.
    ghost rivals: { Self → ℕ → ℕ → Bool };

    /// Whether the position hides.
    fn hides(&self, position: usize) -> bool
        ensures { result ≡ hides self.now position };

    /// Whether the second position covers the first: the second one shows, and comes after the
    /// first.
    fn covers(&self, position: usize, other: usize) -> bool
        ensures { result ≡ covers self.now position other };

    /// Whether two positions conflict.
    fn rivals(&self, position: usize, other: usize) -> bool
        ensures { result ≡ rivals self.now position other };
}

/// Rising positions as a set.
pub(crate) fn set_of(alloc: Global, positions: &[usize]) -> Result<Numbers, OutOfMemory>
    requires rising { IsStrictlySortedBy nat_cmp positions.now }
    requires bounded { All (λ n. n + 1 < 2 ^ 64) positions.now }
    ensures { IfOk result (λ set. set ≡ positions.now) }
{
    Numbers::of(alloc, positions)
}

/// The rising positions that pass a test, as a set.
pub(crate) fn filtered<F: FnMut(&usize) -> bool>(
    alloc: Global,
    positions: &[usize],
    test: F,
) -> Result<Numbers, OutOfMemory>
    requires rising { IsStrictlySortedBy nat_cmp positions.now }
    requires bounded { All (λ n. n + 1 < 2 ^ 64) positions.now }
    requires callable { F.IsAlwaysCallable test }
    ensures { IfOk result (λ found. IsFiltered (CalledAt F.FnMut) test positions.now found) }
{
    let mut found = Vec::from_slice(alloc, positions)?;
    found.retain(test);
    set_of(alloc, &found)
}

/// The positions that conflict with this position.
fn rivals_of<T: Showing>(
    alloc: Global,
    setters: &T,
    positions: &[usize],
    position: usize,
) -> Result<Numbers, OutOfMemory>
    requires rising { IsStrictlySortedBy nat_cmp positions.now }
    requires bounded { All (λ n. n + 1 < 2 ^ 64) positions.now }
    ensures { IfOk result (λ found. found
        ≡ filter (T.rivals setters.now position) positions.now) }
{
    filtered(alloc, positions, |other| setters.rivals(position, *other))
}

/// The positions that cover this position.
fn covers_of<T: Showing>(
    alloc: Global,
    setters: &T,
    positions: &[usize],
    position: usize,
) -> Result<Numbers, OutOfMemory>
    requires rising { IsStrictlySortedBy nat_cmp positions.now }
    requires bounded { All (λ n. n + 1 < 2 ^ 64) positions.now }
    ensures { IfOk result (λ found. found
        ≡ filter (T.covers setters.now position) positions.now) }
{
    filtered(alloc, positions, |other| setters.covers(position, *other))
}

/// The positions that cover this position, if that hides.
fn asked_of<T: Showing>(
    alloc: Global,
    setters: &T,
    positions: &[usize],
    position: usize,
) -> Result<Numbers, OutOfMemory>
    requires rising { IsStrictlySortedBy nat_cmp positions.now }
    requires bounded { All (λ n. n + 1 < 2 ^ 64) positions.now }
    ensures { IfOk result (λ found. found ≡ cond (T.hides setters.now position)
        (filter (T.covers setters.now position) positions.now) []) }
{
    if setters.hides(position) {
        covers_of(alloc, setters, positions, position)
    } else {
        Ok(Numbers::new(alloc))
    }
}

/// The position alone.
fn alone(alloc: Global, position: usize) -> Result<Numbers, OutOfMemory>
    requires { position + 1 < 2 ^ 64 }
    ensures { IfOk result (λ own. own ≡ position ∷ []) }
{
    let mut own = Numbers::new(alloc);
    own.join(position)?;
    Ok(own)
}

/// The step of one of the positions.
fn step_of<T: Showing>(
    alloc: Global,
    setters: &T,
    positions: &[usize],
    position: usize,
) -> Result<ChoiceStep, OutOfMemory>
    requires fits { position + 1 < 2 ^ 64 }
    requires rising { IsStrictlySortedBy nat_cmp positions.now }
    requires bounded { All (λ n. n + 1 < 2 ^ 64) positions.now }
    ensures { IfOk result (λ step. step ≡ step_of (T.hides setters.now)
        (T.covers setters.now) (T.rivals setters.now) positions.now position) }
{
    let own = alone(alloc, position)?;
    let covers = asked_of(alloc, setters, positions, position)?;
    let rivals = rivals_of(alloc, setters, positions, position)?;
    Ok(ChoiceStep::new(own, setters.hides(position), covers, rivals))
}

/// The positions that hide.
fn hiding_of<T: Showing>(
    alloc: Global,
    setters: &T,
    positions: &[usize],
) -> Result<Vec<usize>, OutOfMemory>
    ensures { IfOk result (λ found. found.items ≡ filter (T.hides setters.now) positions.now) }
{
    let mut found = Vec::new(alloc);
    for position in positions {
        if setters.hides(*position) {
            found.push(*position)?;
        }
    }
    Ok(found)
}

/// The positions, those that hide before the others.
fn hiding_first<T: Showing>(
    alloc: Global,
    setters: &T,
    positions: &[usize],
) -> Result<Vec<usize>, OutOfMemory>
    ensures { IfOk result (λ found.
        found.items ≡ hiding_first (T.hides setters.now) positions.now) }
{
    let mut found = hiding_of(alloc, setters, positions)?;
    for position in positions {
        if !setters.hides(*position) {
            found.push(*position)?;
        }
    }
    Ok(found)
}

/// The steps of all positions, of those that hide before the others.
fn steps_of<T: Showing>(
    alloc: Global,
    setters: &T,
    positions: &[usize],
) -> Result<Vec<ChoiceStep>, OutOfMemory>
    requires rising { IsStrictlySortedBy nat_cmp positions.now }
    requires bounded { All (λ n. n + 1 < 2 ^ 64) positions.now }
    ensures { IfOk result (λ steps. steps.items ≡ steps_of (T.hides setters.now)
        (T.covers setters.now) (T.rivals setters.now) positions.now) }
{
    let order = hiding_first(alloc, setters, positions)?;
    let mut steps = Vec::new(alloc);
    for position in &order {
        steps.push(step_of(alloc, setters, positions, *position)?)?;
    }
    Ok(steps)
}

/// The largest compatible sets of the positions in which each one that hides is covered, but no
/// more than `limit`.
///
/// Each two positions are compared. Then each step costs a pass over all of them. Those that hide
/// come first, so a choice that leaves one uncovered is dropped early. The search goes on only
/// where each may still be chosen and covered, or be left out for a rival. No time is promised for
/// the whole: for some positions the search takes very long.
pub fn showing_within<T: Showing>(
    alloc: Global,
    setters: &T,
    positions: &[usize],
    limit: usize,
) -> Result<Vec<Numbers>, OutOfMemory>
    requires limit { 0 < limit }
    requires rising { IsStrictlySortedBy nat_cmp positions.now }
    requires bounded { All (λ n. n + 1 < 2 ^ 64) positions.now }
    ensures { IfOk result (λ found. found.items ≡ take limit
        (showing (T.hides setters.now) (T.covers setters.now) (T.rivals setters.now)
        positions.now)) }
{
    let steps = steps_of(alloc, setters, positions)?;
    search(alloc, &steps, set_of(alloc, positions)?, limit)
}
