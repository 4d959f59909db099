//! The sets of classes that may still show, as one class is met after the other.

ghost use Rattle.std.specs.Prelude.{◌≡◌, ◌↔◌, ◌<◌, ℕ, length, Contains, IfOk, IsTrue, filter};
ghost use Rattle.std.specs.Prelude.{option_map};
ghost use Rattle.gf_maximal.specs.Growing.{common, joined};
ghost use Rattle.gf_maximal.specs.LargestSets.{AreLargest};
ghost use Rattle.gf_maximal.specs.Parents.{next_cut};
ghost use Rattle.gf_maximal.specs.Rows.{row, conflict};
ghost use Rattle.gf_ops.specs.OperationOrder.{IsSite};
ghost use Rattle.gf_visible.specs.ClassSays.{covers, said};
ghost use Rattle.gf_visible.specs.Seen.{seen, IsPartListing, IsSeenPart, MayBeMet};

use crate::timeline::Timeline;
use gf_base::OutOfMemory;
use gf_maximal::{Numbers, meet};
use std::alloc::Global;
use std::marker::Model;

/// Classes that were met, and their largest sets that may still show.
#[derive(Drop)]
pub(crate) struct Partial {
    met: Numbers,
    sets: Vec<Numbers>,
}

impl Model for Partial {
    ghost use Rattle.gf_visible.specs.Seen.{PartialState};

    ghost Value = { PartialState };

    ghost view = { λ p. record { met = p.met; sets = p.sets.items } };
}

impl Partial {
    /// The classes that were met, with their sets.
    pub(crate) fn new(met: Numbers, sets: Vec<Numbers>) -> Partial
        ensures { result ≡ record { met = met; sets = sets.items } }
    {
        Partial { met, sets }
    }

    /// The classes that were met.
    pub(crate) fn met(&self) -> &Numbers
        ensures { result.now ≡ self.now.met }
    {
        &self.met
    }

    /// The sets.
    fn into_sets(self) -> Vec<Numbers>
        ensures { result.items ≡ self.sets }
    {
        self.sets
    }

    /// Whether there are more sets than so many.
    fn has_more(&self, most: usize) -> bool
        ensures { IsTrue result ↔ (most < length self.now.sets) }
    {
        most < self.sets.len()
    }
}

/// The sets in which each hider is covered, or conflicts with one.
pub(crate) fn keep_seen(
    alloc: Global,
    timeline: &Timeline<'_>,
    hiders: &[usize],
    sets: Vec<Numbers>,
) -> Result<Vec<Numbers>, OutOfMemory>
    requires { (k : ℕ) → Contains hiders.now k → IsSite (said timeline.now.says k).site }
    ensures { IfOk result (λ kept. kept.items
        ≡ filter (seen (covers timeline.now.says) (conflict timeline.now.rows) hiders.now)
        sets.items) }
{
    let mut kept = Vec::new(alloc);
    for set in sets {
        if timeline.is_seen(alloc, hiders, &set)? {
            kept.push(set)?;
        }
    }
    Ok(kept)
}

/// The sets with one more class that is met.
fn grow(
    alloc: Global,
    timeline: &Timeline<'_>,
    hiders: &[usize],
    class: usize,
    partial: Partial,
) -> Result<Partial, OutOfMemory>
    requires sites { (k : ℕ) → Contains hiders.now k → IsSite (said timeline.now.says k).site }
    requires class { class < length timeline.now.rows }
    requires met { (a : ℕ) → Contains partial.met a → a < length timeline.now.rows }
    requires sets { AreLargest (conflict timeline.now.rows) partial.met partial.sets }
    ensures { IfOk result (λ new. new ≡ record {
      met = joined class partial.met;
      sets = filter (seen (covers timeline.now.says) (conflict timeline.now.rows) hiders.now)
          (next_cut (conflict timeline.now.rows) partial.met
          (common (row timeline.now.rows class) partial.met) class partial.sets);
    }) }
{
    let Partial { mut met, mut sets } = partial;
    meet(alloc, timeline.rows(), class, &met, &mut sets)?;
    met.join(class)?;
    let sets = keep_seen(alloc, timeline, hiders, sets)?;
    Ok(Partial { met, sets })
}

/// The sets that show of the classes that were met and the rest, if they are at most `most`. The
/// rest is met one after the other, and what can't show any more is dropped.
pub(crate) fn grown(
    alloc: Global,
    timeline: &Timeline<'_>,
    hiders: &[usize],
    mut partial: Partial,
    rest: &[usize],
    most: usize,
) -> Result<Option<Vec<Numbers>>, OutOfMemory>
    requires sites { (k : ℕ) → Contains hiders.now k → IsSite (said timeline.now.says k).site }
    requires part { IsSeenPart (covers timeline.now.says) (conflict timeline.now.rows) hiders.now
        partial.met partial.sets }
    requires rest { MayBeMet (covers timeline.now.says) (conflict timeline.now.rows) hiders.now
        partial.met rest.now (length timeline.now.rows) }
    ensures { IfOk result (λ found. IsPartListing (covers timeline.now.says)
        (conflict timeline.now.rows) hiders.now partial.met rest.now most
        (option_map (λ v. v.items) found)) }
{
    timeline.recall_rows();
    for class in rest {
        if partial.has_more(most) {
            return Ok(None);
        }
        partial = grow(alloc, timeline, hiders, *class, partial)?;
    }
    if partial.has_more(most) {
        return Ok(None);
    }
    Ok(Some(partial.into_sets()))
}
