//! The rivals of a setter in short: ranges of ranks, without the setters of one value.

ghost use Rattle.std.specs.Prelude.{◌≡◌, ◌⊎◌, IfOk, Contains, None, Some, true};
ghost use Rattle.std.specs.BTreeMap.{is_at};
ghost use Rattle.std.specs.Map.{lookup};
ghost use Rattle.gf_ops.specs.ValidHistory.{IsValid};
ghost use Rattle.gf_classes.specs.Ranges.{IsCut};
ghost use Rattle.gf_classes.specs.Rivals.{AreRivalRanks};
ghost use Rattle.gf_classes.specs.SameValues.{IsIndex};
ghost use Rattle.gf_classes.specs.Setters.{AreSorted, IsKeyed, AreSetters, fingerprints};

use crate::fingerprint::Fingerprint;
use crate::ranges::ranges;
use crate::rivals::rivals;
use crate::same_values::SameValues;
use crate::setters::Setter;
use gf_base::OutOfMemory;
use gf_maximal::Numbers;
use gf_ops::Op;
use std::alloc::Global;

/// The ranks of some setters, and the fingerprint of those among them that are no rivals.
#[derive(Drop)]
pub(crate) struct RivalRanks {
    pub ranks: Numbers,
    pub except: Option<Fingerprint>,
    /// A number by which most fingerprints differ, 0 where there is none.
    pub mark: usize,
}

/// Where the first of the ranks that follow each other ends.
fn mark_of(same: &Numbers) -> usize {
    match same.runs().first() {
        Some(run) => run.end,
        None => 0,
    }
}

/// The setters that are apart from a setter, where all with its fingerprint have its value, and
/// have these ranks.
fn own_rival_ranks(
    alloc: Global,
    setters: &[Setter],
    same: &Numbers,
    x: &Setter,
) -> Result<RivalRanks, OutOfMemory>
    requires sorted { AreSorted setters.now }
    requires keyed { IsKeyed x.now }
    ensures cut { IfOk result (λ found. IsCut setters.now x.now same.now found.ranks) }
    ensures except { IfOk result (λ found. (found.except ≡ Some x.now.fingerprint)
        ⊎ ((found.except ≡ None)
        × ((q : _) → Contains found.ranks q → ¬ (Contains same.now q)))) }
{
    let runs = ranges(alloc, setters, x, same.runs())?;
    let ranks = Numbers::of_runs(alloc, runs)?;
    if ranks.intersects(same) {
        Ok(RivalRanks {
            ranks,
            except: Some(x.fingerprint),
            mark: mark_of(same),
        })
    } else {
        Ok(RivalRanks {
            ranks,
            except: None,
            mark: 0,
        })
    }
}

/// The rivals of a setter.
fn whole_rival_ranks(
    alloc: Global,
    ops: &[Op],
    setters: &[Setter],
    index: &SameValues,
    x: &Setter,
) -> Result<RivalRanks, OutOfMemory>
    requires sorted { AreSorted setters.now }
    requires keyed { IsKeyed x.now }
    ensures { IfOk result (λ found. (us : _) (o : _) → IsValid ops.now
        → AreSetters ops.now us o setters.now → IsIndex (fingerprints setters.now) index.now
        → Contains setters.now x.now
        → AreRivalRanks ops.now setters.now x.now found.ranks found.except) }
{
    let ranks = rivals(alloc, ops, setters, index, x)?;
    Ok(RivalRanks {
        ranks,
        except: None,
        mark: 0,
    })
}

/// The rivals of a setter in short, which most equal rivals have alike.
pub(crate) fn rival_ranks_of(
    alloc: Global,
    ops: &[Op],
    setters: &[Setter],
    index: &SameValues,
    x: &Setter,
) -> Result<RivalRanks, OutOfMemory>
    requires sorted { AreSorted setters.now }
    requires keyed { IsKeyed x.now }
    ensures { IfOk result (λ found. (us : _) (o : _) → IsValid ops.now
        → AreSetters ops.now us o setters.now → IsIndex (fingerprints setters.now) index.now
        → Contains setters.now x.now
        → AreRivalRanks ops.now setters.now x.now found.ranks found.except) }
{
    match index.get(x.fingerprint) {
        Some(same) if x.own => {
            let found = own_rival_ranks(alloc, setters, same, x)?;
            Ok(found)
        }
        _ => {
            let found = whole_rival_ranks(alloc, ops, setters, index, x)?;
            Ok(found)
        }
    }
}
