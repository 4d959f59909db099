//! The ranks of values by their fingerprints.

ghost use Rattle.std.specs.Prelude.{◌≡◌, ◌+◌, ◌^◌, ◌<◌, IfOk, OnOk, option_copied};
ghost use Rattle.std.specs.BTreeMap.{is_at};
ghost use Rattle.std.specs.Map.{lookup};
ghost use Rattle.gf_classes.specs.Fingerprints.{fingerprint_cmp};
ghost use Rattle.gf_classes.specs.SameValues.{PutsRanks, PutsRank, IsIndex};

use crate::fingerprint::Fingerprint;
use gf_base::OutOfMemory;
use gf_maximal::Numbers;
use std::alloc::Global;
use std::collections::BTreeMap;
use std::marker::Model;

type RanksByFingerprint = BTreeMap<Fingerprint, Numbers>;

/// For each fingerprint the ranks of the values that have it.
#[derive(Drop)]
pub(crate) struct SameValues {
    ranks: RanksByFingerprint,
}

impl Model for SameValues {
    ghost use Rattle.gf_classes.specs.SameValues.{Entries};

    ghost Value = { Entries };

    ghost view = { λ i. i.ranks.entries };
}

/// Puts the ranks under the fingerprint.
fn put(
    ranks: &mut RanksByFingerprint,
    fingerprint: Fingerprint,
    some: Numbers,
) -> Result<(), OutOfMemory>
    ensures { OnOk result (PutsRanks ranks.old.entries fingerprint some ranks.new.entries) }
{
    match ranks.insert(fingerprint, some) {
        Ok(_) => Ok(()),
        Err(_) => Err(OutOfMemory),
    }
}

/// Adds a rank under a fingerprint.
fn add_rank(
    alloc: Global,
    ranks: &mut RanksByFingerprint,
    fingerprint: Fingerprint,
    rank: usize,
) -> Result<(), OutOfMemory>
    requires { rank + 1 < 2 ^ 64 }
    ensures { OnOk result (PutsRank ranks.old.entries fingerprint rank ranks.new.entries) }
{
    if let Some(some) = ranks.get_mut(&fingerprint) {
        return some.join(rank);
    }
    let mut some = Numbers::new(alloc);
    some.join(rank)?;
    put(ranks, fingerprint, some)
}

impl SameValues {
    /// The ranks of these fingerprints.
    pub(crate) fn of(alloc: Global, fingerprints: &[Fingerprint]) -> Result<SameValues, OutOfMemory>
        ensures { IfOk result (λ index. IsIndex fingerprints.now index) }
    {
        let mut ranks = BTreeMap::new(alloc);
        for (rank, fingerprint) in fingerprints.iter().enumerate() {
            add_rank(alloc, &mut ranks, *fingerprint, rank)?;
        }
        Ok(SameValues { ranks })
    }

    /// The ranks of this fingerprint.
    pub(crate) fn get(&self, fingerprint: Fingerprint) -> Option<&Numbers>
        ensures { option_copied result ≡ lookup (is_at (fingerprint_cmp fingerprint)) self.now }
    {
        self.ranks.get(&fingerprint)
    }
}
