//! Setters in classes: those of a class have the same rivals, and hide at one site or not at all.

ghost use Rattle.std.specs.Prelude.{◌≡◌, IfOk, IfSome, length, Contains, option_copied, slice_get};
ghost use Rattle.gf_ops.specs.ValidHistory.{IsValid};
ghost use Rattle.gf_classes.specs.Setters.{AreSorted, AreSetters, fingerprints};
ghost use Rattle.gf_classes.specs.SameValues.{IsIndex};
ghost use Rattle.gf_classes.specs.Kinds.{IsKind, is_kind, Finds, Gives, AreKinds};
ghost use Rattle.gf_classes.specs.Kinds.{kind_fingerprints};

use crate::fingerprint::{Fingerprint, are_same};
use crate::rival_ranks::{RivalRanks, rival_ranks_of};
use crate::same_values::SameValues;
use crate::setters::Setter;
use gf_base::OutOfMemory;
use gf_ops::Op;
use std::alloc::Global;
use std::collections::BTreeMap;

/// A class: the rank and the fingerprint of its first member, the site that its members hide at,
/// and their rivals.
#[derive(Drop)]
pub(crate) struct Kind {
    pub first: usize,
    pub fingerprint: Fingerprint,
    pub hiding: usize,
    pub rival_ranks: RivalRanks,
}

/// For the rivals and a hiding site the class to look at first.
type Hints = BTreeMap<Vec<usize>, usize>;

/// What the class of these rivals and this hiding site is looked up by.
fn hint_of(
    alloc: Global,
    rival_ranks: &RivalRanks,
    hiding: usize,
) -> Result<Vec<usize>, OutOfMemory> {
    let mut hint = Vec::new(alloc);
    hint.push(hiding)?;
    hint.push(rival_ranks.mark)?;
    for run in rival_ranks.ranks.runs() {
        hint.push(run.start)?;
        hint.push(run.end)?;
    }
    Ok(hint)
}

/// Whether there is a class, with these rivals and this hiding site.
fn is_kind(kind: Option<&Kind>, rival_ranks: &RivalRanks, hiding: usize) -> bool
    ensures { result ≡ is_kind (option_copied kind.entry) rival_ranks.now hiding }
{
    match kind {
        Some(kind) => {
            kind.hiding == hiding
                && kind.rival_ranks.ranks.equals(&rival_ranks.ranks)
                && are_same(kind.rival_ranks.except, rival_ranks.except)
        }
        None => false,
    }
}

/// Whether there is such a class, with these rivals and this hiding site.
fn is_kind_at(kinds: &[Kind], class: usize, rival_ranks: &RivalRanks, hiding: usize) -> bool
    ensures { result ≡ is_kind (slice_get kinds.now class) rival_ranks.now hiding }
{
    is_kind(kinds.get(class), rival_ranks, hiding)
}

/// The class at the hint, if it has these rivals and this hiding site.
fn hinted(
    hints: &Hints,
    kinds: &[Kind],
    hint: &Vec<usize>,
    rival_ranks: &RivalRanks,
    hiding: usize,
) -> Option<usize>
    ensures { IfSome result (λ k. IsKind kinds.now k hiding rival_ranks.now) }
{
    let class = *hints.get(hint)?;
    if is_kind_at(kinds, class, rival_ranks, hiding) {
        Some(class)
    } else {
        None
    }
}

/// The class with the rivals and the hiding site of this one, which is added if there is none.
fn class_of(
    alloc: Global,
    kind: Kind,
    hints: &mut Hints,
    kinds: &mut Vec<Kind>,
) -> Result<usize, OutOfMemory>
    ensures { IfOk result (λ k. Finds kinds.old.items kind kinds.new.items k) }
{
    let hint = hint_of(alloc, &kind.rival_ranks, kind.hiding)?;
    if let Some(class) = hinted(hints, kinds, &hint, &kind.rival_ranks, kind.hiding) {
        return Ok(class);
    }
    let class = kinds.len();
    hints.insert(hint, class)?;
    kinds.push(kind)?;
    Ok(class)
}

/// The class with the rivals and the hiding site of this one, unless it has no rival.
fn class_for(
    alloc: Global,
    kind: Kind,
    hints: &mut Hints,
    kinds: &mut Vec<Kind>,
) -> Result<Option<usize>, OutOfMemory>
    ensures { IfOk result (λ c. Gives kinds.old.items kind kinds.new.items c) }
{
    if kind.rival_ranks.ranks.is_empty() {
        return Ok(None);
    }
    let class = class_of(alloc, kind, hints, kinds)?;
    Ok(Some(class))
}

/// The classes of setters, and that of each setter, unless it has no rival.
#[derive(Drop)]
pub(crate) struct Kinded {
    pub kinds: Vec<Kind>,
    pub classes: Vec<Option<usize>>,
}

/// The classes of the setters.
pub(crate) fn kinds_of(
    alloc: Global,
    ops: &[Op],
    setters: &[Setter],
    index: &SameValues,
) -> Result<Kinded, OutOfMemory>
    requires sorted { AreSorted setters.now }
    ensures { IfOk result (λ found. (us : _) (o : _) → IsValid ops.now
        → AreSetters ops.now us o setters.now → IsIndex (fingerprints setters.now) index.now
        → AreKinds ops.now setters.now (length setters.now) found.kinds.items
        found.classes.items) }
{
    let mut hints = BTreeMap::new(alloc);
    let mut kinds = Vec::new(alloc);
    let mut classes = Vec::new(alloc);
    for (first, setter) in setters.iter().enumerate() {
        let rival_ranks = rival_ranks_of(alloc, ops, setters, index, setter)?;
        let kind = Kind {
            first,
            fingerprint: setter.fingerprint,
            hiding: setter.hiding,
            rival_ranks,
        };
        classes.push(class_for(alloc, kind, &mut hints, &mut kinds)?)?;
    }
    Ok(Kinded { kinds, classes })
}

/// The fingerprints of the first members of the classes.
pub(crate) fn kind_fingerprints(
    alloc: Global,
    kinds: &[Kind],
) -> Result<Vec<Fingerprint>, OutOfMemory>
    ensures { IfOk result (λ all. all.items ≡ kind_fingerprints kinds.now) }
{
    let mut all = Vec::new(alloc);
    for kind in kinds {
        all.push(kind.fingerprint)?;
    }
    Ok(all)
}
