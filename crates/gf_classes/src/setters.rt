//! The operations that set attributes of an object, sorted.

ghost use Rattle.std.specs.Prelude.{◌≡◌, ◌-◌, ◌<◌, length, slice_get, IfOk, OnOk, option_copied};
ghost use Rattle.std.specs.List.Sorted.{IsPermutation, IsNonDecreasingBy};
ghost use Rattle.gf_table.specs.Positions.{positions_on};
ghost use Rattle.gf_classes.specs.Setters.{setter_by, setter_in, known, AreTaken, AreSetters};
ghost use Rattle.gf_classes.specs.Setters.{with_some, fingerprints};

use crate::fingerprint::{Fingerprint, fingerprint_of, has_own_fingerprint};
use crate::hiding::hiding_site;
use gf_base::OutOfMemory;
use gf_ops::{Change, Clock, History, Op};
use std::alloc::Global;

/// How many keys each attribute and site has.
pub(crate) const BLOCK: usize = 4_294_967_296;

/// An operation that sets an attribute: what its searches ask for. Sites are counted from 0.
#[derive(Clone, Copy)]
pub(crate) struct Setter {
    /// Its place in the order, by attribute, site and number.
    pub key: usize,
    pub attribute: usize,
    pub site: usize,
    pub seq: usize,
    pub past: Clock,
    pub fingerprint: Fingerprint,
    /// Whether no other value has this fingerprint.
    pub own: bool,
    /// The site that hides the object by it, else 0.
    pub hiding: usize,
    /// Where its position stands among those of the object.
    pub index: usize,
    pub position: usize,
}

/// How many operations of the site the clock knows.
pub(crate) fn known(past: &Clock, site: usize) -> usize
    ensures { result ≡ known past.now site }
{
    match past.0.get(site) {
        Some(count) => *count as usize,
        None => 0,
    }
}

/// The setter of an operation, if it sets something.
fn setter_by(op: &Op, index: usize, position: usize) -> Option<Setter>
    ensures { result ≡ setter_by op.now index position op.now.change }
{
    match &op.change {
        Change::Create(_) => None,
        Change::Set { value, .. } => {
            let attribute = value.attribute().index();
            let site = usize::from(op.id.site).saturating_sub(1);
            let seq = op.id.seq as usize;
            Some(Setter {
                key: (attribute * 8 + site) * BLOCK + seq,
                attribute,
                site,
                seq,
                past: op.past,
                fingerprint: fingerprint_of(value),
                own: has_own_fingerprint(value),
                hiding: hiding_site(op),
                index,
                position,
            })
        }
    }
}

/// The setter of an operation, if it is there and sets something.
fn setter_in(op: Option<&Op>, index: usize, position: usize) -> Option<Setter>
    ensures { result ≡ setter_in (option_copied op.entry) index position }
{
    match op {
        Some(op) => setter_by(op, index, position),
        None => None,
    }
}

/// The setter of the operation at the position, if it is there and sets something.
fn setter_at(ops: &[Op], index: usize, position: usize) -> Option<Setter>
    ensures { result ≡ setter_in (slice_get ops.now position) index position }
{
    setter_in(ops.get(position), index, position)
}

/// Adds a setter behind the others, if there is one.
fn push_some(setters: &mut Vec<Setter>, setter: Option<Setter>) -> Result<(), OutOfMemory>
    ensures { OnOk result (setters.new.items ≡ with_some setters.old.items setter) }
{
    match setter {
        Some(setter) => {
            setters.push(setter)?;
            Ok(())
        }
        None => Ok(()),
    }
}

/// The setters at the positions.
fn taken(alloc: Global, ops: &[Op], positions: &[usize]) -> Result<Vec<Setter>, OutOfMemory>
    ensures { IfOk result (λ all.
        AreTaken ops.now positions.now (length positions.now) all.items) }
{
    let mut all = Vec::new(alloc);
    for (index, position) in positions.iter().enumerate() {
        push_some(&mut all, setter_at(ops, index, *position))?;
    }
    Ok(all)
}

/// The setters in the order of their keys.
fn sorted(mut setters: Vec<Setter>) -> Result<Vec<Setter>, OutOfMemory>
    ensures permutation { IfOk result (λ all. IsPermutation setters.items all.items) }
    ensures sorted { IfOk result (λ all. IsNonDecreasingBy (λ e. e.key) all.items) }
{
    setters.sort_by_key(|setter| setter.key)?;
    Ok(setters)
}

/// The setters of an object, whose positions these are, sorted by attribute, site and number.
pub(crate) fn setters(
    alloc: Global,
    history: &History,
    positions: &[usize],
) -> Result<Vec<Setter>, OutOfMemory>
    ensures { IfOk result (λ all. (o : _) → positions.now ≡ positions_on history.now.ops o
        → AreSetters history.now.ops positions.now o all.items) }
{
    let all = taken(alloc, history.ops(), positions)?;
    let setters = sorted(all)?;
    Ok(setters)
}

/// The fingerprints of the values of the setters.
pub(crate) fn fingerprints(
    alloc: Global,
    setters: &[Setter],
) -> Result<Vec<Fingerprint>, OutOfMemory>
    ensures { IfOk result (λ all. all.items ≡ fingerprints setters.now) }
{
    let mut all = Vec::new(alloc);
    for setter in setters {
        all.push(setter.fingerprint)?;
    }
    Ok(all)
}
