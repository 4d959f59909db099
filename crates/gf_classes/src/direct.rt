//! Direct classes: the operations on an object by those that they conflict with directly.

ghost use Rattle.std.specs.Prelude.{◌≡◌, ◌↔◌, ◌<◌, ◌^◌, IfOk, length, Contains};
ghost use Rattle.gf_table.specs.Positions.{positions_on};
ghost use Rattle.gf_classes.specs.Direct.{AreDirect};
ghost use Rattle.gf_classes.specs.Kinds.{AreRising, IsFirstFrom, IsMet, IsAmong, AreRowsOf};
ghost use Rattle.gf_classes.specs.Kinds.{put_class, kind_fingerprints, ButFor};
ghost use Rattle.gf_classes.specs.SameValues.{IsIndex};
ghost use Rattle.gf_classes.specs.Kinds.{ArePut};
ghost use Rattle.gf_classes.specs.declared.setters.Setter.{Setter};

use crate::fingerprint::Fingerprint;
use crate::kinds::{Kind, kind_fingerprints, kinds_of};
use crate::same_values::SameValues;
use crate::setters::{Setter, fingerprints, setters};
use gf_base::OutOfMemory;
use gf_maximal::{Numbers, Run};
use gf_ops::{History, ObjectId};
use std::alloc::Global;
use std::marker::Model;

/// The direct classes of the operations on an object.
#[derive(Drop)]
pub(crate) struct Direct {
    classes: Vec<Option<usize>>,
    rows: Vec<Numbers>,
}

impl Model for Direct {
    ghost use Rattle.gf_classes.specs.Direct.{DirectState};

    ghost Value = { DirectState };

    ghost view = { λ d. record { classes = d.classes.items; rows = d.rows.items } };
}

impl Direct {
    /// The class of each operation, unless it conflicts directly with none.
    pub(crate) fn classes(&self) -> &[Option<usize>]
        ensures { result.now ≡ self.now.classes }
    {
        &self.classes
    }

    /// For each class the classes that it conflicts with.
    pub(crate) fn rows(&self) -> &[Numbers]
        ensures rows { result.now ≡ self.now.rows }
        ensures bound { length result.now < 2 ^ 63 }
    {
        &self.rows
    }

    /// The rows themselves.
    pub(crate) fn into_rows(self) -> Vec<Numbers>
        ensures { result.items ≡ self.rows }
    {
        self.rows
    }
}

/// The first class whose first member has this rank or one above it.
fn first_from(kinds: &[Kind], rank: usize) -> usize
    requires { AreRising kinds.now }
    ensures { IsFirstFrom rank kinds.now result }
{
    kinds.partition_point(|kind| kind.first < rank)
}

/// The classes of which the first member is one of the ranks.
fn met(alloc: Global, kinds: &[Kind], ranks: &Numbers) -> Result<Numbers, OutOfMemory>
    requires { AreRising kinds.now }
    ensures { IfOk result (λ met. (l : _) → Contains met l ↔ IsMet kinds.now ranks.now l) }
{
    let mut runs = Vec::new(alloc);
    for run in ranks.runs() {
        runs.push(Run {
            start: first_from(kinds, run.start),
            end: first_from(kinds, run.end),
        })?;
    }
    Numbers::of_runs(alloc, runs)
}

/// The classes, but for those of which the first member has the fingerprint, if it is one.
fn but_for(
    alloc: Global,
    same: &SameValues,
    except: Option<Fingerprint>,
    classes: Numbers,
) -> Result<Numbers, OutOfMemory>
    ensures { IfOk result (λ left. (ks : _) → IsIndex (kind_fingerprints ks) same.now
        → ButFor ks except classes left) }
{
    let Some(fingerprint) = except else {
        return Ok(classes);
    };
    match same.get(fingerprint) {
        Some(some) => classes.without(alloc, some),
        None => Ok(classes),
    }
}

/// The classes of which the first member is a rival.
fn row(
    alloc: Global,
    kinds: &[Kind],
    same: &SameValues,
    kind: &Kind,
) -> Result<Numbers, OutOfMemory>
    requires rising { AreRising kinds.now }
    requires same { IsIndex (kind_fingerprints kinds.now) same.now }
    ensures { IfOk result (λ row. (l : _) → Contains row l
        ↔ IsAmong kinds.now kind.now.rival_ranks.ranks kind.now.rival_ranks.except l) }
{
    let all = met(alloc, kinds, &kind.rival_ranks.ranks)?;
    let row = but_for(alloc, same, kind.rival_ranks.except, all)?;
    Ok(row)
}

/// The rows of the classes.
fn rows(alloc: Global, kinds: &[Kind]) -> Result<Vec<Numbers>, OutOfMemory>
    requires { AreRising kinds.now }
    ensures { IfOk result (λ rows. AreRowsOf kinds.now (length kinds.now) rows.items) }
{
    let fingerprints = kind_fingerprints(alloc, kinds)?;
    let same = SameValues::of(alloc, &fingerprints)?;
    let mut rows = Vec::new(alloc);
    for kind in kinds {
        let row = row(alloc, kinds, &same, kind)?;
        rows.push(row)?;
    }
    Ok(rows)
}

/// Puts the class at the index, if it is one.
fn put_class(classes: &mut Vec<Option<usize>>, index: usize, class: Option<usize>)
    requires { index < length classes.old.items }
    ensures { classes.new.items ≡ put_class classes.old.items index class }
{
    if class.is_some() {
        classes[index] = class;
    }
}

/// The classes of so many operations, of which these are the setters with their classes.
fn placed(
    alloc: Global,
    setters: &[Setter],
    classes: &[Option<usize>],
    len: usize,
) -> Result<Vec<Option<usize>>, OutOfMemory>
    requires within { (e : Setter) → Contains setters.now e → e.index < len }
    requires count { length classes.now ≡ length setters.now }
    ensures { IfOk result (λ all.
        ArePut setters.now classes.now (length setters.now) len all.items) }
{
    let mut all = vec![in alloc; None; len]?;
    for rank in 0..setters.len() {
        put_class(&mut all, setters[rank].index, classes[rank]);
    }
    Ok(all)
}

/// The direct classes of the operations on an object, which stand at these positions.
pub(crate) fn direct_classes(
    alloc: Global,
    history: &History,
    object: ObjectId,
    positions: &[usize],
) -> Result<Direct, OutOfMemory>
    requires { positions.now ≡ positions_on history.now.ops object }
    ensures { IfOk result (λ found. AreDirect history.now.ops positions.now found) }
{
    let setters = setters(alloc, history, positions)?;
    let fingerprints = fingerprints(alloc, &setters)?;
    let same = SameValues::of(alloc, &fingerprints)?;
    let found = kinds_of(alloc, history.ops(), &setters, &same)?;
    let rows = rows(alloc, &found.kinds)?;
    let classes = placed(alloc, &setters, &found.classes, positions.len())?;
    Ok(Direct { classes, rows })
}
