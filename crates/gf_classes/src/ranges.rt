//! The setters of an attribute that neither know a setter nor are known by it, as ranges of ranks.

ghost use Rattle.std.specs.Prelude.{◌≡◌, ◌*◌, ◌+◌, ◌<◌, nat_le, IfOk, length};
ghost use Rattle.gf_classes.specs.Setters.{AreSorted, IsKeyed, key_of};
ghost use Rattle.gf_classes.specs.declared.setters.TheConstants.{BLOCK};
ghost use Rattle.gf_classes.specs.Ranges.{is_unknowing, SplitsAt, IsRange, AreRanges, AreNear};
ghost use Rattle.gf_classes.specs.Ranges.{AreKeysOf, Trims, IsCutRange};

use crate::setters::{BLOCK, Setter, known};
use gf_base::OutOfMemory;
use gf_maximal::{Numbers, Run};
use std::alloc::Global;

/// The rank of the first setter with a key above this one.
fn first_above(setters: &[Setter], key: usize) -> usize
    requires { AreSorted setters.now }
    ensures { SplitsAt (λ e. nat_le e.key key) setters.now result }
{
    setters.partition_point(|setter| setter.key <= key)
}

/// Whether the setter stands before the log, whose keys these are, or in it and does not know the
/// operation.
fn is_unknowing(setter: &Setter, log: Run, site: usize, seq: usize) -> bool
    ensures { result ≡ is_unknowing log site seq setter.now }
{
    setter.key < log.start || (setter.key < log.end && known(&setter.past, site) < seq)
}

/// The keys of the setters of the attribute with this index by the site.
fn keys_of(attribute: usize, site: usize) -> Run
    requires attribute { attribute < 6 }
    requires site { site < 8 }
    ensures start { result.start ≡ key_of attribute site 0 }
    ensures end { result.end ≡ key_of attribute site BLOCK }
{
    let start = (attribute * 8 + site) * BLOCK;
    Run {
        start,
        end: start + BLOCK,
    }
}

/// The rank of the first setter that stands behind those with these keys, or is one of them and
/// knows the setter.
fn first_knowing(setters: &[Setter], keys: Run, x: &Setter) -> usize
    requires sorted { AreSorted setters.now }
    requires site { x.now.site < 8 }
    requires keys { AreKeysOf keys }
    ensures { SplitsAt (is_unknowing keys x.now.site x.now.seq) setters.now result }
{
    let site = x.site;
    let seq = x.seq;
    setters.partition_point(|setter| is_unknowing(setter, keys, site, seq))
}

/// The ranks of the setters by a site, of the attribute of a setter, that are apart from it.
fn range_of(setters: &[Setter], x: &Setter, site: usize) -> Run
    requires sorted { AreSorted setters.now }
    requires keyed { IsKeyed x.now }
    requires site { site < 8 }
    ensures { IsRange setters.now x.now site result }
{
    if site == x.site {
        return Run { start: 0, end: 0 };
    }
    let keys = keys_of(x.attribute, site);
    Run {
        start: first_above(setters, keys.start + known(&x.past, site)),
        end: first_knowing(setters, keys, x),
    }
}

/// The run without what one of these runs has of its beginning.
fn trimmed_front(run: Run, cut: &[Run]) -> Run
    ensures { Trims cut.now run result }
{
    let index = cut.partition_point(|other| other.end <= run.start);
    match cut.get(index) {
        Some(other) if other.start <= run.start && run.start < other.end => Run {
            start: other.end,
            end: run.end,
        },
        _ => run,
    }
}

/// The run without what one of these runs has of its end.
fn trimmed_back(run: Run, cut: &[Run]) -> Run
    ensures { Trims cut.now run result }
{
    let index = cut.partition_point(|other| other.end < run.end);
    match cut.get(index) {
        Some(other) if other.start < run.end && run.end <= other.end => Run {
            start: run.start,
            end: other.start,
        },
        _ => run,
    }
}

/// The ranks of the setters by a site that are apart from a setter. What these runs have is taken
/// off at both ends.
fn cut_range_of(setters: &[Setter], x: &Setter, site: usize, cut: &[Run]) -> Run
    requires sorted { AreSorted setters.now }
    requires keyed { IsKeyed x.now }
    requires site { site < 8 }
    ensures { IsCutRange setters.now x.now site cut.now result }
{
    let front = trimmed_front(range_of(setters, x, site), cut);
    trimmed_back(front, cut)
}

/// The ranks of the setters that are apart from a setter, by sites. What these runs have is taken
/// off at both ends of each.
pub(crate) fn ranges(
    alloc: Global,
    setters: &[Setter],
    x: &Setter,
    cut: &[Run],
) -> Result<Vec<Run>, OutOfMemory>
    requires sorted { AreSorted setters.now }
    requires keyed { IsKeyed x.now }
    ensures { IfOk result (λ runs. AreRanges setters.now x.now 8 cut.now runs.items) }
{
    let mut runs = Vec::new(alloc);
    for site in 0..8 {
        runs.push(cut_range_of(setters, x, site, cut))?;
    }
    Ok(runs)
}

/// The ranks of the setters that are apart from a setter.
pub(crate) fn near(alloc: Global, setters: &[Setter], x: &Setter) -> Result<Numbers, OutOfMemory>
    requires sorted { AreSorted setters.now }
    requires keyed { IsKeyed x.now }
    ensures { IfOk result (λ found. AreNear setters.now x.now found) }
{
    let none = Numbers::new(alloc);
    let runs = ranges(alloc, setters, x, none.runs())?;
    Numbers::of_runs(alloc, runs)
}
