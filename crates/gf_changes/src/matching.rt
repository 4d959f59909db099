//! Which version each figure is.

ghost use Rattle.gf_versions.specs.Ranking.{AreRanked};

use crate::Target;
use crate::aiming::has_all;
use crate::comparing::{can_get_points, differences, has_other_points, is_polygon};
use crate::finding::Finder;
use crate::settled::{settled_place, start_like};
use gf_base::OutOfMemory;
use gf_fig_named::Named;
use gf_ops::{Clock, History, Start};
use gf_shape::{AnyShape, Point};
use gf_versions::{Placed, VersionKey};
use std::alloc::Global;

/// Which version each figure is, and which figure each version is, by their indices in both lists.
#[derive(Drop)]
pub struct Matching {
    pub(crate) versions: Vec<Option<usize>>,
    pub(crate) candidates: Vec<Candidate>,
    finder: Finder,
}

/// A version that may be a figure.
#[derive(Drop)]
pub(crate) struct Candidate {
    /// What an object begins with that looks like the version.
    pub(crate) start: Start,
    /// Where the version is settled, once a figure has asked for this.
    pub(crate) settled: Option<Point>,
    /// The index of the figure that the version is.
    pub(crate) figure: Option<usize>,
}

/// How a figure and a version may be one.
#[derive(Clone, Copy)]
enum Way {
    /// The figure has the name of the version.
    Named,
    /// Nothing differs.
    Same,
    /// The object was made since the drawing was written.
    Newer,
}

/// One round over the figures: how a pair may be one, and in how many attributes it differs.
#[derive(Clone, Copy)]
struct Round {
    way: Way,
    count: usize,
}

/// Finds for each figure the version that it is, if it is one. First come the versions whose name
/// the figure has, then those that look like it. The pair that differs in fewest attributes goes
/// first, then the figure in front, then the version above.
///
/// `known` counts the operations that the drawing knew. Only a polygon that may get other points
/// is settled.
pub fn matched(
    alloc: Global,
    history: &History,
    versions: &[Placed<AnyShape>],
    targets: &[Target],
    known: &Clock,
) -> Result<Matching, OutOfMemory>
    requires { AreRanked history.now.ops versions.now }
{
    let mut matching = unmatched(alloc, versions, targets.len(), known)?;
    for count in 0..=3 {
        let way = Way::Named;
        match_all(
            alloc,
            history,
            versions,
            targets,
            &mut matching,
            Round { way, count },
        )?;
    }
    for count in 0..=2 {
        let way = if count == 0 { Way::Same } else { Way::Newer };
        match_all(
            alloc,
            history,
            versions,
            targets,
            &mut matching,
            Round { way, count },
        )?;
    }
    Ok(matching)
}

/// Versions and so many figures, none of which is matched.
fn unmatched(
    alloc: Global,
    versions: &[Placed<AnyShape>],
    count: usize,
    known: &Clock,
) -> Result<Matching, OutOfMemory> {
    let mut figures = Vec::with_capacity(alloc, count)?;
    for _ in 0..count {
        figures.push(None)?;
    }
    let mut candidates = Vec::with_capacity(alloc, versions.len())?;
    for version in versions {
        candidates.push(Candidate {
            start: start_like(alloc, version)?,
            settled: None,
            figure: None,
        })?;
    }
    let finder = Finder::of(alloc, versions, &candidates, known)?;
    Ok(Matching {
        versions: figures,
        candidates,
        finder,
    })
}

/// Matches what may be one in this round.
fn match_all(
    alloc: Global,
    history: &History,
    versions: &[Placed<AnyShape>],
    targets: &[Target],
    matching: &mut Matching,
    round: Round,
) -> Result<(), OutOfMemory>
    requires { AreRanked history.now.ops versions.now }
{
    for (f, figure) in targets.iter().enumerate() {
        if is_free(&matching.versions, f) {
            if let Some(v) = match_of(alloc, history, versions, figure, matching, round)? {
                matching.pair(f, v);
            }
        }
    }
    Ok(())
}

/// The index of the first free version that a figure may be in this round.
fn match_of(
    alloc: Global,
    history: &History,
    versions: &[Placed<AnyShape>],
    figure: &Target,
    matching: &mut Matching,
    round: Round,
) -> Result<Option<usize>, OutOfMemory>
    requires { AreRanked history.now.ops versions.now }
{
    let found = matching.found(alloc, figure, round.way)?;
    for v in found.iter() {
        if matching.may_match(versions, *v, figure, round) {
            matching.settle_for(alloc, history, versions, *v, figure)?;
            if matching.can_become(*v, figure) {
                return Ok(Some(*v));
            }
        }
    }
    Ok(None)
}

/// The index in file order of the first figure that comes to be something beyond the limits of
/// operations: a new object, or a version with another value. A polygon that is a version keeps
/// the place of this version.
pub fn first_beyond(targets: &[Target], matching: &Matching) -> Option<usize> {
    let mut first: Option<usize> = None;
    for (f, figure) in targets.iter().enumerate() {
        let is_new = is_free(&matching.versions, f) || !is_polygon(&figure.start.form);
        if is_new && !figure.is_within {
            first = Some(first.unwrap_or(figure.index).min(figure.index));
        }
    }
    first
}

/// Whether the entry of a list is there and matched with nothing.
fn is_free(entries: &[Option<usize>], index: usize) -> bool {
    matches!(entries.get(index), Some(None))
}

impl Matching {
    /// The indices of the versions that a figure may be in this way, rising, and maybe of others.
    fn found(&self, alloc: Global, figure: &Target, way: Way) -> Result<Vec<usize>, OutOfMemory> {
        match (way, &figure.name) {
            (Way::Named, Some(named)) => self.finder.of_object(alloc, named.name.object),
            (Way::Named, None) => Ok(Vec::new(alloc)),
            (Way::Same, _) => self.finder.like(alloc, figure),
            (Way::Newer, _) => self.finder.newer(alloc),
        }
    }

    /// Whether a figure may be the version at an index in this round, if its limits allow this.
    fn may_match(
        &self,
        versions: &[Placed<AnyShape>],
        index: usize,
        figure: &Target,
        round: Round,
    ) -> bool {
        match (versions.get(index), self.candidates.get(index)) {
            (Some(version), Some(candidate)) => {
                candidate.figure.is_none()
                    && is_in_way(&version.key, figure, round.way)
                    && differences(&candidate.start, &figure.start) == Some(round.count)
            }
            (None, _) | (Some(_), None) => false,
        }
    }

    /// Finds where the version at an index is settled, the first time that a figure asks for this.
    fn settle_for(
        &mut self,
        alloc: Global,
        history: &History,
        versions: &[Placed<AnyShape>],
        index: usize,
        figure: &Target,
    ) -> Result<(), OutOfMemory>
        requires { AreRanked history.now.ops versions.now }
    {
        let Some(candidate) = self.candidates.get_mut(index) else {
            return Ok(());
        };
        if candidate.settled.is_none() && has_other_points(&candidate.start, &figure.start) {
            candidate.settled = settled_place(alloc, history, versions, index)?;
        }
        Ok(())
    }

    /// Whether the version at an index can become a figure of its kind within the limits.
    fn can_become(&self, index: usize, figure: &Target) -> bool {
        match self.candidates.get(index) {
            Some(candidate) => candidate.can_become(&figure.start),
            None => false,
        }
    }

    /// Whether the version at an index is a figure.
    pub(crate) fn has_figure(&self, index: usize) -> bool {
        match self.candidates.get(index) {
            Some(candidate) => candidate.figure.is_some(),
            None => false,
        }
    }

    /// Matches a figure and a version.
    fn pair(&mut self, figure: usize, version: usize) {
        if let Some(entry) = self.versions.get_mut(figure) {
            *entry = Some(version);
        }
        if let Some(candidate) = self.candidates.get_mut(version) {
            candidate.figure = Some(figure);
        }
    }
}

impl Candidate {
    /// Whether the version can become a figure of its kind within the limits.
    fn can_become(&self, new: &Start) -> bool {
        if !has_other_points(&self.start, new) {
            return true;
        }
        match self.settled {
            Some(settled) => can_get_points(&self.start, new, settled),
            None => false,
        }
    }
}

/// Whether a figure may be a version that was found in this way.
fn is_in_way(key: &VersionKey, figure: &Target, way: Way) -> bool {
    match (way, &figure.name) {
        (Way::Named, Some(named)) => is_named(key, named),
        (Way::Named, None) => false,
        (Way::Same | Way::Newer, _) => true,
    }
}

/// Whether a name may be that of a version.
pub(crate) fn is_named(key: &VersionKey, name: &Named) -> bool {
    key.object == name.name.object && has_all(key.ops.as_slice(), name.name.telling.as_slice())
}
