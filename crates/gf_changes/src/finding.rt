//! Which versions a figure may be, found by what they have in common.

use crate::Target;
use crate::matching::Candidate;
use crate::ranks::{Rank, ranks_by_object, ranks_of};
use gf_base::OutOfMemory;
use gf_ops::{Clock, ObjectId, OpId, Start};
use gf_shape::AnyShape;
use gf_versions::Placed;
use std::alloc::Global;

/// Versions by what they have in common with figures.
#[derive(Drop)]
pub(crate) struct Finder {
    by_object: Vec<Rank>,
    by_place_and_colour: Vec<PlaceAndColour>,
    /// The indices of those whose object was made since the drawing was written.
    newer: Vec<usize>,
}

/// The place, the colour and the index of a version, in this order for sorting.
#[derive(Clone, Copy, PartialEq, Eq, PartialOrd, Ord)]
struct PlaceAndColour {
    x: i32,
    y: i32,
    r: u8,
    g: u8,
    b: u8,
    index: usize,
}

impl Finder {
    /// A finder of versions, each of which looks like the candidate at its index. `known` counts
    /// the operations that the drawing knew.
    pub(crate) fn of(
        alloc: Global,
        versions: &[Placed<AnyShape>],
        candidates: &[Candidate],
        known: &Clock,
    ) -> Result<Finder, OutOfMemory> {
        Ok(Finder {
            by_object: ranks_by_object(alloc, versions)?,
            by_place_and_colour: places_and_colours(alloc, candidates)?,
            newer: newer_than(alloc, versions, known)?,
        })
    }

    /// The indices of the versions of an object, rising.
    pub(crate) fn of_object(
        &self,
        alloc: Global,
        object: ObjectId,
    ) -> Result<Vec<usize>, OutOfMemory> {
        let mut indices = Vec::new(alloc);
        for rank in ranks_of(&self.by_object, object) {
            indices.push(rank.index)?;
        }
        Ok(indices)
    }

    /// The indices of the versions that have the place and the colour of a figure, rising.
    pub(crate) fn like(&self, alloc: Global, figure: &Target) -> Result<Vec<usize>, OutOfMemory> {
        let entries = &self.by_place_and_colour;
        let first = first_from(entries, place_and_colour(&figure.start, 0));
        let last = first_from(entries, place_and_colour(&figure.start, usize::MAX));
        let mut indices = Vec::new(alloc);
        for entry in entries.get(first..last).unwrap_or(&[]) {
            indices.push(entry.index)?;
        }
        Ok(indices)
    }

    /// The indices of the versions whose object was made since the drawing was written, rising.
    pub(crate) fn newer(&self, alloc: Global) -> Result<Vec<usize>, OutOfMemory> {
        Ok(Vec::from_slice(alloc, &self.newer)?)
    }
}

/// The places and colours of candidates with their indices, sorted.
fn places_and_colours(
    alloc: Global,
    candidates: &[Candidate],
) -> Result<Vec<PlaceAndColour>, OutOfMemory> {
    let mut entries = Vec::with_capacity(alloc, candidates.len())?;
    for (index, candidate) in candidates.iter().enumerate() {
        entries.push(place_and_colour(&candidate.start, index))?;
    }
    entries.sort()?;
    Ok(entries)
}

fn place_and_colour(start: &Start, index: usize) -> PlaceAndColour {
    PlaceAndColour {
        x: start.place.x,
        y: start.place.y,
        r: start.colour.r,
        g: start.colour.g,
        b: start.colour.b,
        index,
    }
}

/// The index of the first of these sorted entries that is not less than another one.
fn first_from(entries: &[PlaceAndColour], other: PlaceAndColour) -> usize {
    match entries.binary_search(&other) {
        Ok(index) | Err(index) => index,
    }
}

/// The indices of the versions whose object a clock does not count.
fn newer_than(
    alloc: Global,
    versions: &[Placed<AnyShape>],
    known: &Clock,
) -> Result<Vec<usize>, OutOfMemory> {
    let mut newer = Vec::new(alloc);
    for (index, version) in versions.iter().enumerate() {
        if is_newer(version.key.object.0, known) {
            newer.push(index)?;
        }
    }
    Ok(newer)
}

/// Whether a clock does not count the operation of this id.
fn is_newer(id: OpId, known: &Clock) -> bool {
    known.entry(id.site) < id.seq
}
