//! The versions that a history shows, found by their objects.

use gf_base::OutOfMemory;
use gf_ops::ObjectId;
use gf_shape::AnyShape;
use gf_table::IndexedHistory;
use gf_versions::Placed;
use std::alloc::Global;

/// An object, and the index of a version of it.
#[derive(Clone, Copy, PartialEq, Eq, PartialOrd, Ord)]
pub(crate) struct Rank {
    pub(crate) object: ObjectId,
    pub(crate) index: usize,
}

/// The versions that a history shows, topmost first, and their ranks by object.
#[derive(Clone, Copy)]
pub(crate) struct ShownVersions<'a> {
    pub(crate) history: &'a IndexedHistory,
    pub(crate) versions: &'a [Placed<AnyShape>],
    pub(crate) ranks: &'a [Rank],
}

impl<'a> ShownVersions<'a> {
    /// The ranks of the versions of an object.
    pub(crate) fn of_object(self, object: ObjectId) -> &'a [Rank] {
        ranks_of(self.ranks, object)
    }
}

/// The ranks of versions, by object and then by index.
pub(crate) fn ranks_by_object(
    alloc: Global,
    versions: &[Placed<AnyShape>],
) -> Result<Vec<Rank>, OutOfMemory> {
    let mut ranks = Vec::with_capacity(alloc, versions.len())?;
    for (index, version) in versions.iter().enumerate() {
        ranks.push(Rank {
            object: version.key.object,
            index,
        })?;
    }
    ranks.sort()?;
    Ok(ranks)
}

/// The ranks of one object, out of those by object.
pub(crate) fn ranks_of(ranks: &[Rank], object: ObjectId) -> &[Rank] {
    let first = first_from(ranks, Rank { object, index: 0 });
    let last = first_from(
        ranks,
        Rank {
            object,
            index: usize::MAX,
        },
    );
    ranks.get(first..last).unwrap_or(&[])
}

/// The index of the first rank that is not less than another one.
fn first_from(ranks: &[Rank], other: Rank) -> usize {
    match ranks.binary_search(&other) {
        Ok(index) | Err(index) => index,
    }
}
