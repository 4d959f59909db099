//! The visible versions of one object, as they were found.

ghost use Rattle.std.specs.Prelude.{◌≡◌, ◌≤◌, length, IfNone, IfOk, IfSome};
ghost use Rattle.gf_groups.specs.Versions.{IsMade};
ghost use Rattle.gf_versions.specs.declared.ranking.TheConstants.{MOST_VERSIONS};
ghost use Rattle.gf_visible.specs.ShownVersions.{HasMoreOn};
ghost use Rattle.gf_kept.specs.Keeping.{ArePlacedOn};

use gf_base::OutOfMemory;
use gf_listing::Versions;
use gf_ops::ObjectId;
use gf_shape::AnyShape;
use gf_versions::{Placed, Ranked, VersionKey, ranked_of};
use gf_visible::visible_groups;
use std::alloc::Global;
use std::marker::Model;

/// Versions at their places, seen as their list.
#[derive(Drop)]
pub(crate) struct FoundVersions {
    items: Vec<Placed<AnyShape>>,
}

impl Model for FoundVersions {
    ghost use Rattle.std.specs.Prelude.{List};
    ghost use Rattle.gf_shape.specs.declared.any_shape.AnyShape.{AnyShape};
    ghost use Rattle.gf_versions.specs.declared.placed.Placed.{Placed};

    ghost Value = { List (Placed AnyShape) };

    ghost view = { λ f. f.items.items };
}

impl FoundVersions {
    /// The visible versions of an object that the history made, if they are at most `most`.
    pub(crate) fn find(
        alloc: Global,
        versions: &Versions<'_>,
        object: ObjectId,
        most: usize,
    ) -> Result<Option<FoundVersions>, OutOfMemory>
        requires made { IsMade versions.now object }
        requires most { most ≤ MOST_VERSIONS }
        ensures found { IfOk result (λ found.
            IfSome found (λ items. ArePlacedOn versions.now object items)) }
        ensures few { IfOk result (λ found. IfSome found (λ items. length items ≤ most)) }
        ensures more { IfOk result (λ found. IfNone found (HasMoreOn versions.now object most)) }
    {
        let history = versions.history();
        let Some(groups) = visible_groups(alloc, versions, object, most)? else {
            return Ok(None);
        };
        let Ranked { items } = ranked_of(alloc, history, &groups)?;
        Ok(Some(FoundVersions { items }))
    }

    /// How many versions there are.
    pub(crate) fn len(&self) -> usize
        ensures { result ≡ length self.now }
    {
        self.items.len()
    }

    /// A copy of the versions.
    pub(crate) fn copy(&self, alloc: Global) -> Result<FoundVersions, OutOfMemory>
        ensures { IfOk result (λ copy. copy ≡ self.now) }
    {
        Ok(FoundVersions {
            items: self.copies(alloc)?,
        })
    }

    /// Copies of the versions, in their order.
    pub(crate) fn copies(&self, alloc: Global) -> Result<Vec<Placed<AnyShape>>, OutOfMemory>
        ensures { IfOk result (λ copies. copies.items ≡ self.now) }
    {
        let mut copies = Vec::new(alloc);
        for item in &self.items {
            copies.push(copy_of(alloc, item)?)?;
        }
        Ok(copies)
    }
}

/// A copy of a version at its place.
fn copy_of(alloc: Global, item: &Placed<AnyShape>) -> Result<Placed<AnyShape>, OutOfMemory>
    ensures { IfOk result (λ copy. copy ≡ item.now) }
{
    Ok(Placed {
        shape: item.shape.copy(alloc)?,
        key: VersionKey {
            layer: item.key.layer,
            object: item.key.object,
            ops: item.key.ops.copy(alloc)?,
        },
        colour: item.colour,
    })
}
