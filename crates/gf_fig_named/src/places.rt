//! Where the versions of each object stand in a list.

ghost use Rattle.std.specs.Prelude.{◌≡◌, IfOk, length};
ghost use Rattle.gf_table.specs.Standing.{positions_of};
ghost use Rattle.gf_fig_named.specs.Places.{ArePlaces};

use gf_base::OutOfMemory;
use gf_ops::ObjectId;
use gf_shape::AnyShape;
use gf_table::{Positions, positions_at, push_position};
use gf_versions::Placed;
use std::alloc::Global;
use std::collections::BTreeMap;
use std::marker::Model;

/// For each object the places of its versions in a list, seen as the list of objects with these.
#[derive(Drop)]
pub struct Places {
    objects: BTreeMap<ObjectId, Positions>,
}

impl Model for Places {
    ghost use Rattle.std.specs.Prelude.{List, ℕ};
    ghost use Rattle.gf_ops.specs.declared.op.ObjectId.{ObjectId};

    ghost Value = { List (ObjectId × List ℕ) };

    ghost view = { λ p. p.objects.entries };
}

impl Places {
    /// The places of these versions.
    pub fn of(alloc: Global, items: &[Placed<AnyShape>]) -> Result<Places, OutOfMemory>
        ensures { IfOk result (ArePlaces items.now (length items.now)) }
    {
        let mut objects = BTreeMap::new(alloc);
        for (place, item) in items.iter().enumerate() {
            push_position(alloc, &mut objects, item.key.object, place)?;
        }
        Ok(Places { objects })
    }

    /// The places of the versions of an object, rising; none where there is no version of it.
    pub fn at(&self, object: ObjectId) -> &[usize]
        ensures { result.now ≡ positions_of self.now object }
    {
        positions_at(&self.objects, object)
    }
}
