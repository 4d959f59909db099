//! Versions, and the keys of their order.

ghost use Rattle.std.specs.Prelude.{refl};
ghost use Rattle.std.specs.Cmp.{partial_equiv_from_equiv, partial_order_from_total};
ghost use Rattle.std.specs.Ordering.{as_partial_cmp, eq_by_cmp};
ghost use Rattle.std.proofs.lemmas.Cmp.{eq_by_cmp_equiv};
ghost use Rattle.gf_versions.specs.Above.{key_cmp};
ghost use Rattle.gf_versions.specs.KeyOrder.{key_cmp_total};

use gf_ops::{Form, Ids, ObjectId};
use gf_shape::{Point, Rgb};
use std::cmp::Ordering;

/// The key of a version in the order: the layer, then the object, then the group's ids. The greater
/// of two keys is above the other.
#[derive(Drop)]
pub struct VersionKey {
    pub layer: u16,
    pub object: ObjectId,
    pub ops: Ids,
}

/// A version of an object with its settled values.
#[derive(Drop)]
pub struct Version {
    pub key: VersionKey,
    pub form: Form,
    pub place: Point,
    pub colour: Rgb,
    pub shown: bool,
}

impl PartialEq for VersionKey {
    ghost eq = { eq_by_cmp key_cmp };

    ghost laws = { partial_equiv_from_equiv (eq_by_cmp_equiv key_cmp_total) };

    fn eq(&self, other: &VersionKey) -> bool {
        self.cmp(other) == Ordering::Equal
    }
}

impl Eq for VersionKey {
    ghost laws = { eq_by_cmp_equiv key_cmp_total };
}

impl PartialOrd for VersionKey {
    ghost partial_cmp = { as_partial_cmp key_cmp };

    ghost laws = { partial_order_from_total key_cmp_total };

    fn partial_cmp(&self, other: &VersionKey) -> Option<Ordering> {
        Some(self.cmp(other))
    }
}

impl Ord for VersionKey {
    ghost cmp = { key_cmp };

    ghost total = { key_cmp_total };

    ghost matches_partial_cmp = { λ k l. refl };

    ghost matches_eq = { λ k l. refl };

    fn cmp(&self, other: &VersionKey) -> Ordering {
        let objects = self.object.cmp(&other.object);
        let ops = self.ops.as_slice().cmp(other.ops.as_slice());
        self.layer.cmp(&other.layer).then(objects.then(ops))
    }
}
