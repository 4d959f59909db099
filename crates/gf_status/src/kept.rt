//! The statuses of the objects of a history, kept while the history grows.

ghost use Rattle.std.specs.Prelude.{◌≡◌, ◌∷◌, [], ◌++◌, List, AllPairs, Contains, IfErr};
ghost use Rattle.std.specs.Prelude.{IfOk, OnOk};
ghost use Rattle.gf_ops.specs.declared.op.Op.{Op};
ghost use Rattle.gf_ops.specs.declared.op.ObjectId.{ObjectId};
ghost use Rattle.gf_ops.specs.Attribute.{object_of};
ghost use Rattle.gf_ops.specs.ValidHistory.{IsValid};
ghost use Rattle.gf_groups.specs.Versions.{IsMade};
ghost use Rattle.gf_status.specs.KeptStatuses.{AreKept, IsBefore};
ghost use Rattle.gf_status.specs.ObjectStatuses.{AreStatuses, told_ids};
ghost use Rattle.gf_status.specs.StatusPlaces.{IsFoundAt, IsMissingAt};

use crate::objects::{ObjectStatus, object_status};
use gf_base::OutOfMemory;
use gf_listing::Versions;
use gf_names::objects;
use gf_ops::ObjectId;
use std::alloc::Global;
use std::marker::Model;

/// The statuses of some objects of a history, as they were made before, rising by id.
#[derive(Drop)]
pub struct KeptStatuses {
    statuses: Vec<ObjectStatus>,
}

impl Model for KeptStatuses {
    ghost use Rattle.std.specs.Prelude.{List};
    ghost use Rattle.gf_status.specs.declared.objects.ObjectStatus.{ObjectStatus};

    ghost Value = { List ObjectStatus };

    ghost view = { λ k. k.statuses.items };
}

impl KeptStatuses {
    /// Nothing is kept.
    pub fn new(alloc: Global) -> KeptStatuses
        ensures { (h : List Op) → AreKept h result }
    {
        KeptStatuses {
            statuses: Vec::new(alloc),
        }
    }

    /// The statuses that are kept.
    pub fn as_slice(&self) -> &[ObjectStatus]
        ensures { result.now ≡ self.now }
    {
        &self.statuses
    }

    /// Forgets the status of an object, once the history has one more operation on it.
    pub fn forget(&mut self, object: ObjectId)
        ensures { (h : List Op) (a : Op) → IsValid h → IsValid (h ++ a ∷ []) → object_of a ≡ object
            → AreKept h self.old → AreKept (h ++ a ∷ []) self.new }
    {
        if let Ok(place) = place(&self.statuses, object) {
            let _ = self.statuses.remove(place);
        }
    }

    /// Makes the statuses of all objects of a history of which none is kept. The objects come
    /// rising by id, so the first statuses are appended.
    pub fn refresh(&mut self, alloc: Global, versions: &Versions<'_>) -> Result<(), OutOfMemory>
        requires { AreKept versions.now self.old }
        ensures keeps { AreKept versions.now self.new }
        ensures statuses { OnOk result (AreStatuses versions.now self.new) }
    {
        let ids = objects(alloc, versions.history())?;
        for id in ids.as_slice() {
            self.add(alloc, versions, ObjectId(*id))?;
        }
        Ok(())
    }

    /// Makes the status of an object, unless it is kept.
    fn add(
        &mut self,
        alloc: Global,
        versions: &Versions<'_>,
        object: ObjectId,
    ) -> Result<(), OutOfMemory>
        requires made { IsMade versions.now object }
        requires keeps { AreKept versions.now self.old }
        ensures keeps { AreKept versions.now self.new }
        ensures has { OnOk result (Contains (told_ids self.new) object.0) }
        ensures stays { (o : ObjectId) → Contains (told_ids self.old) o.0
            → Contains (told_ids self.new) o.0 }
    {
        if let Err(place) = place(&self.statuses, object) {
            let status = object_status(alloc, versions, object)?;
            self.statuses.insert(place, status)?;
        }
        Ok(())
    }
}

/// Where the status of the object stands, or would stand.
fn place(statuses: &[ObjectStatus], object: ObjectId) -> Result<usize, usize>
    ensures found { IfOk result (IsFoundAt statuses.now object) }
    ensures missing { IfErr result (λ i. AllPairs IsBefore statuses.now
        → IsMissingAt statuses.now object i) }
{
    statuses.binary_search_by(|status| status.object.cmp(&object))
}
