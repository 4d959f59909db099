//! The visible versions of a history by object, kept while the history grows.

ghost use Rattle.std.specs.Prelude.{◌≡◌, ◌∷◌, [], ◌++◌, ◌≤◌, cond, length, List, Contains};
ghost use Rattle.std.specs.Prelude.{IfNone, IfOk, IfSome, OnErr, OnOk, None, Some, option_map};
ghost use Rattle.std.specs.BTreeMap.{insert_entry, is_at};
ghost use Rattle.gf_ops.specs.declared.op.Op.{Op};
ghost use Rattle.gf_ops.specs.Attribute.{object_of};
ghost use Rattle.gf_ops.specs.ValidHistory.{IsValid};
ghost use Rattle.gf_groups.specs.Versions.{IsMade};
ghost use Rattle.gf_table.specs.Positions.{object_cmp};
ghost use Rattle.gf_versions.specs.declared.ranking.TheConstants.{MOST_VERSIONS};
ghost use Rattle.gf_versions.specs.Ranking.{AreRanked};
ghost use Rattle.gf_visible.specs.ShownVersions.{HasMoreOn, HasMoreVisible};
ghost use Rattle.gf_kept.specs.Gathered.{IsItemListing};
ghost use Rattle.gf_kept.specs.Keeping.{ArePlacedOn, Keeps, kept_of};
ghost use Rattle.gf_kept.specs.SameOn.{HaveSameBut};

use crate::found::FoundVersions;
use gf_base::OutOfMemory;
use gf_listing::Versions;
use gf_ops::{Change, ObjectId, Op};
use gf_shape::AnyShape;
use gf_versions::{MOST_VERSIONS, Placed, Ranked, rank};
use std::alloc::Global;
use std::collections::BTreeMap;
use std::marker::Model;

/// The visible versions of some objects of a history, as they were found before. They are seen as
/// the list of these objects with their versions.
#[derive(Drop)]
pub struct KeptVersions {
    objects: BTreeMap<ObjectId, FoundVersions>,
}

impl Model for KeptVersions {
    ghost use Rattle.std.specs.Prelude.{List};
    ghost use Rattle.gf_shape.specs.declared.any_shape.AnyShape.{AnyShape};
    ghost use Rattle.gf_ops.specs.declared.op.ObjectId.{ObjectId};
    ghost use Rattle.gf_versions.specs.declared.placed.Placed.{Placed};

    ghost Value = { List (ObjectId × List (Placed AnyShape)) };

    ghost view = { λ k. k.objects.entries };
}

impl KeptVersions {
    /// Nothing is kept.
    pub fn new(alloc: Global) -> KeptVersions
        ensures { (h : List Op) → Keeps h result }
    {
        KeptVersions {
            objects: BTreeMap::new(alloc),
        }
    }

    /// A copy of what is kept.
    pub fn copy(&self, alloc: Global) -> Result<KeptVersions, OutOfMemory>
        ensures { IfOk result (λ copy. copy ≡ self.now) }
    {
        let mut objects = BTreeMap::new(alloc);
        for (object, found) in &self.objects {
            let found = found.copy(alloc)?;
            put(&mut objects, *object, found)?;
        }
        Ok(KeptVersions { objects })
    }

    /// Forgets what is kept of an object, once the history has one more operation on it.
    pub fn forget(&mut self, object: ObjectId)
        ensures { (h : List Op) (a : Op) → IsValid h → IsValid (h ++ a ∷ []) → object_of a ≡ object
            → Keeps h self.old → Keeps (h ++ a ∷ []) self.new }
    {
        remove(&mut self.objects, object);
    }

    /// Forgets what is kept of these objects. The rest is that of another history, which differs on
    /// these objects alone.
    pub fn forget_all(&mut self, objects: &[ObjectId])
        ensures { (h k : List Op) → IsValid h → IsValid k → HaveSameBut objects.now h k
            → Keeps h self.old → Keeps k self.new }
    {
        for object in objects {
            remove(&mut self.objects, *object);
        }
    }

    /// The visible versions of a history, topmost first, if they are at most `most`; None where
    /// they are more.
    ///
    /// Only the versions of objects of which nothing is kept are found, as
    /// [`visible_groups`](gf_visible::visible_groups) finds them. Those of an object are kept, if
    /// they are few enough.
    pub fn ranked_within(
        &mut self,
        alloc: Global,
        versions: &Versions<'_>,
        most: usize,
    ) -> Result<Option<Ranked<AnyShape>>, OutOfMemory>
        requires keeps { Keeps versions.now self.old }
        requires most { most ≤ MOST_VERSIONS }
        ensures keeps { Keeps versions.now self.new }
        ensures ranked { IfOk result (λ found.
            IfSome found (λ ranked. AreRanked versions.now ranked.items.items)) }
        ensures few { IfOk result (λ found.
            IfSome found (λ ranked. length ranked.items.items ≤ most)) }
        ensures more { IfOk result (λ found. IfNone found (HasMoreVisible versions.now most)) }
    {
        let Some(items) = self.all(alloc, versions, most)? else {
            return Ok(None);
        };
        let ranked = rank(items)?;
        Ok(Some(ranked))
    }

    /// All visible versions, if they are at most `most`.
    fn all(
        &mut self,
        alloc: Global,
        versions: &Versions<'_>,
        most: usize,
    ) -> Result<Option<Vec<Placed<AnyShape>>>, OutOfMemory>
        requires keeps { Keeps versions.now self.old }
        requires most { most ≤ MOST_VERSIONS }
        ensures keeps { Keeps versions.now self.new }
        ensures valid { IsValid versions.now }
        ensures listed { IfOk result (λ found.
            IsItemListing versions.now versions.now most (option_map (λ v. v.items) found)) }
    {
        let mut items = Vec::new(alloc);
        for op in versions.ops() {
            match self.made(alloc, versions, op, most - items.len())? {
                Some(mut more) => items.append(&mut more)?,
                None => return Ok(None),
            }
        }
        Ok(Some(items))
    }

    /// The visible versions of the object that an operation of the history made, if it made one.
    fn made(
        &mut self,
        alloc: Global,
        versions: &Versions<'_>,
        op: &Op,
        most: usize,
    ) -> Result<Option<Vec<Placed<AnyShape>>>, OutOfMemory>
        requires contained { Contains versions.now op.now }
        requires keeps { Keeps versions.now self.old }
        requires most { most ≤ MOST_VERSIONS }
        ensures keeps { Keeps versions.now self.new }
        ensures listed { IfOk result (λ found.
            IsItemListing versions.now (op.now ∷ []) most (option_map (λ v. v.items) found)) }
    {
        versions.recall_valid();
        match &op.change {
            Change::Create(_) => self.on_object(alloc, versions, ObjectId(op.id), most),
            Change::Set { .. } => Ok(Some(Vec::new(alloc))),
        }
    }

    /// The visible versions of an object that the history made, if they are at most `most`.
    fn on_object(
        &mut self,
        alloc: Global,
        versions: &Versions<'_>,
        object: ObjectId,
        most: usize,
    ) -> Result<Option<Vec<Placed<AnyShape>>>, OutOfMemory>
        requires made { IsMade versions.now object }
        requires keeps { Keeps versions.now self.old }
        requires most { most ≤ MOST_VERSIONS }
        ensures keeps { Keeps versions.now self.new }
        ensures found { IfOk result (λ found.
            IfSome found (λ items. ArePlacedOn versions.now object items.items)) }
        ensures few { IfOk result (λ found. IfSome found (λ items. length items.items ≤ most)) }
        ensures more { IfOk result (λ found. IfNone found (HasMoreOn versions.now object most)) }
    {
        versions.recall_valid();
        if let Some(kept) = self.objects.get(&object) {
            if most < kept.len() {
                return Ok(None);
            }
            let copies = kept.copies(alloc)?;
            return Ok(Some(copies));
        }
        let Some(found) = FoundVersions::find(alloc, versions, object, most)? else {
            return Ok(None);
        };
        let copies = found.copies(alloc)?;
        put(&mut self.objects, object, found)?;
        Ok(Some(copies))
    }
}

/// Puts versions under the object.
fn put(
    objects: &mut BTreeMap<ObjectId, FoundVersions>,
    object: ObjectId,
    found: FoundVersions,
) -> Result<(), OutOfMemory>
    ensures ok { OnOk result (objects.new.entries
        ≡ insert_entry object_cmp objects.old.entries object found) }
    ensures puts { OnOk result ((o : ObjectId) → kept_of objects.new.entries o
        ≡ cond (is_at (object_cmp object) o) (Some found) (kept_of objects.old.entries o)) }
    ensures err { OnErr result (objects.new.entries ≡ objects.old.entries) }
{
    match objects.insert(object, found) {
        Ok(_) => Ok(()),
        Err(_) => Err(OutOfMemory),
    }
}

/// Removes the versions under the object.
fn remove(objects: &mut BTreeMap<ObjectId, FoundVersions>, object: ObjectId)
    ensures { (o : ObjectId) → kept_of objects.new.entries o
        ≡ cond (is_at (object_cmp object) o) None (kept_of objects.old.entries o) }
{
    let _ = objects.remove(&object);
}
