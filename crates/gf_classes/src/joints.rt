//! The joint classes: of operations that bring several direct classes, or none.

ghost use Rattle.std.specs.Prelude.{◌≡◌, ◌^◌, ◌<◌, [], length, IfOk, IfSome, IsTrue, OnOk};
ghost use Rattle.gf_classes.specs.ClassSlots.{IsCalm, AreCalm, IsJointAt, KeepsJoints};

use gf_base::OutOfMemory;
use gf_maximal::Numbers;
use std::alloc::Global;
use std::collections::BTreeMap;
use std::marker::Model;

/// Joint classes: the direct classes that each brings, and the site of those that hide.
#[derive(Drop)]
pub(crate) struct Joints {
    owns: Vec<Numbers>,
    sites: Vec<usize>,
    // The index of each joint class, by the direct classes that it brings and its site.
    found: BTreeMap<Vec<usize>, usize>,
}

impl Model for Joints {
    ghost use Rattle.std.specs.Prelude.{◌≡◌, length};
    ghost use Rattle.gf_classes.specs.ClassSlots.{JointsState};

    ghost Value = { JointsState };

    ghost view = { λ j. record { owns = j.owns.items; sites = j.sites.items } };

    ghost invariant = { λ j. length j.owns.items ≡ length j.sites.items };
}

impl Joints {
    /// No joint class.
    pub(crate) fn new(alloc: Global) -> Joints
        ensures { result ≡ record { owns = []; sites = [] } }
    {
        Joints {
            owns: Vec::new(alloc),
            sites: Vec::new(alloc),
            found: BTreeMap::new(alloc),
        }
    }

    /// The direct classes that each joint class brings.
    pub(crate) fn owns(&self) -> &[Numbers]
        ensures owns { result.now ≡ self.now.owns }
        ensures bound { length result.now < 2 ^ 63 }
    {
        &self.owns
    }

    /// Whether the joint class with this index brings these classes and has this site.
    fn is_at(&self, own: &Numbers, site: usize, index: usize) -> bool
        ensures at { IsTrue result → IsJointAt self.now own.now site index }
        ensures bound { IsTrue result → index < 2 ^ 63 }
    {
        match (self.owns().get(index), self.sites.get(index)) {
            (Some(known), Some(other)) => *other == site && known.equals(own),
            _ => false,
        }
    }

    /// The joint class that brings these classes and has this site, if it is known by the key.
    fn known(&self, key: &[usize], own: &Numbers, site: usize) -> Option<usize>
        ensures at { IfSome result (λ index. IsJointAt self.now own.now site index) }
        ensures bound { IfSome result (λ index. index < 2 ^ 63) }
    {
        let index = *self.found.get(key)?;
        if self.is_at(own, site, index) {
            Some(index)
        } else {
            None
        }
    }

    /// Adds a joint class.
    fn push(&mut self, key: Vec<usize>, own: Numbers, site: usize) -> Result<usize, OutOfMemory>
        ensures at { IfOk result (λ index. IsJointAt self.new own site index) }
        ensures bound { IfOk result (λ index. index < 2 ^ 63) }
        ensures kept { OnOk result (KeepsJoints self.old self.new) }
        ensures calm { OnOk result ((rows : _) → IsCalm rows own → AreCalm rows self.old.owns
            → AreCalm rows self.new.owns) }
    {
        let index = self.owns.len();
        self.owns.reserve(1)?;
        self.sites.reserve(1)?;
        self.found.insert(key, index)?;
        self.owns.push_reserved(own);
        self.sites.push_reserved(site);
        Ok(index)
    }

    /// The joint class that brings these classes and has this site.
    pub(crate) fn put(
        &mut self,
        alloc: Global,
        own: Numbers,
        site: usize,
    ) -> Result<usize, OutOfMemory>
        ensures at { IfOk result (λ index. IsJointAt self.new own site index) }
        ensures bound { IfOk result (λ index. index < 2 ^ 63) }
        ensures kept { OnOk result (KeepsJoints self.old self.new) }
        ensures calm { OnOk result ((rows : _) → IsCalm rows own → AreCalm rows self.old.owns
            → AreCalm rows self.new.owns) }
    {
        let mut key = own.to_vec(alloc)?;
        key.push(site)?;
        match self.known(&key, &own, site) {
            Some(index) => Ok(index),
            None => self.push(key, own, site),
        }
    }
}
