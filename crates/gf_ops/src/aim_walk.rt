//! Whether the operations under the ids of an aim can stand in one version.

ghost use Rattle.std.specs.Prelude.{◌≡◌, ◌↔◌, ◌≤◌, ◌<◌, ◌++◌, ◌∷◌, [], List, length, take, ℕ};
ghost use Rattle.std.specs.Prelude.{slice_index_or, IsTrue, IfSome, IfNone};
ghost use Rattle.gf_ops.specs.declared.op.OpId.{OpId};
ghost use Rattle.gf_ops.specs.declared.change.Value.{Value};
ghost use Rattle.gf_ops.specs.AimTests.{AreDirectlyCompatible};
ghost use Rattle.gf_ops.specs.AimWalk.{index_of, AreOnOne, AreParted, ArePartedBelow, KnewAt};
ghost use Rattle.gf_ops.specs.AimWalk.{SetsAt, SetsSome, GivesAnother, IsLatest};
ghost use Rattle.gf_ops.specs.AimWalk.{TellsOne, IsAimTable, NoneAbove, ConflictsWithTable};
ghost use Rattle.gf_ops.specs.AimWalk.{IsNoted};
ghost use Rattle.gf_ops.specs.Limits.{IsInRange};
ghost use Rattle.gf_ops.specs.OperationOrder.{IsSite, id_cmp, rises};

use crate::conflict::sets_another;
use crate::{Change, History, Op, OpId, Value};

/// The last setter of an attribute among operations of a site, and the last one with another value.
/// Where all give one value, the other is any of them.
#[derive(Clone, Copy)]
struct Latest {
    nearest: OpId,
    other: OpId,
}

/// The index of the attribute of the value.
fn index_of(value: &Value) -> usize
    ensures value { result ≡ index_of value.now }
    ensures below { result < 6 }
{
    value.attribute().index()
}

impl History {
    /// Whether no two operations under these rising ids conflict directly. The cost is a walk over
    /// the ids for every two sites.
    pub(crate) fn are_directly_compatible(&self, ids: &[OpId]) -> bool
        requires rising { IsTrue (rises id_cmp ids.now) }
        requires object { AreOnOne self.now.ops ids.now }
        ensures { IsTrue result ↔ AreDirectlyCompatible self.now.ops ids.now }
    {
        self.recall_valid();
        for site in 1..9 {
            if !self.are_parted_below(ids, site) {
                return false;
            }
        }
        true
    }

    /// Whether no operation of this site conflicts directly with one of a site of a lower number.
    fn are_parted_below(&self, ids: &[OpId], site: u8) -> bool
        requires rising { IsTrue (rises id_cmp ids.now) }
        requires object { AreOnOne self.now.ops ids.now }
        requires site { IsSite site }
        ensures { IsTrue result ↔ ArePartedBelow self.now.ops ids.now site site }
    {
        for other in 1..site {
            if !self.are_parted(ids, site, other) {
                return false;
            }
        }
        true
    }

    /// Whether no operation of the one site conflicts directly with one of the other site. For each
    /// operation of the one site, the walk notes the other site's operations that did not know it.
    /// Only the latest noted setters are compared.
    fn are_parted(&self, ids: &[OpId], site: u8, other: u8) -> bool
        requires rising { IsTrue (rises id_cmp ids.now) }
        requires object { AreOnOne self.now.ops ids.now }
        requires site { IsSite site }
        ensures { IsTrue result ↔ AreParted self.now.ops ids.now ids.now site other }
    {
        self.recall_valid();
        let mut table = [None; 6];
        let mut noted = 0;
        for id in ids {
            if id.site == site {
                noted = self.note_unknowing(*id, ids, other, noted, &mut table);
                if self.conflicts_with_table(*id, &table) {
                    return false;
                }
            }
        }
        true
    }

    /// Notes the operations of a site, from an index on, up to the first that knew this id.
    fn note_unknowing(
        &self,
        id: OpId,
        ids: &[OpId],
        site: u8,
        from: usize,
        table: &mut [Option<Latest>; 6],
    ) -> usize
        requires rising { IsTrue (rises id_cmp ids.now) }
        requires id { IsSite id.site }
        requires noted { IsNoted self.now.ops ids.now site from id table.old }
        ensures noted { IsNoted self.now.ops ids.now site result id table.new }
        ensures stop { (d : OpId) → result < length ids.now
            → KnewAt self.now.ops site id (slice_index_or ids.now result d) }
    {
        self.recall_valid();
        let mut noted = from;
        while noted < ids.len() && !self.knew(ids[noted], site, id) {
            self.note(ids[noted], site, table);
            noted += 1;
        }
        noted
    }

    /// Whether the operation under an id is of this site, and knew another one.
    fn knew(&self, by: OpId, site: u8, id: OpId) -> bool
        requires { IsSite id.site }
        ensures { IsTrue result ↔ KnewAt self.now.ops site id by }
    {
        self.recall_valid();
        if by.site != site {
            return false;
        }
        match self.get(by) {
            Some(op) => id.seq <= op.past.0[usize::from(id.site) - 1],
            None => false,
        }
    }

    /// Notes the operation under this id, if it is of this site and sets an attribute.
    fn note(&self, id: OpId, site: u8, table: &mut [Option<Latest>; 6])
        ensures { (ids : List OpId) → NoneAbove self.now.ops ids site id
            → IsAimTable self.now.ops ids site table.old
            → IsAimTable self.now.ops (ids ++ id ∷ []) site table.new }
    {
        self.recall_valid();
        if let Some(value) = self.setting(id, site) {
            let index = index_of(value);
            let latest = table[index];
            table[index] = Some(self.next_latest(latest, id, value));
        }
    }

    /// The value that the operation under this id sets an attribute to, if it is of this site.
    fn setting(&self, id: OpId, site: u8) -> Option<&Value>
        ensures found { IfSome result (λ value. SetsAt self.now.ops site id value.now) }
        ensures none { IfNone result (¬ SetsSome self.now.ops site id) }
    {
        self.recall_valid();
        if id.site != site {
            return None;
        }
        match &self.get(id)?.change {
            Change::Set { value, .. } => Some(value),
            Change::Create(_) => None,
        }
    }

    /// The latest setters of an attribute, of which this setter is the last one.
    fn next_latest(&self, latest: Option<Latest>, id: OpId, value: &Value) -> Latest
        ensures { (ids : List OpId) (site : ℕ) → NoneAbove self.now.ops ids site id
            → TellsOne self.now.ops ids site (index_of value.now) latest
            → SetsAt self.now.ops site id value.now
            → IsLatest self.now.ops (ids ++ id ∷ []) site (index_of value.now) result }
    {
        self.recall_valid();
        let other = match latest {
            Some(Latest { nearest, other }) => {
                if self.gives_another(nearest, value) {
                    nearest
                } else {
                    other
                }
            }
            None => id,
        };
        Latest { nearest: id, other }
    }

    /// Whether the operation under this id gives the attribute of a value another one.
    fn gives_another(&self, id: OpId, value: &Value) -> bool
        ensures { IsTrue result ↔ GivesAnother self.now.ops id value.now }
    {
        self.recall_valid();
        match self.get(id) {
            Some(op) => sets_another(&op.change, value),
            None => false,
        }
    }

    /// Whether the operation under this id conflicts directly with a setter that the table has for
    /// its attribute.
    fn conflicts_with_table(&self, id: OpId, table: &[Option<Latest>; 6]) -> bool
        ensures { IsTrue result ↔ ConflictsWithTable self.now.ops table.now id }
    {
        self.recall_valid();
        let Some(op) = self.get(id) else {
            return false;
        };
        let Change::Set { value, .. } = &op.change else {
            return false;
        };
        match table[index_of(value)] {
            Some(latest) => {
                self.conflicts_with_one(op, latest.nearest)
                    || self.conflicts_with_one(op, latest.other)
            }
            None => false,
        }
    }
}
