//! Operations and their names.

ghost use Rattle.std.specs.Prelude.{◌≡◌, ◌↔◌, IsTrue, Some};
ghost use Rattle.gf_ops.specs.IdText.{id_text};
ghost use Rattle.gf_ops.specs.OperationOrder.{entry};
ghost use Rattle.gf_ops.specs.ValidHistory.{IsWithin};

use crate::Change;
use std::fmt;

/// The name of an operation: the site that made it, 1 to 8, and its number there, from 1.
#[derive(Clone, Copy, Debug, PartialEq, Eq, PartialOrd, Ord)]
pub struct OpId {
    pub site: u8,
    pub seq: u32,
}

impl fmt::Display for OpId {
    ghost output = { λ i. Some (id_text i) };

    fn fmt<W: fmt::Write>(&self, f: &mut fmt::Formatter<W>) -> fmt::Result {
        write!(f, "{}.{}", self.site, self.seq)
    }
}

/// The name of an object: that of the operation that created it.
#[derive(Clone, Copy, Debug, PartialEq, Eq, PartialOrd, Ord)]
pub struct ObjectId(pub OpId);

/// How many operations of each site were known; the entry of site s stands at `s - 1`.
#[derive(Clone, Copy, Debug, PartialEq, Eq)]
pub struct Clock(pub [u32; 8]);

impl Clock {
    /// How many operations of a site the clock counts. Beyond 8 there is no site.
    pub fn entry(&self, site: u8) -> u32
        ensures { result ≡ entry self.now site }
    {
        let index = usize::from(site).saturating_sub(1);
        self.0.get(index).copied().unwrap_or(0)
    }

    /// Whether no entry of the clock is above that of the other clock.
    pub fn is_within(&self, other: &Clock) -> bool
        ensures { IsTrue result ↔ IsWithin self.now other.now }
    {
        for site in 0..8 {
            if other.0[site] < self.0[site] {
                return false;
            }
        }
        true
    }
}

/// One edit: its name, what its site knew before it, and what it changes.
#[derive(PartialEq, Eq, Drop)]
pub struct Op {
    pub id: OpId,
    pub past: Clock,
    pub change: Change,
}
