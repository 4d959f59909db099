//! The base of a site: what a drawing knew, all that the site made, and what these know.

ghost use Rattle.std.specs.Prelude.{◌≡◌, [], ℕ, IfOk, IsTrue, max};
ghost use Rattle.gf_ops.specs.OperationOrder.{IsSite, entry};
ghost use Rattle.gf_ops.specs.ValidHistory.{IsValid};
ghost use Rattle.gf_take.specs.Bases.{IsBase};
ghost use Rattle.gf_take.specs.Reaching.{AreReached, is_counted, is_own_or_counted, reach_at};

use gf_base::OutOfMemory;
use gf_ops::{Clock, History, Op};
use gf_site::Site;
use std::alloc::Global;

/// A site that has the base of a history: the operations that the clock counts, those of the site,
/// and all that these know. Nothing waits there. The call takes two passes over the history, and
/// adds each operation of the base.
pub fn base_site(
    alloc: Global,
    site: u8,
    history: &History,
    known: &Clock,
) -> Result<Site, OutOfMemory>
    requires { IsSite site }
    ensures base { IfOk result (λ base. IsBase site known.now history.now.ops base.ops) }
    ensures number { IfOk result (λ base. base.number ≡ site) }
    ensures held { IfOk result (λ base. base.held ≡ []) }
{
    let ops = history.ops();
    let reach = reach(site, known, ops);
    let mut base = Site::new(alloc, site);
    for op in ops {
        if is_counted(&reach, op) {
            base.add(op.copy(alloc)?)?;
        }
    }
    Ok(base)
}

/// Whether the base of a site is all of a history, as the clock counts all operations of each other
/// site. Whether the base has the others because it knows them is not looked for.
pub fn is_whole_base(site: u8, history: &History, known: &Clock) -> bool
    ensures { IsTrue result → IsBase site known.now history.now.ops history.now.ops }
{
    history.recall_valid();
    history.recall_accepted();
    for of in 1..9 {
        if of != site && known.entry(of) < history.count(of) {
            return false;
        }
    }
    true
}

/// How far the operations reach that a clock counts or a site made. For each site this is the
/// greatest number among them and those that they know.
pub fn reach(site: u8, known: &Clock, ops: &[Op]) -> Clock
    requires { IsValid ops.now }
    ensures { AreReached site known.now ops.now result }
{
    let mut reach = Clock([0; 8]);
    for op in ops {
        if is_own_or_counted(site, known, op) {
            reach = raised(&reach, op);
        }
    }
    reach
}

/// A clock that counts what another one counts, and all up to this operation and what this knows.
fn raised(clock: &Clock, op: &Op) -> Clock
    ensures { (t : ℕ) → IsSite t → entry result t
        ≡ max (reach_at t op.now) (entry clock.now t) }
{
    Clock([
        raised_at(1, clock, op),
        raised_at(2, clock, op),
        raised_at(3, clock, op),
        raised_at(4, clock, op),
        raised_at(5, clock, op),
        raised_at(6, clock, op),
        raised_at(7, clock, op),
        raised_at(8, clock, op),
    ])
}

/// How many operations of one site such a clock counts.
fn raised_at(of: u8, clock: &Clock, op: &Op) -> u32
    requires { IsSite of }
    ensures { result ≡ max (reach_at of op.now) (entry clock.now of) }
{
    reach_at(of, op).max(clock.entry(of))
}

/// Whether the clock counts the operation, or the site made it.
fn is_own_or_counted(site: u8, known: &Clock, op: &Op) -> bool
    requires { IsSite op.now.id.site }
    ensures { result ≡ is_own_or_counted site known.now op.now }
{
    op.id.site == site || op.id.seq <= known.0[usize::from(op.id.site) - 1]
}

/// How many operations of a site there are up to this one.
fn reach_at(of: u8, op: &Op) -> u32
    requires { IsSite of }
    ensures { result ≡ reach_at of op.now }
{
    if op.id.site == of {
        op.id.seq
    } else {
        op.past.0[usize::from(of) - 1]
    }
}

/// Whether a clock counts the operation.
fn is_counted(clock: &Clock, op: &Op) -> bool
    requires { IsSite op.now.id.site }
    ensures { result ≡ is_counted clock.now op.now }
{
    op.id.seq <= clock.0[usize::from(op.id.site) - 1]
}
