//! The operations that give an attribute a value, and the last ones of these.

ghost use Rattle.std.specs.Prelude.{◌≡◌, All, IfOk, filter, map, not};
ghost use Rattle.std.specs.List.{list_any};
ghost use Rattle.gf_ops.specs.Limits.{IsInRange};
ghost use Rattle.gf_groups.specs.VersionList.{is_before};
ghost use Rattle.gf_status.specs.Setters.{AreLastOf, AreOf, sets};

use gf_base::OutOfMemory;
use gf_ops::{Attr, History, Op, before};
use gf_versions::sets;
use std::alloc::Global;

/// The operations that give the attribute a value, in their order.
pub(crate) fn setters<'h>(
    alloc: Global,
    ops: &[&'h Op],
    attribute: Attr,
) -> Result<Vec<&'h Op>, OutOfMemory>
    ensures { IfOk result (λ found. found.items ≡ filter (λ a. sets attribute a.now) ops.now) }
{
    Ok(
        ops.iter()
            .copied()
            .filter(|op| sets(op, attribute))
            .collect(alloc)?,
    )
}

/// The operations that come before none of the others. Of each site at most one is compared with a
/// next one.
pub(crate) fn lasts<'h>(
    alloc: Global,
    history: &History,
    ops: &[&'h Op],
) -> Result<Vec<&'h Op>, OutOfMemory>
    requires { AreOf history.now.ops (map (λ a. a.now) ops.now) }
    ensures { IfOk result (λ found.
        AreLastOf (map (λ a. a.now) ops.now) (map (λ a. a.now) found.items)) }
{
    history.recall_valid();
    let mut lasts = Vec::new(alloc);
    for op in ops {
        if !some_later(op, &lasts) {
            lasts = not_before(alloc, &lasts, op)?;
            lasts.push(*op)?;
        }
    }
    Ok(lasts)
}

pub(crate) fn is_before(a: &Op, b: &Op) -> bool
    requires a { IsInRange a.now }
    requires b { IsInRange b.now }
    ensures { result ≡ is_before a.now b.now }
{
    before(a, b)
}

/// Whether the operation comes before one of the others.
fn some_later(op: &Op, others: &[&Op]) -> bool
    requires op { IsInRange op.now }
    requires others { All (λ a. IsInRange a.now) others.now }
    ensures { result ≡ list_any (λ a. is_before op.now a.now) others.now }
{
    others.iter().any(|other| is_before(op, other))
}

/// The others that do not come before the operation, in their order.
fn not_before<'h>(alloc: Global, others: &[&'h Op], op: &Op) -> Result<Vec<&'h Op>, OutOfMemory>
    requires op { IsInRange op.now }
    requires others { All (λ a. IsInRange a.now) others.now }
    ensures { IfOk result (λ found.
        found.items ≡ filter (λ a. not (is_before a.now op.now)) others.now) }
{
    Ok(
        others
            .iter()
            .copied()
            .filter(|other| !is_before(other, op))
            .collect(alloc)?,
    )
}
