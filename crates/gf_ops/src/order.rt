//! The causal order of operations.

ghost use Rattle.std.specs.Prelude.{◌≡◌, ◌↔◌, IsTrue};
ghost use Rattle.gf_ops.specs.Limits.{IsInRange};
ghost use Rattle.gf_ops.specs.OperationOrder.{Precedes, IsConcurrent};

use crate::{Op, same_op};

/// Whether `b` was made at a site that knew `a`.
pub fn before(a: &Op, b: &Op) -> bool
    requires a { IsInRange a.now }
    requires b { IsInRange b.now }
    ensures { IsTrue result ↔ Precedes a.now b.now }
{
    a.id.seq <= b.past.0[usize::from(a.id.site) - 1]
}

/// Whether two operations are different, and neither was made at a site that knew the other.
pub fn concurrent(a: &Op, b: &Op) -> bool
    requires a { IsInRange a.now }
    requires b { IsInRange b.now }
    ensures { IsTrue result ↔ IsConcurrent a.now b.now }
{
    unordered(a, b) && !same_op(a, b)
}

/// Whether neither operation was made at a site that knew the other.
pub(crate) fn unordered(a: &Op, b: &Op) -> bool
    requires a { IsInRange a.now }
    requires b { IsInRange b.now }
    ensures { IsTrue result ↔ ((¬ (Precedes a.now b.now)) × (¬ (Precedes b.now a.now))) }
{
    !before(a, b) && !before(b, a)
}
