//! Whether an operation is ready.

ghost use Rattle.std.specs.Prelude.{◌↔◌, IsTrue};
ghost use Rattle.gf_causal.specs.Ready.{KnowsNoMore};

use gf_ops::{History, Op};

/// Whether the operation knows no more of each other site than the history has.
pub(crate) fn knows_no_more(op: &Op, history: &History) -> bool
    ensures { IsTrue result ↔ KnowsNoMore history.now.ops op.now }
{
    for site in 1..9 {
        if site != op.id.site && op.past.0[usize::from(site) - 1] > history.count(site) {
            return false;
        }
    }
    true
}
