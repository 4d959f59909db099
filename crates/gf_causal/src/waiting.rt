//! What an operation that waits lacks.

ghost use Rattle.std.specs.Prelude.{◌≡◌};
ghost use Rattle.gf_causal.specs.Waiting.{first_missing, needed, waits_for};

use gf_ops::{History, Op, OpId};

/// The numbers of all sites.
const SITES: [u8; 8] = [1, 2, 3, 4, 5, 6, 7, 8];

/// The operation that `op` waits for behind the history: the next of the first site with fewer than
/// it needs. For a ready operation, this is the one before it.
pub fn waits_for(history: &History, op: &Op) -> OpId
    ensures { result ≡ waits_for history.now.ops op.now }
{
    first_missing(history, op, &SITES)
}

fn first_missing(history: &History, op: &Op, sites: &[u8]) -> OpId
    ensures { result ≡ first_missing history.now.ops op.now sites.now }
{
    for site in sites {
        let count = history.count(*site);
        if count < needed(op, *site) {
            return OpId {
                site: *site,
                seq: count + 1,
            };
        }
    }
    OpId {
        site: op.id.site,
        seq: op.id.seq.saturating_sub(1),
    }
}

/// How many operations of the site the operation needs.
fn needed(op: &Op, site: u8) -> u32
    ensures { result ≡ needed op.now site }
{
    if site == op.id.site {
        op.id.seq.saturating_sub(1)
    } else {
        op.past.entry(site)
    }
}
