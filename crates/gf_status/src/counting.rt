//! How many versions are shown in all.

ghost use Rattle.std.specs.Prelude.{◌≡◌, ◌+◌};
ghost use Rattle.gf_listing.specs.Counting.{capped};
ghost use Rattle.gf_status.specs.StatusLines.{shown_in};

use crate::ObjectStatus;
use gf_versions::MOST_VERSIONS;

fn capped(count: usize) -> usize
    ensures { result ≡ capped count }
{
    if count <= MOST_VERSIONS {
        count
    } else {
        MOST_VERSIONS + 1
    }
}

/// How many versions of the objects are shown in all; 1,001 where there are more than 1,000.
pub(crate) fn shown_in(statuses: &[ObjectStatus]) -> usize
    ensures { result ≡ shown_in statuses.now }
{
    let mut count = 0;
    for status in statuses {
        count = shown_with(count, status);
    }
    count
}

/// The count, and the shown versions of one object more; capped.
fn shown_with(count: usize, status: &ObjectStatus) -> usize
    ensures { result ≡ capped (count + status.now.shown) }
{
    capped(count.saturating_add(status.shown))
}
