//! The status of each object of a history.

ghost use Rattle.std.specs.Prelude.{◌≡◌, IfOk, map};
ghost use Rattle.gf_groups.specs.declared.group.Group.{Group};
ghost use Rattle.gf_groups.specs.Versions.{IsMade};
ghost use Rattle.gf_status.specs.ObjectStatuses.{AreStatuses, IsObjectStatus};

use crate::differing::{Difference, differences};
use crate::hidden::hidden_of;
use gf_base::OutOfMemory;
use gf_listing::Versions;
use gf_names::objects;
use gf_ops::{Ids, ObjectId};
use gf_versions::MOST_VERSIONS;
use gf_visible::visible_groups;
use std::alloc::Global;

/// The status of an object.
#[derive(Drop)]
pub struct ObjectStatus {
    pub object: ObjectId,
    /// How many versions the object has, or 1,001 where they are more than 1,000.
    pub versions: usize,
    /// How many versions are visible, or 1,001 where these are more than 1,000.
    pub shown: usize,
    /// The attributes that differ among the visible versions; none where these are more than 1,000.
    pub differences: Vec<Difference>,
    /// The hidings behind which nothing shows or hides the object, rising by id; none where a
    /// version is visible. Of two of them, neither knew the other.
    pub hidings: Ids,
    /// The operations that no visible version has, and that knew nothing of what hides them, rising
    /// by id; none where more than 1,000 versions are visible.
    pub changed: Ids,
}

/// The status of each object of a history, rising by id.
///
/// The visible versions of an object are listed, at most 1,000, and no others are multiplied out.
pub fn object_statuses(
    alloc: Global,
    versions: &Versions<'_>,
) -> Result<Vec<ObjectStatus>, OutOfMemory>
    ensures { IfOk result (λ found. AreStatuses versions.now found.items) }
{
    let history = versions.history();
    let ids = objects(alloc, history)?;
    let mut found = Vec::new(alloc);
    for id in ids.as_slice() {
        found.push(object_status(alloc, versions, ObjectId(*id))?)?;
    }
    Ok(found)
}

/// The status of an object that the history made.
pub(crate) fn object_status(
    alloc: Global,
    versions: &Versions<'_>,
    object: ObjectId,
) -> Result<ObjectStatus, OutOfMemory>
    requires { IsMade versions.now object }
    ensures object { IfOk result (λ status. status.object ≡ object) }
    ensures status { IfOk result (λ status. IsObjectStatus versions.now status) }
{
    let history = versions.history();
    let count = versions.count(alloc, object)?;
    match visible_groups(alloc, versions, object, MOST_VERSIONS)? {
        Some(groups) => {
            let all = versions.operations(alloc, object)?;
            let hidden = hidden_of(alloc, history, object, &all, &groups)?;
            Ok(ObjectStatus {
                object,
                versions: count,
                shown: groups.len(),
                differences: differences(alloc, history, &groups)?,
                hidings: hidden.hidings,
                changed: hidden.changed,
            })
        }
        None => Ok(ObjectStatus {
            object,
            versions: count,
            shown: MOST_VERSIONS + 1,
            differences: Vec::new(alloc),
            hidings: Ids::new(Vec::new(alloc)),
            changed: Ids::new(Vec::new(alloc)),
        }),
    }
}
