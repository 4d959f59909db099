//! What a service found before, for the next answer.

ghost use Rattle.std.specs.Prelude.{◌≡◌, ◌≤◌, ◌++◌, List, length};
ghost use Rattle.gf_ops.specs.declared.op.Op.{Op};
ghost use Rattle.gf_ops.specs.Accepted.{AreAccepted};
ghost use Rattle.gf_ops.specs.ValidHistory.{IsValid};
ghost use Rattle.gf_serve.specs.ServingSteps.{KeepsBoth};

use gf_kept::KeptVersions;
use gf_ops::{History, Op};
use gf_status::KeptStatuses;
use std::alloc::Global;

/// Where more operations than these come at once, all is found anew: to forget a status takes as
/// long as there are others behind it.
const MOST_FORGOTTEN: usize = 1_000;

/// The visible versions of objects, and their statuses.
#[derive(Drop)]
pub struct Kept {
    pub(crate) versions: KeptVersions,
    pub(crate) statuses: KeptStatuses,
}

impl Kept {
    /// Nothing is kept.
    pub(crate) fn new(alloc: Global) -> Kept
        ensures { (h : List Op) → KeepsBoth h result }
    {
        Kept {
            versions: KeptVersions::new(alloc),
            statuses: KeptStatuses::new(alloc),
        }
    }

    /// Forgets what is kept of the objects of these operations, which stand behind the history now.
    fn forget(&mut self, ops: &[Op])
        ensures { (h : List Op) → IsValid h → AreAccepted h → IsValid (h ++ ops.now)
            → AreAccepted (h ++ ops.now) → KeepsBoth h self.old
            → KeepsBoth (h ++ ops.now) self.new }
    {
        for op in ops {
            self.versions.forget(op.object());
            self.statuses.forget(op.object());
        }
    }

    /// Forgets what is kept of the objects of the operations that stand behind the first `had`.
    pub(crate) fn forget_behind(&mut self, alloc: Global, history: &History, had: usize)
        requires { had ≤ length history.now.ops }
        ensures { (h more : List Op) → history.now.ops ≡ h ++ more → had ≡ length h → IsValid h
            → AreAccepted h → KeepsBoth h self.old → KeepsBoth history.now.ops self.new }
    {
        let more = &history.ops()[had..];
        if MOST_FORGOTTEN < more.len() {
            *self = Kept::new(alloc);
            return;
        }
        self.forget(more);
    }
}
