//! Two moments of a replica, so that a copy takes no longer than what came between them.

ghost use Rattle.std.specs.Prelude.{◌≡◌, IfOk};
ghost use Rattle.gf_site.specs.Growth.{Grows};
ghost use Rattle.gf_site.specs.ReplicaState.{new_replica};

use gf_base::OutOfMemory;
use gf_site::{Replica, Site};
use std::alloc::Global;
use std::marker::Model;
use std::mem;

/// A replica, and maybe the one of before it. They are seen as the newest one.
#[derive(Drop)]
pub struct TwoReplicas {
    newest: Replica,
    former: Option<Replica>,
}

impl Model for TwoReplicas {
    ghost use Rattle.std.specs.Prelude.{IfSome};
    ghost use Rattle.gf_site.specs.Growth.{Grows};
    ghost use Rattle.gf_site.specs.ReplicaState.{ReplicaState};

    ghost Value = { ReplicaState };

    ghost view = { λ r. r.newest };

    ghost invariant = { λ r. IfSome r.former (λ former. Grows former.ops r.newest.ops) };
}

impl TwoReplicas {
    /// A replica that has and holds nothing.
    pub(crate) fn new(alloc: Global) -> TwoReplicas
        ensures { result ≡ new_replica }
    {
        TwoReplicas {
            newest: Replica::new(alloc),
            former: None,
        }
    }

    /// The newest replica.
    pub(crate) fn newest(&self) -> &Replica
        ensures { result.now ≡ self.now }
    {
        &self.newest
    }

    /// A copy of the newest replica: the former one with what came since, or where there is none, a
    /// copy of all.
    pub(crate) fn copy(&mut self, alloc: Global) -> Result<Replica, OutOfMemory>
        ensures same { self.new ≡ self.old }
        ensures copy { IfOk result (λ copy. copy ≡ self.old) }
    {
        let Some(mut former) = mem::replace(&mut self.former, None) else {
            return self.newest.copy(alloc);
        };
        former.catch_up(&self.newest)?;
        Ok(former)
    }

    /// Is another replica from now on, whose history begins with that of before.
    pub(crate) fn replace(&mut self, next: Replica)
        requires { Grows self.old.ops next.ops }
        ensures { self.new ≡ next }
    {
        self.former = Some(mem::replace(&mut self.newest, next));
    }

    /// Has the history of a site from now on, which begins with that of before.
    pub(crate) fn take_history(&mut self, site: Site)
        requires { Grows self.old.ops site.ops }
        ensures { self.new ≡ record self.old { ops = site.ops } }
    {
        self.former = Some(site.give_history(&mut self.newest));
    }
}
