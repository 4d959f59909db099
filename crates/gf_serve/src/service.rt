//! What a service keeps, and how it answers one request.

ghost use Rattle.std.specs.Prelude.{◌≡◌, ◌≤◌, List};
ghost use Rattle.gf_ops.specs.declared.op.Op.{Op};
ghost use Rattle.gf_replay.specs.Behind.{HasDelivered};
ghost use Rattle.gf_serve.specs.Serving.{AnswersNext};
ghost use Rattle.gf_site.specs.ReplicaState.{new_replica};

use crate::answering::{lines, named, status, take};
use crate::kept::Kept;
use crate::two_replicas::TwoReplicas;
use crate::{Reply, Request};
use std::alloc::Global;
use std::marker::Model;
use std::thread::Threads;

/// The operations that were given, those that wait among them, and what was found before. It is
/// seen as a replica is.
#[derive(Drop)]
pub struct Service {
    alloc: Global,
    replicas: TwoReplicas,
    kept: Kept,
}

impl Model for Service {
    ghost use Rattle.gf_site.specs.ReplicaState.{ReplicaState};
    ghost use Rattle.gf_serve.specs.ServingSteps.{KeepsBoth};

    ghost Value = { ReplicaState };

    ghost view = { λ s. s.replicas };

    ghost invariant = { λ s. KeepsBoth s.replicas.ops s.kept };
}

impl Service {
    /// A service that was given nothing.
    pub fn new(alloc: Global) -> Service
        ensures { result ≡ new_replica }
    {
        Service {
            alloc,
            replicas: TwoReplicas::new(alloc),
            kept: Kept::new(alloc),
        }
    }

    /// Answers a request, by 1 to 16 workers. It answers what the command of its name answers of
    /// lines with all operations that were given before. What lines denote and what a take makes
    /// joins them.
    pub fn answer<R: Threads + Sync>(&mut self, rt: &R, request: Request, workers: u8) -> Reply
        requires { (1 ≤ workers) × (workers ≤ 16) }
        ensures { (known : List Op) → HasDelivered known self.old
            → AnswersNext known request result self.new }
    {
        match request {
            Request::Lines(text) => {
                lines(
                    rt,
                    self.alloc,
                    &mut self.replicas,
                    &mut self.kept,
                    text,
                    workers,
                )
            }
            Request::Take(text) => take(self.alloc, &mut self.replicas, &mut self.kept, &text),
            Request::Named => named(self.alloc, self.replicas.newest(), &mut self.kept),
            Request::Status(notation) => {
                status(self.alloc, self.replicas.newest(), &mut self.kept, notation)
            }
        }
    }
}
