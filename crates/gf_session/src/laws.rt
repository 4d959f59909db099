//! What follows of the workers of a session, as the contract of a function that does nothing.

ghost use Rattle.std.specs.Prelude.{List};
ghost use Rattle.gf_worker.specs.declared.worker.WorkerEnd.{WorkerEnd};
ghost use Rattle.gf_session.specs.Joined.{AreJoined, HaveOne};

/// Where each site took from every other all that it made, all sites have one valid history.
pub fn joined_workers_have_one_history()
    ensures { (ends : List WorkerEnd) → AreJoined ends → HaveOne ends }
{}
