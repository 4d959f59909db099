//! The law of a take, the contract of a function that does nothing.

ghost use Rattle.std.specs.Prelude.{ℕ, List, ◌++◌};
ghost use Rattle.gf_ops.specs.declared.op.Op.{Op};
ghost use Rattle.gf_replay.specs.Denoting.{Denotes};
ghost use Rattle.gf_take_run.specs.TakenText.{JoinsTakenText};

/// What a take read and what it made denote the history that was read, with the new operations
/// behind it. The operations may come in any order and however often.
pub fn what_a_take_writes_joins_what_it_read()
    ensures { (s : ℕ) (bytes others : List ℕ) (new : List Op) →
        (j : JoinsTakenText s bytes new others) → Denotes others (j.take.history ++ new) }
{}
