//! The law of an edit, the contract of a function that does nothing.

ghost use Rattle.std.specs.Prelude.{ℕ, List, ◌++◌};
ghost use Rattle.gf_ops.specs.declared.op.Op.{Op};
ghost use Rattle.gf_ops.specs.OperationOrder.{IsSite};
ghost use Rattle.gf_replay.specs.Denoting.{Denotes};
ghost use Rattle.gf_edit.specs.EditedText.{JoinsEdit};

/// What an edit read and what it made denote the history that was read, with the new operations
/// behind it. The operations may come in any order and however often.
pub fn what_an_edit_writes_joins_what_it_read()
    ensures { (s : ℕ) (bytes others : List ℕ) (new : List Op) → IsSite s →
        (j : JoinsEdit s bytes new others) → Denotes others (j.edit.history ++ new) }
{}
