//! A law of aimed changes, the contract of a function that does nothing.

ghost use Rattle.std.specs.Prelude.{◌≡◌, List, Some};
ghost use Rattle.gf_plane.specs.declared.point.Point.{Point};
ghost use Rattle.gf_ops.specs.declared.op.Op.{Op};
ghost use Rattle.gf_ops.specs.declared.change.Change.{Change};
ghost use Rattle.gf_ops.specs.declared.change.Value.{Value};
ghost use Rattle.gf_ops.specs.declared.faults.OpFault.{OpFault};
ghost use Rattle.gf_ops.specs.Accepted.{IsRefused};
ghost use Rattle.gf_ops.specs.ValidHistory.{IsValid};
ghost use Rattle.gf_inspect.specs.AimedChange.{AimsAtTop, IsCounts};

/// Let an operation make the change of [`aimed_at`](crate::aimed_at), under a clock that is the
/// counts of the history. It is refused neither for its object nor for its aim.
pub fn an_aim_at_the_top_is_one()
    ensures object { (h : List Op) → IsValid h → (p : Point) (v : Value) (c : Change)
        → AimsAtTop h p v (Some c) → (a : Op) → a.change ≡ c → IsCounts a.past h
        → ¬ (IsRefused h a OpFault.NoObject) }
    ensures aim { (h : List Op) → IsValid h → (p : Point) (v : Value) (c : Change)
        → AimsAtTop h p v (Some c) → (a : Op) → a.change ≡ c → IsCounts a.past h
        → ¬ (IsRefused h a OpFault.BadAim) }
{}
