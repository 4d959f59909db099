//! The law of a status that is clean, the contract of a function that does nothing.

ghost use Rattle.std.specs.Prelude.{ℕ, List};
ghost use Rattle.gf_json.specs.declared.notation.Notation.{Notation};
ghost use Rattle.gf_ops.specs.declared.op.Op.{Op};
ghost use Rattle.gf_ops.specs.ValidHistory.{IsValid};
ghost use Rattle.gf_versions.specs.declared.ranking.TheConstants.{MOST_VERSIONS};
ghost use Rattle.gf_visible.specs.ShownVersions.{HasMoreVisible};
ghost use Rattle.gf_status.specs.declared.state.State.TheVariants as state;
ghost use Rattle.gf_status.specs.StatusRun.{TellsStatus};

/// A history whose status is clean has no more visible versions than a drawing takes, so no export
/// refuses it for these.
pub fn a_clean_history_has_no_more_versions_than_a_drawing()
    ensures { (notation : Notation) (h waiting : List Op) (text : List ℕ) → IsValid h →
        TellsStatus notation h waiting text state.Clean → ¬ (HasMoreVisible h MOST_VERSIONS) }
{}
