//! The law of a service, the contract of a function that does nothing.

ghost use Rattle.std.specs.Prelude.{ℕ, List};
ghost use Rattle.gf_json.specs.declared.notation.Notation.{Notation};
ghost use Rattle.gf_ops.specs.declared.op.Op.{Op};
ghost use Rattle.gf_replay.specs.Denoting.{AreLinesOf};
ghost use Rattle.gf_run.specs.declared.answering.Answer.{Answer};
ghost use Rattle.gf_serve.specs.Serving.{TellsNamed, TellsState};
ghost use Rattle.gf_status.specs.declared.state.State.{State};
ghost use Rattle.gf_status.specs.StatusRun.{DenotesStatus};
ghost use Rattle.gf_streams.specs.TextLines.{numbered_lines};
ghost use Rattle.gf_studio.specs.declared.naming.NamedRun.{NamedRun};
ghost use Rattle.gf_studio.specs.FigRun.{HasThin, HoldsBack, IsNamedOf};
ghost use Rattle.gf_take_run.specs.declared.request.TakeRequest.{TakeRequest};
ghost use Rattle.gf_take_run.specs.declared.taken.Taken.{Taken};
ghost use Rattle.gf_take_run.specs.Parting.{IsParted};
ghost use Rattle.gf_take_run.specs.TakenBehind.{TakesBehind};
ghost use Rattle.gf_take_run.specs.TakeRun.{TakesText};

/// Of any lines that denote the operations which a service was given, the commands write what the
/// service answers.
pub fn a_service_answers_as_the_commands()
    ensures named { (lines : List ℕ) (known : List Op) (answer : Answer NamedRun)
        → AreLinesOf (numbered_lines lines) known → TellsNamed known answer
        → IsNamedOf lines answer.text.items × HasThin lines answer.value.thin.items
        × HoldsBack lines answer.value.waiting }
    ensures status { (lines : List ℕ) (known : List Op) (notation : Notation)
        (answer : Answer State) → AreLinesOf (numbered_lines lines) known
        → TellsState known notation answer
        → DenotesStatus notation lines answer.text.items answer.value }
    ensures take { (q : TakeRequest) (text lines fig : List ℕ) (known h new : List Op)
        (answer : Answer Taken) → IsParted text lines fig → AreLinesOf (numbered_lines lines) known
        → TakesBehind q known h fig new answer
        → TakesText q text answer.text.items answer.value }
{}
