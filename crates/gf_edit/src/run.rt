//! The whole run over an edited text.

ghost use Rattle.std.specs.Prelude.{IfSome, IfOk, IfErr};
ghost use Rattle.gf_ops.specs.OperationOrder.{IsSite};
ghost use Rattle.gf_run.specs.RunAnswers.{LeavesSinkBy, ReadsInputBy};
ghost use Rattle.gf_edit.specs.EditRun.{IsEditOf, RefusesEdit, WritesEdit, of_edit};

use crate::editing::edit;
use crate::{EditError, Made};
use gf_run::run;
use gf_streams::{Sink, Source};
use std::alloc::Global;

/// Reads operation lines of any sites and command lines of this one to their end. The commands make
/// new operations behind the history that was read. The lines of these are written, and the answer
/// names the first and the last. All is read before the first write.
pub fn edit_run<R: Source, W: Sink>(
    alloc: Global,
    source: &mut R,
    sink: &mut W,
    editor: u8,
) -> Result<Option<Made>, EditError>
    requires { IsSite editor }

    // The lines of what the commands of the bytes make are written, and the answer names what was
    // made.
    ensures edits { IfOk result (λ made. IfSome (R.left source.old) (λ bytes.
        WritesEdit editor bytes made (W.taken sink.old) (W.taken sink.new))) }

    // The same as `fig_run` promises. In place of a drawing, the error says what blocks the site,
    // or which command it refuses.
    ensures source { ReadsInputBy R.Source source.old source.new of_edit result }
    ensures refused { IfErr result (λ e. IfSome (R.left source.old) (λ bytes.
        RefusesEdit editor bytes e)) }

    // At most a prefix of the text is written, and that only where the sink failed.
    ensures sink { LeavesSinkBy W.Sink (R.left source.old) (IsEditOf editor) sink.old sink.new
        of_edit result }
{
    run(
        alloc,
        source,
        sink,
        |bytes|
            requires { IsSite editor }
        { edit(alloc, bytes, editor) },
    )
}
