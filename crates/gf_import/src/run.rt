//! The whole run over an imported text.

ghost use Rattle.std.specs.Prelude.{IfSome, IfErr, OnOk};
ghost use Rattle.gf_ops.specs.OperationOrder.{IsSite};
ghost use Rattle.gf_run.specs.RunAnswers.{LeavesSinkBy, ReadsInputBy};
ghost use Rattle.gf_import.specs.ImportRun.{Imports, RefusesImportRun, WritesImport, of_import};

use crate::ImportError;
use crate::importing::import;
use gf_run::run;
use gf_streams::{Sink, Source};
use std::alloc::Global;

/// Reads a FIG text to its end, and writes a line for each of its figures. The line is that of a
/// command of this site that creates the figure. All is read before the first write.
#[tactic(auto, using(crate::proofs::RunLemmas::run_refused, crate::proofs::RunLemmas::is_between))]
pub fn import_run<R: Source, W: Sink>(
    alloc: Global,
    source: &mut R,
    sink: &mut W,
    site: u8,
) -> Result<(), ImportError>
    requires { IsSite site }

    // The lines of the commands that create the figures of the text are written, and denote these
    // commands.
    ensures imports { OnOk result (IfSome (R.left source.old) (λ fig.
        WritesImport site fig (W.taken sink.old) (W.taken sink.new))) }

    // The text was read whole, or the source failed, or had more than an input. It reads as no
    // drawing, or as one of too many figures, or one of its figures breaks a limit.
    ensures source { ReadsInputBy R.Source source.old source.new of_import result }
    ensures refused { IfErr result (λ e. IfSome (R.left source.old) (λ fig.
        RefusesImportRun fig e)) }

    // At most a prefix of the lines is written, and that only where the sink failed.
    ensures sink { LeavesSinkBy W.Sink (R.left source.old) (Imports site) sink.old sink.new
        of_import result }
{
    run(
        alloc,
        source,
        sink,
        |fig|
            requires { IsSite site }
        { import(alloc, fig, site) },
    )
}
