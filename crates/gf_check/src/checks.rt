//! From the bytes of operation lines to all of their faults.

ghost use Rattle.std.specs.Prelude.{◌≡◌, IfSome, IfOk, IfErr, List, ℕ, Option};
ghost use Rattle.gf_ops.specs.OperationOrder.{IsSite};
ghost use Rattle.gf_run.specs.RefusedRuns.{IsOfRun};
ghost use Rattle.gf_run.specs.RunAnswers.{LeavesSink, ReadsInput};
ghost use Rattle.gf_check.specs.AllFaults.{AnswersText};
ghost use Rattle.gf_check.specs.CheckRun.{Checks, WritesCheck};

use crate::faults_of;
use gf_base::OutOfMemory;
use gf_run::{Answer, StudioError, run};
use gf_streams::{Sink, Source};
use std::alloc::Global;

/// What a check found.
#[derive(Clone, Copy, Debug, PartialEq, Eq)]
pub enum Verdict {
    /// The input denotes a history.
    Clean,
    /// The input has a fault, and each fault was written.
    Faulty,
}

/// Reads operation lines to their end, and writes a line for each fault. Where a site edits, its
/// commands are no faults. The line says where the fault is, which one it is, and what is wrong.
/// The check goes on behind each fault, and reads all before the first write.
pub fn check_run<R: Source, W: Sink>(
    alloc: Global,
    source: &mut R,
    sink: &mut W,
    editor: Option<u8>,
) -> Result<Verdict, StudioError>
    requires { IfSome editor IsSite }

    // Where the answer is that there is no fault, the bytes denote a history, and nothing is
    // written. Where there are faults, the first that is written refuses the bytes. Each line that
    // denotes nothing then has a line. Each operation that has none is in a valid history, or waits
    // behind it. Each fault that is written is true, and none is written twice.
    ensures tells { IfOk result (λ verdict. IfSome (R.left source.old) (λ bytes.
        WritesCheck editor bytes verdict (W.taken sink.old) (W.taken sink.new))) }

    // No fault of the input refuses the run.
    ensures source { ReadsInput R.Source source.old source.new result }
    ensures refused { IfErr result IsOfRun }

    // At most a prefix of the text is written, and that only where the sink failed.
    ensures sink { LeavesSink W.Sink (R.left source.old) (AnswersText editor) sink.old sink.new
        result }
{
    run(
        alloc,
        source,
        sink,
        |bytes|
            requires { IfSome editor IsSite }
        { check(alloc, bytes, editor) },
    )
}

/// Whether a text tells a fault.
fn verdict_of(text: &[u8]) -> Verdict
    ensures { (editor : Option ℕ) (bytes : List ℕ) → AnswersText editor bytes text.now
        → Checks editor bytes result text.now }
{
    if text.is_empty() {
        Verdict::Clean
    } else {
        Verdict::Faulty
    }
}

/// The text that tells all faults of these bytes, and whether there are any.
fn check(alloc: Global, bytes: Vec<u8>, editor: Option<u8>) -> Result<Answer<Verdict>, StudioError>
    requires { IfSome editor IsSite }
    ensures ok { IfOk result (λ told. Checks editor bytes.items told.value told.text.items) }
    ensures text { IfOk result (λ told. AnswersText editor bytes.items told.text.items) }
    ensures err { IfErr result (λ e. e ≡ StudioError.OutOfMemory) }
{
    match faults_of(alloc, bytes, editor) {
        Ok(text) => {
            let value = verdict_of(&text);
            Ok(Answer { text, value })
        }
        Err(OutOfMemory) => Err(StudioError::OutOfMemory),
    }
}
