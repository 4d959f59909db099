//! A run by what it makes of its bytes.

ghost use Rattle.std.specs.Prelude.{◌≡◌, ◌⊎◌, Err, IfErr, IfOk, IfSome, IsSomeAnd, Option, Some};
ghost use Rattle.gf_run.specs.declared.studio_error.StudioError.{StudioError};
ghost use Rattle.gf_run.specs.Answers.{GivesText, Refuses, WritesAnswer};
ghost use Rattle.gf_run.specs.RefusedRuns.{IsBetween, IsOfRun};
ghost use Rattle.gf_run.specs.RunAnswers.{LeavesSinkBy, ReadsInputBy};

use crate::{StudioError, input};
use gf_streams::{Sink, SinkFault, Source, write_whole};
use std::alloc::Global;

/// What a run makes of its bytes: the text that it writes, and the value that it answers.
#[derive(Drop)]
pub struct Answer<A> {
    pub text: Vec<u8>,
    pub value: A,
}

/// Why a run was refused, where any run may be refused by its source, its sink or memory.
pub trait RunError: Drop {
    /// The error as one of any run, if it is one.
    ghost shared: { Self → Option StudioError };

    fn of_run(fault: StudioError) -> Self
        ensures { shared result ≡ Some fault };
}

impl RunError for StudioError {
    ghost shared = { λ e. Some e };

    fn of_run(fault: StudioError) -> StudioError {
        fault
    }
}

/// Reads a source to its end, writes the text that `f` makes of the bytes, and answers its value.
/// All is read before the first write.
pub fn run<R: Source, W: Sink, A: Drop, E: RunError, F: FnOnce(Vec<u8>) -> Result<Answer<A>, E>>(
    alloc: Global,
    source: &mut R,
    sink: &mut W,
    f: F,
) -> Result<A, E>
    requires callable { F.IsAlwaysCallable f }
    requires between { (given : _) (e : _) → F.post f given (Err e)
        → IfSome (E.shared e) IsBetween }
    // The text is written, and the value answered, that `f` makes of all bytes of the source.
    ensures writes { IfOk result (λ value.
        WritesAnswer (F.post f) (R.left source.old) value (W.taken sink.old) (W.taken sink.new)) }

    // The source, the sink or memory refused, or `f` did.
    ensures source { ReadsInputBy R.Source source.old source.new E.shared result }
    ensures refused { IfErr result (λ e.
        Refuses (F.post f) (R.left source.old) e ⊎ IsSomeAnd (E.shared e) IsOfRun) }

    // At most a prefix of the text is written, and that only where the sink failed.
    ensures sink { LeavesSinkBy W.Sink (R.left source.old) (GivesText (F.post f)) sink.old sink.new
        E.shared result }
{
    let bytes = match input(alloc, source) {
        Ok(bytes) => bytes,
        Err(fault) => return Err(E::of_run(fault)),
    };
    let answer = match f(bytes) {
        Ok(answer) => answer,
        Err(e) => return Err(e),
    };
    match write_whole(sink, &answer.text) {
        Ok(()) => Ok(answer.value),
        Err(SinkFault) => Err(E::of_run(StudioError::WriteFailed)),
    }
}
