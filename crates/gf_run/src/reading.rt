//! What a run reads first: all bytes of its source.

ghost use Rattle.std.specs.Prelude.{◌≡◌, IfErr, IfOk, IfSome};
ghost use Rattle.gf_run.specs.RefusedRuns.{IsOfInput};
ghost use Rattle.gf_run.specs.RunAnswers.{ReadsInput};

use crate::StudioError;
use gf_streams::{Source, read_input};
use std::alloc::Global;

/// All bytes of a source.
pub fn input<R: Source>(alloc: Global, source: &mut R) -> Result<Vec<u8>, StudioError>
    ensures ok { IfOk result (λ bytes. IfSome (R.left source.old) (λ all. bytes.items ≡ all)) }
    ensures source { ReadsInput R.Source source.old source.new result }
    ensures refused { IfErr result IsOfInput }
{
    let bytes = read_input(alloc, source)?;
    Ok(bytes)
}
