//! Where bytes come from, and the read of all of them.

ghost use Rattle.std.specs.Prelude.{◌≡◌, ℕ, ◌+◌, ◌<◌, ◌≤◌, ◌⊎◌, List, Option, length, vec_len};
ghost use Rattle.std.specs.Prelude.{IfOk, IfSome, IsErr, IsErrOf, OnOk};
ghost use Rattle.std.specs.Io.KnownBytes.{IsAtEnd, ReadConsumes};
ghost use Rattle.gf_streams.specs.Reads.{CamePast, ConsumesAtMost, ConsumesExactly, ConsumesSome};
ghost use Rattle.gf_streams.specs.Reads.{ReadsOn};
ghost use Rattle.gf_streams.specs.Counts.{CountsFailure, CountsFailureAt, Rises, raised};
ghost use Rattle.gf_streams.specs.declared.source.InputError.TheVariants.{OutOfMemory, ReadFailed};
ghost use Rattle.gf_streams.specs.declared.source.InputError.TheVariants.{TooLong};

use std::alloc::{AllocError, Global};
use thiserror::Error;

/// The most bytes that an input has.
pub const MOST_INPUT_BYTES: usize = 16_777_216;

const CHUNK_BYTES: usize = 65_536;

/// A source failed.
#[derive(Clone, Copy, Debug, PartialEq, Eq, Error)]
#[error("the source failed")]
pub struct SourceFault;

/// Why an input was not read.
#[derive(Clone, Copy, Debug, PartialEq, Eq, Error)]
pub enum InputError {
    /// The source failed before its end was seen.
    #[error("read failed")]
    ReadFailed,

    /// The source gave more than [`MOST_INPUT_BYTES`].
    #[error("input too long")]
    TooLong,

    /// A growth of memory was refused.
    #[error("out of memory")]
    OutOfMemory,
}

impl From<SourceFault> for InputError {
    ghost from_gives = { λ _ e. e ≡ ReadFailed };

    fn from(_: SourceFault) -> InputError {
        InputError::ReadFailed
    }
}

impl From<AllocError> for InputError {
    ghost from_gives = { λ _ e. e ≡ OutOfMemory };

    fn from(_: AllocError) -> InputError {
        InputError::OutOfMemory
    }
}

/// Where bytes come from. A call that fails gives no bytes.
pub trait Source {
    /// The bytes that are still to come, where they are known.
    ghost left: { Self → Option (List ℕ) };

    /// How often the source was read, up to the greatest `u64`.
    ghost reads: { Self → ℕ };

    /// How often the source failed, up to the greatest `u64`.
    ghost failures: { Self → ℕ };

    /// Gives the next bytes, and says how many. No bytes where there is room mean the end.
    fn read(&mut self, buffer: &mut [u8]) -> Result<usize, SourceFault>
        ensures within { IfOk result (λ n. n ≤ length buffer.new) }
        ensures gives { ReadConsumes (left self.old) (left self.new) result buffer.new }
        ensures counts_reads { reads self.new ≡ raised (reads self.old) }
        ensures counts { CountsFailure (failures self.old) (failures self.new) result };
}

/// One read, behind the bytes that are held.
fn read_onto<R: Source>(
    source: &mut R,
    chunk: &mut [u8],
    bytes: &mut Vec<u8>,
) -> Result<usize, InputError>
    requires room { 0 < length chunk.old }
    ensures ok { IfOk result (λ n.
        ReadsOn (R.left source.old) (R.left source.new) bytes.old.items bytes.new.items n) }
    ensures within { IfOk result (λ n. n ≤ length chunk.old) }
    ensures failed { IsErrOf result ReadFailed →
        ConsumesAtMost 0 (R.left source.old) (R.left source.new) }
    ensures not_long { IsErrOf result TooLong → ⊥ }
    ensures memory { IsErrOf result OutOfMemory →
        ConsumesSome (length chunk.old) (R.left source.old) (R.left source.new) }
    ensures takes { ConsumesAtMost (length chunk.old) (R.left source.old) (R.left source.new) }
    ensures counts_reads { R.reads source.new ≡ raised (R.reads source.old) }
    ensures counts { CountsFailureAt ReadFailed (R.failures source.old) (R.failures source.new)
        result }
{
    let count = source.read(chunk)?;
    bytes.extend_from_slice(&chunk[..count])?;
    Ok(count)
}

/// Reads all bytes of a source, unless there are too many. It takes at most one byte past the
/// longest input, in no more reads than that.
#[tactic(auto, using(crate::proofs::ReadsLemmas::consumes_continued, crate::proofs::ReadsLemmas::not_past))]
pub fn read_input<R: Source>(alloc: Global, source: &mut R) -> Result<Vec<u8>, InputError>
    ensures ok { IfOk result (λ bytes. IfSome (R.left source.old) (λ all. bytes.items ≡ all)) }
    ensures end { OnOk result (IsAtEnd (R.left source.new)) }
    ensures within { IfOk result (λ bytes. vec_len bytes ≤ MOST_INPUT_BYTES) }

    // The source failed exactly once where its read failed, and else not.
    ensures read_failed { IsErrOf result ReadFailed →
        Rises (R.failures source.old) (R.failures source.new) }
    ensures counts { CountsFailureAt ReadFailed (R.failures source.old) (R.failures source.new)
        result }

    // One byte past the longest input shows that there is more. Only want of memory may hide this.
    ensures too_long { IsErrOf result TooLong →
        IfSome (R.left source.old) (λ all. MOST_INPUT_BYTES < length all) }
    ensures one_more { IsErrOf result TooLong →
        ConsumesExactly (MOST_INPUT_BYTES + 1) (R.left source.old) (R.left source.new) }
    ensures past { CamePast MOST_INPUT_BYTES (R.left source.old) (R.left source.new) →
        IsErrOf result TooLong ⊎ IsErrOf result OutOfMemory }
    ensures longer { IfSome (R.left source.old)
        (λ all. MOST_INPUT_BYTES < length all → IsErr result) }

    // An input with no bytes needs no memory.
    ensures out_of_memory { IsErrOf result OutOfMemory →
        ConsumesSome (MOST_INPUT_BYTES + 1) (R.left source.old) (R.left source.new) }

    ensures is_read { Rises (R.reads source.old) (R.reads source.new) }
    ensures reads { R.reads source.new ≤ R.reads source.old + (MOST_INPUT_BYTES + 1) }
    ensures reads_ok { IfOk result (λ bytes.
        R.reads source.new ≤ R.reads source.old + (vec_len bytes + 1)) }
    ensures takes { ConsumesAtMost (MOST_INPUT_BYTES + 1) (R.left source.old) (R.left source.new) }
{
    let mut bytes = Vec::new(alloc);
    let mut chunk = [0u8; CHUNK_BYTES];
    while bytes.len() <= MOST_INPUT_BYTES {
        let room = (MOST_INPUT_BYTES + 1 - bytes.len()).min(CHUNK_BYTES);
        if read_onto(source, &mut chunk[..room], &mut bytes)? == 0 {
            return Ok(bytes);
        }
    }
    Err(InputError::TooLong)
}
