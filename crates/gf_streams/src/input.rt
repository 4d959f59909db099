//! A reader as a source.

ghost use Rattle.std.specs.Prelude.{◌≡◌};

use crate::{Source, SourceFault};
use std::io::Read;

/// A reader as a source. An error is a failure.
#[derive(Drop)]
pub struct In<R> {
    reader: R,
    reads: u64,
    failures: u64,
}

impl<R: Read> In<R> {
    /// A source that was not read yet.
    pub fn new(reader: R) -> Self
        ensures left { ⟦<In<R> as Source>⟧.left result ≡ R.remaining reader }
        ensures reads { ⟦<In<R> as Source>⟧.reads result ≡ 0 }
        ensures failures { ⟦<In<R> as Source>⟧.failures result ≡ 0 }
    {
        In {
            reader,
            reads: 0,
            failures: 0,
        }
    }
}

impl<R: Read> Source for In<R> {
    ghost left = { λ input. R.remaining input.reader };

    ghost reads = { λ input. input.reads };

    ghost failures = { λ input. input.failures };

    fn read(&mut self, buffer: &mut [u8]) -> Result<usize, SourceFault> {
        self.reads = self.reads.saturating_add(1);
        match self.reader.read(buffer) {
            Ok(count) => Ok(count),
            Err(_) => {
                self.failures = self.failures.saturating_add(1);
                Err(SourceFault)
            }
        }
    }
}
