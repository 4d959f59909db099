//! A writer as a sink.

ghost use Rattle.std.specs.Prelude.{◌≡◌, false};
ghost use Rattle.gf_streams.specs.Counts.{raised};

use crate::{Sink, SinkFault};
use std::io::Write;

/// A writer as a sink. An error is a failure, and so is a write that takes none of some bytes.
#[derive(Drop)]
pub struct Out<W> {
    writer: W,
    failures: u64,
    flushed: bool,
}

impl<W: Write> Out<W> {
    /// A sink that never failed and was not flushed yet.
    pub fn new(writer: W) -> Self
        ensures taken { ⟦<Out<W> as Sink>⟧.taken result ≡ W.contents writer }
        ensures failures { ⟦<Out<W> as Sink>⟧.failures result ≡ 0 }
        ensures flushed { ⟦<Out<W> as Sink>⟧.flushed result ≡ false }
    {
        Out {
            writer,
            failures: 0,
            flushed: false,
        }
    }

    fn failed(&mut self) -> SinkFault
        ensures writer { self.new.writer ≡ self.old.writer }
        ensures failures { self.new.failures ≡ raised self.old.failures }
        ensures flushed { self.new.flushed ≡ self.old.flushed }
    {
        self.failures = self.failures.saturating_add(1);
        SinkFault
    }
}

impl<W: Write> Sink for Out<W> {
    ghost taken = { λ out. W.contents out.writer };

    ghost failures = { λ out. out.failures };

    ghost flushed = { λ out. out.flushed };

    fn write(&mut self, bytes: &[u8]) -> Result<usize, SinkFault> {
        match self.writer.write(bytes) {
            Ok(n) if n > 0 || bytes.is_empty() => {
                self.flushed = self.flushed && n == 0;
                Ok(n)
            }
            _ => Err(self.failed()),
        }
    }

    fn flush(&mut self) -> Result<(), SinkFault> {
        match self.writer.flush() {
            Ok(()) => {
                self.flushed = true;
                Ok(())
            }
            Err(_) => Err(self.failed()),
        }
    }
}
