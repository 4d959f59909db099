//! A sink in memory.

ghost use Rattle.std.specs.Prelude.{◌≡◌, ◌≤◌, true, length, IfOk, IsErr, IsOk, Some};
ghost use Rattle.std.specs.Io.KnownBytes.{WriteAppends};
ghost use Rattle.gf_streams.specs.Counts.{CountsFailure};
ghost use Rattle.gf_streams.specs.Taken.{Unflushes};
ghost use Rattle.gf_streams.specs.TapeState.{CanTake, IsFull, empty, fitting};

use crate::{Sink, SinkFault};
use std::alloc::Global;
use std::marker::Model;

/// A sink in memory. It holds no more bytes than its limit, where it has one.
#[derive(Drop)]
pub struct Tape {
    bytes: Vec<u8>,
    limit: Option<u64>,
    failures: u64,
    flushed: bool,
}

impl Model for Tape {
    ghost use Rattle.std.specs.Prelude.{vec_capacity};
    ghost use Rattle.gf_streams.specs.TapeState.{TapeState};

    ghost Value = { TapeState };

    ghost view = { λ t. record {
      bytes = t.bytes.items;
      limit = t.limit;
      failures = t.failures;
      flushed = t.flushed;
      capacity = vec_capacity t.bytes;
    } };
}

impl Tape {
    /// An empty tape, with a limit in bytes.
    pub fn new(alloc: Global, limit: Option<u64>) -> Self
        ensures { result ≡ empty limit }
    {
        Tape {
            bytes: Vec::new(alloc),
            limit,
            failures: 0,
            flushed: false,
        }
    }

    /// The bytes that the tape took.
    pub fn bytes(&self) -> &[u8]
        ensures { result.now ≡ self.now.bytes }
    {
        &self.bytes
    }

    /// How many of `count` bytes fit on the tape.
    fn fitting(&self, count: usize) -> usize
        ensures { result ≡ fitting self.now count }
    {
        match self.limit {
            None => count,
            Some(limit) => {
                let room = limit.saturating_sub(self.bytes.len() as u64);
                count.min(room as usize)
            }
        }
    }
}

impl Sink for Tape {
    ghost taken = { λ t. Some t.bytes };

    ghost failures = { λ t. t.failures };

    ghost flushed = { λ t. t.flushed };

    /// Takes the bytes that fit.
    fn write(&mut self, bytes: &[u8]) -> Result<usize, SinkFault>
        ensures takes { WriteAppends (Some self.old.bytes) (Some self.new.bytes) result bytes.now }
        ensures counts { CountsFailure self.old.failures self.new.failures result }
        ensures unflushes { Unflushes self.old.flushed self.new.flushed result }
        ensures count { IfOk result (λ n. n ≡ fitting self.old (length bytes.now)) }
        ensures limit { self.new.limit ≡ self.old.limit }
        ensures memory { self.old.capacity ≤ self.new.capacity }

        // The write fails where nothing fits, and else only where it has to ask for memory.
        ensures fails { IsFull self.old (length bytes.now) → IsErr result }
        ensures succeeds { CanTake self.old (length bytes.now) → IsOk result }
    {
        let count = self.fitting(bytes.len());
        let is_full = count == 0 && !bytes.is_empty();
        if is_full || self.bytes.extend_from_slice(&bytes[..count]).is_err() {
            self.failures = self.failures.saturating_add(1);
            return Err(SinkFault);
        }
        self.flushed = self.flushed && count == 0;
        Ok(count)
    }

    /// The flush does not fail.
    fn flush(&mut self) -> Result<(), SinkFault>
        ensures ok { IsOk result }
        ensures flushes { self.new ≡ record self.old { flushed = true } }
    {
        self.flushed = true;
        Ok(())
    }
}
