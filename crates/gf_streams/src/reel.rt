//! A source in memory.

ghost use Rattle.std.specs.Prelude.{◌≡◌, ◌≤◌, ◌++◌, ◌↔◌, Some, IfOk, IsErr, OnErr, drop, length};
ghost use Rattle.std.specs.Prelude.{take};
ghost use Rattle.std.specs.Io.KnownBytes.{ReadConsumes};
ghost use Rattle.gf_streams.specs.ReelState.{after_failing, after_giving, read_length, unread};
ghost use Rattle.gf_streams.specs.Counts.{CountsFailure, raised};

use crate::{Source, SourceFault};
use std::marker::Model;

/// A source in memory. With a number, its reads fail once that many bytes were given.
#[derive(Drop)]
pub struct Reel<'a> {
    left: &'a [u8],
    fail_after: Option<u64>,
    reads: u64,
    failures: u64,
}

impl<'a> Model for Reel<'a> {
    ghost use Rattle.gf_streams.specs.ReelState.{ReelState};

    ghost Value = { ReelState };

    ghost view = { λ r. record {
      left = r.left.now;
      fail_after = r.fail_after;
      reads = r.reads;
      failures = r.failures;
    } };
}

impl<'a> Reel<'a> {
    /// A reel that was not read yet.
    pub fn new(bytes: &'a [u8], fail_after: Option<u64>) -> Self
        ensures { result ≡ unread bytes.now fail_after }
    {
        Reel {
            left: bytes,
            fail_after,
            reads: 0,
            failures: 0,
        }
    }

    /// How many bytes a read with this much room gives.
    fn read_length(&self, room: usize) -> usize
        ensures { result ≡ read_length self.now room }
    {
        let allowed = match self.fail_after {
            None => room,
            Some(most) => room.min(most as usize),
        };
        self.left.len().min(allowed)
    }
}

impl<'a> Source for Reel<'a> {
    ghost left = { λ r. Some r.left };

    ghost reads = { λ r. r.reads };

    ghost failures = { λ r. r.failures };

    /// Gives the bytes that are left, as far as there is room.
    fn read(&mut self, buffer: &mut [u8]) -> Result<usize, SourceFault>
        ensures within { IfOk result (λ n. n ≤ length buffer.new) }
        ensures gives { ReadConsumes (Some self.old.left) (Some self.new.left) result buffer.new }
        ensures counts_reads { self.new.reads ≡ raised self.old.reads }
        ensures counts { CountsFailure self.old.failures self.new.failures result }
        ensures count { IfOk result (λ n. n ≡ read_length self.old (length buffer.old)) }
        ensures gave { IfOk result (λ n. self.new ≡ after_giving self.old n) }
        ensures copied { IfOk result (λ n. buffer.new ≡ take n self.old.left ++ drop n buffer.old) }

        ensures fails { IsErr result ↔ (self.old.fail_after ≡ Some 0) }
        ensures failed { OnErr result (self.new ≡ after_failing self.old) }
        ensures untouched { OnErr result (buffer.new ≡ buffer.old) }
    {
        self.reads = self.reads.saturating_add(1);
        if self.fail_after == Some(0) {
            self.failures = self.failures.saturating_add(1);
            return Err(SourceFault);
        }
        let count = self.read_length(buffer.len());
        buffer[..count].copy_from_slice(&self.left[..count]);
        self.left = &self.left[count..];
        if let Some(most) = &mut self.fail_after {
            *most -= count as u64;
        }
        Ok(count)
    }
}
