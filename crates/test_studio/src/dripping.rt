//! Texts that go out in pieces, and how often their sink is flushed.

ghost use Rattle.std.specs.Prelude.{Some};

use gf_streams::{Reel, Sink, SinkFault, Tape, write_whole};
use gf_studio::fig_run;
use std::alloc::Global;
use test_kit::EMPTY_FIG;

/// A sink that takes seven bytes at a time, and counts its flushes.
#[derive(Drop)]
struct Dripping {
    tape: Tape,
    flushes: u32,
}

impl Sink for Dripping {
    ghost taken = { λ d. Some d.tape.bytes };

    ghost failures = { λ d. d.tape.failures };

    ghost flushed = { λ d. d.tape.flushed };

    fn write(&mut self, bytes: &[u8]) -> Result<usize, SinkFault> {
        self.tape.write(&bytes[..bytes.len().min(7)])
    }

    fn flush(&mut self) -> Result<(), SinkFault> {
        self.flushes = self.flushes.saturating_add(1);
        self.tape.flush()
    }
}

fn new_sink(alloc: Global) -> Dripping {
    Dripping {
        tape: Tape::new(alloc, None),
        flushes: 0,
    }
}

/// Whether a sink has all of a text, and was flushed once.
fn is_whole(sink: &Dripping, text: &str) -> bool {
    sink.tape.bytes() == text.as_bytes() && sink.flushes == 1
}

#[test]
fn a_run_goes_out_whole_in_pieces(rt: HostRuntime) {
    let mut sink = new_sink(rt.alloc());
    let answer = fig_run(&rt, rt.alloc(), &mut Reel::new(b"", None), &mut sink, 1);
    assert_eq!(rt; answer, Ok(0));
    assert!(rt; is_whole(&sink, EMPTY_FIG));
}

#[test]
fn texts_go_out_whole_in_pieces(rt: HostRuntime) {
    for text in ["figgroup 0.1.0\n", EMPTY_FIG] {
        let mut sink = new_sink(rt.alloc());
        let answer = write_whole(&mut sink, text.as_bytes());
        assert_eq!(rt; answer, Ok(()));
        assert!(rt; is_whole(&sink, text), "{text}");
    }
}
