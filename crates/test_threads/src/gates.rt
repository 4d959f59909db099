//! That sites run at the same time: a gate lets a site wait until others were called. It gives up
//! after many turns, so that sites which run one after another are told and don't hang.

use crate::sessions::ran;
use gf_gate::Gate;
use std::sync::atomic::AtomicUsize;
use std::sync::atomic::Ordering::SeqCst;
use std::test::Fail;
use std::thread;

/// Waits until `wanted` sites came, and counts it where they did.
fn meet(come: &AtomicUsize, wanted: usize, met: &AtomicUsize) {
    for _ in 0..2_000_000u32 {
        if come.load(SeqCst) >= wanted {
            met.fetch_add(1, SeqCst);
            return;
        }
        thread::yield_now();
    }
}

/// Site `first` waits before its first command until site `second` was called for its third.
#[derive(Drop)]
struct Late {
    first: u8,
    second: u8,
    come: AtomicUsize,
    met: AtomicUsize,
}

impl Gate for Late {
    fn enter(&self, who: u8, piece: u32) {
        if who == self.second && piece == 3 {
            self.come.fetch_add(1, SeqCst);
        }
        if who == self.first && piece == 1 {
            meet(&self.come, 1, &self.met);
        }
    }
}

/// Each site waits before its first command until this many sites are there.
#[derive(Drop)]
struct Meeting {
    sites: usize,
    come: AtomicUsize,
    met: AtomicUsize,
}

impl Gate for Meeting {
    fn enter(&self, _who: u8, piece: u32) {
        if piece == 1 {
            self.come.fetch_add(1, SeqCst);
            meet(&self.come, self.sites, &self.met);
        }
    }
}

fn none() -> AtomicUsize {
    AtomicUsize::new(0)
}

#[test]
fn neither_of_two_sites_waits_for_the_end_of_the_other(rt: HostRuntime) -> Result<(), Fail> {
    for (first, second) in [(1, 2), (2, 1)] {
        let gate = Late {
            first,
            second,
            come: none(),
            met: none(),
        };
        let text = "box 9 9; box 8 8; box 7 7 / circle 3; circle 4; circle 5";
        let Some(told) = ran(&rt, rt.alloc(), &gate, text) else {
            return Err(Fail::new("no memory"));
        };
        assert_eq!(rt; told.as_str(), "1.1 1.2 1.3 has 6 / 2.1 2.2 2.3 has 6 / ");
        assert_eq!(rt; gate.met.load(SeqCst), 1);
    }
    Ok(())
}

#[test]
fn eight_sites_begin_before_one_of_them_goes_on(rt: HostRuntime) -> Result<(), Fail> {
    let gate = Meeting {
        sites: 8,
        come: none(),
        met: none(),
    };
    let text = "box 9 9 / box 9 9 / box 9 9 / box 9 9 / box 9 9 / box 9 9 / box 9 9 / await 1.1";
    let Some(told) = ran(&rt, rt.alloc(), &gate, text) else {
        return Err(Fail::new("no memory"));
    };
    assert!(rt; told.ends_with("/ 7.1 has 7 / has 7 / "));
    assert_eq!(rt; gate.met.load(SeqCst), 8);
    Ok(())
}
