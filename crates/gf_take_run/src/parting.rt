//! Where a FIG text begins behind operation lines.

ghost use Rattle.std.specs.Prelude.{◌≡◌, ℕ, IfNone, IfOk, IfSome};
ghost use Rattle.gf_take_run.specs.Parting.{BeginsFig, IsParted};
ghost use Rattle.gf_take_run.specs.PartingSteps.{IsFigStart};

use gf_base::OutOfMemory;
use memchr::memchr;
use std::alloc::Global;

/// How the first line of a FIG text begins.
const BEGINNING: &[u8] = b"#FIG";

/// Operation lines, and the FIG text behind them.
#[derive(Drop)]
pub(crate) struct Parts {
    pub(crate) lines: Vec<u8>,
    pub(crate) fig: Vec<u8>,
}

/// Parts a text before the first line that begins as a FIG text does, if there is one.
pub(crate) fn part(alloc: Global, mut text: Vec<u8>) -> Result<Option<Parts>, OutOfMemory>
    ensures parted { IfOk result (λ parts. IfSome parts (λ p.
        IsParted text.items p.lines.items p.fig.items)) }
    ensures none { IfOk result (λ parts. IfNone parts ((n : ℕ) → ¬ (BeginsFig text.items n))) }
{
    let Some(start) = fig_start(&text) else {
        return Ok(None);
    };
    let fig = Vec::from_slice(alloc, &text[start..])?;
    text.truncate(start);
    Ok(Some(Parts { lines: text, fig }))
}

/// The first position of a text at which a line begins as a FIG text does.
fn fig_start(text: &[u8]) -> Option<usize>
    ensures start { IfSome result (IsFigStart text.now) }
    ensures none { IfNone result ((n : ℕ) → ¬ (BeginsFig text.now n)) }
{
    let mut start = 0;
    loop {
        let left = &text[start..];
        if left.starts_with(BEGINNING) {
            return Some(start);
        }
        match memchr(b'\n', left) {
            Some(end) => start += end + 1,
            None => return None,
        }
    }
}
