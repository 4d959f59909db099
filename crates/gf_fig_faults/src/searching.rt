//! The search for the faults of a text: each is the first one of a text without those before it.

ghost use Rattle.std.specs.Prelude.{◌≡◌, ◌⊎◌, ◌↔◌, [], None, IfOk, MatchOption};
ghost use Rattle.gf_fig_tokens.specs.Layout.{lines};
ghost use Rattle.gf_fig_read.specs.FigGrammar.{Reads, is_of_header};
ghost use Rattle.gf_fig_read.specs.Objects.{Drawn};
ghost use Rattle.gf_fig_faults.specs.DrawingFaults.{AreFaults, Finds, FindsBehind, HasFirst};
ghost use Rattle.gf_fig_faults.specs.DrawingFaults.{begins_figure, goes_on, is_behind, most_told};

use crate::commenting::{begins_object, comment_out, is_colour};
use crate::fields::from_line;
use crate::problems::explained;
use crate::{DrawingFault, DrawingFaults};
use gf_base::OutOfMemory;
use gf_fig_read::{fault_line, read_fig};
use gf_fig_tokens::{FigFault, cut_line};
use std::alloc::Global;

/// The greatest number of faults that are told.
const MOST_TOLD: u32 = 64;

/// The faults of a FIG text, of which the first one refuses it. Each further one is the first of
/// the text in which comments stand for the objects that were told. At most 64 are told, and none
/// behind one of the header or of a colour. The time is at most that of 64 readings of the text.
pub fn drawing_faults(alloc: Global, text: &[u8]) -> Result<DrawingFaults, OutOfMemory>
    ensures faults { IfOk result (AreFaults most_told None text.now) }
    ensures none { IfOk result (λ faults. faults ≡ [] ↔ (d : Drawn) × Reads text.now d) }
    ensures first { IfOk result (λ faults. (faults ≡ []) ⊎ HasFirst text.now faults) }
{
    let faults = search(alloc, text)?;
    Ok(DrawingFaults::new(faults))
}

fn search(alloc: Global, text: &[u8]) -> Result<Vec<DrawingFault>, OutOfMemory>
    ensures { IfOk result (λ faults. AreFaults most_told None text.now faults.items) }
{
    let mut faults = Vec::new(alloc);
    let mut left = Vec::from_slice(alloc, text)?;
    let mut last = None;
    for _ in 0..MOST_TOLD {
        let Some(fault) = fault_behind(alloc, &left, last)? else {
            return Ok(faults);
        };
        faults.push(fault)?;
        if !goes_on(&left, fault) {
            return Ok(faults);
        }
        left = comment_out(alloc, &left, fault.line)?;
        last = Some(fault.line);
    }
    Ok(faults)
}

/// The first fault of a text, where it is reported behind this line.
fn fault_behind(
    alloc: Global,
    text: &[u8],
    last: Option<u64>,
) -> Result<Option<DrawingFault>, OutOfMemory>
    ensures { IfOk result (FindsBehind last text.now) }
{
    let Some((line, fault)) = first_fault(alloc, text)? else {
        return Ok(None);
    };
    if !is_behind(last, line) {
        return Ok(None);
    }
    Ok(Some(DrawingFault {
        line,
        fault,
        explanation: explained(from_line(text, line), fault),
    }))
}

/// The first fault of a text, and the line at which it is reported.
fn first_fault(alloc: Global, text: &[u8]) -> Result<Option<(u64, FigFault)>, OutOfMemory>
    ensures { IfOk result (Finds text.now) }
{
    match read_fig(alloc, text) {
        Ok(_) => Ok(None),
        Err(error) => match fault_line(alloc, text, error)? {
            Some(line) => Ok(Some((line, error.fault))),
            // Each fault that a text has is reported at a line, so memory was refused.
            None => Err(OutOfMemory),
        },
    }
}

/// Whether a line stands behind the last one that was told.
fn is_behind(last: Option<u64>, line: u64) -> bool
    ensures { result ≡ is_behind last line }
{
    match last {
        Some(last) => last < line,
        None => true,
    }
}

/// Whether the search goes on behind a fault.
fn goes_on(text: &[u8], fault: DrawingFault) -> bool
    ensures { result ≡ goes_on text.now fault }
{
    !is_of_header(fault.fault) && begins_figure(from_line(text, fault.line))
}

fn is_of_header(fault: FigFault) -> bool
    ensures { result ≡ is_of_header fault }
{
    match fault {
        FigFault::Version | FigFault::Header | FigFault::Resolution => true,
        _ => false,
    }
}

/// Whether the first line can begin an object that is no colour.
fn begins_figure(text: &[u8]) -> bool
    ensures { result ≡ begins_figure (lines text.now) }
{
    match cut_line(text) {
        Some((line, _)) => begins_object(line) && !is_colour(line),
        None => false,
    }
}
