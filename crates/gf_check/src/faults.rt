//! The lines that tell faults.

ghost use Rattle.std.specs.Prelude.{◌≡◌, ◌++◌, codes, OnOk};
ghost use Rattle.gf_check.specs.FaultLines.{fault_head, told_line};

use gf_base::{OutOfMemory, push_number};
use gf_ops::{OpFault, OpId, push_id};
use gf_replay::{LineCause, ReadingError};
use std::alloc::AllocError;

/// Appends the line that tells a fault and explains it.
pub(crate) fn push_fault(
    text: &mut Vec<u8>,
    fault: ReadingError,
    why: &[u8],
) -> Result<(), OutOfMemory>
    ensures { OnOk result (text.new.items ≡ text.old.items ++ told_line fault why.now) }
{
    push_head(text, fault)?;
    text.extend_from_slice(b": ")?;
    text.extend_from_slice(why)?;
    text.push(b'\n')?;
    Ok(())
}

/// Appends where a fault is, and which one it is.
fn push_head(text: &mut Vec<u8>, fault: ReadingError) -> Result<(), AllocError>
    ensures { OnOk result (text.new.items ≡ text.old.items ++ fault_head fault) }
{
    match fault {
        ReadingError::Line(number, cause) => push_line(text, number, cause),
        ReadingError::Dropped(id, fault) => push_operation(text, id, fault),
        ReadingError::OutOfMemory => text.extend_from_slice(b"out of memory"),
    }
}

fn push_line(text: &mut Vec<u8>, number: u64, cause: LineCause) -> Result<(), AllocError>
    ensures { OnOk result (text.new.items
        ≡ text.old.items ++ fault_head (ReadingError.Line number cause)) }
{
    text.extend_from_slice(b"line ")?;
    push_number(text, number)?;
    text.extend_from_slice(b": ")?;
    text.extend_from_slice(cause.word().as_bytes())
}

fn push_operation(text: &mut Vec<u8>, id: OpId, fault: OpFault) -> Result<(), AllocError>
    ensures { OnOk result (text.new.items
        ≡ text.old.items ++ fault_head (ReadingError.Dropped id fault)) }
{
    text.extend_from_slice(b"operation ")?;
    push_id(text, id)?;
    text.extend_from_slice(b": ")?;
    text.extend_from_slice(fault.word().as_bytes())
}
