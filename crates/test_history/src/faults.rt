//! How faults are printed.

ghost use Rattle.std.specs.Prelude.{◌≡◌, IfErr};

use gf_causal::OfferFault;
use gf_groups::GroupFault;
use gf_json::LineError;
use gf_ops::{AddFault, OpFault};
use gf_streams::{InputError, Sink, SinkFault, SourceFault, Tape, WriteError, write_whole};
use std::alloc::{AllocError, Global};
use std::fmt::Display;

/// The text of a fault, which is named by who tells it and by its cause.
pub(crate) fn answer(alloc: Global, text: &str) -> Option<String> {
    let (teller, cause) = text.split_once(' ').unwrap_or((text, ""));
    match teller {
        "line" => printed(alloc, line_error(cause)?),
        "operation" => printed(alloc, op_fault(cause)?),
        "add" => printed(alloc, add_fault(cause)?),
        "offer" => printed(alloc, offer_fault(cause)?),
        "group" => printed(alloc, group_fault(cause)?),
        _ => of_streams(alloc, teller, cause),
    }
}

fn printed<T: Display + Drop>(alloc: Global, fault: T) -> Option<String> {
    format!(in alloc; "{fault}").ok()
}

fn line_error(cause: &str) -> Option<LineError> {
    match cause {
        "json" => Some(LineError::Json),
        "field" => Some(LineError::Field),
        "range" => Some(LineError::Range),
        "memory" => Some(LineError::OutOfMemory),
        _ => None,
    }
}

fn op_fault(cause: &str) -> Option<OpFault> {
    match cause {
        "clock" => Some(OpFault::BadClock),
        "object" => Some(OpFault::NoObject),
        "kind" => Some(OpFault::WrongKind),
        "aim" => Some(OpFault::BadAim),
        _ => None,
    }
}

fn add_fault(cause: &str) -> Option<AddFault> {
    match cause {
        "memory" => Some(AddFault::OutOfMemory),
        _ => Some(AddFault::Op(op_fault(cause)?)),
    }
}

fn offer_fault(cause: &str) -> Option<OfferFault> {
    match cause {
        "range" => Some(OfferFault::Range),
        "clash" => Some(OfferFault::Clash),
        "memory" => Some(OfferFault::OutOfMemory),
        _ => None,
    }
}

fn group_fault(cause: &str) -> Option<GroupFault> {
    match cause {
        "object" => Some(GroupFault::NoObject),
        "memory" => Some(GroupFault::OutOfMemory),
        _ => None,
    }
}

/// The text of a fault of a source, of a sink, or of a whole read or write.
fn of_streams(alloc: Global, teller: &str, cause: &str) -> Option<String> {
    match teller {
        "source" => printed(alloc, SourceFault),
        "input" => printed(alloc, input_error(cause)?),
        "sink" => printed(alloc, SinkFault),
        "write" => printed(alloc, write_error(cause)?),
        "tape" => printed(alloc, written_to(&mut Tape::new(alloc, Some(0))).err()?),
        _ => None,
    }
}

fn input_error(cause: &str) -> Option<InputError> {
    match cause {
        "source" => Some(InputError::from(SourceFault)),
        "long" => Some(InputError::TooLong),
        "memory" => Some(InputError::from(AllocError)),
        _ => None,
    }
}

fn write_error(cause: &str) -> Option<WriteError> {
    match cause {
        "sink" => Some(WriteError::from(SinkFault)),
        "memory" => Some(WriteError::from(AllocError)),
        _ => None,
    }
}

// `?` makes a fault the one variant that it stands for.
fn written_to<W: Sink>(sink: &mut W) -> Result<(), WriteError>
    ensures { IfErr result (λ e. e ≡ WriteError.WriteFailed) }
{
    write_whole(sink, b"a")?;
    Ok(())
}
