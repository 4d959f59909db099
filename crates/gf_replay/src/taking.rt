//! What becomes of one line: its operation is taken, or its fault is told.

ghost use Rattle.std.specs.Prelude.{◌≡◌, IfErr, OnOk};
ghost use Rattle.gf_ops.specs.Limits.{IsInRange};
ghost use Rattle.gf_site.specs.Growth.{Grows};
ghost use Rattle.gf_replay.specs.LineSteps.{RefusesStepping};
ghost use Rattle.gf_replay.specs.Taking.{RefusesOp, StepsAll, TakesOp, of_line};

use crate::{LineCause, ReadingError};
use gf_base::OutOfMemory;
use gf_causal::OfferFault;
use gf_json::LineError;
use gf_ops::Op;
use gf_site::{Replica, Step};

/// Receives the operation of the line of this number, and steps until nothing is ready. After an
/// error nothing is promised of the replica.
pub fn take_op(replica: &mut Replica, number: u64, op: Op) -> Result<(), ReadingError>
    requires { IsInRange op }
    ensures ok { OnOk result (TakesOp op replica.old replica.new) }
    ensures grows { OnOk result (Grows replica.old.ops replica.new.ops) }
    ensures err { IfErr result (RefusesOp number op replica.old) }
{
    match replica.receive(op) {
        Ok(_) => step_all(replica),
        Err(OfferFault::Clash) => Err(ReadingError::Line(number, LineCause::Clash)),
        Err(OfferFault::Range) => unreachable!(),
        Err(OfferFault::OutOfMemory) => Err(ReadingError::OutOfMemory),
    }
}

/// The refusal of the line of this number for its fault.
pub fn line_refusal(number: u64, fault: LineError) -> ReadingError
    ensures { result ≡ of_line number fault }
{
    match fault {
        LineError::Json => ReadingError::Line(number, LineCause::Json),
        LineError::Field => ReadingError::Line(number, LineCause::Field),
        LineError::Range => ReadingError::Line(number, LineCause::Range),
        LineError::OutOfMemory => ReadingError::OutOfMemory,
    }
}

/// Steps until nothing is ready.
fn step_all(replica: &mut Replica) -> Result<(), ReadingError>
    ensures ok { OnOk result (StepsAll replica.old replica.new) }
    ensures grows { OnOk result (Grows replica.old.ops replica.new.ops) }
    ensures err { IfErr result (RefusesStepping replica.old) }
{
    loop {
        replica.recall_state();
        match replica.step() {
            Ok(Step::Applied(_)) => {}
            Ok(Step::Dropped(id, fault)) => return Err(ReadingError::Dropped(id, fault)),
            Ok(Step::Idle) => return Ok(()),
            Err(OutOfMemory) => return Err(ReadingError::OutOfMemory),
        }
    }
}
