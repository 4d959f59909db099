//! What is told so far, and which drops that tells.

ghost use Rattle.std.specs.Prelude.{◌≡◌, ◌↔◌, [], List, Contains, IsTrue, OnOk};
ghost use Rattle.gf_check.specs.FaultLines.{Told, errors};
ghost use Rattle.gf_check.specs.Telling.{HasTold, TellsOne, check_number};

use crate::faults::push_fault;
use crate::plain::on_one_line;
use gf_base::OutOfMemory;
use gf_ops::{OpFault, OpId};
use gf_replay::{LineCause, ReadingError};
use std::alloc::Global;
use std::collections::BTreeSet;

/// The lines that tell faults, and each id and cause of the drops among them.
#[derive(Drop)]
pub(crate) struct Telling {
    text: Vec<u8>,
    drops: BTreeSet<(OpId, u8)>,
}

impl Telling {
    /// No faults.
    pub(crate) fn new(alloc: Global) -> Telling
        ensures { HasTold [] result }
    {
        Telling {
            text: Vec::new(alloc),
            drops: BTreeSet::new(alloc),
        }
    }

    /// The lines that tell the faults.
    pub(crate) fn into_text(self) -> Vec<u8>
        ensures { result ≡ self.text }
    {
        self.text
    }

    /// Whether a line tells that an operation under this id was dropped for this cause.
    pub(crate) fn has_drop(&self, id: OpId, fault: OpFault) -> bool
        ensures { (told : List Told) → HasTold told self.now
            → IsTrue result ↔ Contains (errors told) (ReadingError.Dropped id fault) }
    {
        self.drops.contains(&(id, check_number(fault)))
    }

    /// Adds a line that tells the fault of an input line, and why.
    pub(crate) fn tell_line(
        &mut self,
        number: u64,
        cause: LineCause,
        why: &[u8],
    ) -> Result<(), OutOfMemory>
        ensures { (told : List Told) → HasTold told self.old
            → OnOk result (TellsOne (ReadingError.Line number cause) told self.new) }
    {
        let why = on_one_line(why);
        push_fault(&mut self.text, ReadingError::Line(number, cause), why)
    }

    /// Adds a line that tells a drop which no line tells so far, and why.
    pub(crate) fn tell_drop(
        &mut self,
        id: OpId,
        fault: OpFault,
        why: &[u8],
    ) -> Result<(), OutOfMemory>
        ensures { (told : List Told) → HasTold told self.old
            → ¬ (Contains (errors told) (ReadingError.Dropped id fault))
            → OnOk result (TellsOne (ReadingError.Dropped id fault) told self.new) }
    {
        let why = on_one_line(why);
        let Ok(_) = self.drops.insert((id, check_number(fault))) else {
            return Err(OutOfMemory);
        };
        push_fault(&mut self.text, ReadingError::Dropped(id, fault), why)
    }
}

/// The index of a cause in the order of the checks.
fn check_number(fault: OpFault) -> u8
    ensures { result ≡ check_number fault }
{
    match fault {
        OpFault::BadClock => 1,
        OpFault::NoObject => 2,
        OpFault::WrongKind => 3,
        OpFault::BadAim => 4,
    }
}
