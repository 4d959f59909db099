//! From the lines of a text to a replica and the commands that a site is told.

ghost use Rattle.std.specs.Prelude.{ℕ, List, [], ◌∷◌, IfOk, IfErr, OnOk};
ghost use Rattle.gf_edit.specs.EditFaults.{RefusesEntries};
ghost use Rattle.gf_edit.specs.EntrySteps.{HasReadLines};

use crate::entries::read_entry;
use crate::{Entry, Numbered};
use gf_replay::{ReadingError, line_refusal, take_op};
use gf_site::Replica;
use gf_streams::TextLines;
use std::alloc::Global;

/// What was read: a replica with the operations, and the commands in order.
#[derive(Drop)]
pub(crate) struct ReadLines {
    pub(crate) replica: Replica,
    pub(crate) commands: Vec<Numbered>,
}

/// What the lines of a text denote where the site of this number edits.
pub(crate) fn read_lines(
    alloc: Global,
    text: Vec<u8>,
    editor: u8,
) -> Result<ReadLines, ReadingError>
    ensures ok { IfOk result (HasReadLines editor text.items []) }
    ensures err { IfErr result (RefusesEntries editor text.items) }
{
    let mut read = ReadLines {
        replica: Replica::new(alloc),
        commands: Vec::new(alloc),
    };
    let mut lines = TextLines::new(text);
    while let Some((number, line)) = lines.first() {
        take_line(alloc, &mut read, number, line, editor)?;
        lines.advance();
    }
    Ok(read)
}

/// Takes what a line denotes.
fn take_line(
    alloc: Global,
    read: &mut ReadLines,
    number: u64,
    line: &[u8],
    editor: u8,
) -> Result<(), ReadingError>
    ensures ok { (bytes : List ℕ) (left : List (ℕ × List ℕ))
        → HasReadLines editor bytes ((number, line.now) ∷ left) read.old
        → OnOk result (HasReadLines editor bytes left read.new) }
    ensures err { (bytes : List ℕ) (left : List (ℕ × List ℕ))
        → HasReadLines editor bytes ((number, line.now) ∷ left) read.old
        → IfErr result (RefusesEntries editor bytes) }
{
    match read_entry(alloc, line, Some(editor)) {
        Ok(Entry::Operation(op)) => take_op(&mut read.replica, number, op),
        Ok(Entry::Command(command)) => {
            let numbered = Numbered {
                line: number,
                command,
            };
            match read.commands.push(numbered) {
                Ok(()) => Ok(()),
                Err(_) => Err(ReadingError::OutOfMemory),
            }
        }
        Err(fault) => Err(line_refusal(number, fault)),
    }
}
