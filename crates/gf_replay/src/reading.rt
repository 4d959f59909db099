//! From the lines of a text to a replica.

ghost use Rattle.std.specs.Prelude.{◌≤◌, ◌∷◌, [], List, ℕ, IfOk, IfErr, IsTrue, OnOk};
ghost use denote.Param.Send.{IsSync};
ghost use Rattle.gf_ops.specs.declared.op.Op.{Op};
ghost use Rattle.gf_ops.specs.Limits.{IsInRange};
ghost use Rattle.gf_replay.specs.Blocks.{AreOfLines, IsBefore, IsBlock, IsReading, TakesBlock};
ghost use Rattle.gf_replay.specs.Denoting.{Denotes};
ghost use Rattle.gf_replay.specs.Behind.{DeliversLines, HasDelivered};
ghost use Rattle.gf_replay.specs.Refusing.{RefusesText};
ghost use Rattle.gf_replay.specs.Waiting.{DenotesWaiting};
ghost use Rattle.gf_replay.specs.LineSteps.{HasRead};
ghost use Rattle.gf_site.specs.Growth.{Grows};

use crate::blocks::{Block, Reading, read_block};
use crate::{ReadingError, line_refusal, take_op};
use gf_site::Replica;
use gf_streams::TextLines;
use std::alloc::{AllocError, Global};
use std::thread;
use std::thread::Threads;

/// A replica whose history is that of the operations that the lines of a text denote. It holds each
/// operation until all that this knows is there. What it holds at the end is no part of the
/// history, and waits. The lines are read by 1 to 16 workers, and taken in order. The text's memory
/// is given back as it is read.
pub fn read_replica<R: Threads + Sync>(
    rt: &R,
    alloc: Global,
    text: Vec<u8>,
    workers: u8,
) -> Result<Replica, ReadingError>
    requires { (1 ≤ workers) × (workers ≤ 16) }
    ensures ok { IfOk result (λ replica. Denotes text.items replica.ops) }
    ensures held { IfOk result (λ replica.
        DenotesWaiting text.items replica.ops replica.held) }
    ensures err { IfErr result (RefusesText [] text.items) }
{
    let replica = read_behind(rt, alloc, Replica::new(alloc), text, workers)?;
    replica.recall_state();
    Ok(replica)
}

/// The replica with the operations of the lines of a text behind those that it was given before.
/// The lines are read as [`read_replica`] reads them.
pub fn read_behind<R: Threads + Sync>(
    rt: &R,
    alloc: Global,
    replica: Replica,
    text: Vec<u8>,
    workers: u8,
) -> Result<Replica, ReadingError>
    requires { (1 ≤ workers) × (workers ≤ 16) }
    ensures ok { (known : List Op) → HasDelivered known replica
        → IfOk result (DeliversLines known text.items) }
    ensures grows { IfOk result (λ next. Grows replica.ops next.ops) }
    ensures err { (known : List Op) → HasDelivered known replica
        → IfErr result (RefusesText known text.items) }
{
    let mut replica = replica;
    let Ok(mut block) = read_block(rt, alloc, TextLines::new(text), workers) else {
        return Err(ReadingError::OutOfMemory);
    };
    while !block.readings.is_empty() {
        let next = take_and_read(rt, alloc, replica, block, workers)?;
        replica = next.0;
        block = next.1;
    }
    Ok(replica)
}

/// Takes what the lines of a block read as, and reads the next block. With several workers, one of
/// them takes while the others read.
fn take_and_read<R: Threads + Sync>(
    rt: &R,
    alloc: Global,
    replica: Replica,
    block: Block,
    workers: u8,
) -> Result<(Replica, Block), ReadingError>
    requires workers { 1 ≤ workers }
    requires block { AreOfLines block.readings.items }
    ensures ok { (known : List Op) (text : List ℕ)
        → IsBefore known text block.readings.items block.behind replica
        → IfOk result (λ next. HasRead known text block.behind next.0) }
    ensures grows { IfOk result (λ next. Grows replica.ops next.0.ops) }
    ensures block { IfOk result (λ next.
        IsBlock block.behind next.1.readings.items next.1.behind) }
    ensures err { (known : List Op) (text : List ℕ)
        → IsBefore known text block.readings.items block.behind replica
        → IfErr result (RefusesText known text) }
{
    let Block { readings, behind } = block;
    if !is_read_meanwhile(&behind, workers) {
        let replica = take_block(replica, readings)?;
        return match read_block(rt, alloc, behind, 1) {
            Ok(block) => Ok((replica, block)),
            Err(_) => Err(ReadingError::OutOfMemory),
        };
    }
    let readers = workers - 1;
    let (next, taken) = thread::join(
        rt,
        move || -> Result<Block, AllocError>
            requires { IsSync R.row × (1 ≤ readers) }
            ensures { IfOk result (λ block. IsBlock behind block.readings.items block.behind) }
        { read_block(rt, alloc, behind, readers) },
        move || -> Result<Replica, ReadingError>
            requires { AreOfLines readings.items }
            ensures { TakesBlock readings.items replica result }
        { take_block(replica, readings) },
    );
    let replica = taken?;
    match next {
        Ok(block) => Ok((replica, block)),
        Err(_) => Err(ReadingError::OutOfMemory),
    }
}

/// Whether the next block is read while one is taken: there are lines left, and several workers.
fn is_read_meanwhile(lines: &TextLines, workers: u8) -> bool
    ensures { IsTrue result → 2 ≤ workers }
{
    1 < workers && lines.first().is_some()
}

/// Takes what the lines of a block read as, in order.
fn take_block(replica: Replica, readings: Vec<Reading>) -> Result<Replica, ReadingError>
    requires { AreOfLines readings.items }
    ensures { TakesBlock readings.items replica result }
{
    let mut replica = replica;
    for reading in readings {
        take_reading(&mut replica, reading)?;
    }
    Ok(replica)
}

/// Takes what a line reads as.
fn take_reading(replica: &mut Replica, reading: Reading) -> Result<(), ReadingError>
    requires { IfOk reading.op (λ op. IsInRange op) }
    ensures ok { (line : ℕ × List ℕ) → IsReading line reading
        → (known : List Op) (text : List ℕ) (left : List (ℕ × List ℕ))
        → HasRead known text (line ∷ left) replica.old
        → OnOk result (HasRead known text left replica.new) }
    ensures grows { OnOk result (Grows replica.old.ops replica.new.ops) }
    ensures err { (line : ℕ × List ℕ) → IsReading line reading
        → (known : List Op) (text : List ℕ) (left : List (ℕ × List ℕ))
        → HasRead known text (line ∷ left) replica.old
        → IfErr result (RefusesText known text) }
{
    let Reading { number, op } = reading;
    match op {
        Ok(op) => take_op(replica, number, op),
        Err(fault) => Err(line_refusal(number, fault)),
    }
}
