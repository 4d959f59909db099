//! What the lines of a block read as, found by several threads.

ghost use Rattle.std.specs.Prelude.{◌≡◌, ◌<◌, ◌≤◌, [], IfOk, length, map, slice_index_or, vec_len};
ghost use Rattle.gf_replay.specs.Blocks.{AreFirstReadings, AreReadings, IsBlock, IsReading};

use gf_json::{LineError, read_op};
use gf_ops::Op;
use gf_streams::TextLines;
use std::alloc::{AllocError, Global};
use std::thread;
use std::thread::Threads;

/// How many lines a block has at most.
const BLOCK_LINES: usize = 4_096;

/// How many lines are worth a thread.
const SHARE_LINES: usize = 256;

/// What the line of this number reads as: the operation that it denotes, or its fault.
#[derive(Drop)]
pub(crate) struct Reading {
    pub number: u64,
    pub op: Result<Op, LineError>,
}

/// What some lines read as, in order, and the lines behind them.
#[derive(Drop)]
pub(crate) struct Block {
    pub readings: Vec<Reading>,
    pub behind: TextLines,
}

/// Reads a block of lines, or all where they are fewer. At most `workers` threads read them, and
/// one thread reads a few lines.
pub(crate) fn read_block<R: Threads + Sync>(
    rt: &R,
    alloc: Global,
    lines: TextLines,
    workers: u8,
) -> Result<Block, AllocError>
    requires { 1 ≤ workers }
    ensures { IfOk result (λ block. IsBlock lines block.readings.items block.behind) }
{
    let mut behind = lines;
    let readings = read_first(rt, alloc, &behind, workers)?;
    behind.advance_by(readings.len());
    Ok(Block { readings, behind })
}

/// What the lines of the first block read as.
fn read_first<R: Threads + Sync>(
    rt: &R,
    alloc: Global,
    lines: &TextLines,
    workers: u8,
) -> Result<Vec<Reading>, AllocError>
    requires { 1 ≤ workers }
    ensures first { IfOk result (λ readings. AreFirstReadings lines.now readings.items) }
    ensures none { IfOk result (λ readings. vec_len readings ≡ 0 → lines.now ≡ []) }
{
    let block = lines.block(alloc, BLOCK_LINES)?;
    let mut readings = unread(alloc, block.len())?;
    let threads = threads_for(block.len(), workers);
    read_each(rt, alloc, &block, &mut readings, threads);
    Ok(readings)
}

/// How many threads read this many lines.
fn threads_for(lines: usize, workers: u8) -> usize
    requires { 1 ≤ workers }
    ensures { 1 ≤ result }
{
    lines.div_ceil(SHARE_LINES).clamp(1, workers as usize)
}

/// Places for what `count` lines read as.
fn unread(alloc: Global, count: usize) -> Result<Vec<Reading>, AllocError>
    ensures { IfOk result (λ readings. vec_len readings ≡ count) }
{
    let mut readings = Vec::with_capacity(alloc, count)?;
    for _ in 0..count {
        readings.push(Reading {
            number: 0,
            op: Err(LineError::OutOfMemory),
        })?;
    }
    Ok(readings)
}

/// Puts what each line reads as in its place.
fn read_each<R: Threads + Sync>(
    rt: &R,
    alloc: Global,
    lines: &[(u64, &[u8])],
    readings: &mut [Reading],
    threads: usize,
)
    requires threads { 1 ≤ threads }
    requires places { length readings.old ≡ length lines.now }
    ensures { AreReadings (map (λ line. (line.0, line.1.now)) lines.now) readings.new }
{
    thread::for_each_mut(
        rt,
        readings,
        threads,
        &|i: usize, reading: &mut Reading|
            requires { i < length lines.now }
            ensures { (d : _) → let line = slice_index_or lines.entry.now i d in
                IsReading (line.0, line.1.now) reading.new }
        {
            let (number, line) = lines[i];
            *reading = Reading {
                number,
                op: read_op(alloc, line),
            };
        },
    );
}
