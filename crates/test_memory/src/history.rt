//! Trials of operations, histories and buffers: the red box as a line, and a box changed by two
//! sites.

use crate::examples::{BOX, RED_BOX_MADE, TWO_COLOURS, site};
use crate::trial::{Came, Marks};
use gf_base::OutOfMemory;
use gf_causal::{Buffer, OfferFault, Offered};
use gf_json::LineError;
use gf_ops::{AddFault, History, Ids, Op, OpId};
use std::alloc::Global;
use test_kit::RED_BOX;
use test_kit::notation::operation;

pub(crate) const NAMES: &str = "
read_op
op_line
script_line
op_copy
ids_copy
room
add
history_copy
offer
buffer_ops
buffer_copy
";

/// What comes of the trial of this name, if there is one.
pub(crate) fn tried(alloc: Global, name: &str, marks: &mut Marks) -> Option<Came> {
    let came = match name {
        "read_op" => read_op(alloc, marks),
        "op_line" => op_line(alloc, marks),
        "script_line" => script_line(alloc, marks),
        "op_copy" => op_copy(alloc, marks),
        "ids_copy" => ids_copy(alloc, marks),
        "room" => room(alloc, marks),
        "add" => add(alloc, marks),
        "history_copy" => history_copy(alloc, marks),
        "offer" => offer(alloc, marks),
        "buffer_ops" => buffer_ops(alloc, marks),
        "buffer_copy" => buffer_copy(alloc, marks),
        _ => return None,
    };
    Some(came.unwrap_or(Came::TooEarly))
}

fn read_op(alloc: Global, marks: &mut Marks) -> Option<Came> {
    let line = RED_BOX.as_bytes();
    let want = operation(alloc, RED_BOX_MADE)?;
    marks.begin();
    let first = gf_json::read_op(alloc, line);
    marks.end();
    Some(match first {
        Err(LineError::OutOfMemory) => {
            Came::after_memory(true, gf_json::read_op(alloc, line) == Ok(want))
        }
        first => Came::first(first == Ok(want)),
    })
}

fn op_line(alloc: Global, marks: &mut Marks) -> Option<Came> {
    let op = operation(alloc, RED_BOX_MADE)?;
    marks.begin();
    let first = gf_json::op_line(alloc, &op);
    marks.end();
    Some(match first {
        Err(OutOfMemory) => Came::after_memory(true, is_red_line(gf_json::op_line(alloc, &op))),
        first => Came::first(is_red_line(first)),
    })
}

fn is_red_line(answer: Result<String, OutOfMemory>) -> bool {
    match answer {
        Ok(line) => line.as_str() == RED_BOX,
        Err(OutOfMemory) => false,
    }
}

/// The line of a command, as it is written.
const AWAIT: &str = "{\"do\":\"await\",\"id\":[1,1],\"site\":2}";

fn script_line(alloc: Global, marks: &mut Marks) -> Option<Came> {
    let script = gf_json::read_script(alloc, AWAIT.as_bytes()).ok()?;
    marks.begin();
    let first = gf_json::script_line(alloc, &script);
    marks.end();
    Some(match first {
        Err(OutOfMemory) => {
            Came::after_memory(true, is_await(gf_json::script_line(alloc, &script)))
        }
        first => Came::first(is_await(first)),
    })
}

fn is_await(answer: Result<String, OutOfMemory>) -> bool {
    match answer {
        Ok(line) => line.as_str() == AWAIT,
        Err(OutOfMemory) => false,
    }
}

/// The copy of an operation that has points.
fn op_copy(alloc: Global, marks: &mut Marks) -> Option<Came> {
    let op = operation(alloc, "2.1 after 1: 1.1 points 0,0 8,0 0,8")?;
    marks.begin();
    let first = op.copy(alloc);
    marks.end();
    Some(match first {
        Err(OutOfMemory) => Came::after_memory(true, is_copy(&op, op.copy(alloc))),
        first => Came::first(is_copy(&op, first)),
    })
}

fn is_copy(op: &Op, answer: Result<Op, OutOfMemory>) -> bool {
    match answer {
        Ok(copy) => copy == *op,
        Err(OutOfMemory) => false,
    }
}

/// The copy of an aim.
fn ids_copy(alloc: Global, marks: &mut Marks) -> Option<Came> {
    let ids = Ids::new(Vec::from_array(alloc, [BOX, RECOLOUR]).ok()?);
    marks.begin();
    let first = ids.copy(alloc);
    marks.end();
    Some(match first {
        Err(OutOfMemory) => Came::after_memory(true, are_copied(ids.copy(alloc))),
        first => Came::first(are_copied(first)),
    })
}

fn are_copied(answer: Result<Ids, OutOfMemory>) -> bool {
    match answer {
        Ok(copy) => copy.as_slice() == [BOX, RECOLOUR].as_slice(),
        Err(OutOfMemory) => false,
    }
}

fn room(alloc: Global, marks: &mut Marks) -> Option<Came> {
    let mut history = History::new(alloc);
    marks.begin();
    let first = history.room();
    marks.end();
    Some(match first {
        Err(OutOfMemory) => {
            let is_kept = history.ops().is_empty();
            Came::after_memory(is_kept, history.room().is_ok() && history.ops().is_empty())
        }
        Ok(()) => Came::first(history.ops().is_empty()),
    })
}

fn add(alloc: Global, marks: &mut Marks) -> Option<Came> {
    let (op, same) = (
        operation(alloc, RED_BOX_MADE)?,
        operation(alloc, RED_BOX_MADE)?,
    );
    if !op.in_range() || !same.in_range() {
        return None;
    }
    let mut history = History::new(alloc);
    marks.begin();
    let first = history.add(op);
    marks.end();
    Some(match first {
        Err(AddFault::OutOfMemory) => {
            let is_kept = history.ops().is_empty();
            let next = history.add(same);
            Came::after_memory(is_kept, is_added(next, &history))
        }
        first => Came::first(is_added(first, &history)),
    })
}

fn is_added(answer: Result<(), AddFault>, history: &History) -> bool {
    answer.is_ok() && history.ops().len() == 1 && history.get(BOX).is_some()
}

fn history_copy(alloc: Global, marks: &mut Marks) -> Option<Came> {
    let site = site(alloc, TWO_COLOURS)?;
    let history = site.history();
    marks.begin();
    let first = history.copy(alloc);
    marks.end();
    Some(match first {
        Err(OutOfMemory) => Came::after_memory(true, is_same(history, history.copy(alloc))),
        first => Came::first(is_same(history, first)),
    })
}

fn is_same(history: &History, answer: Result<History, OutOfMemory>) -> bool {
    match answer {
        Ok(copy) => copy.ops() == history.ops() && copy.count(1) == 2 && copy.count(2) == 1,
        Err(OutOfMemory) => false,
    }
}

/// The id of the change of a box that is not there yet.
const RECOLOUR: OpId = OpId { site: 2, seq: 1 };

/// The change of a box that is not there yet.
const RECOLOURED: &str = "2.1 after 1: 1.1 colour 0000ff";

fn offer(alloc: Global, marks: &mut Marks) -> Option<Came> {
    let (op, same) = (operation(alloc, RECOLOURED)?, operation(alloc, RECOLOURED)?);
    let history = History::new(alloc);
    let mut buffer = Buffer::new(alloc);
    marks.begin();
    let first = buffer.offer(op, &history);
    marks.end();
    Some(match first {
        Err(OfferFault::OutOfMemory) => {
            let is_kept = buffer.held() == 0;
            let next = buffer.offer(same, &history);
            Came::after_memory(is_kept, is_held(next, &buffer))
        }
        first => Came::first(is_held(first, &buffer)),
    })
}

fn is_held(answer: Result<Offered, OfferFault>, buffer: &Buffer) -> bool {
    answer == Ok(Offered::Held) && buffer.held() == 1
}

/// A buffer that was offered the change and then the box.
fn holding(alloc: Global, history: &History) -> Option<Buffer> {
    let mut buffer = Buffer::new(alloc);
    buffer.offer(operation(alloc, RECOLOURED)?, history).ok()?;
    buffer.offer(operation(alloc, RED_BOX_MADE)?, history).ok()?;
    Some(buffer)
}

fn buffer_ops(alloc: Global, marks: &mut Marks) -> Option<Came> {
    let buffer = holding(alloc, &History::new(alloc))?;
    marks.begin();
    let first = buffer.ops(alloc);
    marks.end();
    Some(match first {
        Err(OutOfMemory) => Came::after_memory(true, are_both(buffer.ops(alloc))),
        first => Came::first(are_both(first)),
    })
}

/// Whether these are the box and its change.
fn are_both(answer: Result<Vec<&Op>, OutOfMemory>) -> bool {
    match answer {
        Ok(ops) => matches!(ops.as_slice(), [one, other] if one.id == BOX && other.id == RECOLOUR),
        Err(OutOfMemory) => false,
    }
}

fn buffer_copy(alloc: Global, marks: &mut Marks) -> Option<Came> {
    let history = History::new(alloc);
    let buffer = holding(alloc, &history)?;
    marks.begin();
    let first = buffer.copy(alloc);
    marks.end();
    Some(match first {
        Err(OutOfMemory) => Came::after_memory(true, has_both(&history, buffer.copy(alloc))),
        first => Came::first(has_both(&history, first)),
    })
}

/// Whether the copy holds the box and its change, of which the box is ready.
fn has_both(history: &History, answer: Result<Buffer, OutOfMemory>) -> bool {
    match answer {
        Ok(copy) => copy.held() == 2 && is_box(copy.first_ready(history)),
        Err(OutOfMemory) => false,
    }
}

fn is_box(op: Option<&Op>) -> bool {
    match op {
        Some(op) => op.id == BOX,
        None => false,
    }
}
