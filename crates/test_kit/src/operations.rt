//! Operations by their ids and pasts.

use gf_ops::{Change, Clock, Form, Ids, ObjectId, Op, OpId, Start, Value};
use gf_plane::{Point, Rgb};
use std::alloc::Global;

/// A black object of this form at the origin, on layer 0.
pub fn plain(form: Form) -> Start {
    Start {
        form,
        place: Point { x: 0, y: 0 },
        colour: Rgb { r: 0, g: 0, b: 0 },
        layer: 0,
        shown: true,
    }
}

/// An operation that makes an object.
pub fn created(id: OpId, past: [u32; 8], start: Start) -> Op {
    Op {
        id,
        past: Clock(past),
        change: Change::Create(start),
    }
}

/// An operation that gives an object a value.
pub fn changed(alloc: Global, id: OpId, past: [u32; 8], object: OpId, value: Value) -> Op {
    Op {
        id,
        past: Clock(past),
        change: Change::Set {
            object: ObjectId(object),
            value,
            aim: Ids::new(Vec::new(alloc)),
        },
    }
}

/// An operation that makes a plain object of this form.
pub fn create(site: u8, seq: u32, past: [u32; 8], form: Form) -> Op {
    created(OpId { site, seq }, past, plain(form))
}
