//! Copies of operations.

ghost use Rattle.std.specs.Prelude.{◌≡◌, IfOk};

use crate::{Change, Form, Op, Points, Start, Value};
use gf_base::OutOfMemory;
use std::alloc::Global;

impl Op {
    /// A copy of the operation.
    pub fn copy(&self, alloc: Global) -> Result<Op, OutOfMemory>
        ensures { IfOk result (λ op. op ≡ self.now) }
    {
        Ok(Op {
            id: self.id,
            past: self.past,
            change: self.change.copy(alloc)?,
        })
    }
}

/// Copies of the operations, in their order.
pub(crate) fn copy_ops(ops: &[Op], alloc: Global) -> Result<Vec<Op>, OutOfMemory>
    ensures { IfOk result (λ copies. copies.items ≡ ops.now) }
{
    let mut copies = Vec::new(alloc);
    for op in ops {
        copies.push(op.copy(alloc)?)?;
    }
    Ok(copies)
}

impl Change {
    /// A copy of the change.
    pub fn copy(&self, alloc: Global) -> Result<Change, OutOfMemory>
        ensures { IfOk result (λ change. change ≡ self.now) }
    {
        match self {
            Change::Create(start) => Ok(Change::Create(start.copy(alloc)?)),
            Change::Set { object, value, aim } => Ok(Change::Set {
                object: *object,
                value: value.copy(alloc)?,
                aim: aim.copy(alloc)?,
            }),
        }
    }
}

impl Start {
    /// A copy of the attributes.
    pub fn copy(&self, alloc: Global) -> Result<Start, OutOfMemory>
        ensures { IfOk result (λ start. start ≡ self.now) }
    {
        Ok(Start {
            form: self.form.copy(alloc)?,
            place: self.place,
            colour: self.colour,
            layer: self.layer,
            shown: self.shown,
        })
    }
}

impl Form {
    fn copy(&self, alloc: Global) -> Result<Form, OutOfMemory>
        ensures { IfOk result (λ form. form ≡ self.now) }
    {
        match self {
            Form::Rect(width, height) => Ok(Form::Rect(*width, *height)),
            Form::Polygon(points) => Ok(Form::Polygon(points.copy(alloc)?)),
            Form::Circle(radius) => Ok(Form::Circle(*radius)),
            Form::Ellipse(rx, ry) => Ok(Form::Ellipse(*rx, *ry)),
        }
    }
}

impl Value {
    fn copy(&self, alloc: Global) -> Result<Value, OutOfMemory>
        ensures { IfOk result (λ value. value ≡ self.now) }
    {
        match self {
            Value::Place(place) => Ok(Value::Place(*place)),
            Value::Points(points) => Ok(Value::Points(points.copy(alloc)?)),
            Value::Size(width, height) => Ok(Value::Size(*width, *height)),
            Value::Colour(colour) => Ok(Value::Colour(*colour)),
            Value::Layer(layer) => Ok(Value::Layer(*layer)),
            Value::Shown(shown) => Ok(Value::Shown(*shown)),
        }
    }
}

impl Points {
    /// A copy of the points.
    pub fn copy(&self, alloc: Global) -> Result<Points, OutOfMemory>
        ensures { IfOk result (λ points. points ≡ self.now) }
    {
        let mut points = Vec::new(alloc);
        points.extend_from_slice(self.as_slice())?;
        Ok(Points::new(points))
    }
}
