//! Why an operation doesn't fit.

use crate::arrived::ArrivedLine;
use crate::reasons::OperationReason;
use gf_ops::{Attr, Change, Form, History, ObjectId, Op, OpFault, OpId, Start, Value};

/// What is wrong with an operation that was refused behind a history for this fault.
pub(crate) fn operation_reason(history: &History, op: &Op, fault: OpFault) -> OperationReason {
    match fault {
        OpFault::BadClock => clock_reason(history, op),
        OpFault::NoObject => OperationReason::NotMade(op.object().0),
        OpFault::WrongKind => kind_reason(history, op),
        OpFault::BadAim => aim_reason(history, op),
    }
}

/// Where another operation arrived under the id, and what differs first.
pub(crate) fn clash_reason(arrived: &ArrivedLine, op: &Op) -> OperationReason {
    OperationReason::Clash(op.id, arrived.number, difference(&arrived.op, op))
}

// ---- clocks

/// The wrong entry of the operation's own site, or the first entry less than that of a counted
/// operation.
fn clock_reason(history: &History, op: &Op) -> OperationReason {
    let own = op.past.entry(op.id.site);
    let before = op.id.seq.saturating_sub(1);
    if own != before {
        return OperationReason::OwnCount(own, before);
    }
    for site in 1..9 {
        let seq = op.past.entry(site);
        if let Some(last) = history.get(OpId { site, seq }) {
            if let Some(reason) = behind_reason(last, op) {
                return reason;
            }
        }
    }
    OperationReason::Unclear
}

/// The first entry that is less than that of an operation.
fn behind_reason(last: &Op, op: &Op) -> Option<OperationReason> {
    for site in 1..9 {
        let count = op.past.entry(site);
        let had = last.past.entry(site);
        if count < had {
            return Some(OperationReason::FallsBehind(count, site, last.id, had));
        }
    }
    None
}

// ---- kinds

fn kind_reason(history: &History, op: &Op) -> OperationReason {
    let Change::Set { object, value, .. } = &op.change else {
        return OperationReason::Unclear;
    };
    match made_form(history, *object) {
        Some(form) => OperationReason::WrongKind(
            object.0,
            kind_words(form),
            value_words(form, value),
        ),
        None => OperationReason::Unclear,
    }
}

/// The form that an object was made with.
fn made_form(history: &History, object: ObjectId) -> Option<&Form> {
    match &history.get(object.0)?.change {
        Change::Create(start) => Some(&start.form),
        Change::Set { .. } => None,
    }
}

fn kind_words(form: &Form) -> &'static str {
    match form {
        Form::Rect(_, _) => "a box",
        Form::Polygon(_) => "a polygon",
        Form::Circle(_) => "a circle",
        Form::Ellipse(_, _) => "an ellipse",
    }
}

/// What an object of this form has in place of the value.
fn value_words(form: &Form, value: &Value) -> &'static str {
    match value {
        Value::Points(_) => "it has no points",
        Value::Size(_, _) => match form {
            Form::Polygon(_) => "it has no size",
            Form::Rect(_, _) | Form::Circle(_) | Form::Ellipse(_, _) => {
                "its size is two equal numbers"
            }
        },
        Value::Place(_) | Value::Colour(_) | Value::Layer(_) | Value::Shown(_) => {
            "it has such a value"
        }
    }
}

// ---- aims

/// Why an operation of the aim may not stand there, for the first such one, or that two conflict.
fn aim_reason(history: &History, op: &Op) -> OperationReason {
    for id in op.aim() {
        if let Some(reason) = member_reason(history, op, *id) {
            return reason;
        }
    }
    OperationReason::AimConflicts
}

fn member_reason(history: &History, op: &Op, id: OpId) -> Option<OperationReason> {
    let Some(member) = history.get(id) else {
        return Some(OperationReason::AimNotCounted(id));
    };
    if op.past.entry(id.site) < id.seq {
        return Some(OperationReason::AimNotCounted(id));
    }
    if member.object() != op.object() {
        return Some(OperationReason::AimElsewhere(id));
    }
    if lacks(member.aim(), op.aim()) {
        return Some(OperationReason::AimLacks(id));
    }
    None
}

/// Whether an aim lacks one of these ids. Both lists rise, so one walk over the aim is enough.
fn lacks(ids: &[OpId], aim: &[OpId]) -> bool {
    let mut left = ids;
    for id in aim {
        left = behind(left, *id);
    }
    !left.is_empty()
}

/// The ids behind the first one, where that is this one.
fn behind(ids: &[OpId], id: OpId) -> &[OpId] {
    match ids.split_first() {
        Some((first, rest)) if *first == id => rest,
        _ => ids,
    }
}

// ---- clashes

/// What differs first between two operations under one id.
fn difference(first: &Op, second: &Op) -> &'static str {
    let found = match (&first.change, &second.change) {
        (Change::Create(first), Change::Create(second)) => start_difference(first, second),
        (Change::Set { .. }, Change::Set { .. }) => set_difference(first, second),
        _ => Some("op"),
    };
    found.unwrap_or("past")
}

fn start_difference(first: &Start, second: &Start) -> Option<&'static str> {
    if kind_words(&first.form) != kind_words(&second.form) {
        Some("kind")
    } else if first.place != second.place {
        Some("value of place")
    } else if first.form != second.form {
        Some(form_word(&first.form))
    } else if first.colour != second.colour {
        Some("value of colour")
    } else if first.layer != second.layer {
        Some("value of layer")
    } else if first.shown != second.shown {
        Some("value of shown")
    } else {
        None
    }
}

fn form_word(form: &Form) -> &'static str {
    match form {
        Form::Polygon(_) => "value of points",
        Form::Rect(_, _) | Form::Circle(_) | Form::Ellipse(_, _) => "value of size",
    }
}

fn set_difference(first: &Op, second: &Op) -> Option<&'static str> {
    let (
        Change::Set { object, value, aim },
        Change::Set {
            object: other_object,
            value: other_value,
            aim: other_aim,
        },
    ) = (&first.change, &second.change)
    else {
        return None;
    };
    if object != other_object {
        Some("object")
    } else if value.attribute() != other_value.attribute() {
        Some("attribute")
    } else if value != other_value {
        Some(value_word(value.attribute()))
    } else if aim != other_aim {
        Some("aim")
    } else {
        None
    }
}

fn value_word(attribute: Attr) -> &'static str {
    match attribute {
        Attr::Place => "value of place",
        Attr::Points => "value of points",
        Attr::Size => "value of size",
        Attr::Colour => "value of colour",
        Attr::Layer => "value of layer",
        Attr::Shown => "value of shown",
    }
}
