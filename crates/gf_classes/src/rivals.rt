//! The setters of an object that conflict directly with one of them.

ghost use Rattle.std.specs.Prelude.{◌≡◌, ◌↔◌, ◌<◌, true, Some, Contains, IfOk, OnOk, slice_get};
ghost use Rattle.std.specs.Prelude.{length};
ghost use Rattle.std.specs.Prelude.{option_copied, IsTrue};
ghost use Rattle.gf_ops.specs.ConflictTests.{value_eq};
ghost use Rattle.gf_ops.specs.ValidHistory.{IsValid};
ghost use Rattle.gf_classes.specs.Setters.{AreSorted, IsKeyed, AreSetters, fingerprints};
ghost use Rattle.gf_classes.specs.SameValues.{IsIndex};
ghost use Rattle.gf_classes.specs.Rivals.{op_value, setter_value, are_one, have_one_value, AddsIf};
ghost use Rattle.gf_classes.specs.Rivals.{AreRivals};

use crate::ranges::near;
use crate::same_values::SameValues;
use crate::setters::Setter;
use gf_base::OutOfMemory;
use gf_maximal::Numbers;
use gf_ops::{Change, Op, Value};
use std::alloc::Global;

/// Whether two values are one value of one attribute.
fn value_eq(value: &Value, other: &Value) -> bool
    ensures { result ≡ value_eq value.now other.now }
{
    match (value, other) {
        (Value::Place(place), Value::Place(other)) => place == other,
        (Value::Points(points), Value::Points(other)) => points == other,
        (Value::Size(width, height), Value::Size(other_width, other_height)) => {
            width == other_width && height == other_height
        }
        (Value::Colour(colour), Value::Colour(other)) => colour == other,
        (Value::Layer(layer), Value::Layer(other)) => layer == other,
        (Value::Shown(shown), Value::Shown(other)) => shown == other,
        (Value::Place(_) | Value::Points(_) | Value::Size(_, _), _) => false,
        (Value::Colour(_) | Value::Layer(_) | Value::Shown(_), _) => false,
    }
}

/// The value that the operation sets, if it is there and makes no object.
fn op_value(op: Option<&Op>) -> Option<&Value>
    ensures { option_copied result ≡ op_value (option_copied op.entry) }
{
    match &op?.change {
        Change::Set { value, .. } => Some(value),
        Change::Create(_) => None,
    }
}

/// The value of the setter, if there is one.
fn setter_value<'a>(ops: &'a [Op], setter: Option<&Setter>) -> Option<&'a Value>
    ensures { option_copied result ≡ setter_value ops.now (option_copied setter.entry) }
{
    match setter {
        Some(setter) => op_value(ops.get(setter.position)),
        None => None,
    }
}

/// Whether both values are there, and are one.
fn are_one(value: Option<&Value>, other: Option<&Value>) -> bool
    ensures { result ≡ are_one (option_copied value.entry) (option_copied other.entry) }
{
    match (value, other) {
        (Some(value), Some(other)) => value_eq(value, other),
        _ => false,
    }
}

/// Whether two setters have one value.
fn have_one_value(ops: &[Op], setter: Option<&Setter>, other: Option<&Setter>) -> bool
    ensures { result ≡ have_one_value ops.now (option_copied setter.entry)
        (option_copied other.entry) }
{
    are_one(setter_value(ops, setter), setter_value(ops, other))
}

/// Whether the setter with the rank has the value of this one.
fn is_equal(ops: &[Op], setters: &[Setter], x: &Setter, rank: usize) -> bool
    ensures value { result
        ≡ have_one_value ops.now (slice_get setters.now rank) (Some x.now) }
    ensures bound { IsTrue result → rank < length setters.now }
{
    match setters.get(rank) {
        Some(setter) => have_one_value(ops, Some(setter), Some(x)),
        None => false,
    }
}

/// Adds the rank, if its setter has the value of this one.
fn add_equal(
    ops: &[Op],
    setters: &[Setter],
    x: &Setter,
    rank: usize,
    some: &mut Numbers,
) -> Result<(), OutOfMemory>
    ensures { OnOk result (AddsIf (have_one_value ops.now (slice_get setters.now rank)
        (Some x.now) ≡ true) rank some.old some.new) }
{
    // The length is below the greatest number, so each rank is.
    let _ = setters.len();
    if is_equal(ops, setters, x, rank) {
        some.join(rank)
    } else {
        Ok(())
    }
}

/// The ranks whose setters have the value of this one.
fn equal(
    alloc: Global,
    ops: &[Op],
    setters: &[Setter],
    x: &Setter,
    ranks: &Numbers,
) -> Result<Numbers, OutOfMemory>
    ensures { IfOk result (λ some. (n : _) → Contains some n ↔ (Contains ranks.now n
        × (have_one_value ops.now (slice_get setters.now n) (Some x.now) ≡ true))) }
{
    let all = ranks.to_vec(alloc)?;
    let mut some = Numbers::new(alloc);
    for rank in &all {
        add_equal(ops, setters, x, *rank, &mut some)?;
    }
    Ok(some)
}

/// The ranks of the setters that conflict directly with this one. Only lists of points are compared
/// in the history, and only with those that begin alike.
pub(crate) fn rivals(
    alloc: Global,
    ops: &[Op],
    setters: &[Setter],
    index: &SameValues,
    x: &Setter,
) -> Result<Numbers, OutOfMemory>
    requires sorted { AreSorted setters.now }
    requires keyed { IsKeyed x.now }
    ensures { IfOk result (λ found. (us : _) (o : _) → IsValid ops.now
        → AreSetters ops.now us o setters.now → IsIndex (fingerprints setters.now) index.now
        → Contains setters.now x.now → AreRivals ops.now setters.now x.now found) }
{
    let near = near(alloc, setters, x)?;
    let Some(same) = index.get(x.fingerprint) else {
        return Ok(near);
    };
    let may = near.common(alloc, same)?;
    let equal = equal(alloc, ops, setters, x, &may)?;
    near.without(alloc, &equal)
}
