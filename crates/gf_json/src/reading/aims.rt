//! The ids that an operation aims at: every element is checked before any memory is taken.

ghost use Rattle.std.specs.Prelude.{◌≡◌, ◌⊎◌, All, Some, None, Err, IfOk, map, option_map};
ghost use Rattle.std.specs.Prelude.{option_and_then};
ghost use Rattle.std.specs.Option.{ok_or};
ghost use Rattle.std.specs.List.{list_all};
ghost use Rattle.serde_json.specs.View.{view, items_view};
ghost use Rattle.gf_ops.specs.Limits.{is_aim, is_id};
ghost use Rattle.gf_json.specs.LineForms as form;
ghost use Rattle.gf_json.specs.ReadLists.{ids_of, next_behind, rising_behind};
ghost use Rattle.gf_json.specs.Limited.{limited, IsKept};

use crate::LineError;
use crate::reading::values::{elements, name, numbers};
use gf_ops::{Ids, OpId};
use serde_json::Value;
use std::alloc::{AllocError, Global};

/// The ids of an aim.
pub(crate) fn ids(alloc: Global, value: Option<&Value>) -> Result<Option<Ids>, LineError>
    ensures { (result ≡ Err LineError.OutOfMemory)
        ⊎ (result ≡ limited is_aim
        (option_and_then form.ids (option_map (λ v. view v.now) value.entry))) }
{
    match elements(value) {
        Some(values) => ids_of(alloc, values),
        None => Err(LineError::Field),
    }
}

/// The ids of the elements of an array.
fn ids_of(alloc: Global, values: &[Value]) -> Result<Option<Ids>, LineError>
    ensures { (result ≡ Err LineError.OutOfMemory)
        ⊎ (result ≡ limited is_aim (ids_of (form.elements (items_view values.now)))) }
{
    if !is_aim(values)? {
        return Ok(None);
    }
    match names(alloc, values) {
        Ok(ids) => Ok(Some(Ids::new(ids))),
        Err(AllocError) => Err(LineError::OutOfMemory),
    }
}

/// Whether the values, which have to be names that rise, each once, keep the limits of an aim.
fn is_aim(values: &[Value]) -> Result<bool, LineError>
    ensures { result ≡ ok_or (option_map is_aim (ids_of (form.elements (items_view values.now))))
        LineError.Field }
{
    if !are_rising(values) {
        return Err(LineError::Field);
    }
    if 1_000 < values.len() {
        return Ok(false);
    }
    are_ids(values)
}

/// Whether each value is a pair of whole numbers, and the pairs rise, each once.
fn are_rising(values: &[Value]) -> bool
    ensures { result ≡ rising_behind None
        (form.each (form.pair form.whole) (form.elements (items_view values.now))) }
{
    let mut last = None;
    for value in values {
        match next_behind(last, value) {
            Some(next) => last = Some(next),
            None => return false,
        }
    }
    true
}

/// The two whole numbers of a value, if they come after the last pair.
fn next_behind(last: Option<(i64, i64)>, value: &Value) -> Option<(i64, i64)>
    ensures { result ≡ next_behind last (form.pair form.whole (view value.now)) }
{
    let next = numbers(Some(value))?;
    match last {
        Some(last) => { if last < next { Some(next) } else { None } }
        None => Some(next),
    }
}

/// Whether each value, which has to be a name, keeps the limits.
fn are_ids(values: &[Value]) -> Result<bool, LineError>
    ensures { result ≡ ok_or (option_map (list_all is_id)
        (form.each form.name (form.elements (items_view values.now)))) LineError.Field }
{
    let mut within = true;
    for value in values {
        let id = name(Some(value))?;
        within = within && id.is_some();
    }
    Ok(within)
}

/// The ids that the values name.
fn names(alloc: Global, values: &[Value]) -> Result<Vec<OpId>, AllocError>
    requires { All (λ v. IsKept is_id (form.name (view v))) values.now }
    ensures { IfOk result (λ is. map (λ v. form.name (view v)) values.now ≡ map Some is.items) }
{
    let mut ids = Vec::new(alloc);
    for value in values {
        ids.push(named(value))?;
    }
    Ok(ids)
}

/// The id that a value names.
fn named(value: &Value) -> OpId
    requires { IsKept is_id (form.name (view value.now)) }
    ensures { form.name (view value.now) ≡ Some result }
{
    let Ok(Some(id)) = name(Some(value)) else {
        unreachable!();
    };
    id
}
