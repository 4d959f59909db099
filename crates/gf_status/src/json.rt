//! The text of a status as JSON.

ghost use Rattle.std.specs.Prelude.{◌≡◌, ◌++◌, [], IfOk, OnOk, cond, flat_map, map, nat_le};
ghost use Rattle.serde_json.specs.View.{view};
ghost use Rattle.gf_status.specs.StatusJson.{difference_data, drawing_data, object_data};
ghost use Rattle.gf_status.specs.StatusJson.{object_json, site_data, site_json, status_json};
ghost use Rattle.gf_status.specs.StatusJson.{differences_data, is_clean, waiting_data};
ghost use Rattle.gf_status.specs.StatusJson.{waiting_json};
ghost use Rattle.gf_json.specs.Notations.{json_line};

use crate::counting::shown_in;
use crate::lines::{SITES, attribute_word};
use crate::{Difference, ObjectStatus, State};
use gf_base::OutOfMemory;
use gf_causal::waits_for;
use gf_json::{ids_data, name_data, push_line};
use gf_ops::{History, Op, OpId};
use serde_json::{Map, Value, put};
use std::alloc::{AllocError, Global};

/// The text of a status as JSON: of a history, of what waits behind it, of its objects, and whether
/// it is clean.
pub(crate) fn status_json(
    alloc: Global,
    history: &History,
    waiting: &[&Op],
    statuses: &[ObjectStatus],
    state: State,
) -> Result<Vec<u8>, OutOfMemory>
    ensures { IfOk result (λ text. text.items
        ≡ status_json history.now.ops (map (λ a. a.now) waiting.now) statuses.now state) }
{
    let mut out = Vec::new(alloc);
    push_sites(&mut out, alloc, history, &SITES)?;
    push_waiting(&mut out, alloc, history, waiting)?;
    push_objects(&mut out, alloc, statuses)?;
    push_drawing(&mut out, alloc, shown_in(statuses), state)?;
    Ok(out)
}

/// Appends a line for each of the sites that has operations.
fn push_sites(
    out: &mut Vec<u8>,
    alloc: Global,
    history: &History,
    sites: &[u8],
) -> Result<(), AllocError>
    ensures { OnOk result (out.new.items
        ≡ out.old.items ++ flat_map (site_json history.now.ops) sites.now) }
{
    for site in sites {
        push_site(out, alloc, *site, history.count(*site))?;
    }
    Ok(())
}

/// Appends the line of a site with this many operations, if it has some.
fn push_site(out: &mut Vec<u8>, alloc: Global, site: u8, count: u32) -> Result<(), AllocError>
    ensures { OnOk result (out.new.items
        ≡ out.old.items ++ cond (nat_le 1 count) (json_line (site_data site count)) []) }
{
    if 1 <= count {
        push_line(out, alloc, &site_data(alloc, site, count)?)?;
    }
    Ok(())
}

fn site_data(alloc: Global, site: u8, count: u32) -> Result<Value, AllocError>
    ensures { IfOk result (λ v. view v ≡ site_data site count) }
{
    let mut members = Map::new(alloc);
    put(&mut members, alloc, "operations", Value::from(count))?;
    put(&mut members, alloc, "site", Value::from(site))?;
    Ok(Value::Object(members))
}

/// Appends a line for each operation that waits.
fn push_waiting(
    out: &mut Vec<u8>,
    alloc: Global,
    history: &History,
    waiting: &[&Op],
) -> Result<(), AllocError>
    ensures { OnOk result (out.new.items ≡ out.old.items
        ++ flat_map (waiting_json history.now.ops) (map (λ a. a.now) waiting.now)) }
{
    for op in waiting {
        push_line(
            out,
            alloc,
            &waiting_data(alloc, op.id, waits_for(history, op))?,
        )?;
    }
    Ok(())
}

fn waiting_data(alloc: Global, id: OpId, missing: OpId) -> Result<Value, AllocError>
    ensures { IfOk result (λ v. view v ≡ waiting_data id missing) }
{
    let mut members = Map::new(alloc);
    put(&mut members, alloc, "operation", name_data(alloc, id)?)?;
    put(&mut members, alloc, "waits_for", name_data(alloc, missing)?)?;
    Ok(Value::Object(members))
}

/// Appends a line for each object.
fn push_objects(
    out: &mut Vec<u8>,
    alloc: Global,
    statuses: &[ObjectStatus],
) -> Result<(), AllocError>
    ensures { OnOk result (out.new.items
        ≡ out.old.items ++ flat_map object_json statuses.now) }
{
    for status in statuses {
        push_object(out, alloc, status)?;
    }
    Ok(())
}

/// Appends the line of an object.
fn push_object(out: &mut Vec<u8>, alloc: Global, status: &ObjectStatus) -> Result<(), AllocError>
    ensures { OnOk result (out.new.items ≡ out.old.items ++ object_json status.now) }
{
    push_line(out, alloc, &object_data(alloc, status)?)
}

fn object_data(alloc: Global, status: &ObjectStatus) -> Result<Value, AllocError>
    ensures { IfOk result (λ v. view v ≡ object_data status.now) }
{
    let mut members = Map::new(alloc);
    put(
        &mut members,
        alloc,
        "differences",
        differences_data(alloc, &status.differences)?,
    )?;
    put(
        &mut members,
        alloc,
        "hidings",
        ids_data(alloc, &status.hidings)?,
    )?;
    put(
        &mut members,
        alloc,
        "object",
        name_data(alloc, status.object.0)?,
    )?;
    put(&mut members, alloc, "shown", Value::from(status.shown))?;
    put(
        &mut members,
        alloc,
        "unseen",
        ids_data(alloc, &status.changed)?,
    )?;
    put(
        &mut members,
        alloc,
        "versions",
        Value::from(status.versions),
    )?;
    Ok(Value::Object(members))
}

fn differences_data(alloc: Global, differences: &[Difference]) -> Result<Value, AllocError>
    ensures { IfOk result (λ v. view v ≡ differences_data differences.now) }
{
    let values = difference_values(alloc, differences)?;
    Ok(Value::Array(values))
}

fn difference_values(alloc: Global, differences: &[Difference]) -> Result<Vec<Value>, AllocError>
    ensures { IfOk result (λ vs. map view vs.items ≡ map difference_data differences.now) }
{
    let mut values = Vec::new(alloc);
    for difference in differences {
        values.push(difference_data(alloc, difference)?)?;
    }
    Ok(values)
}

fn difference_data(alloc: Global, difference: &Difference) -> Result<Value, AllocError>
    ensures { IfOk result (λ v. view v ≡ difference_data difference.now) }
{
    let word = Value::try_from_str(alloc, attribute_word(difference.attribute))?;
    let mut members = Map::new(alloc);
    put(&mut members, alloc, "attribute", word)?;
    put(
        &mut members,
        alloc,
        "operations",
        ids_data(alloc, &difference.givers)?,
    )?;
    Ok(Value::Object(members))
}

/// Appends how many versions are shown in all, and whether the status is clean.
fn push_drawing(
    out: &mut Vec<u8>,
    alloc: Global,
    shown: usize,
    state: State,
) -> Result<(), AllocError>
    ensures { OnOk result (out.new.items ≡ out.old.items ++ json_line (drawing_data shown state)) }
{
    push_line(out, alloc, &drawing_data(alloc, shown, state)?)
}

fn drawing_data(alloc: Global, shown: usize, state: State) -> Result<Value, AllocError>
    ensures { IfOk result (λ v. view v ≡ drawing_data shown state) }
{
    let mut members = Map::new(alloc);
    put(&mut members, alloc, "clean", Value::from(is_clean(state)))?;
    put(&mut members, alloc, "shown", Value::from(shown))?;
    Ok(Value::Object(members))
}

fn is_clean(state: State) -> bool
    ensures { result ≡ is_clean state }
{
    match state {
        State::Clean => true,
        State::Open => false,
    }
}
