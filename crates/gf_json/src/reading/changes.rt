//! The change that a line denotes.

ghost use Rattle.std.specs.Prelude.{◌≡◌, ◌≤◌, ◌⊎◌, ◌&&◌, [], Err, codes, option_map};
ghost use Rattle.serde_json.specs.View.{view};
ghost use Rattle.serde_json.specs.Find.{as_bool};
ghost use Rattle.gf_ops.specs.Limits.{is_change, is_colour, is_form, is_layer, is_value};
ghost use Rattle.gf_ops.specs.declared.change.Value.TheVariants as attribute;
ghost use Rattle.gf_json.specs.LineForms as form;
ghost use Rattle.gf_json.specs.LineForms.{◌&◌};
ghost use Rattle.gf_json.specs.LineChanges.{at, creation, named_value, setting};
ghost use Rattle.gf_json.specs.ReadLines.{named_form, read_change};
ghost use Rattle.gf_json.specs.Limited.{limited};

use crate::LineError;
use crate::reading::aims::ids;
use crate::reading::keys::{is_word, tells, word_at};
use crate::reading::points::points;
use crate::reading::values::{hex_colour, level, name, point, radius, size, truth};
use gf_ops::{Change, Form, Ids, ObjectId, OpId, Start};
use gf_plane::{Point, Rgb};
use serde_json::Value;
use std::alloc::Global;

/// The change of a line with its verb at this key, and this many keys beside those of the change.
/// The number of keys and the words show which line it is. A missing key is a fault of form where
/// it is read.
#[tactic(auto, unfolding(crate::specs::ReadLines::read_change))]
pub(crate) fn change(
    alloc: Global,
    line: &Value,
    verb: &str,
    beside: usize,
) -> Result<Option<Change>, LineError>
    requires { beside ≤ 3 }
    ensures { (result ≡ Err LineError.OutOfMemory)
        ⊎ (result ≡ limited is_change (read_change verb.now beside (view line.now))) }
{
    if tells(line, beside + 6, verb, "create") {
        created(alloc, line)
    } else if tells(line, beside + 3, verb, "set") {
        set(alloc, line)
    } else if tells(line, beside + 4, verb, "set") {
        aimed_set(alloc, line)
    } else {
        Err(LineError::Field)
    }
}

/// The change that creates an object of the kind that the line names.
fn created(alloc: Global, line: &Value) -> Result<Option<Change>, LineError>
    ensures { (result ≡ Err LineError.OutOfMemory)
        ⊎ (result ≡ limited is_change (creation (named_form (view line.now)) (view line.now))) }
{
    let place = point(line.get("place"))?;
    let look = look(line)?;
    let form = named_form(alloc, line)?;
    Ok(creation(form, place, look))
}

/// The change that creates an object of these parts.
fn creation(
    form: Option<Form>,
    place: Option<Point>,
    look: Option<(Rgb, (u16, bool))>,
) -> Option<Change>
    ensures { result ≡ option_map (λ (f, (p, (c, (l, s)))). Change.Create
        (record { form = f; place = p; colour = c; layer = l; shown = s })) (form & place & look) }
{
    let (colour, (layer, shown)) = look?;
    Some(Change::Create(Start {
        form: form?,
        place: place?,
        colour,
        layer,
        shown,
    }))
}

/// The colour and the layer of a new object, and whether it is shown.
fn look(line: &Value) -> Result<Option<(Rgb, (u16, bool))>, LineError>
    ensures { result ≡ limited (λ l. is_colour l.0 && is_layer l.1.0)
        (at (codes "colour") form.hex_colour (view line.now)
        & at (codes "layer") form.natural (view line.now)
        & at (codes "shown") as_bool (view line.now)) }
{
    let Some(colour) = hex_colour(line.get("colour")) else {
        return Err(LineError::Field);
    };
    let layer = level(line.get("layer"))?;
    let Some(shown) = truth(line.get("shown")) else {
        return Err(LineError::Field);
    };
    match layer {
        Some(layer) => Ok(Some((colour, (layer, shown)))),
        None => Ok(None),
    }
}

/// The form of the kind that the line names.
#[tactic(auto, unfolding(crate::specs::ReadLines::named_form))]
fn named_form(alloc: Global, line: &Value) -> Result<Option<Form>, LineError>
    ensures { (result ≡ Err LineError.OutOfMemory)
        ⊎ (result ≡ limited is_form (named_form (view line.now))) }
{
    let kind = word_at(line, "kind");
    if is_word(kind, "box") {
        rect(line)
    } else if is_word(kind, "circle") {
        circle(line)
    } else if is_word(kind, "ellipse") {
        ellipse(line)
    } else if is_word(kind, "polygon") {
        polygon(alloc, line)
    } else {
        Err(LineError::Field)
    }
}

/// The form of a box.
fn rect(line: &Value) -> Result<Option<Form>, LineError>
    ensures { result ≡ limited is_form
        (option_map (λ p. Form.Rect p.0 p.1)
        (at (codes "size") (form.pair form.natural) (view line.now))) }
{
    match size(line.get("size"))? {
        Some((width, height)) => Ok(Some(Form::Rect(width, height))),
        None => Ok(None),
    }
}

/// The form of a circle.
fn circle(line: &Value) -> Result<Option<Form>, LineError>
    ensures { result ≡ limited is_form
        (option_map Form.Circle (at (codes "size") form.radius (view line.now))) }
{
    Ok(radius(line.get("size"))?.map(Form::Circle))
}

/// The form of an ellipse.
fn ellipse(line: &Value) -> Result<Option<Form>, LineError>
    ensures { result ≡ limited is_form
        (option_map (λ p. Form.Ellipse p.0 p.1)
        (at (codes "size") (form.pair form.natural) (view line.now))) }
{
    match size(line.get("size"))? {
        Some((rx, ry)) => Ok(Some(Form::Ellipse(rx, ry))),
        None => Ok(None),
    }
}

/// The form of a polygon.
fn polygon(alloc: Global, line: &Value) -> Result<Option<Form>, LineError>
    ensures { (result ≡ Err LineError.OutOfMemory)
        ⊎ (result ≡ limited is_form
        (option_map Form.Polygon (at (codes "points") (form.all form.point) (view line.now)))) }
{
    Ok(points(alloc, line.get("points"))?.map(Form::Polygon))
}

/// The change that sets an attribute, and aims at no operation.
fn set(alloc: Global, line: &Value) -> Result<Option<Change>, LineError>
    ensures { (result ≡ Err LineError.OutOfMemory)
        ⊎ (result ≡ limited is_change (setting (Some []) (view line.now))) }
{
    let object = name(line.get("object"))?;
    let value = new_value(alloc, line)?;
    Ok(setting(object, value, Some(Ids::new(Vec::new(alloc)))))
}

/// The change that sets an attribute, and aims at the operations that the line names.
fn aimed_set(alloc: Global, line: &Value) -> Result<Option<Change>, LineError>
    ensures { (result ≡ Err LineError.OutOfMemory)
        ⊎ (result ≡ limited is_change
        (setting (at (codes "aim") form.ids (view line.now)) (view line.now))) }
{
    let object = name(line.get("object"))?;
    let aim = ids(alloc, line.get("aim"))?;
    let value = new_value(alloc, line)?;
    Ok(setting(object, value, aim))
}

/// The change that sets an attribute of this object to this value, aimed at these operations.
fn setting(object: Option<OpId>, value: Option<gf_ops::Value>, aim: Option<Ids>) -> Option<Change>
    ensures { result ≡ option_map (λ (o, (v, ids)). Change.Set (record { 0 = o }) v ids)
        (object & value & aim) }
{
    Some(Change::Set {
        object: ObjectId(object?),
        value: value?,
        aim: aim?,
    })
}

/// The value that the attribute is set to.
fn new_value(alloc: Global, line: &Value) -> Result<Option<gf_ops::Value>, LineError>
    ensures { (result ≡ Err LineError.OutOfMemory)
        ⊎ (result ≡ limited is_value
        (at (codes "to") (named_value (view line.now)) (view line.now))) }
{
    match line.get("to") {
        Some(value) => named_value(alloc, line, value),
        None => Err(LineError::Field),
    }
}

/// The value in the form of the attribute that the line names.
fn named_value(
    alloc: Global,
    line: &Value,
    value: &Value,
) -> Result<Option<gf_ops::Value>, LineError>
    ensures { (result ≡ Err LineError.OutOfMemory)
        ⊎ (result ≡ limited is_value (named_value (view line.now) (view value.now))) }
{
    let name = word_at(line, "set");
    if is_word(name, "place") {
        Ok(point(Some(value))?.map(gf_ops::Value::Place))
    } else if is_word(name, "points") {
        Ok(points(alloc, Some(value))?.map(gf_ops::Value::Points))
    } else if is_word(name, "size") {
        size_value(value)
    } else if is_word(name, "colour") {
        colour_value(value)
    } else if is_word(name, "layer") {
        Ok(level(Some(value))?.map(gf_ops::Value::Layer))
    } else if is_word(name, "shown") {
        shown_value(value)
    } else {
        Err(LineError::Field)
    }
}

/// A size as a value.
fn size_value(value: &Value) -> Result<Option<gf_ops::Value>, LineError>
    ensures { result ≡ limited is_value
        (option_map (λ s. attribute.Size s.0 s.1) (form.pair form.natural (view value.now))) }
{
    match size(Some(value))? {
        Some((width, height)) => Ok(Some(gf_ops::Value::Size(width, height))),
        None => Ok(None),
    }
}

/// A colour as a value.
fn colour_value(value: &Value) -> Result<Option<gf_ops::Value>, LineError>
    ensures { result ≡ limited is_value
        (option_map attribute.Colour (form.hex_colour (view value.now))) }
{
    match hex_colour(Some(value)) {
        Some(colour) => Ok(Some(gf_ops::Value::Colour(colour))),
        None => Err(LineError::Field),
    }
}

/// Whether an object is shown, as a value.
fn shown_value(value: &Value) -> Result<Option<gf_ops::Value>, LineError>
    ensures { result ≡ limited is_value (option_map attribute.Shown (as_bool (view value.now))) }
{
    match truth(Some(value)) {
        Some(shown) => Ok(Some(gf_ops::Value::Shown(shown))),
        None => Err(LineError::Field),
    }
}
