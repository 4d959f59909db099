//! The named text of a history.

ghost use Rattle.std.specs.Prelude.{◌≡◌, ◌⊎◌, ◌↔◌, ◌≤◌, ◌<◌, ◌++◌, All, IfOk, OnOk, Err, length};
ghost use Rattle.std.specs.Prelude.{flat_map, map, zip};
ghost use Rattle.gf_shape.specs.Outlines.{any_outline};
ghost use Rattle.gf_ops.specs.OperationOrder.{count_of};
ghost use Rattle.gf_versions.specs.declared.ranking.TheConstants.{MOST_VERSIONS};
ghost use Rattle.gf_versions.specs.Ranking.{AreRanked};
ghost use Rattle.gf_drawing.specs.CanonicalDrawing.{colours_of};
ghost use Rattle.gf_fig_write.specs.FigText.{figure_lines};
ghost use Rattle.gf_fig_named.specs.NamedText.{IsNamedText, first_lines, known_lines};
ghost use Rattle.gf_fig_named.specs.NamedText.{named_lines, named_text};
ghost use Rattle.gf_fig_named.specs.Raised.{figure_raised, named_depth, drawing_raised};

use crate::Name;
use crate::comments::{knows_comment, push_name};
use crate::naming::names_of;
use gf_base::OutOfMemory;
use gf_drawing::{CompileFault, compile};
use gf_fig_write::{push_outline, push_table};
use gf_figures::{Drawing, Figure};
use gf_ops::History;
use gf_shape::{AnyShape, Shape};
use gf_versions::{MOST_VERSIONS, Ranked};
use std::alloc::Global;

/// The lines before what is known.
const FIRST_LINES: &[u8] = b"#FIG 3.2\nLandscape\nCenter\nMetric\nA4\n100.00\nSingle\n-2\n";

/// The named text of a history with these visible versions. Each version looks for others of its
/// object, and its operations are compared with those of theirs that it lacks. Else the time is
/// linear in the length of the text and the number of their operations.
pub fn named_bytes(
    alloc: Global,
    history: &History,
    ranked: Ranked<AnyShape>,
) -> Result<Vec<u8>, CompileFault>
    requires { AreRanked history.now.ops ranked.items.items }
    ensures text { IfOk result (λ bytes. IsNamedText history.now.ops bytes.items) }
    ensures versions { result ≡ Err CompileFault.TooManyVersions
        ↔ (MOST_VERSIONS < length ranked.items.items) }
    ensures colours { result ≡ Err CompileFault.TooManyColours
        → (length ranked.items.items ≤ MOST_VERSIONS)
        × (512 < length (colours_of ranked.items.items)) }
    ensures many { length ranked.items.items ≤ MOST_VERSIONS
        → 512 < length (colours_of ranked.items.items)
        → (result ≡ Err CompileFault.TooManyColours) ⊎ (result ≡ Err CompileFault.OutOfMemory) }
{
    if ranked.len() > MOST_VERSIONS {
        return Err(CompileFault::TooManyVersions);
    }
    let names = names_of(alloc, history, &ranked.items)?;
    let drawing = compile(alloc, ranked)?;
    let bytes = text_of(alloc, history, &names, &drawing)?;
    Ok(bytes)
}

/// The text of a drawing with names for its figures, at the depths of a named text.
fn text_of(
    alloc: Global,
    history: &History,
    names: &[Name],
    drawing: &Drawing<AnyShape>,
) -> Result<Vec<u8>, OutOfMemory>
    requires { length names.now ≡ length drawing.now.figures }
    ensures { IfOk result (λ bytes. bytes.items ≡ named_text any_outline
        (count_of history.now.ops) names.now
        (drawing_raised (named_depth (length drawing.now.figures)) drawing.now)) }
{
    let knows = knows_comment(alloc, &history.clock())?;
    let mut out = Vec::from_slice(alloc, FIRST_LINES)?;
    out.extend_from_slice(&knows)?;
    out.extend_from_slice(b"\n1200 2\n")?;
    push_table(&mut out, drawing.colours())?;
    push_figures(alloc, &mut out, names, drawing.figures())?;
    Ok(out)
}

/// Appends each figure behind its name.
fn push_figures(
    alloc: Global,
    out: &mut Vec<u8>,
    names: &[Name],
    figures: &[Figure<AnyShape>],
) -> Result<(), OutOfMemory>
    requires long { length names.now ≡ length figures.now }
    requires lawful { All (λ f. f.depth < 1000) figures.now }
    ensures { OnOk result (out.new.items ≡ out.old.items ++ flat_map (named_lines any_outline)
        (zip names.now (map (figure_raised (named_depth (length figures.now))) figures.now))) }
{
    for index in 0..figures.len() {
        push_named(alloc, out, &names[index], &figures[index], figures.len())?;
    }
    Ok(())
}

/// Appends one of so many figures behind its name.
fn push_named(
    alloc: Global,
    out: &mut Vec<u8>,
    name: &Name,
    figure: &Figure<AnyShape>,
    count: usize,
) -> Result<(), OutOfMemory>
    requires { figure.now.depth < 1000 }
    ensures { OnOk result (out.new.items ≡ out.old.items ++ named_lines any_outline
        (name.now, figure_raised (named_depth count) figure.now)) }
{
    let depth = named_depth(count, figure.depth);
    let outline = figure.shape.outline(alloc)?;
    push_name(out, name, depth)?;
    push_outline(out, figure.colour, depth, &outline)?;
    Ok(())
}

/// The depth of a figure of a named text, which has so many.
fn named_depth(count: usize, depth: u16) -> u16
    requires { depth < 1000 }
    ensures { result ≡ named_depth count depth }
{
    if count <= 94 {
        60 + 10 * depth
    } else if count <= 940 {
        60 + depth
    } else {
        depth
    }
}
