//! The drawing of ranked versions.

ghost use Rattle.std.specs.Prelude.{◌≡◌, [], ◌⊎◌, ◌<◌, ◌≤◌, ◌↔◌, length, Err, IfOk, OnOk, IsTrue};
ghost use Rattle.std.specs.List.{enumerate_from, list_any};
ghost use Rattle.gf_ops.specs.ConflictTests.{colour_eq};
ghost use Rattle.gf_versions.specs.declared.ranking.TheConstants.{MOST_VERSIONS};
ghost use Rattle.gf_drawing.specs.CanonicalDrawing.{Fits, canonical_drawing, canonical_table};
ghost use Rattle.gf_drawing.specs.CanonicalDrawing.{colours_of, number_of};
ghost use Rattle.gf_drawing.specs.FaultWords.{fault_word};

use gf_base::OutOfMemory;
use gf_figures::{Drawing, Figure};
use gf_shape::{Rgb, Shape};
use gf_versions::{MOST_VERSIONS, Placed, Ranked};
use indexmap::IndexSet;
use std::alloc::Global;
use std::fmt;

/// The number of the first colour that a drawing adds.
const FIRST_NUMBER: u16 = 32;

/// The greatest number of colours that a drawing adds.
const MOST_COLOURS: usize = 512;

/// Why ranked versions have no drawing.
#[derive(Clone, Copy, Debug, PartialEq, Eq)]
pub enum CompileFault {
    /// More than 1,000 versions are visible.
    TooManyVersions,
    /// At most 1,000 versions are visible, and they have more than 512 distinct colours.
    TooManyColours,
    /// A growth of memory was refused.
    OutOfMemory,
}

impl fmt::Display for CompileFault {
    ghost use Rattle.std.specs.Prelude.{Some};

    ghost output = { λ f. Some (fault_word f) };

    fn fmt<W: fmt::Write>(&self, f: &mut fmt::Formatter<W>) -> fmt::Result {
        f.write_str(match self {
            CompileFault::TooManyVersions => "TooManyVersions",
            CompileFault::TooManyColours => "TooManyColours",
            CompileFault::OutOfMemory => "out of memory",
        })
    }
}

impl std::error::Error for CompileFault {}

impl From<OutOfMemory> for CompileFault {
    ghost use Rattle.gf_drawing.specs.declared.compiling.CompileFault.{CompileFault};

    ghost from_gives = { λ _ e. e ≡ CompileFault.OutOfMemory };

    fn from(_: OutOfMemory) -> CompileFault {
        CompileFault::OutOfMemory
    }
}

/// The drawing of the versions: the i-th from the top at depth i, counted from 0. The colours are
/// numbered from 32 as they are first seen from the top.
pub fn compile<S: Shape>(alloc: Global, ranked: Ranked<S>) -> Result<Drawing<S>, CompileFault>
    ensures drawing { IfOk result (λ drawing. drawing ≡ canonical_drawing ranked.items.items) }
    ensures fits { OnOk result (Fits ranked.items.items) }
    ensures versions { result ≡ Err CompileFault.TooManyVersions
        ↔ (MOST_VERSIONS < length ranked.items.items) }
    ensures colours { result ≡ Err CompileFault.TooManyColours
        → (length ranked.items.items ≤ MOST_VERSIONS)
        × (512 < length (colours_of ranked.items.items)) }
    ensures many { length ranked.items.items ≤ MOST_VERSIONS
        → 512 < length (colours_of ranked.items.items)
        → (result ≡ Err CompileFault.TooManyColours) ⊎ (result ≡ Err CompileFault.OutOfMemory) }
{
    if ranked.len() > MOST_VERSIONS {
        return Err(CompileFault::TooManyVersions);
    }
    let items = ranked.items;
    let colours = distinct_colours(alloc, &items)?;
    if colours.len() > MOST_COLOURS {
        return Err(CompileFault::TooManyColours);
    }
    let mut drawing = Drawing::new(alloc);
    add_colours(&mut drawing, &colours)?;
    add_figures(&mut drawing, &colours, items)?;
    Ok(drawing)
}

/// The distinct colours of the versions, as they are first seen from the top.
fn distinct_colours<S>(alloc: Global, items: &[Placed<S>]) -> Result<IndexSet<Rgb>, OutOfMemory>
    ensures { IfOk result (λ colours. colours.keys ≡ colours_of items.now) }
{
    let mut colours = IndexSet::new(alloc);
    for item in items {
        colours.insert(item.colour)?;
    }
    Ok(colours)
}

/// Numbers the colours from 32.
fn add_colours<S: Shape>(
    drawing: &mut Drawing<S>,
    colours: &IndexSet<Rgb>,
) -> Result<(), OutOfMemory>
    requires empty { drawing.old ≡ record { table = []; figures = [] } }
    requires few { length colours.now.keys ≤ 512 }
    ensures { OnOk result (drawing.new
        ≡ record { table = enumerate_from 32 colours.now.keys; figures = [] }) }
{
    for colour in colours.as_slice() {
        let number = FIRST_NUMBER + drawing.colours().len() as u16;
        drawing.add_colour(number, *colour)?;
    }
    Ok(())
}

/// Adds a figure for each version, from the top, by the number of its colour.
fn add_figures<S: Shape>(
    drawing: &mut Drawing<S>,
    colours: &IndexSet<Rgb>,
    items: Vec<Placed<S>>,
) -> Result<(), OutOfMemory>
    requires coloured { drawing.old ≡ record { table = canonical_table items.items; figures = [] } }
    requires colours { colours.now.keys ≡ colours_of items.items }
    requires fits { Fits items.items }
    ensures { OnOk result (drawing.new ≡ canonical_drawing items.items) }
{
    for item in items {
        drawing.add_figure(Figure {
            colour: number(colours, item.colour),
            shape: item.shape,
            depth: drawing.figures().len() as u16,
        })?;
    }
    Ok(())
}

/// The number of one of the colours.
fn number(colours: &IndexSet<Rgb>, colour: Rgb) -> u16
    requires few { length colours.now.keys ≤ 512 }
    requires there { IsTrue (list_any (colour_eq colour) colours.now.keys) }
    ensures { result ≡ number_of colours.now.keys colour }
{
    let Some(index) = colours.get_index_of(&colour) else {
        unreachable!();
    };
    FIRST_NUMBER + index as u16
}
