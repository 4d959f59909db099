//! The creations of the figures of a drawing.

ghost use Rattle.std.specs.Prelude.{◌≡◌, ℕ, IfOk, IfErr, IsTrue, OnOk, [], ◌∷◌, ◌++◌};
ghost use Rattle.gf_shape.specs.ShapeLaws.{IsLawful};
ghost use Rattle.gf_ops.specs.Limits.{is_colour};
ghost use Rattle.gf_ops.specs.OperationOrder.{IsSite};
ghost use Rattle.gf_figures.specs.DrawingColour.{figure_colour};
ghost use Rattle.gf_drawing.specs.CanonicalDrawing.{PaintsAsFig};
ghost use Rattle.gf_import.specs.CreationFaults.{RefusesCreations};
ghost use Rattle.gf_import.specs.CreationFaults.{made};
ghost use Rattle.gf_import.specs.Importing.{creations_of};
ghost use Rattle.gf_import.specs.Imported.{IsImportable, history_of};

use crate::CreationError;
use gf_base::OutOfMemory;
use gf_figures::{Drawing, Figure};
use gf_objects::{FigureFault, object_of, start_fault, start_of};
use gf_ops::Change;
use gf_shape::Outline;
use std::alloc::Global;

/// The greatest number of operations of a site.
const MOST_FIGURES: usize = 10_000;

/// A creation for each figure of a drawing, in file order.
pub fn creations(alloc: Global, drawing: &Drawing<Outline>) -> Result<Vec<Change>, CreationError>
    ensures creations { IfOk result (λ changes. changes.items ≡ creations_of drawing.now) }
    ensures importable { OnOk result (IsImportable drawing.now) }
    // The history that a site makes of the changes has at every point the colour of the drawing.
    ensures paints { (s : ℕ) → IsSite s → IfOk result (λ changes.
        PaintsAsFig (history_of s changes.items) drawing.now) }
    ensures refused { IfErr result (RefusesCreations drawing.now) }
{
    let figures = drawing.figures();
    if figures.len() > MOST_FIGURES {
        return Err(CreationError::TooManyFigures);
    }
    let mut changes = no_changes(alloc, figures.len())?;
    for figure in figures {
        match creation(alloc, drawing, figure)? {
            Ok(change) => push_change(&mut changes, change)?,
            Err(fault) => {
                let object = object_of(drawing, changes.len());
                return Err(CreationError::Figure(object, fault));
            }
        }
    }
    Ok(changes)
}

/// An empty list with memory for `n` changes.
fn no_changes(alloc: Global, n: usize) -> Result<Vec<Change>, OutOfMemory>
    ensures { IfOk result (λ changes. changes.items ≡ []) }
{
    let changes = Vec::with_capacity(alloc, n)?;
    Ok(changes)
}

/// Appends a change.
fn push_change(changes: &mut Vec<Change>, change: Change) -> Result<(), OutOfMemory>
    ensures { OnOk result (changes.new.items ≡ changes.old.items ++ change ∷ []) }
{
    changes.push(change)?;
    Ok(())
}

/// The creation of a figure, or the first limit that it breaks.
fn creation(
    alloc: Global,
    drawing: &Drawing<Outline>,
    figure: &Figure<Outline>,
) -> Result<Result<Change, FigureFault>, OutOfMemory>
    ensures made { IfOk result (λ creation. creation ≡ made drawing.now.table figure.now) }
    ensures lawful { OnOk result (IsLawful figure.now.shape) }
    ensures colour { OnOk result (IsTrue (is_colour
        (figure_colour drawing.now.table figure.now))) }
{
    let start = start_of(alloc, drawing, figure)?;
    Ok(match start_fault(&start) {
        None => Ok(Change::Create(start)),
        Some(fault) => Err(fault),
    })
}
