//! The FIG text of a drawing.

ghost use Rattle.std.specs.Prelude.{◌≡◌, ◌++◌, All, IfOk, OnOk, flat_map};
ghost use Rattle.gf_shape.specs.ShapeLaws.{IsLawful};
ghost use Rattle.gf_figures.specs.Outlined.{outlined};
ghost use Rattle.gf_fig_read.specs.FigGrammar.{Reads};
ghost use Rattle.gf_fig_write.specs.FigText.{fig_text, figure_lines};

use crate::colours::push_table;
use crate::outlines::push_outline;
use gf_base::OutOfMemory;
use gf_figures::{Drawing, Figure};
use gf_shape::Shape;
use std::alloc::Global;

/// The lines before the colours.
const HEADER: &[u8] = b"#FIG 3.2\nLandscape\nCenter\nMetric\nA4\n100.00\nSingle\n-2\n1200 2\n";

/// The FIG text of a drawing, in time linear in its length.
pub fn fig_bytes<S: Shape>(alloc: Global, drawing: &Drawing<S>) -> Result<Vec<u8>, OutOfMemory>
    ensures text { IfOk result (λ bytes. bytes.items ≡ fig_text S.outline drawing.now) }
    ensures reads { IfOk result (λ bytes. Reads bytes.items (outlined S.outline drawing.now)) }
{
    let mut out = Vec::from_slice(alloc, HEADER)?;
    push_table(&mut out, drawing.colours())?;
    push_figures(alloc, &mut out, drawing.figures())?;
    Ok(out)
}

/// Appends the lines of each figure.
fn push_figures<S: Shape>(
    alloc: Global,
    out: &mut Vec<u8>,
    figures: &[Figure<S>],
) -> Result<(), OutOfMemory>
    ensures text { OnOk result (out.new.items
        ≡ out.old.items ++ flat_map (figure_lines S.outline) figures.now) }
    ensures lawful { OnOk result (All (λ f. IsLawful (S.outline f.shape)) figures.now) }
{
    for figure in figures {
        push_figure(alloc, out, figure)?;
    }
    Ok(())
}

fn push_figure<S: Shape>(
    alloc: Global,
    out: &mut Vec<u8>,
    figure: &Figure<S>,
) -> Result<(), OutOfMemory>
    ensures text { OnOk result (out.new.items
        ≡ out.old.items ++ figure_lines S.outline figure.now) }
    ensures lawful { OnOk result (IsLawful (S.outline figure.now.shape)) }
{
    let outline = figure.shape.outline(alloc)?;
    push_outline(out, figure.colour, figure.depth, &outline)?;
    Ok(())
}
