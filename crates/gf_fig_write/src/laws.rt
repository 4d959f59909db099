//! What the FIG text of a history shows, as the contract of a function that does nothing.

ghost use Rattle.std.specs.Prelude.{List};
ghost use Rattle.gf_shape.specs.declared.any_shape.AnyShape.{AnyShape};
ghost use Rattle.gf_shape.specs.Outlines.{any_outline};
ghost use Rattle.gf_ops.specs.ValidHistory.{IsValid};
ghost use Rattle.gf_ops.specs.declared.op.Op.{Op};
ghost use Rattle.gf_figures.specs.DrawingState.{DrawingState};
ghost use Rattle.gf_figures.specs.Outlined.{outlined};
ghost use Rattle.gf_drawing.specs.CanonicalDrawing.{IsCanonical};
ghost use Rattle.gf_fig_read.specs.FigGrammar.{Reads};
ghost use Rattle.gf_fig_write.specs.FigText.{fig_text};
ghost use Rattle.gf_fig_write.specs.ShownHistory.{Shows};

/// The FIG text of a valid history's canonical drawing reads as the drawing of its outlines. Each
/// drawing that it reads as has at every grid point the colour that the history means there. The
/// law speaks of no call and no memory.
pub fn the_text_of_a_history_shows_it()
    ensures reads { (h : List Op) (d : DrawingState AnyShape) → IsValid h → IsCanonical h d →
        Reads (fig_text any_outline d) (outlined any_outline d) }
    ensures shows { (h : List Op) (d : DrawingState AnyShape) → IsValid h → IsCanonical h d →
        Shows (fig_text any_outline d) h }
{}
