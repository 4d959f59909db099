//! The law of compiled drawings, the contract of a function that does nothing.

ghost use Rattle.std.specs.Prelude.{List};
ghost use Rattle.gf_shape.specs.declared.any_shape.AnyShape.{AnyShape};
ghost use Rattle.gf_shape.specs.Outlines.{any_outline};
ghost use Rattle.gf_ops.specs.declared.op.Op.{Op};
ghost use Rattle.gf_figures.specs.DrawingState.{DrawingState};
ghost use Rattle.gf_figures.specs.Outlined.{outlined};
ghost use Rattle.gf_drawing.specs.CanonicalDrawing.{IsCanonical, Paints, PaintsAsFig};

/// The canonical drawing of a history has at every point the colour that the history means there.
/// The same holds where each shape is drawn by its outline.
pub fn the_canonical_drawing_paints_the_history()
    ensures shapes { (h : List Op) (d : DrawingState AnyShape) → IsCanonical h d → Paints h d }
    ensures outlines { (h : List Op) (d : DrawingState AnyShape) → IsCanonical h d
        → PaintsAsFig h (outlined any_outline d) }
{}
