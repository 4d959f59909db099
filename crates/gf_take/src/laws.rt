//! The laws of what is taken, each the contract of a function that does nothing.

ghost use Rattle.std.specs.Prelude.{◌++◌, ℕ, All, List, length};
ghost use Rattle.gf_shape.specs.declared.any_shape.AnyShape.{AnyShape};
ghost use Rattle.gf_shape.specs.declared.outline.Outline.{Outline};
ghost use Rattle.gf_shape.specs.Outlines.{any_outline};
ghost use Rattle.gf_shape.specs.ShapeLaws.{IsLawful};
ghost use Rattle.gf_ops.specs.declared.op.Op.{Op};
ghost use Rattle.gf_ops.specs.declared.op.Clock.{Clock};
ghost use Rattle.gf_ops.specs.ValidHistory.{IsValid};
ghost use Rattle.gf_streams.specs.TextLines.{numbered_lines};
ghost use Rattle.gf_replay.specs.Denoting.{AreLinesOf, Delivers, Denotes};
ghost use Rattle.gf_figures.specs.DrawingState.{DrawingState};
ghost use Rattle.gf_figures.specs.Outlined.{outlined};
ghost use Rattle.gf_drawing.specs.CanonicalDrawing.{IsCanonical, PaintsAsFig, canonical_drawing};
ghost use Rattle.gf_fig_named.specs.NamedText.{IsNamedText};
ghost use Rattle.gf_fig_named.specs.Raised.{named_depth, drawing_raised};
ghost use Rattle.gf_take.specs.Bases.{IsBase, IsClosedPart, JoinsTake};
ghost use Rattle.gf_take.specs.ShownDrawing.{ShowsDrawing};

/// A history that shows a drawing has at every point the colour of the drawing.
pub fn what_shows_a_drawing_paints_it()
    ensures { (h : List Op) (d : DrawingState Outline)
        → All (λ f. IsLawful f.shape) d.figures → ShowsDrawing h d → PaintsAsFig h d }
{}

/// A valid history shows its own drawing, and what its named text reads as.
pub fn a_history_shows_its_own_drawing()
    ensures own { (h : List Op) (d : DrawingState AnyShape) → IsValid h → IsCanonical h d
        → ShowsDrawing h (outlined any_outline d) }
    ensures named { (h : List Op) (text : List ℕ) → IsValid h → (named : IsNamedText h text)
        → ShowsDrawing h (outlined any_outline
        (drawing_raised (named_depth (length named.items)) (canonical_drawing named.items))) }
{}

/// Operations of a valid history that have with each of them all that it knows are a valid
/// history. So is each base of a valid history.
pub fn what_a_base_knows_is_a_history()
    ensures part { (h b : List Op) → IsValid h → IsClosedPart h b → IsValid b }
    ensures base { (s : ℕ) (c : Clock) (h b : List Op) → IsValid h → IsBase s c h b → IsValid b }
{}

/// What was read and what a site made behind its base deliver the history that was read, with the
/// new operations behind it. The operations may come in any order and however often.
pub fn what_is_taken_joins_what_was_read()
    ensures operations { (s : ℕ) (c : Clock) (ops h b new all : List Op)
        → JoinsTake s c ops h b new all → Delivers all (h ++ new) }
    ensures lines { (s : ℕ) (c : Clock) (ops h b new all : List Op) (others : List ℕ)
        → JoinsTake s c ops h b new all → AreLinesOf (numbered_lines others) all
        → Denotes others (h ++ new) }
{}
