//! What the named text of a history shows, as the contract of a function that does nothing.

ghost use Rattle.std.specs.Prelude.{List, length, ℕ};
ghost use Rattle.gf_shape.specs.Outlines.{any_outline};
ghost use Rattle.gf_ops.specs.ValidHistory.{IsValid};
ghost use Rattle.gf_ops.specs.declared.op.Op.{Op};
ghost use Rattle.gf_figures.specs.Outlined.{outlined};
ghost use Rattle.gf_drawing.specs.CanonicalDrawing.{canonical_drawing};
ghost use Rattle.gf_fig_read.specs.FigGrammar.{Reads};
ghost use Rattle.gf_fig_write.specs.ShownHistory.{Shows};
ghost use Rattle.gf_fig_named.specs.NamedText.{IsNamedText};
ghost use Rattle.gf_fig_named.specs.Raised.{named_depth, drawing_raised};

/// The named text of a valid history reads as the drawing of its outlines, at the depths of a named
/// text. Each drawing that it reads as has at every grid point the colour that the history means
/// there. The law speaks of no call and no memory.
pub fn the_named_text_of_a_history_shows_it()
    ensures reads { (h : List Op) (text : List ℕ) → IsValid h → (named : IsNamedText h text)
        → Reads text (outlined any_outline
        (drawing_raised (named_depth (length named.items)) (canonical_drawing named.items))) }
    ensures shows { (h : List Op) (text : List ℕ) → IsValid h → IsNamedText h text
        → Shows text h }
{}
