//! The laws of runs, each the contract of a function that does nothing.

ghost use Rattle.std.specs.Prelude.{◌≡◌, ℕ, List, []};
ghost use Rattle.gf_shape.specs.declared.any_shape.AnyShape.{AnyShape};
ghost use Rattle.gf_shape.specs.Outlines.{any_outline};
ghost use Rattle.gf_ops.specs.declared.faults.OpFault.{OpFault};
ghost use Rattle.gf_ops.specs.declared.op.Op.{Op};
ghost use Rattle.gf_ops.specs.declared.op.OpId.{OpId};
ghost use Rattle.gf_causal.specs.DeliveredPart.{HaveSame};
ghost use Rattle.gf_figures.specs.DrawingState.{DrawingState};
ghost use Rattle.gf_figures.specs.Outlined.{outlined};
ghost use Rattle.gf_drawing.specs.CanonicalDrawing.{IsCanonical};
ghost use Rattle.gf_drawing.specs.declared.compiling.CompileFault.{CompileFault};
ghost use Rattle.gf_replay.specs.declared.reading_error.LineCause.{LineCause};
ghost use Rattle.gf_fig_read.specs.FigGrammar.{Fails, Reads};
ghost use Rattle.gf_fig_tokens.specs.declared.faults.FigFault.{FigFault};
ghost use Rattle.gf_fig_write.specs.FigText.{fig_text};
ghost use Rattle.gf_fig_write.specs.ShownHistory.{Shows};
ghost use Rattle.gf_scanline.specs.Frames.{Sides};
ghost use Rattle.gf_scanline.specs.Windows.{View};
ghost use Rattle.gf_studio.specs.PaintRun.{PictureOf, RepaintOf};
ghost use Rattle.gf_studio.specs.PictureRun.{FitsLines, FitsText};
ghost use Rattle.gf_replay.specs.Denoting.{Denotes, HaveSameOperations};
ghost use Rattle.gf_replay.specs.Refusing.{Drops, HasFault};
ghost use Rattle.gf_studio.specs.FigRun.{Draws, IsFigOf, RefusesCompiling};

/// The FIG text of the canonical drawing of what lines denote reads as the drawing of its outlines.
/// Each drawing that it reads as has at every grid point the colour that the history means there.
/// The law speaks of no run and no memory.
pub fn the_text_of_what_lines_denote_shows_it()
    ensures reads { (bytes : List ℕ) (h : List Op) (d : DrawingState AnyShape) → Denotes bytes h →
        IsCanonical h d → Reads (fig_text any_outline d) (outlined any_outline d) }
    ensures shows { (bytes : List ℕ) (h : List Op) (d : DrawingState AnyShape) → Denotes bytes h →
        IsCanonical h d → Shows (fig_text any_outline d) h }
{}

/// An input that denotes a history has no line at fault and drops no operation. Where the history
/// has a drawing, the input is refused neither for its versions nor for its colours.
pub fn what_denotes_a_history_is_not_refused()
    ensures line { (bytes : List ℕ) (h : List Op) → Denotes bytes h → (n : ℕ) (cause : LineCause) →
        ¬ (HasFault [] bytes n cause) }
    ensures dropped { (bytes : List ℕ) (h : List Op) → Denotes bytes h →
        (id : OpId) (fault : OpFault) → ¬ (Drops [] bytes id fault) }
    ensures compile { (bytes : List ℕ) (drawing : DrawingState AnyShape) → Draws bytes drawing →
        (fault : CompileFault) → ¬ (RefusesCompiling bytes fault) }
{}

/// Inputs with the same operations, in any order and however often, denote the same histories with
/// at most one drawing. So runs that succeed with them write one FIG text, and one picture in a
/// window. Where one run succeeds, no other is refused for a line, an operation or its drawing.
pub fn the_same_operations_draw_alike()
    ensures denotes { (bytes others : List ℕ) → HaveSameOperations bytes others → (h : List Op) →
        Denotes bytes h → Denotes others h }
    ensures drawing { (bytes others : List ℕ) → HaveSameOperations bytes others →
        (drawing other : DrawingState AnyShape) → Draws bytes drawing → Draws others other →
        drawing ≡ other }
    ensures text { (bytes others : List ℕ) → HaveSameOperations bytes others →
        (text other : List ℕ) → IsFigOf bytes text → IsFigOf others other → text ≡ other }
    ensures picture { (bytes others : List ℕ) → HaveSameOperations bytes others → (w : View)
        (text other : List ℕ) → PictureOf bytes w text → PictureOf others w other → text ≡ other }
{}

/// Inputs that denote histories of the same operations have one drawing, whatever else waits in
/// them. What the one draws, the other draws, and no other drawing. So runs that succeed with them
/// write one FIG text, and one picture in a window.
pub fn the_same_histories_draw_alike()
    ensures drawing { (bytes others : List ℕ) (h k : List Op) → Denotes bytes h → Denotes others k →
        HaveSame h k → (drawing other : DrawingState AnyShape) → Draws bytes drawing →
        Draws others other → drawing ≡ other }
    ensures draws { (bytes others : List ℕ) (h k : List Op) → Denotes bytes h → Denotes others k →
        HaveSame h k → (drawing : DrawingState AnyShape) → Draws bytes drawing →
        Draws others drawing }
    ensures text { (bytes others : List ℕ) (h k : List Op) → Denotes bytes h → Denotes others k →
        HaveSame h k → (text other : List ℕ) → IsFigOf bytes text → IsFigOf others other →
        text ≡ other }
    ensures picture { (bytes others : List ℕ) (h k : List Op) → Denotes bytes h → Denotes others k →
        HaveSame h k → (w : View) (text other : List ℕ) → PictureOf bytes w text →
        PictureOf others w other → text ≡ other }
{}

/// The FIG text of an input is no text at fault. Repainted in a window, it gives the picture of the
/// input painted in this window.
pub fn a_text_is_repainted_as_its_history_is_painted()
    ensures not_refused { (bytes fig : List ℕ) → IsFigOf bytes fig → (fault : FigFault) (n : ℕ) →
        ¬ (Fails fig fault n) }
    ensures picture { (bytes fig : List ℕ) → IsFigOf bytes fig → (w : View) (text other : List ℕ) →
        PictureOf bytes w text → RepaintOf fig w other → text ≡ other }
{}

/// Inputs with the same operations, in whatever order and however often, fit in one window, and
/// have one picture there.
pub fn the_same_operations_fit_alike()
    ensures window { (bytes others : List ℕ) → HaveSameOperations bytes others →
        (frame : Sides) (v w : View) → FitsLines bytes frame v → FitsLines others frame w → v ≡ w }
    ensures picture { (bytes others : List ℕ) → HaveSameOperations bytes others →
        (frame : Sides) (v w : View) → FitsLines bytes frame v → FitsLines others frame w →
        (text other : List ℕ) → PictureOf bytes v text → PictureOf others w other → text ≡ other }
{}

/// The FIG text of an input fits in the window in which the input does. It is repainted there as
/// the input is painted.
pub fn a_text_fits_as_its_history_does()
    ensures window { (bytes fig : List ℕ) → IsFigOf bytes fig → (frame : Sides) (v w : View) →
        FitsLines bytes frame v → FitsText fig frame w → v ≡ w }
    ensures picture { (bytes fig : List ℕ) → IsFigOf bytes fig → (frame : Sides) (v w : View) →
        FitsLines bytes frame v → FitsText fig frame w → (text other : List ℕ) →
        PictureOf bytes v text → RepaintOf fig w other → text ≡ other }
{}
