//! The laws of imported drawings, each the contract of a function that does nothing.

ghost use Rattle.std.specs.Prelude.{◌≡◌, ℕ, List};
ghost use Rattle.gf_shape.specs.declared.any_shape.AnyShape.{AnyShape};
ghost use Rattle.gf_shape.specs.declared.outline.Outline.{Outline};
ghost use Rattle.gf_shape.specs.Outlines.{any_outline};
ghost use Rattle.gf_ops.specs.declared.change.Change.{Change};
ghost use Rattle.gf_ops.specs.declared.op.Op.{Op};
ghost use Rattle.gf_ops.specs.OperationOrder.{IsSite};
ghost use Rattle.gf_ops.specs.ValidHistory.{IsValid};
ghost use Rattle.gf_site.specs.SiteState.{SiteState, new_site};
ghost use Rattle.gf_figures.specs.DrawingState.{DrawingState};
ghost use Rattle.gf_figures.specs.Outlined.{outlined};
ghost use Rattle.gf_drawing.specs.CanonicalDrawing.{IsCanonical, PaintsAsFig};
ghost use Rattle.gf_fig_read.specs.FigGrammar.{Reads};
ghost use Rattle.gf_fig_write.specs.FigText.{fig_text};
ghost use Rattle.gf_run.specs.declared.studio_error.StudioError.{StudioError};
ghost use Rattle.gf_import.specs.declared.import_error.ImportError.{ImportError};
ghost use Rattle.gf_import.specs.CommandLines.{DenotesChanges};
ghost use Rattle.gf_import.specs.ImportRun.{Imports, RefusesImport};
ghost use Rattle.gf_import.specs.Imported.{AuthorsAll, IsImportable, history_of};
ghost use Rattle.gf_import.specs.Importing.{creations_of};

/// The creations of the figures of a drawing, made by one site in their order, are a valid history.
/// It has at every point the colour of the drawing. A new site can make them, and has then just
/// this history.
pub fn the_creations_paint_the_drawing()
    ensures valid { (s : ℕ) (d : DrawingState Outline) → IsSite s → IsImportable d
        → IsValid (history_of s (creations_of d)) }
    ensures colours { (s : ℕ) (d : DrawingState Outline) → IsSite s → IsImportable d
        → PaintsAsFig (history_of s (creations_of d)) d }
    ensures authored { (s : ℕ) (d : DrawingState Outline) → IsSite s → IsImportable d
        → AuthorsAll (new_site s) (creations_of d)
        (record (new_site s) { ops = history_of s (creations_of d) }) }
    ensures only { (s : ℕ) (changes : List Change) (x : SiteState)
        → AuthorsAll (new_site s) changes x → x.ops ≡ history_of s changes }
{}

/// The changes whose commands an import writes, made by their site in their order, are a valid
/// history. It has at every point the colour of the drawing that the FIG text reads as.
pub fn what_is_imported_paints_the_drawing()
    ensures valid { (s : ℕ) (fig text : List ℕ) (changes : List Change) → IsSite s
        → Imports s fig text → DenotesChanges s text changes → IsValid (history_of s changes) }
    ensures colours { (s : ℕ) (fig text : List ℕ) (changes : List Change)
        (d : DrawingState Outline) → IsSite s → Imports s fig text
        → DenotesChanges s text changes → Reads fig d → PaintsAsFig (history_of s changes) d }
{}

/// A FIG text whose drawing can be imported is refused for want of memory alone.
pub fn what_can_be_imported_is_not_refused()
    ensures { (fig : List ℕ) (d : DrawingState Outline) (e : ImportError) → Reads fig d
        → IsImportable d → RefusesImport fig e → e ≡ ImportError.Run StudioError.OutOfMemory }
{}

/// What a history shows can be imported: the drawing of the outlines of its canonical drawing, as
/// which its FIG text reads. What an import makes of it, by one site, and the history itself have
/// at every point the colour of that drawing. So nothing but want of memory refuses its import.
pub fn what_a_history_shows_can_be_imported()
    ensures importable { (h : List Op) (d : DrawingState AnyShape) → IsValid h → IsCanonical h d
        → IsImportable (outlined any_outline d) }
    ensures reads { (h : List Op) (d : DrawingState AnyShape) → IsValid h → IsCanonical h d
        → Reads (fig_text any_outline d) (outlined any_outline d) }
    ensures refused { (h : List Op) (d : DrawingState AnyShape) (e : ImportError) → IsValid h
        → IsCanonical h d → RefusesImport (fig_text any_outline d) e
        → e ≡ ImportError.Run StudioError.OutOfMemory }
    ensures shown { (h : List Op) (d : DrawingState AnyShape) → IsValid h → IsCanonical h d
        → PaintsAsFig h (outlined any_outline d) }
    ensures made { (s : ℕ) (h : List Op) (d : DrawingState AnyShape) → IsSite s → IsValid h
        → IsCanonical h d
        → PaintsAsFig (history_of s (creations_of (outlined any_outline d)))
        (outlined any_outline d) }
{}
