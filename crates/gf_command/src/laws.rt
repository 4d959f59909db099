//! The law that ties commands to each other, the contract of a function that does nothing.

ghost use Rattle.std.specs.Prelude.{◌≡◌, ℕ, List, ◌++◌};
ghost use Rattle.gf_shape.specs.declared.any_shape.AnyShape.{AnyShape};
ghost use Rattle.gf_ops.specs.declared.op.Op.{Op};
ghost use Rattle.gf_ops.specs.OperationOrder.{IsSite};
ghost use Rattle.gf_figures.specs.DrawingState.{DrawingState};
ghost use Rattle.gf_scanline.specs.Windows.{View};
ghost use Rattle.gf_replay.specs.Denoting.{Denotes};
ghost use Rattle.gf_studio.specs.FigRun.{Draws, IsFigOf};
ghost use Rattle.gf_studio.specs.PaintRun.{PictureOf};
ghost use Rattle.gf_edit.specs.EditedText.{JoinsEdit};

/// `fig` and `paint` make the same of what an edit read and made as of lines of the history itself.
/// The history is what was read, with the new operations behind it.
pub fn what_an_edit_writes_is_drawn_with_what_it_read()
    ensures drawing { (s : ℕ) (bytes others lines : List ℕ) (new : List Op) → IsSite s →
        (j : JoinsEdit s bytes new others) → Denotes lines (j.edit.history ++ new) →
        (drawing : DrawingState AnyShape) → Draws lines drawing → Draws others drawing }
    ensures text { (s : ℕ) (bytes others lines : List ℕ) (new : List Op) → IsSite s →
        (j : JoinsEdit s bytes new others) → Denotes lines (j.edit.history ++ new) →
        (text other : List ℕ) → IsFigOf lines text → IsFigOf others other → text ≡ other }
    ensures picture { (s : ℕ) (bytes others lines : List ℕ) (new : List Op) → IsSite s →
        (j : JoinsEdit s bytes new others) → Denotes lines (j.edit.history ++ new) →
        (w : View) (text other : List ℕ) → PictureOf lines w text →
        PictureOf others w other → text ≡ other }
{}
