//! What follows of a session, as the contract of a function that does nothing.

ghost use Rattle.std.specs.Prelude.{◌≡◌, ℕ, List, Contains};
ghost use Rattle.gf_shape.specs.declared.any_shape.AnyShape.{AnyShape};
ghost use Rattle.gf_shape.specs.Outlines.{any_outline};
ghost use Rattle.gf_figures.specs.DrawingState.{DrawingState};
ghost use Rattle.gf_fig_write.specs.FigText.{fig_text};
ghost use Rattle.gf_fig_write.specs.ShownHistory.{Shows};
ghost use Rattle.gf_worker.specs.declared.script.Script.{Script};
ghost use Rattle.gf_session.specs.declared.session.Done.{Done};
ghost use Rattle.gf_session.specs.Session.{IsSession};
ghost use Rattle.gf_studio.specs.FigRun.{IsDrawn};
ghost use Rattle.gf_session_run.specs.SessionRun.{TellsSession};

/// The histories of all sites of a session have one drawing. What one site's history draws, each
/// site's draws, and no other. All sites therefore have one FIG text, which shows the history of
/// each site. A run writes this text, which shows the common history.
pub fn the_sites_of_a_session_draw_alike()
    ensures one { (scripts : List Script) (dones : List Done) → IsSession scripts dones
        → (d e : Done) → Contains dones d → Contains dones e
        → (drawing other : DrawingState AnyShape) → IsDrawn d.site.ops drawing
        → IsDrawn e.site.ops other → drawing ≡ other }
    ensures each { (scripts : List Script) (dones : List Done) → IsSession scripts dones
        → (d e : Done) → Contains dones d → Contains dones e
        → (drawing : DrawingState AnyShape) → IsDrawn d.site.ops drawing
        → IsDrawn e.site.ops drawing }
    ensures text { (scripts : List Script) (dones : List Done) → IsSession scripts dones
        → (d e : Done) → Contains dones d → Contains dones e
        → (drawing other : DrawingState AnyShape) → IsDrawn d.site.ops drawing
        → IsDrawn e.site.ops other → fig_text any_outline drawing ≡ fig_text any_outline other }
    ensures shows { (scripts : List Script) (dones : List Done) → IsSession scripts dones
        → (d e : Done) → Contains dones d → Contains dones e
        → (drawing : DrawingState AnyShape) → IsDrawn d.site.ops drawing
        → Shows (fig_text any_outline drawing) e.site.ops }
    ensures told { (sites : ℕ) (bytes text : List ℕ) (t : TellsSession sites bytes text) (d : Done)
        → Contains t.dones d → IsDrawn d.site.ops t.drawing }
    ensures told_text { (sites : ℕ) (bytes text : List ℕ) (t : TellsSession sites bytes text)
        → (d : Done) → Contains t.dones d → (drawing : DrawingState AnyShape)
        → IsDrawn d.site.ops drawing
        → fig_text any_outline drawing ≡ fig_text any_outline t.drawing }
    ensures told_shows { (sites : ℕ) (bytes text : List ℕ) (t : TellsSession sites bytes text)
        → (d : Done) → Contains t.dones d → (drawing : DrawingState AnyShape)
        → IsDrawn d.site.ops drawing → Shows (fig_text any_outline drawing) t.history }
{}
