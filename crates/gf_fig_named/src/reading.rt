//! The reading of names.

ghost use Rattle.std.specs.Prelude.{◌≡◌, IfNone, IfOk, IfSome, List, Some};
ghost use Rattle.gf_ops.specs.ValidHistory.{IsValid};
ghost use Rattle.gf_ops.specs.declared.op.Clock.{Clock};
ghost use Rattle.gf_ops.specs.declared.op.Op.{Op};
ghost use Rattle.gf_fig_read.specs.FigGrammar.{Reads};
ghost use Rattle.gf_fig_read.specs.Objects.{Drawn};
ghost use Rattle.gf_fig_named.specs.Known.{AreCounts, TellsKnown, written_counts};
ghost use Rattle.gf_fig_named.specs.NamedFigures.{AreNamed};
ghost use Rattle.gf_fig_named.specs.NamedText.{IsNamedText};

use crate::Name;
use crate::figures::figure_names;
use crate::known::known;
use gf_base::OutOfMemory;
use gf_ops::Clock;
use std::alloc::Global;

/// The name of a figure, and the depth at which it was written.
#[derive(Drop)]
pub struct Named {
    pub name: Name,
    pub depth: u16,
}

/// What the comments of a FIG text tell.
#[derive(Drop)]
pub struct Names {
    /// How many operations of each site were known, where the text tells this.
    pub known: Option<Clock>,
    /// What the comments directly above each figure name, in file order.
    pub figures: Vec<Option<Named>>,
}

/// What the comments of a FIG text tell, in time linear in its length. A comment that is no name
/// names nothing.
pub fn read_names(alloc: Global, fig: &[u8]) -> Result<Names, OutOfMemory>
    ensures told { IfOk result (λ names. IfSome names.known (TellsKnown fig.now)) }
    ensures none { IfOk result (λ names. IfNone names.known
        ((c : Clock) → AreCounts c → ¬ (TellsKnown fig.now c))) }
    ensures counted { IfOk result (λ names. (h : List Op) → IsValid h
        → IsNamedText h fig.now → names.known ≡ Some (written_counts h)) }
    ensures figures { (d : Drawn) → Reads fig.now d
        → IfOk result (λ names. AreNamed fig.now d names.figures.items) }
{
    let known = known(alloc, fig)?;
    let figures = figure_names(alloc, fig)?;
    Ok(Names { known, figures })
}
