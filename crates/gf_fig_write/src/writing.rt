//! The writing of a drawing as FIG text.

ghost use Rattle.std.specs.Prelude.{◌≡◌, IsTrue, OnOk, Err};
ghost use Rattle.std.specs.Io.KnownBytes.{Appends};
ghost use Rattle.gf_streams.specs.Counts.{Rises};
ghost use Rattle.gf_streams.specs.Taken.{AppendsPrefix};
ghost use Rattle.gf_figures.specs.Outlined.{outlined};
ghost use Rattle.gf_fig_read.specs.FigGrammar.{Reads};
ghost use Rattle.gf_fig_write.specs.FigText.{fig_text};

use crate::fig_bytes;
use gf_figures::Drawing;
use gf_shape::Shape;
use gf_streams::{Sink, WriteError, write_whole};
use std::alloc::Global;

/// Writes the FIG text of a drawing, and flushes. The text is made before the first byte is
/// written, so want of memory leaves the sink alone.
pub fn write_fig<S: Shape, W: Sink>(
    alloc: Global,
    drawing: &Drawing<S>,
    sink: &mut W,
) -> Result<(), WriteError>
    ensures whole { OnOk result (Appends (W.taken sink.old) (W.taken sink.new)
        (fig_text S.outline drawing.now)) }
    ensures denotes { OnOk result (Reads (fig_text S.outline drawing.now)
        (outlined S.outline drawing.now)) }
    ensures flushed { OnOk result (IsTrue (W.flushed sink.new)) }
    ensures unfailed { OnOk result (W.failures sink.new ≡ W.failures sink.old) }
    ensures memory { result ≡ Err WriteError.OutOfMemory → sink.new ≡ sink.old }
    ensures prefix { result ≡ Err WriteError.WriteFailed
        → AppendsPrefix (W.taken sink.old) (W.taken sink.new) (fig_text S.outline drawing.now) }
    ensures failed { result ≡ Err WriteError.WriteFailed
        → Rises (W.failures sink.old) (W.failures sink.new) }
{
    let Ok(bytes) = fig_bytes(alloc, drawing) else {
        return Err(WriteError::OutOfMemory);
    };
    write_whole(sink, &bytes)?;
    Ok(())
}
