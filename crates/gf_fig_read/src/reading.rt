//! The reading of a whole text.

ghost use Rattle.std.specs.Prelude.{◌≡◌, ◌⊎◌, ◌<◌, ◌^◌, [], length, OnOk, IfOk, IfErr};
ghost use Rattle.gf_fig_read.specs.FigGrammar.{Leads, Reads, Fails, StopsAt, nothing};
ghost use Rattle.gf_fig_read.specs.Objects.{Drawn};
ghost use Rattle.gf_fig_tokens.specs.declared.faults.FigFault.TheVariants as fault;

use crate::FigError;
use crate::objects::add_object;
use gf_fig_tokens::{FigFault, Tokens};
use gf_figures::Drawing;
use gf_shape::Outline;
use std::alloc::Global;

/// The drawing that a FIG text denotes, in one pass over its bytes.
pub fn read_fig(alloc: Global, text: &[u8]) -> Result<Drawing<Outline>, FigError>
    ensures reads { IfOk result (λ d. Reads text.now d) }
    ensures only { (d : Drawn) → Reads text.now d
        → IfErr result (λ e. e.fault ≡ fault.OutOfMemory) }
    ensures fails { IfErr result (λ e. ((e.fault ≡ fault.OutOfMemory) × (e.object ≡ 0))
        ⊎ Fails text.now e.fault e.object) }
{
    read(alloc, text)
}

fn read(alloc: Global, text: &[u8]) -> Result<Drawing<Outline>, FigError>
    ensures reads { IfOk result (λ d. Reads text.now d) }
    ensures fails { IfErr result (λ e. ((e.fault ≡ fault.OutOfMemory) × (e.object ≡ 0))
        ⊎ Fails text.now e.fault e.object) }
{
    match Tokens::of_objects(text) {
        Ok(tokens) => read_objects(alloc, tokens),
        Err(fault) => Err(FigError { fault, object: 0 }),
    }
}

/// The drawing of the objects that the tokens hold.
fn read_objects(alloc: Global, tokens: Tokens<'_>) -> Result<Drawing<Outline>, FigError>
    requires { length tokens < 2 ^ 64 }
    ensures reads { IfOk result (λ d. Leads nothing tokens.entry d []) }
    ensures stops { IfErr result (λ e. ((e.fault ≡ fault.OutOfMemory) × (e.object ≡ 0))
        ⊎ StopsAt tokens.entry e.fault e.object) }
{
    let mut drawing = Drawing::new(alloc);
    add_objects(alloc, tokens, &mut drawing)?;
    Ok(drawing)
}

/// Adds the objects that the tokens hold to a drawing that has none.
fn add_objects(
    alloc: Global,
    tokens: Tokens<'_>,
    drawing: &mut Drawing<Outline>,
) -> Result<(), FigError>
    requires empty { drawing.old ≡ nothing }
    requires few { length tokens < 2 ^ 64 }
    ensures reads { OnOk result (Leads nothing tokens.entry drawing.new []) }
    ensures stops { IfErr result (λ e. ((e.fault ≡ fault.OutOfMemory) × (e.object ≡ 0))
        ⊎ StopsAt tokens.entry e.fault e.object) }
{
    let mut left = tokens;
    let mut object = 0u64;
    while let Some(code) = left.next_token() {
        object += 1;
        match add_object(alloc, code, &mut left, drawing) {
            Ok(()) => {}
            Err(FigFault::OutOfMemory) => return Err(no_memory()),
            Err(fault) => return Err(FigError { fault, object }),
        }
    }
    Ok(())
}

fn no_memory() -> FigError
    ensures { result ≡ record { fault = fault.OutOfMemory; object = 0 } }
{
    FigError {
        fault: FigFault::OutOfMemory,
        object: 0,
    }
}
