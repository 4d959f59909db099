//! The lines of colours.

ghost use Rattle.std.specs.Prelude.{◌≡◌, [], ◌++◌, OnOk, IfSome, All, flat_map, slice_get};
ghost use Rattle.std.specs.Prelude.{option_map, unwrap_or};
ghost use Rattle.gf_plane.specs.ColourBytes.{HasBytes};
ghost use Rattle.gf_fig_write.specs.FigText.{colour_line};

use gf_base::push_number;
use gf_figures::ColourTable;
use gf_plane::push_hex_rgb;
use gf_shape::Rgb;
use std::alloc::AllocError;

/// Appends a line for each colour.
#[tactic(auto, using(std::proofs::lemmas::Grind::common_steps, crate::proofs::TableLemmas::flat_map_next))]
pub fn push_table(out: &mut Vec<u8>, table: &ColourTable) -> Result<(), AllocError>
    ensures text { OnOk result (out.new.items ≡ out.old.items ++ flat_map colour_line table.now) }
    ensures bytes { OnOk result (All (λ e. HasBytes e.1) table.now) }
{
    for i in 0..table.len() {
        push_entry(out, table, i)?;
    }
    Ok(())
}

/// Appends the line of the colour with the index `i`, if there is one.
fn push_entry(out: &mut Vec<u8>, table: &ColourTable, i: usize) -> Result<(), AllocError>
    ensures text { OnOk result (out.new.items
        ≡ out.old.items ++ unwrap_or (option_map colour_line (slice_get table.now i)) []) }
    ensures bytes { IfSome (slice_get table.now i) (λ e. HasBytes e.1) }
{
    match table.at(i) {
        Some(entry) => push_colour_line(out, entry),
        None => Ok(()),
    }
}

fn push_colour_line(out: &mut Vec<u8>, entry: (u16, Rgb)) -> Result<(), AllocError>
    ensures text { OnOk result (out.new.items ≡ out.old.items ++ colour_line entry) }
    ensures bytes { HasBytes entry.1 }
{
    let (number, colour) = entry;
    out.extend_from_slice(b"0 ")?;
    push_number(out, number)?;
    out.extend_from_slice(b" #")?;
    push_hex_rgb(out, colour)?;
    out.push(b'\n')?;
    Ok(())
}
