//! The text of operation ids.

ghost use Rattle.std.specs.Prelude.{◌≡◌, ◌++◌, OnOk};
ghost use Rattle.gf_ops.specs.IdText.{id_text, spaced_ids_text};

use crate::OpId;
use gf_base::push_number;
use std::alloc::AllocError;

/// Appends an id: its site, a point and its number there, as in `1.12`.
pub fn push_id(out: &mut Vec<u8>, id: OpId) -> Result<(), AllocError>
    ensures { OnOk result (out.new.items ≡ out.old.items ++ id_text id) }
{
    push_number(out, id.site)?;
    out.push(b'.')?;
    push_number(out, id.seq)
}

/// Appends ids, with a blank before each.
pub fn push_spaced_ids(out: &mut Vec<u8>, ids: &[OpId]) -> Result<(), AllocError>
    ensures { OnOk result (out.new.items ≡ out.old.items ++ spaced_ids_text ids.now) }
{
    for id in ids {
        out.push(b' ')?;
        push_id(out, *id)?;
    }
    Ok(())
}
