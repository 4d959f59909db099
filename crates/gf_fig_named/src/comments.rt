//! The comments of a named text.

ghost use Rattle.std.specs.Prelude.{◌≡◌, ◌++◌, OnOk, IfOk, flat_map};
ghost use Rattle.std.specs.List.{enumerate_from, range_with_len};
ghost use Rattle.gf_ops.specs.OperationOrder.{IsSite, entry};
ghost use Rattle.gf_fig_named.specs.Comments.{before_id, known_site, knows_comment};
ghost use Rattle.gf_fig_named.specs.Comments.{name_lines, nth_id, or_nothing, spaced_id};

use crate::Name;
use gf_base::{OutOfMemory, push_number};
use gf_ops::{Clock, OpId, push_id};
use std::alloc::{AllocError, Global};

/// The comment that so many operations of each site are known.
pub(crate) fn knows_comment(alloc: Global, counts: &Clock) -> Result<Vec<u8>, OutOfMemory>
    ensures { IfOk result (λ text. text.items ≡ knows_comment (entry counts.now)) }
{
    let sites = known_sites(alloc, counts)?;
    let mut text = Vec::from_slice(alloc, b"# figgroup knows")?;
    text.extend_from_slice(or_nothing(&sites))?;
    Ok(text)
}

/// The text, or the word for an empty one.
fn or_nothing(text: &[u8]) -> &[u8]
    ensures { result.now ≡ or_nothing text.now }
{
    if text.is_empty() { b" nothing" } else { text }
}

/// Each site with its operations, if it has some.
fn known_sites(alloc: Global, counts: &Clock) -> Result<Vec<u8>, OutOfMemory>
    ensures { IfOk result (λ text. text.items
        ≡ flat_map (λ s. known_site s (entry counts.now s)) (range_with_len 1 8)) }
{
    let mut text = Vec::new(alloc);
    for site in 1..9 {
        push_known(&mut text, site, count_at(counts, site))?;
    }
    Ok(text)
}

/// How many operations of a site are known.
fn count_at(counts: &Clock, site: u8) -> u32
    requires { IsSite site }
    ensures { result ≡ entry counts.now site }
{
    counts.0[usize::from(site) - 1]
}

/// Appends a site with its operations, if it has some.
fn push_known(out: &mut Vec<u8>, site: u8, count: u32) -> Result<(), AllocError>
    ensures { OnOk result (out.new.items ≡ out.old.items ++ known_site site count) }
{
    if count == 0 {
        return Ok(());
    }
    push_spaced(out, OpId { site, seq: count })
}

/// Appends a blank and an id.
fn push_spaced(out: &mut Vec<u8>, id: OpId) -> Result<(), AllocError>
    ensures { OnOk result (out.new.items ≡ out.old.items ++ spaced_id id.site id.seq) }
{
    out.push(b' ')?;
    push_id(out, id)
}

/// Appends the lines that name a figure at a depth.
pub(crate) fn push_name(out: &mut Vec<u8>, name: &Name, depth: u16) -> Result<(), AllocError>
    ensures { OnOk result (out.new.items ≡ out.old.items ++ name_lines name.now depth) }
{
    out.extend_from_slice(b"# figgroup ")?;
    push_id(out, name.object.0)?;
    out.extend_from_slice(b" at ")?;
    push_number(out, depth)?;
    push_telling(out, name.telling.as_slice())?;
    out.push(b'\n')?;
    Ok(())
}

/// Appends the ids of a name, at most eight on a line.
fn push_telling(out: &mut Vec<u8>, ids: &[OpId]) -> Result<(), AllocError>
    ensures { OnOk result (out.new.items
        ≡ out.old.items ++ flat_map nth_id (enumerate_from 0 ids.now)) }
{
    for (index, id) in ids.iter().enumerate() {
        push_nth(out, index, *id)?;
    }
    Ok(())
}

/// Appends an id of a name, which has this index.
fn push_nth(out: &mut Vec<u8>, index: usize, id: OpId) -> Result<(), AllocError>
    ensures { OnOk result (out.new.items ≡ out.old.items ++ nth_id (index, id)) }
{
    out.extend_from_slice(before_id(index))?;
    push_spaced(out, id)
}

/// What stands before an id of a name.
fn before_id(index: usize) -> &'static [u8]
    ensures { result.now ≡ before_id index }
{
    if index % 8 != 0 {
        b""
    } else if index == 0 {
        b" with"
    } else {
        b"\n# figgroup with"
    }
}
