//! What a named text tells that was known.

ghost use Rattle.std.specs.Prelude.{◌≡◌, ◌≢◌, ◌↔◌, ℕ, [], ◌∷◌, Some, None, IfNone, IfOk, IfSome};
ghost use Rattle.std.specs.Prelude.{IsTrue};
ghost use Rattle.std.specs.List.{find};
ghost use Rattle.gf_ops.specs.declared.op.Clock.{Clock};
ghost use Rattle.gf_ops.specs.OperationOrder.{IsSite, entry};
ghost use Rattle.gf_fig_tokens.specs.Layout.{lines};
ghost use Rattle.gf_fig_named.specs.Comments.{knows_comment};
ghost use Rattle.gf_fig_named.specs.Known.{AreCounts, TellsKnown, begins_known};
ghost use Rattle.gf_fig_named.specs.KnownSteps.{CountsFirst, last_numbers, last_or};
ghost use Rattle.gf_fig_named.specs.Spelling.{spelt_ids};

use crate::comments::knows_comment;
use crate::spelling::push_ids;
use gf_base::OutOfMemory;
use gf_fig_tokens::cut_line;
use gf_ops::{Clock, OpId};
use std::alloc::Global;

/// How the line begins that tells what was known.
const KNOWS: &[u8] = b"# figgroup knows";

/// What the first line tells that begins so; none where there is no such line, or where it is not
/// as a named text has it.
pub(crate) fn known(alloc: Global, fig: &[u8]) -> Result<Option<Clock>, OutOfMemory>
    ensures told { IfOk result (λ known. IfSome known (TellsKnown fig.now)) }
    ensures none { IfOk result (λ known. IfNone known
        ((c : Clock) → AreCounts c → ¬ (TellsKnown fig.now c))) }
    ensures counted { IfOk result (λ known. IfSome known (CountsFirst fig.now)) }
{
    match knows_line(fig) {
        Some(line) => known_by(alloc, line),
        None => Ok(None),
    }
}

/// The first line that begins as the one that tells what was known.
fn knows_line(fig: &[u8]) -> Option<&[u8]>
    ensures some { IfSome result (λ line. find begins_known (lines fig.now) ≡ Some line.now) }
    ensures none { IfNone result (find begins_known (lines fig.now) ≡ None) }
{
    let mut rest = fig;
    while let Some((line, after)) = cut_line(rest) {
        if begins_known(line) {
            return Some(line);
        }
        rest = after;
    }
    None
}

fn begins_known(line: &[u8]) -> bool
    ensures { result ≡ begins_known line.now }
{
    line.starts_with(KNOWS)
}

/// What a line tells that was known, if it is the line of this.
fn known_by(alloc: Global, line: &[u8]) -> Result<Option<Clock>, OutOfMemory>
    ensures told { IfOk result (λ known. IfSome known (λ c. line.now ≡ knows_comment (entry c))) }
    ensures none { IfOk result (λ known. IfNone known
        ((c : Clock) → AreCounts c → line.now ≢ knows_comment (entry c))) }
    ensures counted { IfOk result (λ known. IfSome known
        (λ c. c ≡ last_numbers (spelt_ids line.now))) }
{
    let mut ids = Vec::new(alloc);
    push_ids(&mut ids, line)?;
    let counts = counts_of(&ids);
    let text = knows_comment(alloc, &counts)?;
    if is_same(line, &text) {
        Ok(Some(counts))
    } else {
        Ok(None)
    }
}

/// Whether two texts are one.
fn is_same(text: &[u8], other: &[u8]) -> bool
    ensures { IsTrue result ↔ text.now ≡ other.now }
{
    text == other
}

/// The number of the last id of each site.
fn counts_of(ids: &[OpId]) -> Clock
    ensures { result ≡ last_numbers ids.now }
{
    Clock([
        last_of(ids, 1),
        last_of(ids, 2),
        last_of(ids, 3),
        last_of(ids, 4),
        last_of(ids, 5),
        last_of(ids, 6),
        last_of(ids, 7),
        last_of(ids, 8),
    ])
}

/// The number of the last id of a site; 0 where there is none.
fn last_of(ids: &[OpId], site: u8) -> u32
    ensures { result ≡ last_or site 0 ids.now }
{
    let mut last = 0;
    for id in ids {
        last = seq_or(*id, site, last);
    }
    last
}

/// The number of an id, where it is of this site, or else another one.
fn seq_or(id: OpId, site: u8, other: u32) -> u32
    ensures { result ≡ last_or site other (id ∷ []) }
{
    if id.site == site { id.seq } else { other }
}
