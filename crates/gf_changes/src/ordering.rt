//! Which layers give figures their order, with few changes. Order counts only between figures of
//! different colours whose bounds meet.

use gf_base::OutOfMemory;
use gf_shape::{Bounds, Rgb};
use std::alloc::Global;

/// The highest layer.
const TOP: u16 = 9_999;

/// How far a new layer lies from the next one where there is room.
const GAP: u16 = 10;

/// A new layer lies at most this part of the layers that are left at its end away from the next
/// one, so that these last for some 330 figures more.
const PART: u16 = 100;

/// The layer of the first figure of an empty drawing.
const FIRST: u16 = 1_000;

/// The lowest layer where all are given anew.
const LOWEST: u16 = 2_000;

/// How far layers lie apart where those of fewer figures than this are given anew. Those of up to
/// twice as many lie half as far apart, and so on.
const SPREAD: usize = 64;

/// Whether a figure may stay where it stands.
#[derive(Clone, Copy, PartialEq, Eq)]
pub(crate) enum Staying {
    /// The figure has the depth with which it was written.
    Kept,
    /// The figure has another depth than it was written with.
    Moved,
    /// The figure was not written.
    Unwritten,
}

/// Where a version stands: its layer, and its rank from the top. A version whose layer changes is
/// of no rank yet.
#[derive(Clone, Copy)]
pub(crate) struct Spot {
    pub(crate) layer: u16,
    pub(crate) rank: Option<usize>,
}

/// Where a figure may be seen, and its colour.
#[derive(Clone, Copy)]
pub(crate) struct Look {
    pub(crate) bounds: Bounds,
    pub(crate) colour: Rgb,
}

/// What the layer of a figure depends on. A figure that is no version has no spot.
#[derive(Clone, Copy)]
pub(crate) struct OrderRow {
    pub(crate) look: Look,
    pub(crate) staying: Staying,
    pub(crate) spot: Option<Spot>,
}

/// The layers of figures that are listed from the front to the back. They are raised from the back,
/// or lowered from the front, whichever changes fewer. If that pushes many figures that were to
/// stay, or neither keeps the limits, all layers are given anew, which makes room for long.
pub(crate) fn layers_of(alloc: Global, rows: &[OrderRow]) -> Result<Vec<u16>, OutOfMemory> {
    match fewest_changed(alloc, rows)? {
        Some(layers) if are_few(pushed(rows, &layers), rows.len()) => Ok(layers),
        _ => given_anew(alloc, rows.len()),
    }
}

/// The layers that are raised or lowered, whichever changes fewer, if these keep the limits.
fn fewest_changed(alloc: Global, rows: &[OrderRow]) -> Result<Option<Vec<u16>>, OutOfMemory> {
    let Some(raised) = raised(alloc, rows)? else {
        return lowered(alloc, rows);
    };
    let count = changed(rows, &raised);
    if count == 0 {
        return Ok(Some(raised));
    }
    match lowered(alloc, rows)? {
        Some(lowered) if changed(rows, &lowered) < count => Ok(Some(lowered)),
        _ => Ok(Some(raised)),
    }
}

/// The layers of figures that are raised from the back, if these keep the limits.
fn raised(alloc: Global, rows: &[OrderRow]) -> Result<Option<Vec<u16>>, OutOfMemory> {
    let mut from_back = copied(alloc, rows)?;
    from_back.reverse();
    match raise_all(alloc, &from_back)? {
        Some(mut layers) => {
            layers.reverse();
            Ok(Some(layers))
        }
        None => Ok(None),
    }
}

/// The layers of figures that are lowered from the front, if these keep the limits.
fn lowered(alloc: Global, rows: &[OrderRow]) -> Result<Option<Vec<u16>>, OutOfMemory> {
    let mirrored = mirrored(alloc, rows)?;
    match raise_all(alloc, &mirrored)? {
        Some(mut layers) => {
            mirror_all(&mut layers);
            Ok(Some(layers))
        }
        None => Ok(None),
    }
}

/// A copy of rows.
fn copied(alloc: Global, rows: &[OrderRow]) -> Result<Vec<OrderRow>, OutOfMemory> {
    let mut copies = Vec::with_capacity(alloc, rows.len())?;
    for row in rows {
        copies.push(*row)?;
    }
    Ok(copies)
}

/// The rows with what is above beneath, and what is beneath above.
fn mirrored(alloc: Global, rows: &[OrderRow]) -> Result<Vec<OrderRow>, OutOfMemory> {
    let mut copies = Vec::with_capacity(alloc, rows.len())?;
    for row in rows {
        copies.push(OrderRow {
            look: row.look,
            staying: row.staying,
            spot: mirrored_spot(row.spot),
        })?;
    }
    Ok(copies)
}

/// A spot with what is above beneath.
fn mirrored_spot(spot: Option<Spot>) -> Option<Spot> {
    let spot = spot?;
    let rank = match spot.rank {
        Some(rank) => Some(usize::MAX - rank),
        None => None,
    };
    Some(Spot {
        layer: TOP.saturating_sub(spot.layer),
        rank,
    })
}

/// Turns layers round the middle of all.
fn mirror_all(layers: &mut Vec<u16>) {
    for layer in layers.iter_mut() {
        *layer = TOP.saturating_sub(*layer);
    }
}

/// How many versions get another layer.
fn changed(rows: &[OrderRow], layers: &[u16]) -> usize {
    let mut count = 0usize;
    for (row, layer) in rows.iter().zip(layers.iter()) {
        if is_changed(row, *layer) {
            count = count.saturating_add(1);
        }
    }
    count
}

/// How many versions get another layer though their figures were to stay where they are.
fn pushed(rows: &[OrderRow], layers: &[u16]) -> usize {
    let mut count = 0usize;
    for (row, layer) in rows.iter().zip(layers.iter()) {
        if is_changed(row, *layer) && row.staying == Staying::Kept {
            count = count.saturating_add(1);
        }
    }
    count
}

/// Whether the version of a row gets another layer.
fn is_changed(row: &OrderRow, layer: u16) -> bool {
    match row.spot {
        Some(spot) => spot.layer != layer,
        None => false,
    }
}

/// Whether so many pushed figures are few of all: at most the square root. Then as many gestures
/// as figures push fewer than it costs to give all layers anew after each such number of pushes.
fn are_few(pushed: usize, figures: usize) -> bool {
    pushed.saturating_mul(pushed) <= figures
}

/// Layers for so many figures that are listed from the front to the back, all given anew. They
/// depend on the place from the back and roughly on the number of figures alone. So designers who
/// give layers anew at the same time give most figures the same ones, which do not conflict.
fn given_anew(alloc: Global, count: usize) -> Result<Vec<u16>, OutOfMemory> {
    let mut layers = Vec::with_capacity(alloc, count)?;
    let step = (SPREAD / (count / SPREAD + 1)).max(1) as u16;
    let mut layer = LOWEST;
    for _ in 0..count {
        layers.push(layer)?;
        layer = layer.saturating_add(step).min(TOP);
    }
    layers.reverse();
    Ok(layers)
}

/// The layers of figures that are listed from the back to the front, each above those behind it
/// that matter. None where one would be above the highest layer.
fn raise_all(alloc: Global, rows: &[OrderRow]) -> Result<Option<Vec<u16>>, OutOfMemory> {
    let lowest = lowest_in_front(alloc, rows)?;
    let mut done = Vec::with_capacity(alloc, rows.len())?;
    let mut layers = Vec::with_capacity(alloc, rows.len())?;
    let mut top: Option<Spot> = None;
    for (i, row) in rows.iter().enumerate() {
        let between = Between {
            top,
            gap: gap_of(top, lowest.get(i)),
        };
        let Some(spot) = spot_of(row, between, &done, &rows[i + 1..]) else {
            return Ok(None);
        };
        top = Some(over_both(top, spot));
        done.push((row.look, spot))?;
        layers.push(spot.layer)?;
    }
    Ok(Some(layers))
}

/// What is known of all figures behind one, and of all kept ones in front of it.
#[derive(Clone, Copy)]
struct Between {
    /// What is above this spot is above all that is behind.
    top: Option<Spot>,
    /// A layer above all that is behind and beneath the kept ones in front, if there is one.
    gap: Option<u16>,
}

/// A layer above the top, and beneath the lowest layer of the kept figures in front.
fn gap_of(top: Option<Spot>, lowest: Option<&Option<u16>>) -> Option<u16> {
    let low = match top {
        Some(top) => Some(top.layer),
        None => None,
    };
    match lowest {
        Some(high) => room(low, *high),
        None => None,
    }
}

/// For each row the lowest layer of the kept figures in front of it, if there is one.
fn lowest_in_front(alloc: Global, rows: &[OrderRow]) -> Result<Vec<Option<u16>>, OutOfMemory> {
    let mut lowest = Vec::with_capacity(alloc, rows.len())?;
    let mut least: Option<u16> = None;
    for row in rows.iter().rev() {
        lowest.push(least)?;
        if let (Staying::Kept, Some(spot)) = (row.staying, row.spot) {
            least = Some(least.unwrap_or(TOP).min(spot.layer));
        }
    }
    lowest.reverse();
    Ok(lowest)
}

/// Where a figure goes, between those behind it, which are done, and those in front of it.
fn spot_of(
    row: &OrderRow,
    between: Between,
    done: &[(Look, Spot)],
    front: &[OrderRow],
) -> Option<Spot> {
    if let Some(spot) = row.spot {
        let is_on_top = match between.top {
            Some(top) => is_above(spot, top),
            None => true,
        };
        if (is_on_top || is_over(spot, row, done, true)) && stays(spot, row, between, done, front) {
            return Some(spot);
        }
    }
    Some(Spot {
        layer: new_layer(row, between, done, front)?,
        rank: None,
    })
}

/// The layer of a figure that gets a new one, between all others or those that matter.
fn new_layer(
    row: &OrderRow,
    between: Between,
    done: &[(Look, Spot)],
    front: &[OrderRow],
) -> Option<u16> {
    if let Some(layer) = between.gap {
        return Some(layer);
    }
    let behind = highest_behind(row, done);
    if let Some(layer) = room(behind, lowest_that_matters(row, front)) {
        return Some(layer);
    }
    next_above(behind)
}

/// Whether a figure that is above those behind it that matter stays where it stands.
fn stays(
    spot: Spot,
    row: &OrderRow,
    between: Between,
    done: &[(Look, Spot)],
    front: &[OrderRow],
) -> bool {
    match row.staying {
        Staying::Kept => true,
        Staying::Unwritten => is_under(spot, row, front, true),
        Staying::Moved => {
            is_over(spot, row, done, false) && is_under(spot, row, front, false)
                || between.gap.is_none() && is_under(spot, row, front, true)
        }
    }
}

/// A spot such that what is above it is above both.
fn over_both(top: Option<Spot>, spot: Spot) -> Spot {
    let Some(top) = top else {
        return spot;
    };
    let rank = match (top.rank, spot.rank) {
        (Some(one), Some(other)) => Some(one.min(other)),
        _ => None,
    };
    Spot {
        layer: top.layer.max(spot.layer),
        rank,
    }
}

/// The least layer above the given one, which is None beneath all.
fn next_above(layer: Option<u16>) -> Option<u16> {
    match layer {
        None => Some(0),
        Some(layer) if layer < TOP => Some(layer + 1),
        Some(_) => None,
    }
}

/// The highest layer of the figures behind that matter.
fn highest_behind(row: &OrderRow, done: &[(Look, Spot)]) -> Option<u16> {
    let mut highest = None;
    for (look, spot) in done {
        if matter(row.look, *look) {
            highest = highest.max(Some(spot.layer));
        }
    }
    highest
}

/// The lowest layer of the kept figures in front that matter.
fn lowest_that_matters(row: &OrderRow, front: &[OrderRow]) -> Option<u16> {
    let mut lowest: Option<u16> = None;
    for other in front {
        if let (Staying::Kept, Some(spot)) = (other.staying, other.spot) {
            if matter(row.look, other.look) {
                lowest = Some(lowest.unwrap_or(TOP).min(spot.layer));
            }
        }
    }
    lowest
}

/// A layer between two others, if there is one: in the middle, or a gap away from the one that is
/// there.
fn room(low: Option<u16>, high: Option<u16>) -> Option<u16> {
    match (low, high) {
        (None, None) => Some(FIRST),
        (Some(low), None) if low < TOP => Some(low.saturating_add(gap_before(TOP - low)).min(TOP)),
        (None, Some(high)) if 0 < high => Some(high.saturating_sub(gap_before(high))),
        (Some(low), Some(high)) if low.saturating_add(1) < high => Some(low + (high - low) / 2),
        _ => None,
    }
}

/// How far a new layer lies from the next one, where so many layers are left at its end.
fn gap_before(left: u16) -> u16 {
    (left / PART).max(1).min(GAP)
}

/// Whether a spot is above each of the figures behind, or of those that matter.
fn is_over(spot: Spot, row: &OrderRow, done: &[(Look, Spot)], matters: bool) -> bool {
    for (look, other) in done {
        if !is_above(spot, *other) && (!matters || matter(row.look, *look)) {
            return false;
        }
    }
    true
}

/// Whether a spot is beneath each of the kept figures in front, or of those that matter.
fn is_under(spot: Spot, row: &OrderRow, front: &[OrderRow], matters: bool) -> bool {
    for other in front {
        if let (Staying::Kept, Some(kept)) = (other.staying, other.spot) {
            if !is_above(kept, spot) && (!matters || matter(row.look, other.look)) {
                return false;
            }
        }
    }
    true
}

/// Whether a spot is surely above another one.
fn is_above(a: Spot, b: Spot) -> bool {
    match (a.rank, b.rank) {
        (Some(a), Some(b)) => a < b,
        _ => a.layer > b.layer,
    }
}

/// Whether the order of two figures may be seen: their colours differ, and their bounds meet.
fn matter(a: Look, b: Look) -> bool {
    a.colour != b.colour && meet(a.bounds, b.bounds)
}

/// Whether two bounds have a point in common.
fn meet(a: Bounds, b: Bounds) -> bool {
    a.low.x <= b.high.x && b.low.x <= a.high.x && a.low.y <= b.high.y && b.low.y <= a.high.y
}
