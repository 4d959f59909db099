//! The changes of layers, so that what is in front is in front, and the new figures.

use crate::Target;
use crate::aiming::has_all;
use crate::altering::change_all;
use crate::matching::Matching;
use crate::ordering::{Look, OrderRow, Spot, Staying, layers_of};
use crate::ranks::{ShownVersions, ranks_by_object};
use gf_base::OutOfMemory;
use gf_ops::{Change, Start, Value};
use gf_shape::AnyShape;
use gf_table::IndexedHistory;
use gf_versions::{Placed, VersionKey};
use std::alloc::Global;

/// The changes by which a history comes to show the figures in their order, the new ones among
/// them. It shows these versions, and has the changes of those that it showed before.
pub fn arranged(
    alloc: Global,
    history: &IndexedHistory,
    before: &[Placed<AnyShape>],
    versions: &[Placed<AnyShape>],
    targets: &[Target],
    matching: &Matching,
) -> Result<Vec<Change>, OutOfMemory> {
    let ranks = ranks_by_object(alloc, versions)?;
    let shown = ShownVersions {
        history,
        versions,
        ranks: &ranks,
    };
    let followers = followed(alloc, before, shown, matching)?;
    let layers = layers_for(alloc, versions, targets, &followers)?;
    let mut changes = layer_changes(alloc, shown, &followers, &layers)?;
    let mut drawn = creations_of(alloc, targets, &followers, &layers)?;
    changes.append(&mut drawn)?;
    Ok(changes)
}

/// The layers of the figures, which are listed from the front to the back. A figure may be one of
/// these versions.
fn layers_for(
    alloc: Global,
    versions: &[Placed<AnyShape>],
    targets: &[Target],
    followers: &[Option<usize>],
) -> Result<Vec<u16>, OutOfMemory> {
    let rows = rows_of(alloc, versions, targets, followers)?;
    layers_of(alloc, &rows)
}

/// The changes by which each version gets the layer of its figure.
fn layer_changes(
    alloc: Global,
    shown: ShownVersions<'_>,
    followers: &[Option<usize>],
    layers: &[u16],
) -> Result<Vec<Change>, OutOfMemory> {
    let wishes = layer_wishes(alloc, shown.versions, followers, layers)?;
    let mut changes = Vec::new(alloc);
    change_all(alloc, shown, wishes, &mut changes)?;
    Ok(changes)
}

/// The creations of the figures that are no versions, in these layers, from the back to the front.
fn creations_of(
    alloc: Global,
    targets: &[Target],
    followers: &[Option<usize>],
    layers: &[u16],
) -> Result<Vec<Change>, OutOfMemory> {
    let mut creations = Vec::new(alloc);
    for (index, figure) in targets.iter().enumerate() {
        if let (Some(None), Some(layer)) = (followers.get(index), layers.get(index)) {
            creations.push(creation(alloc, &figure.start, *layer)?)?;
        }
    }
    creations.reverse();
    Ok(creations)
}

/// The creation of a figure in a layer.
fn creation(alloc: Global, start: &Start, layer: u16) -> Result<Change, OutOfMemory> {
    let mut start = start.copy(alloc)?;
    start.layer = layer;
    Ok(Change::Create(start))
}

/// Which version of the new list each figure is: the one that has all operations of the old one.
fn followed(
    alloc: Global,
    before: &[Placed<AnyShape>],
    shown: ShownVersions<'_>,
    matching: &Matching,
) -> Result<Vec<Option<usize>>, OutOfMemory> {
    let mut followers = Vec::with_capacity(alloc, matching.versions.len())?;
    for version in matching.versions.iter() {
        followers.push(follower(before, *version, shown))?;
    }
    Ok(followers)
}

/// The version of the new list that has all operations of an old one. Most keep their indices.
fn follower(
    before: &[Placed<AnyShape>],
    index: Option<usize>,
    shown: ShownVersions<'_>,
) -> Option<usize> {
    let index = index?;
    let old = &before.get(index)?.key;
    if is_follower(shown.versions, index, old) {
        return Some(index);
    }
    for rank in shown.of_object(old.object) {
        if is_follower(shown.versions, rank.index, old) {
            return Some(rank.index);
        }
    }
    None
}

/// Whether the version at an index has all operations of another one of its object.
fn is_follower(versions: &[Placed<AnyShape>], index: usize, old: &VersionKey) -> bool {
    match versions.get(index) {
        Some(new) => follows(&new.key, old),
        None => false,
    }
}

/// Whether a version has all operations of another one of its object.
fn follows(new: &VersionKey, old: &VersionKey) -> bool {
    new.object == old.object
        && (new.ops == old.ops || has_all(new.ops.as_slice(), old.ops.as_slice()))
}

/// What the order of each figure depends on.
fn rows_of(
    alloc: Global,
    versions: &[Placed<AnyShape>],
    targets: &[Target],
    followers: &[Option<usize>],
) -> Result<Vec<OrderRow>, OutOfMemory> {
    let mut rows = Vec::with_capacity(alloc, targets.len())?;
    for (figure, follower) in targets.iter().zip(followers.iter()) {
        rows.push(row_of(figure, *follower, versions))?;
    }
    Ok(rows)
}

/// What the order of a figure depends on, which may be the version of this rank.
fn row_of(figure: &Target, rank: Option<usize>, versions: &[Placed<AnyShape>]) -> OrderRow {
    let spot = spot_at(versions, rank);
    OrderRow {
        look: Look {
            bounds: figure.bounds,
            colour: figure.start.colour,
        },
        staying: staying_of(figure, spot.is_some()),
        spot,
    }
}

/// Where the version of a rank stands.
fn spot_at(versions: &[Placed<AnyShape>], rank: Option<usize>) -> Option<Spot> {
    match versions.get(rank?) {
        Some(version) => Some(Spot {
            layer: version.key.layer,
            rank,
        }),
        None => None,
    }
}

/// Whether a figure may stay where it stands.
fn staying_of(figure: &Target, is_version: bool) -> Staying {
    match &figure.name {
        Some(name) if is_version && name.depth == figure.depth => Staying::Kept,
        Some(_) if is_version => Staying::Moved,
        _ => Staying::Unwritten,
    }
}

/// What layer each version wants, where its figure got another one.
fn layer_wishes(
    alloc: Global,
    versions: &[Placed<AnyShape>],
    followers: &[Option<usize>],
    layers: &[u16],
) -> Result<Vec<Option<Value>>, OutOfMemory> {
    let mut wishes = Vec::with_capacity(alloc, versions.len())?;
    for _ in versions {
        wishes.push(None)?;
    }
    for (follower, layer) in followers.iter().zip(layers.iter()) {
        if let Some(rank) = *follower {
            wish_layer(&mut wishes, versions, rank, *layer);
        }
    }
    Ok(wishes)
}

/// Has the version of a rank want this layer, where it is in another one.
fn wish_layer(
    wishes: &mut [Option<Value>],
    versions: &[Placed<AnyShape>],
    rank: usize,
    layer: u16,
) {
    if let (Some(wish), Some(version)) = (wishes.get_mut(rank), versions.get(rank)) {
        if version.key.layer != layer {
            *wish = Some(Value::Layer(layer));
        }
    }
}
