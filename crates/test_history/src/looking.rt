//! Commands that query versions: all of an object, and the one on top at a point.

use gf_groups::GroupFault;
use gf_inspect::{VersionName, lines, top_at, top_at_with, top_line, versions, versions_with};
use gf_json::Notation;
use gf_listing::Versions;
use gf_ops::ObjectId;
use gf_shape::Point;
use gf_site::Site;
use gf_versions::Version;
use std::alloc::Global;
use test_kit::notation::{id, point};

/// The versions of an object, by the table.
pub(crate) fn all(alloc: Global, site: &Site, text: &str) -> Option<String> {
    let object = ObjectId(id(text)?);
    told(
        alloc,
        versions_with(alloc, &Versions::of(site.indexed()), object),
    )
}

/// The versions of an object, by the plain call.
pub(crate) fn plain_all(alloc: Global, site: &Site, text: &str) -> Option<String> {
    let object = ObjectId(id(text)?);
    told(alloc, versions(alloc, site.history(), object))
}

fn told(alloc: Global, versions: Result<Vec<Version>, GroupFault>) -> Option<String> {
    match versions {
        Ok(versions) => lines_of(alloc, versions.as_slice()),
        Err(fault) => format!(in alloc; "{fault}").ok(),
    }
}

/// The line of one version, or how many lines there are.
fn lines_of(alloc: Global, versions: &[Version]) -> Option<String> {
    let text = String::from_utf8(lines(alloc, Notation::Words, versions).ok()?).ok()?;
    match text.lines().count() {
        1 => String::from_str(alloc, text.trim()).ok(),
        count => format!(in alloc; "{count} lines").ok(),
    }
}

/// What is on top at a point, by the table.
pub(crate) fn top(alloc: Global, site: &Site, text: &str) -> Option<String> {
    let point = point(text)?;
    let name = top_at_with(alloc, &Versions::of(site.indexed()), point).ok()?;
    line_of(alloc, point, name)
}

/// What is on top at a point, by the plain call.
pub(crate) fn plain_top(alloc: Global, site: &Site, text: &str) -> Option<String> {
    let point = point(text)?;
    let name = top_at(alloc, site.history(), point).ok()?;
    line_of(alloc, point, name)
}

fn line_of(alloc: Global, point: Point, name: Option<VersionName>) -> Option<String> {
    let text = String::from_utf8(top_line(
        alloc,
        Notation::Words,
        point,
        name.as_ref(),
    ).ok()?).ok()?;
    String::from_str(alloc, text.trim()).ok()
}
