//! What the worked examples begin with: sites with their histories, and what is told of them.

use gf_base::OutOfMemory;
use gf_groups::{Group, GroupFault, Groups};
use gf_ops::OpId;
use gf_shape::Rect;
use gf_site::{Site, Step};
use std::alloc::Global;
use test_kit::at;
use test_kit::notation::{operation, push_ids};

/// The object of all examples.
pub(crate) const BOX: OpId = OpId { site: 1, seq: 1 };

/// The operation that makes the red box.
pub(crate) const RED_BOX_MADE: &str = "1.1: box 300 400, place 100,200, colour ff0000";

/// A box to which two sites give a colour.
pub(crate) const TWO_COLOURS: &str = "\
1.1: box 10 10, colour ff0000
1.2 after 1: 1.1 colour 0000ff
2.1 after 1: 1.1 colour 00ff00";

/// A box to which two sites give a colour, and of which one then moves both versions.
pub(crate) const MOVED: &str = "\
1.1: box 10 10, colour ff0000
1.2 after 1: 1.1 colour 0000ff
2.1 after 1: 1.1 colour 00ff00
1.3 after 2 1: 1.1 place 100,0
1.4 after 3 1: 1.1 place 200,0";

/// The red box as a shape.
pub(crate) fn red_box() -> Option<Rect> {
    Rect::new(at(100, 200), 300, 400).ok()
}

/// The third site, once it added the operations, a line each.
pub(crate) fn site(alloc: Global, operations: &str) -> Option<Site> {
    let mut site = Site::new(alloc, 3);
    for line in operations.lines() {
        add(&mut site, alloc, line)?;
    }
    Some(site)
}

fn add(site: &mut Site, alloc: Global, line: &str) -> Option<()> {
    site.receive(operation(alloc, line)?).ok()?;
    match site.step() {
        Ok(Step::Applied(_)) => Some(()),
        _ => None,
    }
}

/// Whether the groups are these, each in brackets.
pub(crate) fn are_groups(alloc: Global, answer: Result<Groups, GroupFault>, want: &str) -> bool {
    match answer {
        Ok(groups) => are_told(alloc, groups.as_slice(), want),
        Err(_) => false,
    }
}

/// Whether these are the groups, each in brackets.
pub(crate) fn are_told(alloc: Global, groups: &[Group], want: &str) -> bool {
    let mut text = String::new(alloc);
    for group in groups {
        if push_ids(alloc, &mut text, group.ops.as_slice()).is_none() {
            return false;
        }
    }
    text.as_str() == want
}

/// Whether these bytes are this text.
pub(crate) fn is_text(answer: Result<Vec<u8>, OutOfMemory>, want: &str) -> bool {
    match answer {
        Ok(text) => text.as_slice() == want.as_bytes(),
        Err(OutOfMemory) => false,
    }
}
