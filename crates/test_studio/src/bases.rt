//! The bases of a small history.

use gf_site::{Site, Step};
use gf_take::base_site;
use std::alloc::Global;
use std::test::Fail;
use test_kit::notation::{clock, history_ids, operation};
use test_kit::{Answers, ask};

const ROWS: &str = "
make 1.1: box 1 1         | Applied
make 1.2 after 1: box 1 1 | Applied
make 1.3 after 2: box 1 1 | Applied
// It knows 1.1 and 1.2.
make 2.1 after 2: box 1 1 | Applied
// It knows 1.1.
make 3.1 after 1: box 1 1 | Applied

// A site that saw nothing has its own operations, and what these know.
base 2 saw | 1.1 1.2 2.1
base 1 saw | 1.1 1.2 1.3
base 4 saw |

// It has what it saw, and what this knows.
base 4 saw 1     | 1.1
base 4 saw 0 0 1 | 1.1 3.1
base 2 saw 0 0 1 | 1.1 1.2 2.1 3.1
base 4 saw 3 1 1 | 1.1 1.2 1.3 2.1 3.1

// More than there is can be counted.
base 4 saw 9 0 1 | 1.1 1.2 1.3 3.1
base 9 saw 1     | no site
";

/// A site that has the history.
#[derive(Drop)]
struct Reader {
    site: Site,
}

impl Answers for Reader {
    fn answer(&mut self, alloc: Global, question: &str) -> Option<String> {
        let (verb, text) = question.split_once(' ')?;
        match verb {
            "make" => make(alloc, &mut self.site, text),
            "base" => base(alloc, &self.site, text),
            _ => None,
        }
    }
}

fn make(alloc: Global, site: &mut Site, text: &str) -> Option<String> {
    site.receive(operation(alloc, text)?).ok()?;
    match site.step() {
        Ok(Step::Applied(_)) => String::from_str(alloc, "Applied").ok(),
        _ => None,
    }
}

fn base(alloc: Global, site: &Site, text: &str) -> Option<String> {
    let (number, seen) = text.split_once(" saw")?;
    let number: u8 = number.parse().ok()?;
    if number < 1 || 8 < number {
        return String::from_str(alloc, "no site").ok();
    }
    let base = base_site(alloc, number, site.history(), &clock(seen)?).ok()?;
    history_ids(alloc, base.history())
}

#[test]
fn bases_have_what_was_seen_and_made_and_known(rt: HostRuntime) -> Result<(), Fail> {
    let site = Site::new(rt.alloc(), 8);
    ask(rt.alloc(), ROWS, &mut Reader { site })
}
