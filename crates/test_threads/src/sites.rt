//! What a site answers, by hand from the rules of sites.

use crate::tables::answers;
use std::test::Fail;

const ROWS: &str = "
// holds_until_its_past_comes: 2.1 knows 1.1.
site 3                                 | 3
receive 2.1 after 1: 1.1 colour 0000ff | Held, 1
step                                   | Idle
held                                   | 1
versions 1.1                           | NoObject
receive 1.1: box 10 10                 | Held, 2
step                                   | Applied 1.1
step                                   | Applied 2.1
step                                   | Idle
operations                             | 1.1 2.1
held                                   | 0
versions 1.1                           | 1
receive 1.1: box 10 10                 | Already, 0
receive 2.1 after 1: 1.1 colour 0000ff | Already, 0
receive 2.1 after 1: 1.1 colour 0000ff | Already, 0
receive 1.1: box 10 11                 | Clash, 0
receive 1.1: box 10 0                  | Range, 0

// drops_an_operation_that_does_not_fit, and that one alone.
site 3                                | 3
receive 1.1: box 10 10                | Held, 1
receive 1.2: box 1 1                  | Held, 2
receive 2.1 after 1: 1.1 layer 3      | Held, 3
receive 4.1: 1.1 layer 3              | Held, 4
receive 5.1 after 1: 1.1 points 0,0*3 | Held, 5
step                                  | Applied 1.1
// It doesn't know the operation of its site before it.
step       | Dropped 1.2 BadClock
held       | 3
step       | Applied 2.1
step       | Dropped 4.1 NoObject
step       | Dropped 5.1 WrongKind
step       | Idle
operations | 1.1 2.1

// drops_an_operation_that_does_not_know_what_another_one_knew: 3.1 knows 1.1, and not 2.1.
site 4                         | 4
receive 2.1: box 1 1           | Held, 1
receive 1.1 after 0 1: box 1 1 | Held, 2
receive 3.1 after 1: box 1 1   | Held, 3
step                           | Applied 2.1
step                           | Applied 1.1
step                           | Dropped 3.1 BadClock
receive 1.1: box 1 1           | Clash, 0
held                           | 0
operations                     | 2.1 1.1

// refuses_forged_operations, each time at a copy of a site that has the box 1.1 alone.
site 3                                 | 3
receive 1.1: box 10 10                 | Held, 1
step                                   | Applied 1.1
copy                                   | ok
swap                                   | ok
copy                                   | ok
receive 1.3 after 2: box 1 1           | Held, 1
step                                   | Idle
swap                                   | ok
copy                                   | ok
receive 2.1 after 2: box 1 1           | Held, 1
step                                   | Idle
swap                                   | ok
copy                                   | ok
receive 2.1 after 1 1: box 1 1         | Held, 1
step                                   | Dropped 2.1 BadClock
swap                                   | ok
copy                                   | ok
receive 2.1: 1.1 colour 0000ff         | Held, 1
step                                   | Dropped 2.1 NoObject
swap                                   | ok
copy                                   | ok
receive 2.1 after 1: 1.1 points 0,0*3  | Held, 1
step                                   | Dropped 2.1 WrongKind
// The same id again, right this time.
receive 2.1 after 1: 1.1 colour 0000ff | Held, 1
step                                   | Applied 2.1
operations                             | 1.1 2.1
swap                                   | ok
copy                                   | ok
receive 9.1: box 1 1                   | Range, 0
swap                                   | ok
copy                                   | ok
receive 2.1 after 10001: box 1 1       | Range, 0
swap                                   | ok
copy                                   | ok
receive 1.1: box 10 10, colour 0000ff  | Clash, 0
operations                             | 1.1

// takes_the_least_id_that_is_ready
site 3                       | 3
receive 2.1: box 1 1         | Held, 1
receive 1.2 after 1: box 1 1 | Held, 2
receive 1.1: box 1 1         | Held, 3
step                         | Applied 1.1
step                         | Applied 1.2
step                         | Applied 2.1

// refuses_changes
site 1                      | 1
author 1.1 layer 3          | NoObject
author box 1 1              | 1.1
author 1.1 points 0,0*3     | WrongKind
author box 1 1, layer 10000 | Range
author 1.2 layer 10000      | Range
author 1.1 layer 9999       | 1.2
author circle 3             | 1.3
author 1.3 size 4 5         | WrongKind
author 1.3 size 5 5         | 1.4
operations                  | 1.1 1.2 1.3 1.4

// refuses_aims
site 1                         | 1
author 1.1 layer 3 aim 1.1     | NoObject
author box 1 1                 | 1.1
author 1.1 points 0,0*3 aim 1.9 | WrongKind
author 1.1 layer 3 aim 1.9     | BadAim
author 1.1 layer 3 aim 1.1 1.1 | Range
author 1.1 layer 3 aim 1.1     | 1.2
author 1.1 layer 4 aim 1.2     | BadAim
author 1.1 layer 4 aim 1.1 1.2 | 1.3
author box 1 1                 | 1.4
author 1.1 layer 5 aim 1.4     | BadAim
// What comes from others is refused alike.
receive 2.1 after 3: 1.1 layer 5 aim 1.2 | Held, 1
step                           | Dropped 2.1 BadAim
receive 2.1 after 3: 1.1 layer 5 aim 1.1 1.2 | Held, 1
step                           | Applied 2.1
operations                     | 1.1 1.2 1.3 1.4 2.1

// makes_no_more_than_10000
site 8               | 8
fill 10000           | 8.10000
author box 1 1       | Exhausted
author box 0 0       | Exhausted
author 1.1 layer 3   | Exhausted
receive 1.1: box 1 1 | Held, 1
step                 | Applied 1.1

// knows_what_its_history_has
site 2                   | 2
receive 3.1: box 1 1     | Held, 1
receive 1.1: box 1 1     | Held, 2
author box 1 1           | 2.1
past 2.1                 | 0 0 0
step                     | Applied 1.1
author 1.1 colour 0000ff | 2.2
past 2.2                 | 1 1 0
step                     | Applied 3.1
author 3.1 colour 0000ff | 2.3
past 2.3                 | 1 2 1

// has_the_versions_of_its_history
site 3                                 | 3
receive 1.1: box 10 10                 | Held, 1
receive 1.2 after 1: 1.1 colour 00ff00 | Held, 2
receive 2.1 after 1: 1.1 colour 0000ff | Held, 3
step                                   | Applied 1.1
step                                   | Applied 1.2
versions 1.1                           | 1
step                                   | Applied 2.1
versions 1.1                           | 2
// It knows both, so it stands in each.
author 1.1 colour ff0000 | 3.1
versions 1.1             | 2

// never_applies_what_it_used_the_id_of_since
site 1                | 1
receive 1.1: circle 1 | Held, 1
author box 1 1        | 1.1
step                  | Idle
held                  | 1

// copies_are_equal: the copy has the same history and holds the same, and goes on by itself.
site 3                                 | 3
receive 1.1: box 10 10                 | Held, 1
step                                   | Applied 1.1
receive 2.1 after 1: 1.1 colour 0000ff | Held, 1
receive 4.2 after 1: box 1 1           | Held, 2
copy                                   | ok
step                                   | Applied 2.1
author box 2 2                         | 3.1
swap                                   | ok
operations                             | 1.1
versions 1.1                           | 1
held                                   | 2
receive 4.2 after 1: box 1 1           | Already, 2
receive 4.2 after 1: box 1 2           | Clash, 2
step                                   | Applied 2.1
step                                   | Idle
author circle 2                        | 3.1
past 3.1                               | 1 1 0
swap                                   | ok
operations                             | 1.1 2.1 3.1
held                                   | 1
";

#[test]
fn sites(rt: HostRuntime) -> Result<(), Fail> {
    answers(rt.alloc(), ROWS)
}
