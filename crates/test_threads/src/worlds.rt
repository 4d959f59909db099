//! Which worlds events lead to, by hand from the rules of worlds. The answer is what each site has,
//! and how many messages there are.

use crate::tables::answers;
use std::test::Fail;

const ROWS: &str = "
// tells_a_message_to_another_site: again, to its own site and to no site it changes nothing.
world 2; author 1 box 1 1; offer 2 0; offer 2 0; step 2; step 2; offer 1 0; offer 9 0 | [1.1] [1.1] 1
world 2; author 1 box 1 1; offer 2 0                                                  | [1.1] [] 1
world 2; author 1 box 1 1; step 2                                                     | [1.1] [] 1

// passes_over_events_that_name_no_site_or_no_message
world 2; author 0 box 1 1; author 3 box 1 1; step 0; step 9; offer 1 0; offer 0 0 | [] [] 0
// The message is not there yet.
world 2; offer 2 0; author 1 box 1 1; step 2 | [1.1] [] 1
world 1; author 1 box 1 1; offer 1 1; step 1 | [1.1] 1

// passes_over_refused_changes
world 1; author 1 1.1 layer 3; author 1 box 1 1, layer 10000; author 1 box 1 1; author 1 1.1 points 0,0*3 | [1.1] 1

// waits_for_what_a_message_knows, and comes to one set in each order of offers.
world 3; author 1 box 1 1; offer 2 0; step 2; author 2 1.1 colour 0000ff; offer 3 1; step 3                    | [1.1] [1.1 2.1] [] 2
world 3; author 1 box 1 1; offer 2 0; step 2; author 2 1.1 colour 0000ff; offer 3 1; offer 3 0; step 3; step 3 | [1.1] [1.1 2.1] [1.1 2.1] 2
world 2; author 2 box 1 1; author 1 circle 1; offer 1 0; step 1; offer 2 1; step 2                             | [1.1 2.1] [2.1 1.1] 2
";

#[test]
fn worlds(rt: HostRuntime) -> Result<(), Fail> {
    answers(rt.alloc(), ROWS)
}
