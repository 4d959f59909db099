//! Worked examples of the definitions, which the logic computes: `specs/` has a file for each subject.
#![tactic(auto)]
