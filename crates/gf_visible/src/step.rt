//! One position, which a choice takes or leaves out.

ghost use Rattle.std.specs.Prelude.{◌≡◌, IfOk};
ghost use Rattle.gf_maximal.specs.Growing.{intersects};
ghost use Rattle.gf_visible.specs.Choices.{first, holds, second};

use gf_base::OutOfMemory;
use gf_maximal::Numbers;
use std::alloc::Global;
use std::marker::Model;

/// One position, and the other positions that matter to it.
#[derive(Drop)]
pub(crate) struct ChoiceStep {
    own: Numbers,
    hides: bool,
    covers: Numbers,
    rivals: Numbers,
}

impl Model for ChoiceStep {
    ghost use Rattle.gf_visible.specs.Choices.{StepState};

    ghost Value = { StepState };

    ghost view = { λ s.
        record { own = s.own; hides = s.hides; covers = s.covers; rivals = s.rivals } };
}

impl ChoiceStep {
    /// The position alone, whether it hides, what covers it, and its rivals.
    pub(crate) fn new(own: Numbers, hides: bool, covers: Numbers, rivals: Numbers) -> ChoiceStep
        ensures { result ≡ record { own = own; hides = hides; covers = covers; rivals = rivals } }
    {
        ChoiceStep {
            own,
            hides,
            covers,
            rivals,
        }
    }

    /// Whether the position is still possible.
    pub(crate) fn is_among(&self, possible: &Numbers) -> bool
        ensures { result ≡ intersects self.now.own possible.now }
    {
        self.own.intersects(possible)
    }

    /// What is possible once the position is left out if it hides, or chosen if it does not.
    pub(crate) fn first(&self, alloc: Global, possible: &Numbers) -> Result<Numbers, OutOfMemory>
        ensures { IfOk result (λ left. left ≡ first self.now possible.now) }
    {
        if self.hides {
            possible.without(alloc, &self.own)
        } else {
            possible.without(alloc, &self.rivals)
        }
    }

    /// What is possible once the position is chosen if it hides, or left out if it does not.
    pub(crate) fn second(&self, alloc: Global, possible: &Numbers) -> Result<Numbers, OutOfMemory>
        ensures { IfOk result (λ left. left ≡ second self.now possible.now) }
    {
        if self.hides {
            possible.without(alloc, &self.rivals)
        } else {
            possible.without(alloc, &self.own)
        }
    }

    /// Whether the position may still be chosen and covered, or be left out for a rival.
    pub(crate) fn holds(&self, possible: &Numbers) -> bool
        ensures { result ≡ holds possible.now self.now }
    {
        (self.own.intersects(possible) && (!self.hides || self.covers.intersects(possible)))
            || self.rivals.intersects(possible)
    }
}
