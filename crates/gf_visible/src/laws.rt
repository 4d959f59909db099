//! What the search finds, the contract of a function that does nothing.

ghost use Rattle.std.specs.Prelude.{◌≡◌, ℕ, Bool, List, false};
ghost use Rattle.gf_maximal.specs.LargestSets.{IsRising};
ghost use Rattle.gf_visible.specs.Choices.{AreShowing, showing};

/// The choices among positions are their largest compatible sets that show, each once. In such a
/// set each position that hides is covered. Conflicts have to be symmetric and irreflexive.
pub fn the_choices_are_the_largest_sets_that_show()
    ensures { (hides : ℕ → Bool) (covers rivals : ℕ → ℕ → Bool)
        → ((a b : ℕ) → rivals a b ≡ rivals b a) → ((a : ℕ) → rivals a a ≡ false)
        → (us : List ℕ) → IsRising us
        → AreShowing hides covers rivals us (showing hides covers rivals us) }
{}
