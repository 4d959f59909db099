//! Laws of growth, each the contract of a function that does nothing.

ghost use Rattle.std.specs.Prelude.{◌≡◌, ◌↔◌, ◌⊎◌, ℕ, Bool, false, true, List, Contains, map};
ghost use Rattle.gf_maximal.specs.Classes.{ClassesState, AreClasses, used, spread};
ghost use Rattle.gf_maximal.specs.LargestSets.{IsRising, AreLargestSets};
ghost use Rattle.gf_maximal.specs.Parents.{next_cut};
ghost use Rattle.gf_maximal.specs.Rows.{conflict};

/// From all largest compatible sets of some numbers, each once, the rule makes those with one more
/// number, each once.
pub fn each_set_has_one_parent()
    ensures { (c : ℕ → ℕ → Bool) → ((a b : ℕ) → c a b ≡ c b a) → ((a : ℕ) → c a a ≡ false)
        → (us d all : List ℕ) (x : ℕ) → IsRising us → ¬ (Contains us x)
        → ((a : ℕ) → Contains d a ↔ (Contains us a × (c x a ≡ true)))
        → ((a : ℕ) → Contains all a ↔ (Contains us a ⊎ (a ≡ x)))
        → (gs : List (List ℕ)) → AreLargestSets c us gs
        → AreLargestSets c all (next_cut c us d x gs) }
{}

/// From all largest compatible sets of classes, each once, come those of their members, each once.
pub fn the_sets_of_classes_are_the_sets_of_their_members()
    ensures { (c : ℕ → ℕ → Bool) (us : List ℕ) (s : ClassesState) → AreClasses c us s
        → (gs : List (List ℕ)) → AreLargestSets (conflict s.rows) (used s) gs
        → AreLargestSets c us (map (spread s) gs) }
{}
