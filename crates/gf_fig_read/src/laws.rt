//! Laws of the FIG grammar.

ghost use Rattle.std.specs.Prelude.{◌≡◌, ◌≢◌, ◌⊎◌, ◌↔◌, All, IsTrue, List, ℕ};
ghost use Rattle.gf_shape.specs.ShapeLaws.{IsLawful};
ghost use Rattle.gf_fig_read.specs.FigGrammar.{Reads, Fails, is_of_header};
ghost use Rattle.gf_fig_read.specs.Objects.{Drawn};
ghost use Rattle.gf_fig_tokens.specs.declared.faults.FigFault.{FigFault};
ghost use Rattle.gf_fig_tokens.specs.declared.faults.FigFault.TheVariants as fault;

/// Every text reads as exactly one drawing, or fails with exactly one fault and number, and never
/// both. The number is 0 for a fault before the objects, and want of memory is no fault of a text.
pub fn every_text_reads_as_one_drawing_or_fails_once()
    ensures either { (text : List ℕ)
        → ((d : Drawn) × Reads text d) ⊎ ((f : FigFault) × (n : ℕ) × Fails text f n) }
    ensures one_drawing { (text : List ℕ) (d e : Drawn) → Reads text d → Reads text e → d ≡ e }
    ensures one_fault { (text : List ℕ) (f g : FigFault) (m n : ℕ) → Fails text f m → Fails text g n
        → (f ≡ g) × (m ≡ n) }
    ensures not_both { (text : List ℕ) (d : Drawn) (f : FigFault) (n : ℕ) → Reads text d
        → ¬ (Fails text f n) }
    ensures header { (text : List ℕ) (f : FigFault) (n : ℕ) → Fails text f n
        → n ≡ 0 ↔ IsTrue (is_of_header f) }
    ensures memory { (text : List ℕ) (f : FigFault) (n : ℕ) → Fails text f n
        → f ≢ fault.OutOfMemory }
{}

/// The figures that a text reads as have outlines within the limits of their kinds.
pub fn what_a_text_reads_as_is_lawful()
    ensures { (text : List ℕ) (d : Drawn) → Reads text d → All (λ f. IsLawful f.shape) d.figures }
{}
