//! Crossings: places on a line of numbers.

ghost use Rattle.std.specs.Prelude.{◌≡◌, ◌≤◌, ◌+ℤ◌, ◌*ℤ◌, ◌≤ℤ◌, ◌<ℤ◌, pos, unsigned_abs};
ghost use Rattle.std.specs.Ordering.{int_eq};
ghost use Rattle.std.specs.Int.{int_div_euclid};
ghost use Rattle.gf_spans.specs.Crossings.{place};
ghost use Rattle.gf_spans.specs.JoiningParts.{start};

/// A place on the line: the number `floor`, or `between` it and the next one.
#[derive(Clone, Copy, Debug, PartialEq, Eq, PartialOrd, Ord)]
pub struct Crossing {
    pub floor: i32,
    pub between: bool,
}

impl Crossing {
    /// The place `x + run * rise / height`.
    pub fn along(x: i32, run: i64, rise: i64, height: i64) -> Crossing
        requires x { unsigned_abs x ≤ 100000000 }
        requires run { unsigned_abs run ≤ 100000000 }
        requires rise { (pos 0 ≤ℤ rise) × (rise ≤ℤ height) }
        requires height { (pos 0 <ℤ height) × (unsigned_abs height ≤ 100000000) }
        ensures { result ≡ place x run rise height }
    {
        let across = product(run, rise);
        let whole = quotient(run, rise, across, height);
        Crossing {
            floor: sum(x, whole),
            between: !is_exact(height, whole, across),
        }
    }

    /// The first number at the place or past it.
    #[tactic(auto, using(std::proofs::lemmas::Int::ints))]
    pub(crate) fn start(self) -> i64
        ensures { result ≡ start self }
    {
        if self.between {
            self.floor as i64 + 1
        } else {
            self.floor as i64
        }
    }
}

fn product(a: i64, b: i64) -> i64
    requires a { unsigned_abs a ≤ 100000000 }
    requires b { unsigned_abs b ≤ 100000000 }
    ensures { result ≡ a *ℤ b }
{
    a * b
}

/// The quotient, rounded down.
fn quotient(run: i64, rise: i64, across: i64, height: i64) -> i64
    requires run { unsigned_abs run ≤ 100000000 }
    requires across { across ≡ run *ℤ rise }
    requires rise { (pos 0 ≤ℤ rise) × (rise ≤ℤ height) }
    requires height { pos 0 <ℤ height }
    ensures value { result ≡ int_div_euclid across height }
    ensures small { unsigned_abs result ≤ 100000000 }
{
    across.div_euclid(height)
}

#[tactic(auto, using(std::proofs::lemmas::Int::ints))]
fn sum(x: i32, whole: i64) -> i32
    requires x { unsigned_abs x ≤ 100000000 }
    requires whole { unsigned_abs whole ≤ 100000000 }
    ensures { result ≡ x +ℤ whole }
{
    (x as i64 + whole) as i32
}

/// Whether a height times a whole number is a distance.
#[tactic(auto, using(std::proofs::lemmas::Int::ints))]
fn is_exact(height: i64, whole: i64, across: i64) -> bool
    requires height { unsigned_abs height ≤ 100000000 }
    requires whole { unsigned_abs whole ≤ 100000000 }
    ensures { result ≡ int_eq (height *ℤ whole) across }
{
    product(height, whole) == across
}
