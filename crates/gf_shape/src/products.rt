//! Gaps between coordinates and their products, which pass 64 bits.

ghost use Rattle.std.specs.Prelude.{◌≡◌, ◌-ℤ◌, ◌*ℤ◌, ◌*◌, ◌≤◌, ◌^◌, unsigned_abs};

/// How far `to` is past `from`.
#[tactic(auto, using(std::proofs::lemmas::Int::ints))]
pub(crate) fn gap(from: i32, to: i32) -> i64
    ensures value { result ≡ to -ℤ from }
    ensures small { unsigned_abs result ≤ 2 ^ 32 }
{
    to as i64 - from as i64
}

/// A gap times another.
pub(crate) fn product(a: i64, b: i64) -> i128
    requires a { unsigned_abs a ≤ 2 ^ 32 }
    requires b { unsigned_abs b ≤ 2 ^ 32 }
    ensures value { result ≡ a *ℤ b }
    ensures small { unsigned_abs result ≤ 2 ^ 64 }
{
    a as i128 * b as i128
}

/// A distance times itself.
pub(crate) fn square(n: u64) -> u128
    requires { n ≤ 2 ^ 32 }
    ensures value { result ≡ n * n }
    ensures small { result ≤ 2 ^ 64 }
{
    n as u128 * n as u128
}
