//! Words of 64 bits.

ghost use Rattle.std.specs.Prelude.{◌≡◌, ℕ, ◌≤◌, ◌<◌, ◌&&◌, not, nat_lt};
ghost use Rattle.gf_scanline.specs.Columns.{is_from};
ghost use Rattle.gf_scanline.specs.Free.{IsFirst, is_set};

/// How many bits a word has.
pub(crate) const BITS: usize = 64;

/// The first set bit from `start` on; 64 where there is none.
#[tactic(auto, using(crate::proofs::WordLemmas::first_set_is))]
pub(crate) fn first_set(word: u64, start: usize) -> usize
    ensures { IsFirst (is_set word) 64 start result }
{
    if BITS <= start {
        return BITS;
    }
    (word & (u64::MAX << start)).trailing_zeros() as usize
}

/// The first clear bit from `start` on; 64 where there is none.
#[tactic(auto, using(crate::proofs::WordLemmas::first_clear_is))]
pub(crate) fn first_clear(word: u64, start: usize) -> usize
    ensures { IsFirst (λ i. not (is_set word i)) 64 start result }
{
    first_set(!word, start)
}

/// The word without its bits from `low` to before `high`.
#[tactic(auto, using(crate::proofs::WordLemmas::without_set))]
pub(crate) fn without(word: u64, low: usize, high: usize) -> u64
    requires { (low < high) × (high ≤ 64) }
    ensures { (i : ℕ) → i < 64
        → is_set result i ≡ (is_set word i && not (is_from low high i)) }
{
    word & !((u64::MAX << low) & (u64::MAX >> (BITS - high)))
}

/// The word of the first `count` bits.
#[tactic(auto, using(crate::proofs::WordLemmas::low_set))]
pub(crate) fn first_bits(count: usize) -> u64
    requires { count ≤ 64 }
    ensures { (i : ℕ) → i < 64 → is_set result i ≡ nat_lt i count }
{
    u64::MAX.checked_shr((BITS - count) as u32).unwrap_or(0)
}
