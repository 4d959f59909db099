//! Which columns of a row are free.

ghost use Rattle.std.specs.Prelude.{◌≡◌, ◌↔◌, ℕ, ◌≤◌, ◌<◌, ◌+◌, ◌*◌, ◌/◌, ◌&&◌, not, nat_lt, false};
ghost use Rattle.std.specs.Prelude.{IsTrue, IfSome, None};
ghost use Rattle.gf_scanline.specs.Columns.{is_among, is_from};
ghost use Rattle.gf_scanline.specs.Free.{IsFirst, IsTaken, is_free};

use crate::Columns;
use crate::word::{BITS, first_bits, first_clear, first_set, without};
use std::marker::Model;

/// How many columns a row has at most.
const COLUMNS: usize = BITS * BITS;

/// Which of 4,096 columns are free: a set bit for each, in words of 64. A bit of the summary is set
/// where its word has a set bit.
#[derive(Drop)]
pub(crate) struct FreeColumns {
    words: [u64; BITS],
    summary: u64,
}

impl Model for FreeColumns {
    ghost use Rattle.std.specs.Prelude.{ℕ, List};
    ghost use Rattle.gf_scanline.specs.Free.{IsSummary};

    ghost Value = { List ℕ };

    ghost view = { λ f. f.words };

    ghost invariant = { λ f. IsSummary f.words f.summary };
}

impl FreeColumns {
    /// The first `count` columns.
    pub fn first(count: usize) -> FreeColumns
        requires { count ≤ 4096 }
        ensures { (k : ℕ) → is_free result k ≡ nat_lt k count }
    {
        let mut words = [0; BITS];
        for i in 0..BITS {
            words[i] = first_bits(count.saturating_sub(BITS * i).min(BITS));
        }
        let summary = first_bits(count.div_ceil(BITS));
        FreeColumns { words, summary }
    }

    /// Whether no column is free.
    pub fn is_empty(&self) -> bool
        ensures { IsTrue result ↔ ((k : ℕ) → is_free self.now k ≡ false) }
    {
        self.first_free(0) == COLUMNS
    }

    /// Whether one of the columns is free.
    pub fn has(&self, columns: Columns) -> bool
        ensures some { IsTrue result → (k : ℕ) × IsTrue (is_free self.now k && is_among columns k) }
        ensures none { result ≡ false
            → (k : ℕ) → (is_free self.now k && is_among columns k) ≡ false }
    {
        self.first_free(columns.from) < columns.to.min(COLUMNS)
    }

    /// Takes a run of free columns among some, from the first free one on. They are free no longer.
    pub fn take(&mut self, columns: Columns) -> Option<Columns>
        ensures none { result ≡ None
            → (k : ℕ) → (is_free self.old k && is_among columns k) ≡ false }
        ensures same { result ≡ None → self.new ≡ self.old }
        ensures some { IfSome result (λ run. IsTaken columns self.old self.new run) }
    {
        let mut run = self.take_from_word(columns)?;
        while run.to < columns.to && self.is_free(run.to) {
            let rest = Columns {
                from: run.to,
                to: columns.to,
            };
            match self.take_from_word(rest) {
                Some(more) => run.to = more.to,
                None => return Some(run),
            }
        }
        Some(run)
    }

    fn is_free(&self, column: usize) -> bool
        ensures { result ≡ is_free self.now column }
    {
        self.first_free(column) == column && column < COLUMNS
    }

    /// The first free column from `start` on; 4,096 where there is none.
    #[tactic(auto, using(crate::proofs::FreeLemmas::beyond))]
    fn first_free(&self, start: usize) -> usize
        ensures first { IsFirst (is_free self.now) 4096 start result }
        ensures beyond { (k : ℕ) → 4096 ≤ k → is_free self.now k ≡ false }
    {
        // The summary is read first, so that its invariant is known on each way out.
        let summary = self.summary;
        if COLUMNS <= start {
            return COLUMNS;
        }
        let index = start / BITS;
        let bit = first_set(self.words[index], start % BITS);
        if bit < BITS {
            return BITS * index + bit;
        }
        let next = first_set(summary, index + 1);
        if BITS <= next {
            return COLUMNS;
        }
        BITS * next + first_set(self.words[next], 0)
    }

    /// Takes a run of free columns among some, from the first free one on, all of one word.
    fn take_from_word(&mut self, columns: Columns) -> Option<Columns>
        ensures none { result ≡ None
            → (k : ℕ) → (is_free self.old k && is_among columns k) ≡ false }
        ensures same { result ≡ None → self.new ≡ self.old }
        ensures some { IfSome result (λ run. IsTaken columns self.old self.new run) }
    {
        let from = self.first_free(columns.from);
        if columns.to.min(COLUMNS) <= from {
            return None;
        }
        let index = from / BITS;
        let end = BITS * index + first_clear(self.words[index], from % BITS);
        let to = end.min(columns.to);
        self.remove(index, from % BITS, to - BITS * index);
        Some(Columns { from, to })
    }

    /// Removes the columns of a word from its bit `low` to before `high`.
    fn remove(&mut self, index: usize, low: usize, high: usize)
        requires index { index < 64 }
        requires bits { (low < high) × (high ≤ 64) }
        ensures { (k : ℕ) → is_free self.new k ≡ (is_free self.old k
            && not (is_from (64 * index + low) (64 * index + high) k)) }
    {
        let word = without(self.words[index], low, high);
        self.words[index] = word;
        if word == 0 {
            self.summary = without(self.summary, index, index + 1);
        }
    }
}
