//! The tokens of a FIG text, and fields read from them one after another.

ghost use Rattle.std.specs.Prelude.{◌≡◌, ◌≤◌, ◌<◌, [], ◌∷◌, length, drop, nat_eq, MatchOption};
ghost use Rattle.std.specs.Prelude.{IfSome, IfOk, IfErr, OnOk, IsTrue, Ok, Err, option_copied};
ghost use Rattle.std.specs.Prelude.{◌+◌, false};
ghost use Rattle.std.specs.Option.{option_map_or};
ghost use Rattle.std.specs.Cmp.Lexicographic.{pointwise};
ghost use Rattle.gf_plane.specs.Reach.{is_reached, is_within_reach};
ghost use Rattle.gf_fig_tokens.specs.Layout.{tokens, plain, lines, plain_lines, after_resolution};
ghost use Rattle.gf_fig_tokens.specs.Layout.{object_tokens};
ghost use Rattle.gf_fig_tokens.specs.Forms.{whole, decimal, colour};
ghost use Rattle.gf_fig_tokens.specs.Fields.{StepsAs, any, natural, coordinate, point};
ghost use Rattle.gf_fig_tokens.specs.Stepping.{LeavesTokens};

use crate::layout::{cut_line, cut_plain_line, cut_word, is_version};
use crate::{FigFault, forms};
use gf_plane::{Point, Rgb};
use std::marker::Model;

/// What is left of a line, and what follows it; seen in clauses as the tokens that they hold.
#[derive(Drop)]
pub struct Tokens<'a> {
    line: &'a [u8],
    rest: &'a [u8],
}

impl<'a> Model for Tokens<'a> {
    ghost use Rattle.std.specs.Prelude.{List, ℕ};
    ghost use Rattle.gf_fig_tokens.specs.Layout.{tokens_left};

    ghost Value = { List (List ℕ) };

    ghost view = { λ t. tokens_left t.line.now t.rest.now };
}

impl<'a> Tokens<'a> {
    /// The tokens of the objects of a text.
    #[tactic(auto, unfolding(crate::specs::Layout::object_tokens))]
    pub fn of_objects(text: &'a [u8]) -> Result<Tokens<'a>, FigFault>
        ensures ok { IfOk result (λ tokens. object_tokens text.now ≡ Ok tokens) }
        ensures err { IfErr result (λ fault. object_tokens text.now ≡ Err fault) }
        ensures few { IfOk result (λ tokens. length tokens + 2 ≤ length text.now) }
    {
        if !is_version(text) {
            return Err(FigFault::Version);
        }
        let Some(rest) = after_header(text) else {
            return Err(FigFault::Header);
        };
        let mut tokens = Tokens::of_lines(rest);
        tokens.take_resolution()?;
        Ok(tokens)
    }

    #[tactic(auto, using(crate::proofs::LayoutLemmas::few_tokens))]
    fn of_lines(text: &'a [u8]) -> Tokens<'a>
        ensures tokens { result ≡ tokens (plain (lines text.now)) }
        ensures few { length result ≤ length text.now }
    {
        Tokens {
            line: &[],
            rest: text,
        }
    }

    /// Takes the first two tokens, which are the resolution.
    fn take_resolution(&mut self) -> Result<(), FigFault>
        ensures read { LeavesTokens result self.new (after_resolution self.old) }
        ensures few { OnOk result (length self.new + 2 ≤ length self.old) }
    {
        let first = self.next_token();
        let second = self.next_token();
        if is_text(first, b"1200") && is_text(second, b"2") {
            Ok(())
        } else {
            Err(FigFault::Resolution)
        }
    }

    /// The next token.
    pub fn next_token(&mut self) -> Option<&'a [u8]>
        ensures { MatchOption result ((self.old ≡ []) × (self.new ≡ []))
            (λ token. self.old ≡ token.now ∷ self.new) }
    {
        loop {
            if let Some((token, after)) = cut_word(self.line) {
                self.line = after;
                return Some(token);
            }
            let (line, rest) = cut_plain_line(self.rest)?;
            self.line = line;
            self.rest = rest;
        }
    }

    /// A whole number of any value.
    pub fn whole(&mut self) -> Result<i64, FigFault>
        ensures { StepsAs result self.new (any whole self.old) }
    {
        match self.next_token() {
            None => Err(FigFault::Cut),
            Some(token) => forms::whole(token).ok_or(FigFault::Token),
        }
    }

    /// A decimal of any value, and whether it is zero.
    pub fn decimal(&mut self) -> Result<bool, FigFault>
        ensures { StepsAs result self.new (any decimal self.old) }
    {
        match self.next_token() {
            None => Err(FigFault::Cut),
            Some(token) => forms::decimal(token).ok_or(FigFault::Token),
        }
    }

    pub fn colour(&mut self) -> Result<Rgb, FigFault>
        ensures { StepsAs result self.new (any colour self.old) }
    {
        match self.next_token() {
            None => Err(FigFault::Cut),
            Some(token) => forms::colour(token).ok_or(FigFault::Token),
        }
    }

    /// A whole number from `low` to `high`.
    #[tactic(auto, using(std::proofs::lemmas::Int::ints), unfolding(crate::specs::Fields::natural))]
    pub fn natural(&mut self, low: u32, high: u32, wrong: FigFault) -> Result<u32, FigFault>
        ensures read { StepsAs result self.new (natural low high wrong self.old) }
        ensures within { IfOk result (λ n. (low ≤ n) × (n ≤ high)) }
    {
        let n = self.whole()?;
        if i64::from(low) <= n && n <= i64::from(high) {
            Ok(n as u32)
        } else {
            Err(wrong)
        }
    }

    /// A coordinate within reach.
    #[tactic(auto, using(std::proofs::lemmas::Int::ints), unfolding(gf_plane::specs::Reach::is_reached))]
    pub fn coordinate(&mut self) -> Result<i32, FigFault>
        ensures read { StepsAs result self.new (coordinate self.old) }
        ensures within { IfOk result (λ n. IsTrue (is_reached n)) }
    {
        let n = self.whole()?;
        if -10_000_000 <= n && n <= 10_000_000 {
            Ok(n as i32)
        } else {
            Err(FigFault::Range)
        }
    }

    #[tactic(auto, unfolding(crate::specs::Fields::point))]
    pub fn point(&mut self) -> Result<Point, FigFault>
        ensures read { StepsAs result self.new (point self.old) }
        ensures within { IfOk result (λ p. IsTrue (is_within_reach p)) }
    {
        let x = self.coordinate()?;
        let y = self.coordinate()?;
        Ok(Point { x, y })
    }
}

/// Whether there is a token, and it is the text.
fn is_text(token: Option<&[u8]>, text: &[u8]) -> bool
    ensures { result ≡ option_map_or (λ t. pointwise nat_eq t text.now) (option_copied token.entry)
        false }
{
    match token {
        Some(token) => token == text,
        None => false,
    }
}

/// What follows the first line and seven more that are no comments.
#[tactic(auto, using(crate::proofs::LayoutLemmas::drop_more, crate::proofs::LayoutLemmas::drop_none))]
fn after_header(text: &[u8]) -> Option<&[u8]>
    ensures few { IfSome result (λ rest. length rest.now ≤ length text.now) }
    ensures lines { MatchOption result (length (plain_lines text.now) < 7)
        (λ rest. (7 ≤ length (plain_lines text.now))
        × (plain (lines rest.now) ≡ drop 7 (plain_lines text.now))) }
{
    let mut rest = cut_line(text)?.1;
    for _ in 0..7u32 {
        rest = cut_plain_line(rest)?.1;
    }
    Some(rest)
}
