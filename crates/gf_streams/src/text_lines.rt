//! The lines of a text, one after the other.

ghost use Rattle.std.specs.Prelude.{◌≡◌, ◌<◌, ◌≤◌, ◌+◌, ◌-◌, ◌∷◌, [], ◌^◌, length, take, drop, ℕ};
ghost use Rattle.std.specs.Prelude.{IfOk, IfSome, IfNone, map};
ghost use Rattle.std.specs.List.{position};
ghost use Rattle.gf_streams.specs.LineCutting.{IsNextLine, AreLinesAt, with_line};
ghost use Rattle.gf_streams.specs.TextLines.{is_blank, is_line_end, numbered_from, numbered_lines};

use memchr::memchr;
use std::alloc::{AllocError, Global};
use std::marker::Model;

/// What was given of a text is forgotten from this many bytes on.
const FORGOTTEN_BYTES: usize = 65_536;

/// The lines of a text that are not blank and not yet given, each with its number from 1. Memory is
/// given back as lines are given.
///
/// Giving all lines takes time in proportion to the text.
#[derive(Drop)]
pub struct TextLines {
    text: Vec<u8>,
    next: Place,
}

/// Where the next line stands in a text: its number, its first byte, and how many bytes it has.
/// Without a next line, this is the end of the text.
#[derive(Clone, Copy)]
struct Place {
    number: u64,
    start: usize,
    size: usize,
}

impl Model for TextLines {
    ghost use Rattle.std.specs.Prelude.{List, ℕ, ◌≤◌, length, drop};
    ghost use Rattle.gf_streams.specs.LineCutting.{IsAtSomeLine};
    ghost use Rattle.gf_streams.specs.TextLines.{numbered_from};

    ghost Value = { List (ℕ × List ℕ) };

    ghost view = { λ lines. numbered_from lines.next.number
        (drop lines.next.start lines.text.items) };

    ghost invariant = { λ lines. (lines.next.start ≤ length lines.text.items)
        × IsAtSomeLine (drop lines.next.start lines.text.items) lines.next.number lines.next.size };
}

impl TextLines {
    /// The lines of this text.
    pub fn new(text: Vec<u8>) -> TextLines
        ensures { result ≡ numbered_lines text.items }
    {
        let next = place_of(&text, 0, 1);
        TextLines { text, next }
    }

    /// The first line and its number.
    pub fn first(&self) -> Option<(u64, &[u8])>
        ensures some { IfSome result (λ line. self.now ≡ (line.0, line.1.now) ∷ drop 1 self.now) }
        ensures none { IfNone result (self.now ≡ []) }
    {
        let left = &self.text[self.next.start..];
        if left.is_empty() {
            return None;
        }
        Some((self.next.number, &left[..self.next.size]))
    }

    /// The first `most` lines, or all where they are fewer, each with its number.
    pub fn block(&self, alloc: Global, most: usize) -> Result<Vec<(u64, &[u8])>, AllocError>
        ensures { IfOk result (λ block.
            map (λ line. (line.0, line.1.now)) block.items ≡ take most self.now) }
    {
        first_lines(alloc, &self.text[self.next.start..], self.next.number, most)
    }

    /// Goes on to the line behind the first.
    pub fn advance(&mut self)
        ensures { self.new ≡ drop 1 self.old }
    {
        let Place {
            number,
            start,
            size,
        } = self.next;
        let left = self.text.len() - start;
        if left != 0 {
            let behind = left.saturating_sub(size + 1);
            self.next = place_of(&self.text, self.text.len() - behind, number + 1);
        }
        self.forget_given();
    }

    /// Goes on to the line behind the first `count`.
    pub fn advance_by(&mut self, count: usize)
        ensures { self.new ≡ drop count self.old }
    {
        for _ in 0..count {
            self.advance();
        }
    }

    /// Gives back the memory of what was given, once that is as much as what is left. No more bytes
    /// are moved in all than the text has.
    fn forget_given(&mut self)
        ensures { self.new ≡ self.old }
    {
        let given = self.next.start;
        let left = self.text.len() - given;
        if given < FORGOTTEN_BYTES || given < left {
            return;
        }
        let (front, back) = self.text.split_at_mut(given);
        front[..left].copy_from_slice(back);
        self.text.truncate(left);
        self.text.shrink_to_fit();
        self.next.start = 0;
    }
}

/// Where the first line that is not blank stands in a text from `from` on; the line there has
/// `number`.
fn place_of(text: &[u8], from: usize, number: u64) -> Place
    requires within { from ≤ length text.now }
    requires few { number + length (drop from text.now) < 2 ^ 64 }
    ensures { AreLinesAt text.now from number result.number result.start result.size }
{
    match next_line(&text[from..], number) {
        Some(next) => Place {
            number: next.number,
            start: text.len() - next.from.len(),
            size: next.line.len(),
        },
        None => Place {
            number,
            start: text.len(),
            size: 0,
        },
    }
}

/// A line that is not blank, with its number, and the text from its first byte on.
#[derive(Clone, Copy)]
struct NextLine<'a> {
    number: u64,
    line: &'a [u8],
    from: &'a [u8],
}

/// The first line of a text that is not blank, where its first line has this number.
fn next_line(text: &[u8], number: u64) -> Option<NextLine<'_>>
    requires { number + length text.now < 2 ^ 64 }
    ensures some { IfSome result (λ next.
        IsNextLine number text.now next.number next.line.now next.from.now) }
    ensures none { IfNone result (numbered_from number text.now ≡ []) }
{
    let mut from = text;
    let mut number = number;
    while !from.is_empty() {
        let (line, rest) = cut_line(from);
        if !is_blank(line) {
            return Some(NextLine { number, line, from });
        }
        from = rest;
        number += 1;
    }
    None
}

/// The text behind its first line, which has `size` bytes.
fn behind(text: &[u8], size: usize) -> &[u8]
    ensures { result.now ≡ drop (size + 1) text.now }
{
    if size < text.len() {
        &text[size + 1..]
    } else {
        &[]
    }
}

/// The first `most` lines of a text that are not blank, where its first line has this number.
fn first_lines(
    alloc: Global,
    text: &[u8],
    number: u64,
    most: usize,
) -> Result<Vec<(u64, &[u8])>, AllocError>
    requires { number + length text.now < 2 ^ 64 }
    ensures { IfOk result (λ block. map (λ line. (line.0, line.1.now)) block.items
        ≡ take most (numbered_from number text.now)) }
{
    let mut block = Vec::new(alloc);
    let mut left = text;
    let mut number = number;
    while block.len() < most {
        let Some(next) = next_line(left, number) else {
            break;
        };
        block.push((next.number, next.line))?;
        left = behind(next.from, next.line.len());
        number = next.number + 1;
    }
    Ok(block)
}

fn is_blank(line: &[u8]) -> bool
    ensures { result ≡ is_blank line.now }
{
    line.iter()
        .all(|b| *b == b' ' || *b == b'\t' || *b == b'\r')
}

/// Where the first line ends, if an end follows it.
fn line_end(text: &[u8]) -> Option<usize>
    ensures { result ≡ position is_line_end text.now }
{
    memchr(b'\n', text)
}

/// The first line of a text, and what stands behind its end.
#[tactic(auto, using(crate::proofs::CuttingLemmas::cuts))]
fn cut_line(text: &[u8]) -> (&[u8], &[u8])
    requires { 0 < length text.now }
    ensures cut { (n : ℕ) → numbered_from n text.now
        ≡ with_line n result.0.now (numbered_from (n + 1) result.1.now) }
    ensures shorter { length result.1.now < length text.now }
    ensures rest { result.1.now ≡ drop (length text.now - length result.1.now) text.now }
    ensures prefix { result.0.now ≡ take (length result.0.now) text.now }
    ensures within { length result.0.now ≤ length text.now }
    ensures behind { result.1.now ≡ drop (length result.0.now + 1) text.now }
{
    match line_end(text) {
        Some(end) => (&text[..end], &text[end + 1..]),
        None => (text, &[]),
    }
}
