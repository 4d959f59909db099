//! Colour tables.

ghost use Rattle.std.specs.Prelude.{◌≡◌, [], ◌∷◌, ◌++◌, length, slice_get, OnOk, OnErr, nat_eq};
ghost use Rattle.gf_figures.specs.Colours.{colour_in};
ghost use Rattle.gf_figures.specs.DrawingState.{IsFreeNumber};

use gf_base::OutOfMemory;
use gf_shape::Rgb;
use indexmap::IndexMap;
use std::alloc::Global;
use std::marker::Model;

/// The colours that a drawing adds to the standard ones, by their numbers, in the order of
/// adding.
#[derive(Drop)]
pub struct ColourTable {
    entries: IndexMap<u16, Rgb>,
}

impl Model for ColourTable {
    ghost use Rattle.gf_figures.specs.Colours.{Table};

    ghost Value = { Table };

    ghost view = { λ t. t.entries.entries };
}

impl ColourTable {
    /// The table of no colours.
    pub(crate) fn new(alloc: Global) -> ColourTable
        ensures { result ≡ [] }
    {
        ColourTable {
            entries: IndexMap::new(alloc),
        }
    }

    /// How many colours the table has.
    pub fn len(&self) -> usize
        ensures { result ≡ length self.now }
    {
        self.entries.len()
    }

    /// Whether the table has no colour.
    pub fn is_empty(&self) -> bool
        ensures { result ≡ nat_eq (length self.now) 0 }
    {
        self.entries.is_empty()
    }

    /// The number and the colour with the index `i`, counted from 0.
    pub fn at(&self, i: usize) -> Option<(u16, Rgb)>
        ensures { result ≡ slice_get self.now i }
    {
        let (number, colour) = self.entries.get_index(i)?;
        Some((*number, *colour))
    }

    /// The colour under a number.
    #[tactic(auto, using(crate::proofs::TableLemmas::lookup_by_number))]
    pub(crate) fn colour(&self, number: u16) -> Option<Rgb>
        ensures { result ≡ colour_in self.now number }
    {
        self.entries.get(&number).copied()
    }

    /// Adds a colour at the end.
    pub(crate) fn add(&mut self, number: u16, colour: Rgb) -> Result<(), OutOfMemory>
        requires { IsFreeNumber self.old number }
        ensures ok { OnOk result (self.new ≡ self.old ++ (number, colour) ∷ []) }
        ensures err { OnErr result (self.new ≡ self.old) }
    {
        self.entries.insert(number, colour)?;
        Ok(())
    }
}
