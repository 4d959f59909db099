//! The positions of what is of one object.

ghost use Rattle.std.specs.Prelude.{◌≡◌, ◌++◌, ◌∷◌, [], IfOk, OnErr, OnOk};

use gf_base::OutOfMemory;
use std::alloc::Global;
use std::marker::Model;

/// Positions in a list, seen as their list.
#[derive(Drop)]
pub struct Positions {
    positions: Vec<usize>,
}

impl Model for Positions {
    ghost use Rattle.std.specs.Prelude.{List, ℕ};

    ghost Value = { List ℕ };

    ghost view = { λ p. p.positions.items };
}

impl Positions {
    /// No positions.
    pub fn new(alloc: Global) -> Positions
        ensures { result ≡ [] }
    {
        Positions {
            positions: Vec::new(alloc),
        }
    }

    /// A copy of the positions.
    pub fn copy(&self, alloc: Global) -> Result<Positions, OutOfMemory>
        ensures { IfOk result (λ copy. copy ≡ self.now) }
    {
        Ok(Positions {
            positions: Vec::from_slice(alloc, &self.positions)?,
        })
    }

    /// Appends a position.
    pub fn push(&mut self, position: usize) -> Result<(), OutOfMemory>
        ensures ok { OnOk result (self.new ≡ self.old ++ position ∷ []) }
        ensures err { OnErr result (self.new ≡ self.old) }
    {
        self.positions.push(position)?;
        Ok(())
    }

    /// The positions in their order.
    pub fn as_slice(&self) -> &[usize]
        ensures { result.now ≡ self.now }
    {
        &self.positions
    }
}
