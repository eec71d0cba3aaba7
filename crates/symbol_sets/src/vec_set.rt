// A set that is kept as a vector of Booleans.
ghost use Rattle.std.specs.Prelude.{◌≡◌, IfOk};
ghost use Rattle.symbol_sets.specs.Numbers.{has, is_none, with_number, without_number, none_below};

use crate::set::SymbolSet;
use std::alloc::{AllocError, Global};
use std::marker::Model;

/// A set of numbers that keeps a Boolean for each number below its capacity, one byte each.
#[derive(Drop)]
pub struct VecSet {
    held: Vec<bool>,
}

impl Model for VecSet {
    ghost use Rattle.std.specs.Prelude.{Bool, List, ◌<◌, ◌^◌, length};

    ghost Value = { List Bool };

    ghost view = { λ s. s.held.items };

    ghost invariant = { λ s. length s.held.items < 2 ^ 32 };
}

impl VecSet {
    /// A set that nothing is in. It fails only for want of memory.
    pub fn new(alloc: Global, capacity: u32) -> Result<VecSet, AllocError>
        ensures empty { IfOk result (λ s. s ≡ none_below capacity) }
    {
        let mut held = Vec::new(alloc);
        held.resize(capacity as usize, false)?;
        Ok(VecSet { held })
    }
}

impl SymbolSet for VecSet {
    ghost held = { λ s. s };

    fn capacity(&self) -> u32 {
        self.held.len() as u32
    }

    fn contains(&self, n: u32) -> bool {
        let n = n as usize;
        n < self.held.len() && self.held[n]
    }

    fn is_empty(&self) -> bool {
        !self.held.iter().any(|held| *held)
    }

    fn set_bit(&mut self, n: u32) {
        let n = n as usize;
        if n < self.held.len() {
            self.held[n] = true;
        }
    }

    fn unset_bit(&mut self, n: u32) {
        let n = n as usize;
        if n < self.held.len() {
            self.held[n] = false;
        }
    }

    fn clear(&mut self) {
        self.held.fill(false);
    }
}
