// The nodes above the one that a walk is at.
ghost use Rattle.std.specs.Prelude.{◌≡◌, ◌+◌, ◌<◌, ◌^◌, length, reverse};
ghost use Rattle.std.specs.Iterator.{YieldsFirst, item_count};
ghost use Rattle.min_context.specs.Ancestry.{nearest};

use crate::ancestor::Ancestor;
use crate::context::MinifierTraverseCtx;
use std::marker::Model;

impl MinifierTraverseCtx {
    /// How many nodes stand above, and the place past the program beside them: 1 at the program.
    pub fn ancestors_depth(&self) -> usize
        requires { length self.now.place.ancestors < 2 ^ 63 }
        ensures depth { result ≡ length self.now.place.ancestors + 1 }
    {
        self.ancestors.len() + 1
    }

    /// The node above, and which of its fields leads down.
    pub fn parent(&self) -> Ancestor
        ensures parent { result ≡ nearest self.now.place.ancestors 0 }
    {
        self.ancestor(0)
    }

    /// The node so many levels above the parent; `Ancestor::None` past the program.
    pub fn ancestor(&self, level: usize) -> Ancestor
        ensures ancestor { result ≡ nearest self.now.place.ancestors level }
    {
        let above = self.ancestors.len();
        if level < above {
            self.ancestors[above - 1 - level]
        } else {
            Ancestor::None
        }
    }
}

/// The nodes above one, from its parent up to the program.
#[derive(Drop)]
pub struct Ancestors<'a> {
    above: &'a [Ancestor],
    // How many of them are still to come, the nearest first.
    left: usize,
}

impl<'a> Model for Ancestors<'a> {
    ghost use Rattle.std.specs.Prelude.{List, ◌≤◌, length, take, reverse};
    ghost use Rattle.min_context.specs.declared.ancestor.Ancestor.{Ancestor};

    ghost Value = { List Ancestor };

    ghost view = { λ a. reverse (take a.left a.above.now) };

    ghost invariant = { λ a. a.left ≤ length a.above.now };
}

impl<'a> Iterator for Ancestors<'a> {
    type Item = Ancestor;

    ghost next_gives = { YieldsFirst (λ s. s) };

    ghost remaining = { item_count (λ s. s) };

    fn next(&mut self) -> Option<Ancestor> {
        if self.left == 0 {
            return None;
        }
        self.left -= 1;
        Some(self.above[self.left])
    }
}

impl MinifierTraverseCtx {
    /// The nodes above, from the parent up to the program.
    pub fn ancestors(&self) -> Ancestors<'_>
        ensures ancestors { result ≡ reverse self.now.place.ancestors }
    {
        Ancestors {
            above: self.ancestors.as_slice(),
            left: self.ancestors.len(),
        }
    }
}
