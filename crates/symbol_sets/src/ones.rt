// The numbers in a set, one after another.
ghost use Rattle.std.specs.Prelude.{◌≡◌, ◌<◌, ◌^◌, length};
ghost use Rattle.std.specs.Iterator.{YieldsFirst, item_count};
ghost use Rattle.symbol_sets.specs.Numbers.{numbers};

use crate::set::SymbolSet;
use std::marker::Model;

/// The numbers in a set that are still to come, in rising order. All of them together take as many steps
/// as the set's capacity has numbers.
#[derive(Drop)]
pub struct Ones<'a, S: SymbolSet> {
    set: &'a S,
    next: u32,
    // The set's capacity.
    end: u32,
}

impl<'a, S: SymbolSet> Model for Ones<'a, S> {
    ghost use Rattle.std.specs.Prelude.{◌≡◌, ℕ, List, length};
    ghost use Rattle.symbol_sets.specs.Numbers.{numbers_past};

    ghost Value = { List ℕ };

    ghost view = { λ o. numbers_past o.next (S.held o.set.now) };

    ghost invariant = { λ o. o.end ≡ length (S.held o.set.now) };
}

impl<'a, S: SymbolSet> Ones<'a, S> {
    pub(crate) fn of(set: &'a S) -> Ones<'a, S>
        ensures numbers { result ≡ numbers (S.held set.now) }
        ensures few { length result < 2 ^ 32 }
    {
        let end = set.capacity();
        Ones { set, next: 0, end }
    }
}

impl<'a, S: SymbolSet> Iterator for Ones<'a, S> {
    type Item = u32;

    ghost next_gives = { YieldsFirst (λ s. s) };

    ghost remaining = { item_count (λ s. s) };

    fn next(&mut self) -> Option<u32> {
        while self.next < self.end {
            let n = self.next;
            self.next += 1;
            if self.set.contains(n) {
                return Some(n);
            }
        }
        None
    }
}
