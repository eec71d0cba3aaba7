// Sets of numbers below a capacity, however they are kept.
ghost use Rattle.std.specs.Prelude.{◌≡◌, ◌<◌, ◌^◌, Bool, List, length};
ghost use Rattle.symbol_sets.specs.Numbers.{has, is_none, with_number, without_number, none_below, numbers};

use crate::ones::Ones;

/// A set of numbers below a capacity, which stays. A number at or past the capacity is never in the set:
/// to set or unset one changes nothing.
pub trait SymbolSet {
    /// For each number below the capacity, from 0 on, whether it is in the set.
    ghost held: { Self → List Bool };

    /// How many numbers may be in the set: those below this one.
    fn capacity(&self) -> u32
        ensures capacity { result ≡ length (held self.now) };

    /// Whether a number is in the set.
    fn contains(&self, n: u32) -> bool
        ensures contained { result ≡ has (held self.now) n };

    /// Whether no number is in the set. It may look at each number below the capacity.
    fn is_empty(&self) -> bool
        ensures empty { result ≡ is_none (held self.now) };

    /// Puts a number into the set.
    fn set_bit(&mut self, n: u32)
        ensures put_in { held self.new ≡ with_number n (held self.old) };

    /// Takes a number out of the set.
    fn unset_bit(&mut self, n: u32)
        ensures taken_out { held self.new ≡ without_number n (held self.old) };

    /// Takes all numbers out of the set. The capacity stays.
    fn clear(&mut self)
        ensures cleared { held self.new ≡ none_below (length (held self.old)) };

    /// The numbers in the set, in rising order, each once.
    final fn ones(&self) -> Ones<'_, Self>
    where
        Self: Sized,
        ensures numbers { result ≡ numbers (held self.now) }
        ensures few { length result < 2 ^ 32 }
    {
        Ones::of(self)
    }
}
