//! Laws of sets, each the contract of a function that does nothing.
ghost use Rattle.std.specs.Prelude.{◌≡◌, ◌≢◌, ◌↔◌, ◌<◌, ◌≤◌, ℕ, Bool, List, [], length, IsTrue, IsFalse};
ghost use Rattle.std.specs.List.{Contains, AllPairs};
ghost use Rattle.symbol_sets.specs.Numbers.{has, is_none, with_number, without_number, none_below, numbers};

/// A number that is put in is in the set exactly if it is below the capacity. One that is taken out is not.
pub fn a_number_is_put_in_and_taken_out()
    ensures put_in { (set : List Bool) (n : ℕ) → IsTrue (has (with_number n set) n) ↔ (n < length set) }
    ensures taken_out { (set : List Bool) (n : ℕ) → IsFalse (has (without_number n set) n) }
{}

/// To put a number in or take it out leaves every other number as it was.
pub fn other_numbers_stay()
    ensures putting_in { (set : List Bool) (m n : ℕ) → m ≢ n → has (with_number n set) m ≡ has set m }
    ensures taking_out { (set : List Bool) (m n : ℕ) → m ≢ n → has (without_number n set) m ≡ has set m }
{}

/// To do the same twice is to do it once, and of two calls for one number the later one counts.
pub fn the_last_call_counts()
    ensures in_twice { (set : List Bool) (n : ℕ) → with_number n (with_number n set) ≡ with_number n set }
    ensures out_twice { (set : List Bool) (n : ℕ) → without_number n (without_number n set) ≡ without_number n set }
    ensures in_last { (set : List Bool) (n : ℕ) → with_number n (without_number n set) ≡ with_number n set }
    ensures out_last { (set : List Bool) (n : ℕ) → without_number n (with_number n set) ≡ without_number n set }
{}

/// Calls for two numbers may come in either order.
pub fn two_numbers_come_in_either_order()
    ensures both_in { (set : List Bool) (m n : ℕ) → with_number m (with_number n set) ≡ with_number n (with_number m set) }
    ensures both_out { (set : List Bool) (m n : ℕ) → without_number m (without_number n set) ≡ without_number n (without_number m set) }
    ensures one_each { (set : List Bool) (m n : ℕ) → m ≢ n → with_number m (without_number n set) ≡ without_number n (with_number m set) }
{}

/// The capacity stays.
pub fn capacities_stay()
    ensures putting_in { (set : List Bool) (n : ℕ) → length (with_number n set) ≡ length set }
    ensures taking_out { (set : List Bool) (n : ℕ) → length (without_number n set) ≡ length set }
    ensures cleared { (capacity : ℕ) → length (none_below capacity) ≡ capacity }
{}

/// At and past the capacity nothing is in a set, and to put it in or take it out changes nothing.
pub fn nothing_is_past_the_capacity()
    ensures held { (set : List Bool) (n : ℕ) → length set ≤ n → IsFalse (has set n) }
    ensures putting_in { (set : List Bool) (n : ℕ) → length set ≤ n → with_number n set ≡ set }
    ensures taking_out { (set : List Bool) (n : ℕ) → length set ≤ n → without_number n set ≡ set }
{}

/// A set of one capacity is told by the numbers that are in it.
pub fn sets_are_told_by_their_numbers()
    ensures { (a b : List Bool) → length a ≡ length b → ((n : ℕ) → has a n ≡ has b n) → a ≡ b }
{}

/// A set is empty exactly if no number is in it. A cleared one has none.
pub fn empty_sets_have_no_number()
    ensures empty { (set : List Bool) → IsTrue (is_none set) ↔ ((n : ℕ) → IsFalse (has set n)) }
    ensures cleared { (capacity n : ℕ) → IsFalse (has (none_below capacity) n) }
{}

/// `ones` gives exactly the numbers that are in the set, each before all greater ones, and so each once.
pub fn ones_are_what_is_in_the_set()
    ensures members { (set : List Bool) (n : ℕ) → Contains (numbers set) n ↔ IsTrue (has set n) }
    ensures rising { (set : List Bool) → AllPairs (λ m n. m < n) (numbers set) }
    ensures none { (set : List Bool) → (numbers set ≡ []) ↔ IsTrue (is_none set) }
    ensures few { (set : List Bool) → length (numbers set) ≤ length set }
{}
