// Whether lists have the same items, as sets find it.
ghost use Rattle.std.specs.Prelude.{◌≡◌, ◌↔◌, false, IfOk, IsTrue};
ghost use Rattle.std.specs.BTreeSet.{contains};
ghost use Rattle.scope_match.specs.Items.{is_among, each_new, SameBy};

use std::alloc::{AllocError, Global};
use std::collections::BTreeSet;

fn set_of<T: Ord + Copy>(alloc: Global, items: &[T]) -> Result<BTreeSet<T>, AllocError>
    ensures { IfOk result (λ s. (q : T) → contains T.cmp s q ≡ is_among T.cmp q items.now) }
{
    let mut set = BTreeSet::new(alloc);
    for item in items {
        set.insert(*item)?;
    }
    Ok(set)
}

/// Whether none stands twice.
pub(crate) fn are_distinct<T: Ord + Copy>(alloc: Global, items: &[T]) -> Result<bool, AllocError>
    ensures { IfOk result (λ b. b ≡ each_new T.cmp (λ q. false) items.now) }
{
    let mut set = BTreeSet::new(alloc);
    for item in items {
        if !set.insert(*item)? {
            return Ok(false);
        }
    }
    Ok(true)
}

fn same_sets<T: Ord + Copy>(alloc: Global, given: &[T], wanted: &[T]) -> Result<bool, AllocError>
    ensures { IfOk result (λ b. IsTrue b ↔ ((q : T) → is_among T.cmp q given.now ≡ is_among T.cmp q wanted.now)) }
{
    let given = set_of(alloc, given)?;
    let wanted = set_of(alloc, wanted)?;
    Ok(given.is_subset(&wanted) && wanted.is_subset(&given))
}

/// Whether a list has the items that are wanted, in any order, and none twice.
pub(crate) fn same_items<T: Ord + Copy>(
    alloc: Global,
    given: &[T],
    wanted: &[T],
) -> Result<bool, AllocError>
    ensures { IfOk result (λ b. IsTrue b ↔ SameBy T.cmp given.now wanted.now) }
{
    if !are_distinct(alloc, given)? {
        return Ok(false);
    }
    same_sets(alloc, given, wanted)
}
