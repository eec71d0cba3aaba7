// Scopes around one another.
ghost use Rattle.std.specs.Prelude.{◌≡◌, ◌<◌, ◌≤◌, ◌↔◌, ℕ, Option, Some, length, IfSome};
ghost use Rattle.scope_rules.specs.Table.{Scoping};
ghost use Rattle.scope_counts.specs.Exact.{count};
ghost use Rattle.scope_table.specs.Reading.{ancestors};
ghost use Rattle.scope_table.specs.Editing.{with_scope, with_parent, ParentsEnd, IsOutside};
ghost use Rattle.scope_edits.specs.Ending.{EndsOnTop};

/// After a scope is added the parents end still.
pub fn a_scope_may_be_added()
    ensures { (s : Scoping) (parent : Option ℕ) (flags : ℕ) → ParentsEnd s → IfSome parent (λ p. p < length s.scopes) → ParentsEnd (with_scope parent flags s) }
{}

/// After a scope is put into one that is outside of it, or around all others, the parents end still.
pub fn a_scope_may_be_moved_outside_of_itself()
    ensures { (s : Scoping) (scope : ℕ) (parent : Option ℕ) → ParentsEnd s → scope < length s.scopes → IfSome parent (λ p. p < length s.scopes) → IfSome parent (λ p. IsOutside s scope p)
        → ParentsEnd (with_parent scope parent s) }
{}

/// Put into itself or into one inside of it, it would have no end of parents.
pub fn and_nowhere_else()
    ensures { (s : Scoping) (scope p : ℕ) → scope < length s.scopes → ParentsEnd (with_parent scope (Some p) s) → IsOutside s scope p }
{}

/// Where parents end, the ancestors that are read of a table are all: the last has no parent, and each
/// scope is there once.
pub fn ancestors_are_all()
    ensures on_top { (s : Scoping) (n : ℕ) → ParentsEnd s → n < length s.scopes → EndsOnTop s (ancestors s n) }
    ensures once { (s : Scoping) (n m : ℕ) → ParentsEnd s → count m (ancestors s n) ≤ 1 }
{}
