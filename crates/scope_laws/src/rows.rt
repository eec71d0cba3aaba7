// A small program that the definitions are tried on.
ghost use Rattle.std.specs.Prelude.{[], ◌∷◌};
ghost use Rattle.scope_laws.specs.Exact.{Exact};
ghost use Rattle.scope_laws.specs.Rows.{marked_program, table_with};

/// A table that lists the only reference once is exact; one that lists another, or the reference twice
/// or not at all, is not.
pub fn each_reference_is_listed_once()
    ensures once { Exact (table_with (0 ∷ [])) marked_program }
    ensures another { Exact (table_with (0 ∷ 1 ∷ [])) marked_program → ⊥ }
    ensures twice { Exact (table_with (0 ∷ 0 ∷ [])) marked_program → ⊥ }
    ensures never { Exact (table_with []) marked_program → ⊥ }
{}
