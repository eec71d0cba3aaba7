// Small programs, by computing.
ghost use Rattle.js_syntax.specs.Class.{root};
ghost use Rattle.json_shape.specs.Shape.{Fits};
ghost use Rattle.steps.specs.Allowed.Edits.{TreeEdits};
ghost use Rattle.rules.specs.DeadCode.Quiet.{IsExported};
ghost use Rattle.rules.specs.Export.Samples.{one_of_two, with_a_local, by_reference, before_it, behind_it};

/// A declaration is exported that stands below an export and in the program's own scope: not one beside it or further in, and not
/// one that an export only names, which is a reference to it.
pub fn what_is_exported()
    ensures of_two { IsExported one_of_two 0 × (IsExported one_of_two 1 → ⊥) }
    ensures with_a_local { IsExported with_a_local 0 × (IsExported with_a_local 1 → ⊥) }
    ensures by_reference { IsExported by_reference 0 → ⊥ }
{}

/// A tree that doesn't fit the table of node types may lose an export by an edit: a branch that isn't taken may hold one.
pub fn a_program_that_fits_no_table_loses_an_export()
    ensures edits { TreeEdits before_it behind_it }
    ensures before { IsExported before_it 0 }
    ensures behind { IsExported behind_it 0 → ⊥ }
    ensures unfit { Fits root before_it → ⊥ }
{}
