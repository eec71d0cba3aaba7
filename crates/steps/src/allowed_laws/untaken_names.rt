// Small programs on which it is tried of which statements a declaration of names is left.
ghost use Rattle.std.specs.Prelude.{[], ◌∷◌};
ghost use Rattle.js_syntax.specs.declared.kind.VariableKind.TheVariants as variable;
ghost use Rattle.js_syntax.specs.Node.{nothing};
ghost use Rattle.form_rules.specs.Samples.{a_module, no, a, binds, reads, one, does, declares, let_, var_, block, function_a};
ghost use Rattle.scope_rules.specs.Samples.{b};
ghost use Rattle.scope_laws.specs.Place.{first};
ghost use Rattle.steps.specs.Allowed.KeptNamesRows.{vars, pattern_of_a, StaysWhole};
ghost use Rattle.steps.specs.Allowed.Rows.{call_of_a, null, if_null, if_one, while_, loop, in_branch, in_function, branch_of_if};
ghost use Rattle.steps.specs.Allowed.Edits.{Edit};

/// Of a loop in a branch that isn't taken a declaration is left of the name that its head declares by `var`, and of an `if` there one of
/// all names that its branches declare so.
pub fn names_of_what_is_not_taken_stay()
    ensures head { Edit (a_module (if_null (block (loop (declares variable.Var (binds a) one) (does call_of_a) ∷ [])) no ∷ [])) (a_module (if_null (block (var_ a ∷ [])) no ∷ [])) }
    ensures all { Edit (a_module (if_null (block (if_one (block (var_ a ∷ let_ a ∷ while_ (reads a) (declares variable.Var (binds b) one) ∷ [])) ∷ [])) no ∷ [])) (a_module (if_null (block (vars a b ∷ [])) no ∷ [])) }
{}

/// A statement stays that declares a function, or a name by a pattern, and so does one that declares no name, a block, one that is no item
/// of a list, and what stands in a branch that runs or may run, or in the code of a function.
pub fn other_names_stay_where_they_are()
    ensures function { StaysWhole (in_branch null (first nothing)) (while_ (reads a) (block (var_ b ∷ function_a [] [] ∷ []))) }
    ensures pattern { StaysWhole (in_branch null (first nothing)) (while_ (reads a) pattern_of_a) }
    ensures nameless { StaysWhole (in_branch null (first nothing)) (while_ (reads a) (does call_of_a)) }
    ensures whole_block { StaysWhole (in_branch null (first nothing)) (block (var_ a ∷ [])) }
    ensures body { StaysWhole branch_of_if (while_ (reads a) (var_ a)) }
    ensures runs { StaysWhole (in_branch one (first nothing)) (while_ (reads a) (var_ a)) }
    ensures may_run { StaysWhole (in_branch (reads a) (first nothing)) (while_ (reads a) (var_ a)) }
    ensures code { StaysWhole (in_function null) (while_ (reads a) (var_ a)) }
{}
