// Small programs that the definitions are tried on.
ghost use Rattle.std.specs.Prelude.{◌≡◌, [], ◌∷◌, true, false, Some};
ghost use Rattle.js_syntax.specs.declared.kind.VariableKind.TheVariants as variable;
ghost use Rattle.form_rules.specs.Samples.{a};
ghost use Rattle.steps.specs.Names.{refers};
ghost use Rattle.steps.specs.Steps.{is_used};
ghost use Rattle.steps.specs.Naming.Rows.{all_well_placed, some_well_placed, well_placed_programs, strays, caught, program_row, around_declaration, bindings_used, bindings_declared};

/// Declarations stand where the grammar lets them stand, or the definition says that they don't.
pub fn declarations_have_their_places()
    ensures placed { all_well_placed well_placed_programs ≡ true }
    ensures strays { some_well_placed strays ≡ false }
{}

/// Where the parameter of a catch clause has the name of a `var` in its block, the references in the block are to the
/// parameter, so that no reference has the variable's binding and nothing refers to it; and yet the declarator's value is the
/// parameter's. So the steps say that it is used.
pub fn a_catch_parameter_hides_a_variable()
    ensures declared { bindings_declared caught ≡ record { scope = 2; is_own = false; name = a } ∷ record { scope = 0; is_own = false; name = a } ∷ [] }
    ensures references { bindings_used caught ≡ Some (record { scope = 2; is_own = false; name = a }) ∷ [] }
    ensures unreferred { refers a program_row ≡ false }
    ensures used { is_used around_declaration variable.Var a ≡ true }
{}
