// Small programs from which no edits lead where they may not.
ghost use Rattle.std.specs.Prelude.{[], ◌∷◌};
ghost use Rattle.js_syntax.specs.declared.kind.VariableKind.TheVariants as variable;
ghost use Rattle.form_rules.specs.Samples.{a_module, a_script, a, binds, one, does, declares, function_a, block};
ghost use Rattle.steps.specs.Allowed.Edits.{Edits};
ghost use Rattle.steps.specs.Allowed.Rows.{call_of_a, call_of_eval};

/// No edits lead from `a();` to an empty module, nor from `1; a();`, of which `1;` may go.
pub fn a_call_never_goes()
    ensures alone { Edits (a_module (does call_of_a ∷ [])) (a_module []) → ⊥ }
    ensures behind { Edits (a_module (does one ∷ does call_of_a ∷ [])) (a_module []) → ⊥ }
{}

/// What nothing refers to stays where other code may use it: a variable beside a call of `eval`, a function
/// of a script, and one in a block of sloppy code.
pub fn what_others_may_use_stays()
    ensures evaluated { Edits (a_module (declares variable.Let (binds a) one ∷ does call_of_eval ∷ [])) (a_module (does call_of_eval ∷ [])) → ⊥ }
    ensures global { Edits (a_script (function_a [] [] ∷ [])) (a_script []) → ⊥ }
    ensures sloppy { Edits (a_script (block (function_a [] [] ∷ []) ∷ [])) (a_script (block [] ∷ [])) → ⊥ }
{}
