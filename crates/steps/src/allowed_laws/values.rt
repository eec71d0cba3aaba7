// Small programs on which it is tried which declarations may become statements of their values.
ghost use Rattle.std.specs.Prelude.{[], ◌∷◌, false};
ghost use Rattle.js_syntax.specs.declared.kind.FunctionKind.TheVariants as function_kind;
ghost use Rattle.js_syntax.specs.declared.kind.VariableKind.{VariableKind};
ghost use Rattle.js_syntax.specs.declared.kind.VariableKind.TheVariants as variable;
ghost use Rattle.js_syntax.specs.declared.node_kind.NodeKind.{NodeKind as Kind};
ghost use Rattle.js_syntax.specs.Node.{nothing, joined};
ghost use Rattle.form_rules.specs.Samples.{a_module, over, binds, reads, listed, no, one, does, declares};
ghost use Rattle.scope_rules.specs.Context.{body_of};
ghost use Rattle.scope_rules.specs.Binding.{named_in};
ghost use Rattle.scope_laws.specs.Place.{Around, plug};
ghost use Rattle.steps.specs.Allowed.Edits.{Edit};
ghost use Rattle.steps.specs.Allowed.Free.{IsFree};
ghost use Rattle.steps.specs.Allowed.Places.{a_node};
ghost use Rattle.steps.specs.Allowed.Rows.{call_of_a, in_with_a, parenthesized};
ghost use Rattle.steps.specs.Allowed.ValueRows.{x, takes_call, in_g, only_item, in_script, behind_export, head_of_loop, ValueOf};

/// The value of a variable that nothing refers to stays as a statement, however it is declared.
pub fn values_of_unused_names_stay()
    ensures var { Edit (a_module (takes_call variable.Var ∷ [])) (a_module (does call_of_a ∷ [])) }
    ensures let_ { Edit (a_module (takes_call variable.Let ∷ [])) (a_module (does call_of_a ∷ [])) }
    ensures const_ { Edit (a_module (takes_call variable.Const ∷ [])) (a_module (does call_of_a ∷ [])) }
    ensures in_code { Edit (a_module (in_g (takes_call variable.Var) ∷ [])) (a_module (in_g (does call_of_a) ∷ [])) }
{}

/// It stays a declaration where something reads the name, where it is exported, or stands in the head of a loop, where a script has the name,
/// and inside of a `with` statement; and so do a function and a literal as values, and one of two declarators.
pub fn other_declarations_stay()
    ensures read { IsFree (a_module (takes_call variable.Var ∷ does (reads x) ∷ [])) (named_in x (body_of 0)) → ⊥ }
    ensures exported { (how : VariableKind) → ValueOf behind_export (takes_call how) }
    ensures head { (how : VariableKind) → ValueOf head_of_loop (takes_call how) }
    ensures shared { (how : VariableKind) → ValueOf in_script (takes_call how) }
    ensures in_with { (how : VariableKind) → ValueOf in_with_a (takes_call how) }
    ensures function { (place : Around) (how : VariableKind) → ValueOf place (declares how (binds x) (over (Kind.Function function_kind.Arrow false) nothing)) }
    ensures held { (place : Around) (how : VariableKind) → ValueOf place (declares how (binds x) (parenthesized (over (Kind.Function function_kind.Arrow false) nothing))) }
    ensures literal { (place : Around) (how : VariableKind) → ValueOf place (declares how (binds x) one) }
    ensures bare { (place : Around) (how : VariableKind) → ValueOf place (declares how (binds x) no) }
    ensures two { (place : Around) (how : VariableKind) → ValueOf place (over (Kind.VariableDeclaration how) (listed Kind.Declarators (over Kind.VariableDeclarator (joined (binds x) call_of_a) ∷ over Kind.VariableDeclarator (joined (binds x) no) ∷ []))) }
{}
