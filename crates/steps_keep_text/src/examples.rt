// Small programs with what edits leave of them. Each is a contract, so that the check computes it.
ghost use Rattle.std.specs.Prelude.{◌≡◌, [], ◌∷◌};
ghost use Rattle.serde_json.specs.Data.{depth};
ghost use Rattle.js_tree.specs.Count.{node_count, levels};
ghost use Rattle.form_rules.specs.Samples.{a_module, a, reads, one, does};
ghost use Rattle.json_text.specs.Text.{data_of};
ghost use Rattle.js_syntax.specs.declared.operator.LogicalOperator.TheVariants as operator;
ghost use Rattle.steps.specs.Allowed.Rows.{call_of_a, null, conditional, logical, empty};
ghost use Rattle.steps.specs.Allowed.Edits.{TreeEdits};
ghost use Rattle.steps_keep_text.specs.Samples.{calls_choice, calls_behind_zero};

/// Of `1;` edits leave `;`, and then nothing.
pub fn a_silent_statement_goes()
    ensures edits { TreeEdits (a_module (does one ∷ [])) (a_module []) }
    ensures nodes { node_count (a_module (does one ∷ [])) ≡ 3 }
    ensures nodes_then { node_count (a_module (empty ∷ [])) ≡ 2 }
    ensures nodes_left { node_count (a_module []) ≡ 1 }
    ensures levels { levels (a_module (does one ∷ [])) ≡ 3 }
    ensures levels_left { levels (a_module []) ≡ 1 }
    ensures nests { depth (data_of (a_module (does one ∷ []))) ≡ 4 }
    ensures nests_then { depth (data_of (a_module (empty ∷ []))) ≡ 3 }
    ensures left_nests { depth (data_of (a_module [])) ≡ 2 }
{}

/// Of `1 ? a() : a;` an edit leaves `a();`, one level higher.
pub fn a_known_conditional_is_taken()
    ensures edits { TreeEdits (a_module (does (conditional one call_of_a (reads a)) ∷ [])) (a_module (does call_of_a ∷ [])) }
    ensures nodes { node_count (a_module (does (conditional one call_of_a (reads a)) ∷ [])) ≡ 7 }
    ensures nodes_left { node_count (a_module (does call_of_a ∷ [])) ≡ 4 }
    ensures levels { levels (a_module (does (conditional one call_of_a (reads a)) ∷ [])) ≡ 5 }
    ensures levels_left { levels (a_module (does call_of_a ∷ [])) ≡ 4 }
    ensures nests { depth (data_of (a_module (does (conditional one call_of_a (reads a)) ∷ []))) ≡ 6 }
    ensures left_nests { depth (data_of (a_module (does call_of_a ∷ []))) ≡ 5 }
{}

/// Of `null ?? a;` an edit leaves `a;`, one level higher.
pub fn a_known_left_side_goes()
    ensures edits { TreeEdits (a_module (does (logical operator.Coalesce null (reads a)) ∷ [])) (a_module (does (reads a) ∷ [])) }
    ensures nodes { node_count (a_module (does (logical operator.Coalesce null (reads a)) ∷ [])) ≡ 5 }
    ensures nodes_left { node_count (a_module (does (reads a) ∷ [])) ≡ 3 }
    ensures levels { levels (a_module (does (logical operator.Coalesce null (reads a)) ∷ [])) ≡ 4 }
    ensures levels_left { levels (a_module (does (reads a) ∷ [])) ≡ 3 }
    ensures nests { depth (data_of (a_module (does (logical operator.Coalesce null (reads a)) ∷ []))) ≡ 5 }
    ensures left_nests { depth (data_of (a_module (does (reads a) ∷ []))) ≡ 4 }
{}

/// Of `(1 ? o.f : null)();` an edit leaves `(0, o.f)();`: a node fewer and as many levels of them, but its text nests one level
/// deeper.
pub fn an_indirect_choice_nests_deeper()
    ensures edits { TreeEdits calls_choice calls_behind_zero }
    ensures nodes { node_count calls_choice ≡ 8 }
    ensures nodes_left { node_count calls_behind_zero ≡ 7 }
    ensures levels { levels calls_choice ≡ 6 }
    ensures levels_left { levels calls_behind_zero ≡ 6 }
    ensures nests { depth (data_of calls_choice) ≡ 7 }
    ensures left_nests { depth (data_of calls_behind_zero) ≡ 8 }
{}
