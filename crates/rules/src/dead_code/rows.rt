// Small programs, by computing.
ghost use Rattle.std.specs.Prelude.{◌≡◌, [], ◌∷◌, true, false};
ghost use Rattle.js_syntax.specs.declared.node_kind.NodeKind.{NodeKind as Kind};
ghost use Rattle.js_syntax.specs.declared.kind.FunctionKind.TheVariants as function_kind;
ghost use Rattle.js_syntax.specs.Node.{Forest, nothing};
ghost use Rattle.scope_rules.specs.Table.{Scoping};
ghost use Rattle.scope_rules.specs.Worked.{blocks, functions, classes, statements, calls_of_eval};
ghost use Rattle.steps.specs.Allowed.Exposure.{is_script};
ghost use Rattle.steps.specs.Marked.Flags.{stands_of};
ghost use Rattle.rules.specs.DeadCode.Quiet.{ToldOnly};
ghost use Rattle.js_syntax.specs.declared.node_kind.NodeKind.TheVariants.{EmptyStatement as empty_statement};
ghost use Rattle.js_syntax.specs.declared.kind.VariableKind.TheVariants as variable;
ghost use Rattle.form_rules.specs.Samples.{leaf, over, no, a_module, a_script, a, binds, reads, does, one, let_, var_, block, function_a, calls};
ghost use Rattle.scope_rules.specs.Samples.{b};
ghost use Rattle.min_context.specs.declared.ancestor.Parent.TheVariants as parent;
ghost use Rattle.steps.specs.Allowed.Rows.{call_of_a, call_of_eval, null, labeled, breaks_label, tried, while_};
ghost use Rattle.rules.specs.DeadCode.Samples.{in_with, at_top, left_at, left, left_in_block, these, right_below, as_body, empties, declarator, declares_each, let_one, as_item, as_item_in_with, first_at, takes_call, do_flags_tell_only, new_flags_tell_only};

/// Statements that do nothing go, and what they alone used stays until they are gone.
pub fn statements_left()
    ensures empty { left (a_module (leaf empty_statement ∷ [])) ≡ these [] }
    ensures bound { left (a_module (let_ a ∷ does (reads a) ∷ [])) ≡ these (let_ a ∷ []) }
    ensures unbound { left (a_module (does (reads a) ∷ [])) ≡ these (does (reads a) ∷ []) }
{}

/// A name that nothing uses goes, unless other scripts, an importer or a call of `eval` may use it.
pub fn names_left()
    ensures unused { left (a_module (let_ a ∷ function_a [] [] ∷ [])) ≡ these [] }
    ensures global { left (a_script (let_ a ∷ [])) ≡ these (let_ a ∷ []) }
    ensures exported { left_at at_top (true ∷ []) (a_module (function_a [] [] ∷ [])) ≡ these (function_a [] [] ∷ []) }
    ensures evaluating { left (a_module (let_ a ∷ does call_of_eval ∷ [])) ≡ these (let_ a ∷ does call_of_eval ∷ []) }
{}

/// In a block of a script `let` declares for the block alone; `var` and functions declare for the script as well (ECMA-262 B.3.2).
pub fn block_left()
    ensures lexical { left_in_block (a_script (block (let_ a ∷ []) ∷ [])) ≡ these [] }
    ensures variable { left_in_block (a_script (block (var_ a ∷ []) ∷ [])) ≡ these (var_ a ∷ []) }
    ensures function { left_in_block (a_script (block (function_a [] [] ∷ []) ∷ [])) ≡ these (function_a [] [] ∷ []) }
    ensures of_module { left_in_block (a_module (block (var_ a ∷ function_a [] [] ∷ []) ∷ [])) ≡ these [] }
{}

/// Of several declarators those go whose initialisers do nothing; inside of a `with` statement only those without one.
pub fn declarators_left()
    ensures some { left (a_module (declares_each variable.Let (declarator (binds a) (calls (reads a)) ∷ declarator (binds b) no ∷ []) ∷ [])) ≡ these (declares_each variable.Let (declarator (binds a) (calls (reads a)) ∷ []) ∷ []) }
    ensures silent { left (a_module (let_one ∷ [])) ≡ these [] }
    ensures in_with { left_at in_with [] (a_module (let_one ∷ let_ b ∷ [])) ≡ these (let_one ∷ []) }
{}

/// What does nothing becomes empty as the body of a loop, or as a branch of an `if`, and not as the block of a handler or behind a label;
/// where it declares a name around it, it stays, as what acts does. A silent statement becomes empty wherever it stands.
pub fn statements_become_empty()
    ensures block { empties as_body (block []) ≡ true }
    ensures branch { empties (right_below parent.IfStatement 2) (block []) ≡ true }
    ensures never_turns { empties as_body (while_ null (block (does call_of_a ∷ let_ a ∷ []))) ≡ true }
    ensures tried { empties as_body (tried (does call_of_a ∷ [])) ≡ true }
    ensures labeled { empties as_body (labeled (block (breaks_label ∷ does call_of_a ∷ []))) ≡ true }
    ensures variable { empties as_body (while_ null (block (var_ a ∷ []))) ≡ false }
    ensures acting { empties as_body (block (does call_of_a ∷ [])) ≡ false }
    ensures of_handler { empties (right_below parent.CatchClause 1) (block []) ≡ false }
    ensures behind_label { empties (right_below parent.LabeledStatement 0) (block []) ≡ false }
    ensures silent { empties (right_below parent.LabeledStatement 0) (does one) ≡ true }
{}

/// The value of a variable that nothing uses stays as a statement, however it is declared, in a list of statements.
pub fn values_stay()
    ensures var { first_at as_item [] (a_module (takes_call variable.Var ∷ [])) ≡ these (does (calls (reads b)) ∷ []) }
    ensures let_ { first_at as_item [] (a_module (takes_call variable.Let ∷ [])) ≡ these (does (calls (reads b)) ∷ []) }
    ensures silent { first_at as_item [] (a_module (declares_each variable.Let (declarator (binds a) (reads b) ∷ []) ∷ [])) ≡ these (does (reads b) ∷ []) }
{}

/// It stays a declaration where something reads the name, where it is exported or a script has it, in the head of a loop, and inside of a
/// `with` statement; and so do a literal and a function as values, one without a value, and one of two declarators.
pub fn other_declarations_stay()
    ensures read { first_at as_item [] (a_module (takes_call variable.Let ∷ does (reads a) ∷ [])) ≡ these (takes_call variable.Let ∷ []) }
    ensures exported { first_at as_item (true ∷ []) (a_module (takes_call variable.Let ∷ [])) ≡ these (takes_call variable.Let ∷ []) }
    ensures shared { first_at as_item [] (a_script (takes_call variable.Var ∷ [])) ≡ these (takes_call variable.Var ∷ []) }
    ensures evaluating { first_at as_item [] (a_module (takes_call variable.Let ∷ does call_of_eval ∷ [])) ≡ these (takes_call variable.Let ∷ []) }
    ensures head { first_at (right_below parent.ForStatement 0) [] (a_module (takes_call variable.Let ∷ [])) ≡ these (takes_call variable.Let ∷ []) }
    ensures in_with { first_at as_item_in_with [] (a_module (takes_call variable.Let ∷ [])) ≡ these (takes_call variable.Let ∷ []) }
    ensures literal { first_at as_item [] (a_module (let_one ∷ [])) ≡ these (let_one ∷ []) }
    ensures function { first_at as_item [] (a_module (declares_each variable.Let (declarator (binds a) (over (Kind.Function function_kind.Arrow false) nothing) ∷ []) ∷ [])) ≡ these (declares_each variable.Let (declarator (binds a) (over (Kind.Function function_kind.Arrow false) nothing) ∷ []) ∷ []) }
    ensures bare { first_at as_item [] (a_module (let_ a ∷ [])) ≡ these (let_ a ∷ []) }
    ensures two { first_at as_item [] (a_module (declares_each variable.Let (declarator (binds a) (calls (reads a)) ∷ declarator (binds b) no ∷ []) ∷ [])) ≡ these (declares_each variable.Let (declarator (binds a) (calls (reads a)) ∷ declarator (binds b) no ∷ []) ∷ []) }
{}

/// The flags of new tables tell of each worked program only what is so.
pub fn new_flags_tell_nothing_else()
    ensures blocks { new_flags_tell_only blocks ≡ true ∷ true ∷ true ∷ [] }
    ensures functions { new_flags_tell_only functions ≡ true ∷ true ∷ true ∷ true ∷ true ∷ true ∷ [] }
    ensures classes { new_flags_tell_only classes ≡ true ∷ true ∷ [] }
    ensures statements { new_flags_tell_only statements ≡ true ∷ true ∷ true ∷ true ∷ true ∷ [] }
    ensures calls_of_eval { new_flags_tell_only calls_of_eval ≡ true ∷ true ∷ [] }
{}

/// Which is seen by computing.
pub fn computing_shows_what_flags_tell_only()
    ensures { (s : Scoping) (t : Forest) → do_flags_tell_only s t ≡ true → ToldOnly s (is_script t) (stands_of t) 0 t }
{}
