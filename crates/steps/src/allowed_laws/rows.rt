// Small programs that the definitions are tried on.
ghost use Rattle.std.specs.Prelude.{pos, negsuc, List, [], ◌∷◌, true, false, ◌≡◌, codes, Bool};
ghost use Rattle.js_syntax.specs.declared.kind.VariableKind.{VariableKind};
ghost use Rattle.js_syntax.specs.declared.kind.VariableKind.TheVariants as variable;
ghost use Rattle.js_syntax.specs.declared.node_kind.NodeKind.{NodeKind as Kind};
ghost use Rattle.js_syntax.specs.declared.operator.BinaryOperator.TheVariants as binary;
ghost use Rattle.js_syntax.specs.declared.operator.LogicalOperator.TheVariants as operator;
ghost use Rattle.js_syntax.specs.declared.operator.UnaryOperator.TheVariants as unary;
ghost use Rattle.js_syntax.specs.declared.value.LiteralValue.TheVariants as value;
ghost use Rattle.js_syntax.specs.declared.value.ModuleName.TheVariants as module_name;
ghost use Rattle.js_syntax.specs.Node.{Tree, Note, Forest, nothing, absent, nowhere, joined};
ghost use Rattle.form_rules.specs.Samples.{a_module, over, a, binds, reads, listed, no, one, does, declares, let_, var_, function_a, block};
ghost use Rattle.scope_rules.specs.Context.{body_of};
ghost use Rattle.scope_rules.specs.Binding.{named_in};
ghost use Rattle.scope_rules.specs.Samples.{b, imports};
ghost use Rattle.scope_laws.specs.Place.{Around, first, under, plug};
ghost use Rattle.steps.specs.Allowed.Places.{a_node, in_class_at, At};
ghost use Rattle.steps.specs.Allowed.Free.{IsFree};
ghost use Rattle.steps.specs.Allowed.SilentStatement.{SilentStatement};
ghost use Rattle.steps.specs.Allowed.UnusedDeclaration.{a_declaration, SilentDeclaration};
ghost use Rattle.steps.specs.Allowed.KnownConditional.{a_conditional, KnownConditional};
ghost use Rattle.steps.specs.Allowed.KnownIf.{an_if, KnownIf};
ghost use Rattle.steps.specs.Allowed.DeadIf.{DeadIf};
ghost use Rattle.steps.specs.Allowed.RepeatedImport.{is_asked_before};
ghost use Rattle.steps.specs.Allowed.MergedImports.{may_merge, MergesIn, MergedImports};
ghost use Rattle.steps.specs.Allowed.PassedExports.{PassedExports};
ghost use Rattle.steps.specs.Allowed.Unreached.{Unreached};
ghost use Rattle.steps.specs.Allowed.Untaken.{Untaken};
ghost use Rattle.steps.specs.Allowed.IdleStatement.{IdleStatement};
ghost use Rattle.steps.specs.Allowed.UnrunValue.{UnrunValue};
ghost use Rattle.steps.specs.Allowed.IdleTry.{IdleTry};
ghost use Rattle.steps.specs.Allowed.IdleBody.{IdleBody};
ghost use Rattle.js_syntax.specs.declared.kind.FunctionKind.TheVariants as function_kind;
ghost use Rattle.steps.specs.Allowed.EmptyIf.{EmptyIf};
ghost use Rattle.steps.specs.Allowed.EmptyAlternate.{EmptyAlternate};
ghost use Rattle.steps.specs.Allowed.EmptyBlock.{EmptyBlock};
ghost use Rattle.steps.specs.Allowed.Edits.{Edit};
ghost use Rattle.steps.specs.Allowed.Rows.{before, breaks_label, labeled, labeled_too, tried, tried_finally, finally_alone, while_, for_, loop, branch_of_if, in_list, past, in_branch, in_function, in_function_by, value_of_a, zero, debugger, throwing_block, throwing_branch, broken_label, throws, behind_throw, call_of_a, null, if_one, if_null, either_way, conditional, logical, may_be_named, o_f, parenthesized, called, called_in_parentheses, called_in_with, argument, second_part, operand, applied, equals, difference, sum, text, empty_text, template, tagged, assigned, statement, ComesOut, Stays, StaysUnused, array, spread, hole, sequence, ListStays, ChoiceStays, PartsStay, SidesStay, object, a_is, b_is, getter_of_a, keyed_by, method_by, not_a, ObjectStays, literal, operation, OperationStays, behind_zero, placed, StaysDirect, FollowsNone, with_a, in_with_a, in_class_a, this, empty, a_is_read, a_is_exported, imports_nothing, behind_import, behind_other, call_of_eval, takes_from, takes_from_other, default_name, namespace_name, name_as, text_as, imports_other, shows, shown_as, passes_from, passed_as, passes_namespace};

/// A statement of a literal becomes empty, in a list and alone, and leaves the list then; so does one of `this`.
pub fn silent_statements_go()
    ensures in_a_list { Edit (a_module (does one ∷ [])) (a_module (empty ∷ [])) }
    ensures alone { Edit (a_module (if_one (does one) ∷ [])) (a_module (if_one empty ∷ [])) }
    ensures then { Edit (a_module (empty ∷ [])) (a_module []) }
    ensures this { Edit (a_module (does this ∷ [])) (a_module (empty ∷ [])) }
{}

/// A call isn't silent, nor is a name that nothing declares.
pub fn calls_stay()
    ensures call { At (before []) (a_node Kind.ExpressionStatement nowhere call_of_a) (SilentStatement (a_module (does call_of_a ∷ [])) call_of_a false) → ⊥ }
    ensures name { At (before []) (a_node Kind.ExpressionStatement nowhere (reads a)) (SilentStatement (a_module (does (reads a) ∷ [])) (reads a) false) → ⊥ }
{}

/// Inside of a `with` statement a declared name isn't silent, since its object may answer, nor a declaration of a value, which may
/// set a property of it.
pub fn nothing_is_known_in_with()
    ensures name { At in_with_a (a_node Kind.ExpressionStatement nowhere (reads a)) (SilentStatement (with_a (does (reads a))) (reads a) false) → ⊥ }
    ensures read { At in_with_a (a_declaration variable.Let nowhere nowhere nowhere nowhere a (reads a)) (SilentDeclaration (with_a (declares variable.Let (binds a) (reads a))) variable.Let nowhere nowhere (joined (binds a) (reads a)) false) → ⊥ }
    ensures given { At in_with_a (a_declaration variable.Var nowhere nowhere nowhere nowhere a one) (SilentDeclaration (with_a (declares variable.Var (binds a) one)) variable.Var nowhere nowhere (joined (binds a) one) false) → ⊥ }
{}

/// Inside of a class `this` isn't silent, since it may have no value yet.
pub fn this_stays_in_classes()
    ensures { At in_class_a (a_node Kind.ExpressionStatement nowhere this) (SilentStatement (plug in_class_a (a_node Kind.ExpressionStatement nowhere this)) this (in_class_at in_class_a)) → ⊥ }
{}

/// A variable and a function that nothing refers to go.
pub fn what_is_free_goes()
    ensures variable { Edit (a_module (let_ a ∷ [])) (a_module []) }
    ensures function { Edit (a_module (function_a [] [] ∷ [])) (a_module []) }
{}

/// What is read isn't free, nor is what is exported.
pub fn what_is_used_stays()
    ensures read { IsFree a_is_read (named_in a (body_of 0)) → ⊥ }
    ensures exported { IsFree a_is_exported (named_in a (body_of 0)) → ⊥ }
{}

/// A name of an import that nothing refers to goes, and the import stays; one that is read isn't free.
pub fn unused_names_of_imports_go()
    ensures unused { Edit (a_module (imports a ∷ [])) (a_module (imports_nothing ∷ [])) }
    ensures read { IsFree (a_module (imports a ∷ does (reads a) ∷ [])) (named_in a (body_of 0)) → ⊥ }
{}

/// An import without names goes behind another of its module, with names or without, and not behind one of another module, nor before
/// one of its own.
pub fn repeated_imports_go()
    ensures bare { Edit (a_module (imports_nothing ∷ imports_nothing ∷ [])) (a_module (imports_nothing ∷ [])) }
    ensures behind_names { Edit (a_module (imports a ∷ imports_nothing ∷ [])) (a_module (imports a ∷ [])) }
    ensures behind { is_asked_before (codes "m") false behind_import ≡ true }
    ensures other { is_asked_before (codes "m") false behind_other ≡ false }
    ensures first { is_asked_before (codes "m") false (before (imports a ∷ [])) ≡ false }
{}

/// Names of two imports of one module come together: a default stands in front, a further one is the export `default`, and a namespace
/// stands beside one default at most. No import of another module takes them, nor one in a module with a direct call of `eval`.
pub fn imports_of_one_module_become_one()
    ensures named { Edit (a_module (takes_from (name_as a a ∷ []) ∷ takes_from (name_as b b ∷ []) ∷ [])) (a_module (takes_from (name_as a a ∷ name_as b b ∷ []) ∷ [])) }
    ensures default_in_front { Edit (a_module (takes_from (name_as a a ∷ []) ∷ does call_of_a ∷ takes_from (default_name b ∷ []) ∷ [])) (a_module (takes_from (default_name b ∷ name_as a a ∷ []) ∷ does call_of_a ∷ [])) }
    ensures further_default { Edit (a_module (imports a ∷ imports b ∷ [])) (a_module (takes_from (default_name a ∷ name_as (codes "default") b ∷ []) ∷ [])) }
    ensures namespace { Edit (a_module (takes_from (namespace_name a ∷ []) ∷ imports b ∷ [])) (a_module (takes_from (default_name b ∷ namespace_name a ∷ []) ∷ [])) }
    ensures beside_namespace { may_merge (namespace_name a) (name_as b b) ≡ false }
    ensures two_namespaces { may_merge (namespace_name a) (namespace_name b) ≡ false }
    ensures two_defaults { may_merge (joined (default_name a) (namespace_name a)) (default_name b) ≡ false }
    ensures other { (s : Forest) → MergesIn (joined (imports a) (takes_from_other (default_name b ∷ []))) s → ⊥ }
    ensures eval { (t : Forest) → MergedImports (a_module (imports a ∷ imports b ∷ does call_of_eval ∷ [])) t → ⊥ }
{}

/// An import and an export of the very names that it binds become an export from the other module, in the place of the import, in the order
/// of the export: a default as `default`, a namespace that is alone as a whole, a name in quotes as one. None does where an export lists a
/// further name, or lacks one, or stands in front of the import; where a namespace stands beside a default; where something else refers to a
/// name; and in a module with a direct call of `eval`.
pub fn imports_that_are_exported_pass()
    ensures one { PassedExports (a_module (takes_from (name_as a b ∷ []) ∷ shows (shown_as b (codes "c") ∷ []) ∷ [])) (a_module (passes_from (passed_as (module_name.Name a) (codes "c") ∷ []) ∷ [])) }
    ensures several { PassedExports (a_module (takes_from (name_as a a ∷ name_as b b ∷ []) ∷ imports_other ∷ shows (shown_as b b ∷ shown_as a a ∷ shown_as b (codes "c") ∷ []) ∷ []))
        (a_module (passes_from (passed_as (module_name.Name b) b ∷ passed_as (module_name.Name a) a ∷ passed_as (module_name.Name b) (codes "c") ∷ []) ∷ imports_other ∷ [])) }
    ensures default_name { PassedExports (a_module (imports a ∷ shows (shown_as a a ∷ []) ∷ [])) (a_module (passes_from (passed_as (module_name.Name (codes "default")) a ∷ []) ∷ [])) }
    ensures namespace { PassedExports (a_module (takes_from (namespace_name a ∷ []) ∷ shows (shown_as a b ∷ []) ∷ [])) (a_module (passes_namespace b ∷ [])) }
    ensures quoted { PassedExports (a_module (takes_from (text_as (codes "a b") a ∷ []) ∷ shows (shown_as a b ∷ []) ∷ [])) (a_module (passes_from (passed_as (module_name.Text (codes "a b")) b ∷ []) ∷ [])) }
    ensures further { (t : Forest) → PassedExports (a_module (takes_from (name_as a a ∷ []) ∷ shows (joined (shown_as a a) (shown_as b b) ∷ []) ∷ [])) t → ⊥ }
    ensures unlisted { (t : Forest) → PassedExports (a_module (takes_from (joined (name_as a a) (name_as b b) ∷ []) ∷ shows (shown_as a a ∷ []) ∷ [])) t → ⊥ }
    ensures beside_default { (t : Forest) → PassedExports (a_module (takes_from (joined (default_name a) (namespace_name b) ∷ []) ∷ shows (joined (shown_as a a) (shown_as b b) ∷ []) ∷ [])) t → ⊥ }
    ensures in_front { (t : Forest) → PassedExports (a_module (shows (shown_as a a ∷ []) ∷ imports a ∷ [])) t → ⊥ }
    ensures used { (t : Forest) → PassedExports (a_module (imports a ∷ shows (shown_as a a ∷ []) ∷ does (reads a) ∷ [])) t → ⊥ }
    ensures eval { (t : Forest) → PassedExports (a_module (imports a ∷ shows (shown_as a a ∷ []) ∷ does call_of_eval ∷ [])) t → ⊥ }
{}

/// A conditional and an `if` on a test that is known become the branch that is taken.
pub fn known_branches_are_taken()
    ensures consequent { Edit (a_module (does (conditional one call_of_a (reads a)) ∷ [])) (a_module (does call_of_a ∷ [])) }
    ensures alternate { Edit (a_module (does (conditional null (reads a) call_of_a) ∷ [])) (a_module (does call_of_a ∷ [])) }
    ensures object { Edit (a_module (does (conditional (array []) call_of_a (reads a)) ∷ [])) (a_module (does call_of_a ∷ [])) }
    ensures negated { Edit (a_module (does (conditional (applied unary.LogicalNot (array [])) (reads a) call_of_a) ∷ [])) (a_module (does call_of_a ∷ [])) }
    ensures if_holds { Edit (a_module (if_one (does call_of_a) ∷ [])) (a_module (does call_of_a ∷ [])) }
    ensures if_fails { Edit (a_module (if_null empty (does call_of_a) ∷ [])) (a_module (does call_of_a ∷ [])) }
    ensures if_object { Edit (a_module (either_way (array []) (does call_of_a) (does (reads a)) ∷ [])) (a_module (does call_of_a ∷ [])) }
{}

/// An `if` with no branch to take becomes empty, but where it declares a function or, by `var`, a variable of the function around,
/// or its test acts. What `let` declares in a block or in the head of a loop is of that alone, and a handler's parameter of the handler.
pub fn dead_ifs_become_empty()
    ensures call { Edit (a_module (if_null (does call_of_a) no ∷ [])) (a_module (empty ∷ [])) }
    ensures alone { Edit (a_module (if_one (if_null (does call_of_a) no) ∷ [])) (a_module (if_one empty ∷ [])) }
    ensures negated { Edit (a_module (either_way (applied unary.LogicalNot (array [])) (does call_of_a) no ∷ [])) (a_module (empty ∷ [])) }
    ensures with_let { Edit (a_module (if_null (block (let_ a ∷ [])) no ∷ [])) (a_module (empty ∷ [])) }
    ensures handled { Edit (a_module (if_null (tried (let_ a ∷ [])) no ∷ [])) (a_module (empty ∷ [])) }
    ensures handled_in_block { Edit (a_module (if_null (block (tried (does call_of_a ∷ []) ∷ [])) no ∷ [])) (a_module (empty ∷ [])) }
    ensures handled_with_var { (y : Tree) → DeadIf (an_if nowhere (Kind.Literal value.Null) nowhere nothing (joined (block (tried (var_ a ∷ []) ∷ [])) no)) y → ⊥ }
    ensures looped { Edit (a_module (if_null (loop (let_ a) (does call_of_a)) no ∷ [])) (a_module (empty ∷ [])) }
    ensures looped_with_var { (y : Tree) → DeadIf (an_if nowhere (Kind.Literal value.Null) nowhere nothing (joined (loop (var_ a) (does call_of_a)) no)) y → ⊥ }
    ensures with_var { (y : Tree) → DeadIf (an_if nowhere (Kind.Literal value.Null) nowhere nothing (joined (block (var_ a ∷ [])) no)) y → ⊥ }
    ensures function { (y : Tree) → DeadIf (an_if nowhere (Kind.Literal value.Null) nowhere nothing (joined (block (function_a [] [] ∷ [])) no)) y → ⊥ }
    ensures acting { (y : Tree) → DeadIf (an_if nowhere (Kind.UnaryExpression unary.LogicalNot) nowhere (array (call_of_a ∷ [])) (joined (does call_of_a) no)) y → ⊥ }
{}

/// A block of nothing leaves its list, and so does one behind a label, but where a call stands in it; a branch of an `if` stays.
pub fn blocks_of_nothing_leave()
    ensures block { Edit (a_module (block [] ∷ [])) (a_module []) }
    ensures nested { Edit (a_module (throws one ∷ block (block [] ∷ empty ∷ []) ∷ let_ a ∷ [])) (a_module (throws one ∷ let_ a ∷ [])) }
    ensures labeled { Edit (a_module (labeled (labeled (block [])) ∷ [])) (a_module []) }
    ensures empty { Edit (a_module (labeled empty ∷ [])) (a_module []) }
    ensures call { (items : List Forest) (n : Note) → EmptyBlock (before items) (record { kind = Kind.BlockStatement; note = n; below = listed Kind.Statements (block (does call_of_a ∷ []) ∷ []) }) → ⊥ }
    ensures let_ { (items : List Forest) (n : Note) → EmptyBlock (before items) (record { kind = Kind.BlockStatement; note = n; below = listed Kind.Statements (let_ a ∷ []) }) → ⊥ }
    ensures branch { (x : Tree) → EmptyBlock branch_of_if x → ⊥ }
{}

/// A statement behind a jump leaves its list, whatever stands between, and so does one behind a block with a jump, or behind an `if`
/// of which both branches jump, unless it declares a name around it. Declarations stay, and so does what stands in front of a jump, behind
/// an `if` of which one branch jumps, behind a label or in no list with a jump.
pub fn what_never_runs_leaves()
    ensures call { Edit (a_module (throws one ∷ does call_of_a ∷ [])) (a_module (throws one ∷ [])) }
    ensures further { Edit (a_module (throws one ∷ let_ a ∷ block (does call_of_a ∷ []) ∷ [])) (a_module (throws one ∷ let_ a ∷ [])) }
    ensures debugger { Edit (a_module (throws one ∷ debugger ∷ [])) (a_module (throws one ∷ [])) }
    ensures block { Edit (a_module (throwing_block ∷ does call_of_a ∷ [])) (a_module (throwing_block ∷ [])) }
    ensures branches { Edit (a_module (throwing_branch throwing_block ∷ does call_of_a ∷ [])) (a_module (throwing_branch throwing_block ∷ [])) }
    ensures one_branch { (x : Tree) → Unreached (in_list (past (throwing_branch no) (first nothing))) x → ⊥ }
    ensures label { (x : Tree) → Unreached (in_list (past broken_label (first nothing))) x → ⊥ }
    ensures declaration { (n : Note) (below : Forest) → Unreached behind_throw (record { kind = Kind.VariableDeclaration variable.Let; note = n; below = below }) → ⊥ }
    ensures declares { (n : Note) → Unreached behind_throw (record { kind = Kind.BlockStatement; note = n; below = listed Kind.Statements (var_ a ∷ []) }) → ⊥ }
    ensures front { (items : List Forest) (x : Tree) → Unreached (before items) x → ⊥ }
{}

/// A statement in a branch that isn't taken leaves its list, further in too, whatever the test does, unless it declares a name around it.
/// What stands in a branch that runs or may run stays, and so does the code of a function.
pub fn what_is_not_taken_leaves()
    ensures consequent { Edit (a_module (if_null (block (var_ a ∷ does call_of_a ∷ [])) no ∷ [])) (a_module (if_null (block (var_ a ∷ [])) no ∷ [])) }
    ensures alternate { Edit (a_module (either_way one empty (block (does call_of_a ∷ var_ a ∷ [])) ∷ [])) (a_module (either_way one empty (block (var_ a ∷ [])) ∷ [])) }
    ensures further { Edit (a_module (if_null (block (if_one (block (does call_of_a ∷ var_ a ∷ [])) ∷ [])) no ∷ [])) (a_module (if_null (block (if_one (block (var_ a ∷ [])) ∷ [])) no ∷ [])) }
    ensures acting { Edit (a_module (either_way (logical operator.And (reads a) null) (block (var_ a ∷ does call_of_a ∷ [])) no ∷ [])) (a_module (either_way (logical operator.And (reads a) null) (block (var_ a ∷ [])) no ∷ [])) }
    ensures declaration { (how : VariableKind) (n : Note) (below : Forest) → Untaken (in_branch null (first nothing)) (record { kind = Kind.VariableDeclaration how; note = n; below = below }) → ⊥ }
    ensures runs { (x : Tree) → Untaken (in_branch one (first nothing)) x → ⊥ }
    ensures may_run { (x : Tree) → Untaken (in_branch (reads a) (first nothing)) x → ⊥ }
    ensures function { (x : Tree) → Untaken (in_function null) x → ⊥ }
{}

/// A loop of which the test is false from the start leaves its list, and so do a `try` around nothing, what stands behind a label so, and
/// what a jump to its label leaves at once, unless it declares a name around it. A loop that may turn stays, and so do a `try` of which the
/// block or the finalizer holds something, and a labeled statement that does something before a jump leaves it, or in that.
pub fn what_does_nothing_leaves()
    ensures while_loop { Edit (a_module (while_ null (block (does call_of_a ∷ let_ a ∷ [])) ∷ [])) (a_module []) }
    ensures for_loop { Edit (a_module (for_ null (does call_of_a) ∷ [])) (a_module []) }
    ensures labeled { Edit (a_module (labeled (while_ null (does call_of_a)) ∷ [])) (a_module []) }
    ensures tried { Edit (a_module (tried (does call_of_a ∷ []) ∷ [])) (a_module []) }
    ensures finally { Edit (a_module (tried_finally (does call_of_a ∷ []) (empty ∷ []) ∷ [])) (a_module []) }
    ensures variable { (items : List Forest) (n : Note) → IdleStatement (before items) (record { kind = Kind.WhileStatement; note = n; below = joined null (block (var_ a ∷ [])) }) → ⊥ }
    ensures turns { (items : List Forest) (n : Note) (body : Forest) → IdleStatement (before items) (record { kind = Kind.WhileStatement; note = n; below = joined one body }) → ⊥ }
    ensures may_turn { (items : List Forest) (n : Note) (body : Forest) → IdleStatement (before items) (record { kind = Kind.WhileStatement; note = n; below = joined (reads a) body }) → ⊥ }
    ensures at_end { (items : List Forest) (n : Note) (body : Forest) → IdleStatement (before items) (record { kind = Kind.DoWhileStatement; note = n; below = joined body null }) → ⊥ }
    ensures ends { (items : List Forest) (n : Note) → IdleStatement (before items) (record { kind = Kind.TryStatement; note = n; below = joined (block []) (joined no (block (does call_of_a ∷ []))) }) → ⊥ }
    ensures tries { (items : List Forest) (n : Note) → IdleStatement (before items) (record { kind = Kind.TryStatement; note = n; below = joined (block (does call_of_a ∷ [])) (joined no (block [])) }) → ⊥ }
    ensures branch { (x : Tree) → IdleStatement branch_of_if x → ⊥ }
    ensures jumps { Edit (a_module (labeled breaks_label ∷ [])) (a_module []) }
    ensures jumps_in_block { Edit (a_module (labeled (block (breaks_label ∷ let_ a ∷ does call_of_a ∷ [])) ∷ [])) (a_module []) }
    ensures jumps_out { Edit (a_module (labeled (labeled_too (block (block (breaks_label ∷ []) ∷ does call_of_a ∷ []))) ∷ [])) (a_module []) }
    ensures jumps_elsewhere { (items : List Forest) (n : Note) → IdleStatement (before items) (record { kind = Kind.LabeledStatement (codes "m"); note = n; below = block (breaks_label ∷ []) }) → ⊥ }
    ensures jumps_late { (items : List Forest) (n : Note) → IdleStatement (before items) (record { kind = Kind.LabeledStatement (codes "l"); note = n; below = block (does call_of_a ∷ breaks_label ∷ []) }) → ⊥ }
    ensures jumps_inside { (items : List Forest) (n : Note) → IdleStatement (before items) (record { kind = Kind.LabeledStatement (codes "m"); note = n; below = block (broken_label ∷ does call_of_a ∷ []) }) → ⊥ }
    ensures jumps_finally { (items : List Forest) (n : Note) → IdleStatement (before items) (record { kind = Kind.LabeledStatement (codes "l"); note = n; below = over Kind.TryStatement (joined (block (breaks_label ∷ [])) (joined no (block (does call_of_a ∷ [])))) }) → ⊥ }
    ensures jump_with_var { (items : List Forest) (n : Note) → IdleStatement (before items) (record { kind = Kind.LabeledStatement (codes "l"); note = n; below = block (breaks_label ∷ var_ a ∷ []) }) → ⊥ }
{}

/// A block of nothing, or what does nothing whatever it holds, becomes empty as the branch of an `if` or the body of a loop. It stays where
/// it does something or declares a name around it, where a `try` asks for a block, and behind a label, with which it does nothing.
pub fn idle_bodies_become_empty()
    ensures branch { Edit (a_module (if_one (block []) ∷ [])) (a_module (if_one empty ∷ [])) }
    ensures while_loop { Edit (a_module (if_one (while_ null (block (does call_of_a ∷ let_ a ∷ []))) ∷ [])) (a_module (if_one empty ∷ [])) }
    ensures labeled { Edit (a_module (if_one (labeled (block (breaks_label ∷ does call_of_a ∷ []))) ∷ [])) (a_module (if_one empty ∷ [])) }
    ensures body { Edit (a_module (while_ (reads a) (tried (does call_of_a ∷ [])) ∷ [])) (a_module (while_ (reads a) empty ∷ [])) }
    ensures acting { (n : Note) (y : Tree) → IdleBody (in_list (under Kind.WhileStatement nowhere (past (reads a) (first nothing)) nothing)) (record { kind = Kind.BlockStatement; note = n; below = listed Kind.Statements (does call_of_a ∷ []) }) y → ⊥ }
    ensures variable { (n : Note) (y : Tree) → IdleBody (in_list (under Kind.WhileStatement nowhere (past (reads a) (first nothing)) nothing)) (record { kind = Kind.WhileStatement; note = n; below = joined null (block (var_ a ∷ [])) }) y → ⊥ }
    ensures of_try { (x y : Tree) → IdleBody (in_list (under Kind.TryStatement nowhere (first (absent (block []))) nothing)) x y → ⊥ }
    ensures behind_label { (x y : Tree) → IdleBody (in_list (under (Kind.LabeledStatement (codes "l")) nowhere (first nothing) nothing)) x y → ⊥ }
{}

/// An `if` whose branches are empty becomes a statement of its test, wherever it stands. It stays where a branch is more, or where the test
/// is a function.
pub fn empty_ifs_become_their_tests()
    ensures one_branch { Edit (a_module (either_way call_of_a empty no ∷ [])) (a_module (does call_of_a ∷ [])) }
    ensures both_branches { Edit (a_module (either_way (reads a) empty empty ∷ [])) (a_module (does (reads a) ∷ [])) }
    ensures branch { Edit (a_module (if_one (either_way call_of_a empty no) ∷ [])) (a_module (if_one (does call_of_a) ∷ [])) }
    ensures full { (y : Tree) → EmptyIf (an_if nowhere (Kind.ReferenceName a) nowhere nothing (joined empty (does call_of_a))) y → ⊥ }
    ensures only_alternate { (y : Tree) → EmptyIf (an_if nowhere (Kind.ReferenceName a) nowhere nothing (joined (does call_of_a) empty)) y → ⊥ }
    ensures function { (pure : Bool) (d branches : Forest) (y : Tree) → EmptyIf (an_if nowhere (Kind.Function function_kind.Arrow pure) nowhere d branches) y → ⊥ }
{}

/// An `if` loses an empty alternate as an item of a list, or as the alternate of an `if` that is one. It stays where the `if` is the branch
/// or the body of another statement, behind which an alternate may follow, and where the alternate does something.
pub fn empty_alternates_go()
    ensures item { Edit (a_module (either_way (reads a) (does call_of_a) empty ∷ [])) (a_module (either_way (reads a) (does call_of_a) no ∷ [])) }
    ensures alternate { Edit (a_module (either_way one (does call_of_a) (either_way (reads a) (does call_of_a) empty) ∷ [])) (a_module (either_way one (does call_of_a) (either_way (reads a) (does call_of_a) no) ∷ [])) }
    ensures consequent { (x y : Tree) → EmptyAlternate branch_of_if x y → ⊥ }
    ensures body { (x y : Tree) → EmptyAlternate (in_list (under Kind.WhileStatement nowhere (past (reads a) (first nothing)) nothing)) x y → ⊥ }
    ensures full { (place : Around) (y : Tree) → EmptyAlternate place (an_if nowhere (Kind.ReferenceName a) nowhere nothing (joined (does call_of_a) (does call_of_a))) y → ⊥ }
{}

/// A `try` around nothing becomes its finalizer, wherever it stands, or its block where it has none. It stays where its block holds
/// something, its handler declares a variable of the function around, or labels around would reach a loop in its finalizer.
pub fn a_try_around_nothing_comes_to_a_block()
    ensures finalizer { Edit (a_module (finally_alone (does call_of_a ∷ []) ∷ [])) (a_module (block (does call_of_a ∷ []) ∷ [])) }
    ensures handled { Edit (a_module (tried_finally (let_ a ∷ []) (does call_of_a ∷ []) ∷ [])) (a_module (block (does call_of_a ∷ []) ∷ [])) }
    ensures branch { Edit (a_module (if_one (finally_alone (does call_of_a ∷ [])) ∷ [])) (a_module (if_one (block (does call_of_a ∷ [])) ∷ [])) }
    ensures alone { Edit (a_module (if_one (tried (does call_of_a ∷ [])) ∷ [])) (a_module (if_one (block []) ∷ [])) }
    ensures tries { (n : Note) (y : Tree) → IdleTry (record { kind = Kind.TryStatement; note = n; below = joined (block (does call_of_a ∷ [])) (joined no (block (does call_of_a ∷ []))) }) y → ⊥ }
    ensures variable { (n : Note) (y : Tree) → IdleTry (record { kind = Kind.TryStatement; note = n; below = joined (block []) (joined (over Kind.CatchClause (joined (binds a) (block (var_ a ∷ [])))) (block (does call_of_a ∷ []))) }) y → ⊥ }
    ensures loops { (n : Note) (y : Tree) → IdleTry (record { kind = Kind.TryStatement; note = n; below = joined (block []) (joined no (block (while_ (reads a) (does call_of_a) ∷ []))) }) y → ⊥ }
{}

/// The value of a declaration in a branch that isn't taken becomes a zero, in the head of a loop too. A name stays, and so does what stands
/// in a branch that runs or may run, in the code of a function, or elsewhere than behind a declared name.
pub fn what_is_never_given_becomes_a_zero()
    ensures variable { Edit (a_module (if_null (block (declares variable.Var (binds a) call_of_a ∷ [])) no ∷ [])) (a_module (if_null (block (declares variable.Var (binds a) zero ∷ [])) no ∷ [])) }
    ensures head { Edit (a_module (if_null (loop (declares variable.Let (binds a) call_of_a) empty) no ∷ [])) (a_module (if_null (loop (declares variable.Let (binds a) zero) empty) no ∷ [])) }
    ensures name { (n : Note) (y : Tree) → UnrunValue (in_branch null (value_of_a variable.Var nothing)) (record { kind = Kind.ReferenceName a; note = n; below = nothing }) y → ⊥ }
    ensures runs { (x y : Tree) → UnrunValue (in_branch one (value_of_a variable.Var nothing)) x y → ⊥ }
    ensures may_run { (x y : Tree) → UnrunValue (in_branch (reads a) (value_of_a variable.Var nothing)) x y → ⊥ }
    ensures function { (x y : Tree) → UnrunValue (in_function_by null (value_of_a variable.Var nothing)) x y → ⊥ }
    ensures statement { (x y : Tree) → UnrunValue (in_branch null (under Kind.ExpressionStatement nowhere (first nothing) nothing)) x y → ⊥ }
{}

/// A branch that declares a function isn't left out, in a block either: in code that isn't strict its name is one of the
/// function around too (B.3.2), even where the block never runs.
pub fn branches_that_declare_stay()
    ensures alternate { (y : Tree) → KnownIf (an_if nowhere (Kind.Literal (value.Number (pos 1))) nowhere nothing (joined empty (block (function_a [] [] ∷ [])))) y → ⊥ }
    ensures consequent { (y : Tree) → KnownIf (an_if nowhere (Kind.Literal value.Null) nowhere nothing (joined (block (function_a [] [] ∷ [])) empty)) y → ⊥ }
{}

/// A logical expression with a known left side becomes its right one, if that is evaluated, and else the left one.
pub fn known_sides_count()
    ensures and_right { Edit (a_module (does (logical operator.And one call_of_a) ∷ [])) (a_module (does call_of_a ∷ [])) }
    ensures and_left { Edit (a_module (does (logical operator.And null call_of_a) ∷ [])) (a_module (does null ∷ [])) }
    ensures or_right { Edit (a_module (does (logical operator.Or null (reads a)) ∷ [])) (a_module (does (reads a) ∷ [])) }
    ensures or_left { Edit (a_module (does (logical operator.Or one (reads a)) ∷ [])) (a_module (does one ∷ [])) }
    ensures coalesce_right { Edit (a_module (does (logical operator.Coalesce null o_f) ∷ [])) (a_module (does o_f ∷ [])) }
    ensures coalesce_left { Edit (a_module (does (logical operator.Coalesce one o_f) ∷ [])) (a_module (does one ∷ [])) }
    ensures typed { Edit (a_module (does (logical operator.Or (applied unary.Typeof one) (reads a)) ∷ [])) (a_module (does (applied unary.Typeof one) ∷ [])) }
    ensures voided { Edit (a_module (does (logical operator.Coalesce (applied unary.Void one) o_f) ∷ [])) (a_module (does o_f ∷ [])) }
    ensures object { Edit (a_module (does (logical operator.Coalesce (array []) o_f) ∷ [])) (a_module (does (array []) ∷ [])) }
{}

/// No branch takes the place of a conditional on a test that acts, though that is an object.
pub fn acting_tests_let_nothing_stand_alone()
    ensures { (y : Tree) → KnownConditional statement (a_conditional nowhere Kind.ArrayExpression nowhere (listed Kind.Elements (call_of_a ∷ [])) (joined (reads a) null)) y → ⊥ }
{}

/// But no function or class comes out of a conditional: it would take its name from where it stands.
pub fn what_may_take_a_name_stays()
    ensures { (place : Around) (x y : Tree) → KnownConditional place x y → may_be_named y.kind ≡ false }
{}

/// And nothing does where it would do something else: a member that is called gets its object, as a name inside of a `with`
/// statement may, and the name `eval` makes a direct call of it; `typeof` of a name that nothing declares doesn't throw, and
/// `delete` takes what a name or a member refers to.
pub fn what_depends_on_its_place_stays()
    ensures called_member { Stays called o_f }
    ensures in_parentheses { Stays called (parenthesized o_f) }
    ensures called_in_with { Stays called_in_with (reads a) }
    ensures called_eval { Stays called_in_parentheses (reads (codes "eval")) }
    ensures typed_name { Stays (operand unary.Typeof) (reads a) }
    ensures deleted_member { Stays (operand unary.Delete) o_f }
    ensures deleted_name { Stays (operand unary.Delete) (reads a) }
{}

/// Elsewhere names and members come out too.
pub fn what_gives_its_value_comes_out()
    ensures assigned_member { ComesOut assigned o_f }
    ensures argument_name { ComesOut argument (reads a) }
    ensures called_name { ComesOut called (reads a) }
    ensures typed_member { ComesOut (operand unary.Typeof) o_f }
    ensures deleted_call { ComesOut (operand unary.Delete) (parenthesized call_of_a) }
{}

/// Where it matters that the part doesn't stand there itself, it stands behind a zero.
pub fn indirect_choices_stand_behind_a_zero()
    ensures called_member { Edit (placed called (conditional one o_f null)) (placed called (behind_zero o_f)) }
    ensures alternate { Edit (placed called (conditional null (reads a) o_f)) (placed called (behind_zero o_f)) }
    ensures right_side { Edit (placed called (logical operator.Or null o_f)) (placed called (behind_zero o_f)) }
    ensures typed_name { Edit (placed (operand unary.Typeof) (conditional one (reads a) null)) (placed (operand unary.Typeof) (behind_zero (reads a))) }
    ensures deleted_member { Edit (placed (operand unary.Delete) (conditional one o_f null)) (placed (operand unary.Delete) (behind_zero o_f)) }
{}

/// Behind a test that acts, or a left side, the part that counts follows it in a sequence, wherever that stands.
pub fn parts_that_count_follow_tests_that_act()
    ensures consequent { Edit (placed argument (conditional (array (call_of_a ∷ [])) o_f null)) (placed argument (sequence (array (call_of_a ∷ []) ∷ o_f ∷ []))) }
    ensures alternate { Edit (placed called (conditional (logical operator.And (reads a) null) one o_f)) (placed called (sequence (logical operator.And (reads a) null ∷ o_f ∷ []))) }
    ensures right_side { Edit (placed statement (logical operator.And (array (call_of_a ∷ [])) call_of_a)) (placed statement (sequence (array (call_of_a ∷ []) ∷ call_of_a ∷ []))) }
    ensures unknown { FollowsNone argument (conditional call_of_a one null) }
    ensures silent { FollowsNone argument (conditional one (reads a) null) }
    ensures left_side { FollowsNone argument (logical operator.Or (array (call_of_a ∷ [])) (reads a)) }
{}

/// Where it doesn't matter it takes none.
pub fn direct_choices_take_no_zero()
    ensures argument_name { StaysDirect argument (reads a) }
    ensures typed_member { StaysDirect (operand unary.Typeof) o_f }
    ensures called_name { StaysDirect called (reads a) }
{}

/// Where nobody takes its value, an operation becomes the operand that acts, if that is one alone.
pub fn unused_operations_become_operands()
    ensures negation { Edit (a_module (does (applied unary.LogicalNot call_of_a) ∷ [])) (a_module (does call_of_a ∷ [])) }
    ensures type_of { Edit (a_module (does (applied unary.Typeof call_of_a) ∷ [])) (a_module (does call_of_a ∷ [])) }
    ensures sign { Edit (a_module (does (applied unary.UnaryNegation not_a) ∷ [])) (a_module (does not_a ∷ [])) }
    ensures first_side { Edit (a_module (does (equals call_of_a one) ∷ [])) (a_module (does call_of_a ∷ [])) }
    ensures second_side { Edit (a_module (does (equals null o_f) ∷ [])) (a_module (does o_f ∷ [])) }
    ensures left_side { Edit (a_module (does (logical operator.Coalesce (reads a) one) ∷ [])) (a_module (does (reads a) ∷ [])) }
    ensures condition { Edit (a_module (does (conditional call_of_a one null) ∷ [])) (a_module (does call_of_a ∷ [])) }
    ensures in_parentheses { Edit (a_module (does (parenthesized (equals call_of_a one)) ∷ [])) (a_module (does (parenthesized call_of_a) ∷ [])) }
{}

/// It stays where both sides may act, as names may that nothing is known of; where none does; where its value is taken; where
/// `typeof` takes a name, which throws nothing then; and where the operator may act itself (13.5.4, 13.8).
pub fn what_may_act_stays()
    ensures both { StaysUnused statement (equals call_of_a (reads a)) }
    ensures right_side { StaysUnused statement (logical operator.And (reads a) call_of_a) }
    ensures none { StaysUnused statement (equals one null) }
    ensures used { StaysUnused argument (applied unary.LogicalNot call_of_a) }
    ensures name { StaysUnused statement (applied unary.Typeof (reads a)) }
    ensures converted { StaysUnused statement (applied unary.UnaryPlus call_of_a) }
{}

/// Where nobody takes its value, of an array and of a sequence the parts stay that act: one alone, or several in a sequence. What is
/// spread and acts stays in an array, with what acts beside it.
pub fn unused_lists_become_parts()
    ensures several { Edit (a_module (does (array (call_of_a ∷ one ∷ o_f ∷ [])) ∷ [])) (a_module (does (sequence (call_of_a ∷ o_f ∷ [])) ∷ [])) }
    ensures one_part { Edit (a_module (does (array (call_of_a ∷ one ∷ [])) ∷ [])) (a_module (does call_of_a ∷ [])) }
    ensures beside_a_hole { Edit (a_module (does (array (hole ∷ call_of_a ∷ [])) ∷ [])) (a_module (does call_of_a ∷ [])) }
    ensures all_parts { Edit (a_module (does (array (call_of_a ∷ o_f ∷ [])) ∷ [])) (a_module (does (sequence (call_of_a ∷ o_f ∷ [])) ∷ [])) }
    ensures beside_a_spread { Edit (a_module (does (array (call_of_a ∷ one ∷ spread (reads a) ∷ [])) ∷ [])) (a_module (does (array (call_of_a ∷ spread (reads a) ∷ [])) ∷ [])) }
    ensures hole_and_spread { Edit (a_module (does (array (hole ∷ spread (reads a) ∷ [])) ∷ [])) (a_module (does (array (spread (reads a) ∷ [])) ∷ [])) }
    ensures silent_spread { Edit (a_module (does (array (spread (array (one ∷ [])) ∷ call_of_a ∷ [])) ∷ [])) (a_module (does call_of_a ∷ [])) }
    ensures sequence { Edit (a_module (does (sequence (one ∷ call_of_a ∷ o_f ∷ [])) ∷ [])) (a_module (does (sequence (call_of_a ∷ o_f ∷ [])) ∷ [])) }
    ensures part { Edit (placed (second_part (one ∷ [])) (array (call_of_a ∷ null ∷ []))) (placed (second_part (one ∷ [])) call_of_a) }
{}

/// An array stays where something that acts is spread in it and all else acts too, and where its value is taken, as that of the last
/// part of such a sequence is; and a sequence where each part acts.
pub fn needed_lists_stay()
    ensures spread { ListStays statement (array (spread (reads a) ∷ [])) }
    ensures beside_a_spread { ListStays statement (array (call_of_a ∷ spread (reads a) ∷ [])) }
    ensures used { ListStays argument (array (call_of_a ∷ [])) }
    ensures used_spread { ListStays argument (array (one ∷ spread (reads a) ∷ [])) }
    ensures last_part { ListStays (second_part []) (array (call_of_a ∷ [])) }
    ensures all_parts { ListStays statement (sequence (call_of_a ∷ o_f ∷ [])) }
{}

/// Of a conditional of which nobody takes the value, and of which one branch alone acts, a logical expression is left.
pub fn one_sided_choices_become_logical()
    ensures consequent { Edit (a_module (does (conditional (reads a) call_of_a one) ∷ [])) (a_module (does (logical operator.And (reads a) call_of_a) ∷ [])) }
    ensures alternate { Edit (a_module (does (conditional (reads a) one call_of_a) ∷ [])) (a_module (does (logical operator.Or (reads a) call_of_a) ∷ [])) }
{}

/// It stays where both branches act, where neither does, and where its value is taken.
pub fn other_choices_stay()
    ensures both { ChoiceStays statement (conditional (reads a) call_of_a o_f) }
    ensures neither { ChoiceStays statement (conditional (reads a) one null) }
    ensures used { ChoiceStays argument (conditional (reads a) call_of_a one) }
{}

/// Of a sequence the parts leave that don't act, but for the last. Where that is left alone it stands there itself, or behind a zero.
pub fn idle_parts_go()
    ensures all_but_the_last { Edit (placed argument (sequence (one ∷ reads a ∷ []))) (placed argument (reads a)) }
    ensures one_between { Edit (placed argument (sequence (call_of_a ∷ one ∷ reads a ∷ []))) (placed argument (sequence (call_of_a ∷ reads a ∷ []))) }
    ensures called_member { Edit (placed called (sequence (one ∷ o_f ∷ []))) (placed called (behind_zero o_f)) }
    ensures several { Edit (placed called (sequence (one ∷ zero ∷ o_f ∷ []))) (placed called (behind_zero o_f)) }
    ensures typed_name { Edit (placed (operand unary.Typeof) (sequence (null ∷ reads a ∷ []))) (placed (operand unary.Typeof) (behind_zero (reads a))) }
{}

/// It stays where a zero stands before a last part for which it matters that it doesn't stand there itself, and where the parts before
/// it act.
pub fn needed_parts_stay()
    ensures called_member { PartsStay called (sequence (zero ∷ o_f ∷ [])) }
    ensures acting { PartsStay argument (sequence (call_of_a ∷ one ∷ [])) }
{}

/// Of an operation of which nobody takes the value, and of which both sides act, a sequence of these is left, if it compares or each of
/// them is primitive by its form.
pub fn two_sides_become_a_sequence()
    ensures compared { Edit (a_module (does (equals call_of_a o_f) ∷ [])) (a_module (does (sequence (call_of_a ∷ o_f ∷ [])) ∷ [])) }
    ensures primitive { Edit (a_module (does (difference not_a not_a) ∷ [])) (a_module (does (sequence (not_a ∷ not_a ∷ [])) ∷ [])) }
{}

/// In a sum of which nobody takes the value a text becomes the empty one, beside what acts, and so does what does nothing but give one;
/// in a template each text does.
pub fn texts_become_empty()
    ensures before { Edit (a_module (does (sum text call_of_a) ∷ [])) (a_module (does (sum empty_text call_of_a) ∷ [])) }
    ensures behind { Edit (a_module (does (sum call_of_a text) ∷ [])) (a_module (does (sum call_of_a empty_text) ∷ [])) }
    ensures silent { Edit (a_module (does (sum (applied unary.Typeof one) call_of_a) ∷ [])) (a_module (does (sum empty_text call_of_a) ∷ [])) }
    ensures silent_behind { Edit (a_module (does (sum call_of_a (applied unary.Typeof one)) ∷ [])) (a_module (does (sum call_of_a empty_text) ∷ [])) }
    ensures template { Edit (a_module (does (template (codes "a") call_of_a) ∷ [])) (a_module (does (template [] call_of_a) ∷ [])) }
{}

/// An empty one stays, and so does one in a sum whose value is taken, and what is no text. So do the texts of a template where its value
/// is taken, as a tag before it takes it too.
pub fn other_sums_stay()
    ensures empty { SidesStay statement (sum empty_text call_of_a) }
    ensures used { SidesStay argument (sum text call_of_a) }
    ensures no_text { SidesStay statement (sum one call_of_a) }
    ensures silent { SidesStay statement (sum (applied unary.LogicalNot one) call_of_a) }
    ensures empty_template { SidesStay statement (template [] call_of_a) }
    ensures used_template { SidesStay argument (template (codes "a") call_of_a) }
    ensures tagged { SidesStay tagged (template (codes "a") call_of_a) }
{}

/// It stays where one side doesn't act, where its value is taken, and where it may convert an object.
pub fn other_sides_stay()
    ensures one_side { SidesStay statement (equals call_of_a one) }
    ensures used { SidesStay argument (equals call_of_a o_f) }
    ensures converted { SidesStay statement (difference not_a call_of_a) }
{}

/// Where nobody takes its value, of an object literal the values stay that act: one alone, or several in a sequence. Before each stays its
/// key, if that is an expression that acts, where it gives a truth value, a text or another primitive value.
pub fn unused_objects_become_values()
    ensures one_value { Edit (a_module (does (object (a_is call_of_a ∷ b_is one ∷ [])) ∷ [])) (a_module (does call_of_a ∷ [])) }
    ensures several { Edit (a_module (does (object (a_is call_of_a ∷ b_is o_f ∷ [])) ∷ [])) (a_module (does (sequence (call_of_a ∷ o_f ∷ [])) ∷ [])) }
    ensures keys { Edit (a_module (does (object (keyed_by not_a o_f ∷ keyed_by (applied unary.Typeof one) call_of_a ∷ [])) ∷ [])) (a_module (does (sequence (not_a ∷ o_f ∷ call_of_a ∷ [])) ∷ [])) }
    ensures one_key { Edit (a_module (does (object (keyed_by not_a one ∷ b_is one ∷ [])) ∷ [])) (a_module (does not_a ∷ [])) }
    ensures prototype { Edit (a_module (does (object (keyed_by (literal (value.Text (codes "__proto__"))) call_of_a ∷ [])) ∷ [])) (a_module (does call_of_a ∷ [])) }
    ensures method { Edit (a_module (does (object (method_by (literal (value.Text (codes "m"))) ∷ b_is call_of_a ∷ [])) ∷ [])) (a_module (does call_of_a ∷ [])) }
{}

/// It stays where its value is taken, where none of its values acts, where it has a getter, where something is spread in it, where a key
/// may be an object, and where that of a method acts.
pub fn other_objects_stay()
    ensures used { ObjectStays argument (object (a_is one ∷ [])) }
    ensures idle { ObjectStays statement (object (a_is one ∷ [])) }
    ensures getter { ObjectStays statement (object (getter_of_a ∷ [])) }
    ensures spread { ObjectStays statement (object (spread (reads a) ∷ [])) }
    ensures unknown_key { ObjectStays statement (object (keyed_by (reads a) call_of_a ∷ [])) }
    ensures method { ObjectStays statement (object (method_by not_a ∷ [])) }
{}

/// An operation of which the value is known becomes a literal of it, or unary minus on one.
pub fn known_operations_become_literals()
    ensures negation { Edit (placed argument (applied unary.LogicalNot (literal (value.Number (pos 0))))) (placed argument (literal (value.Boolean true))) }
    ensures type_name { Edit (placed argument (applied unary.Typeof one)) (placed argument (literal (value.Text (codes "number")))) }
    ensures sum { Edit (placed argument (operation binary.Addition (value.Number (pos 1)) (value.Number (pos 2)))) (placed argument (literal (value.Number (pos 3)))) }
    ensures texts { Edit (placed argument (operation binary.Addition (value.Text (codes "a")) (value.Text (codes "b")))) (placed argument (literal (value.Text (codes "ab")))) }
    ensures comparison { Edit (placed argument (operation binary.LessThan (value.Number (pos 1)) (value.Number (pos 2)))) (placed argument (literal (value.Boolean true))) }
    ensures difference { Edit (placed argument (operation binary.Subtraction (value.Number (pos 1)) (value.Number (pos 3)))) (placed argument (applied unary.UnaryNegation (literal (value.Number (pos 2))))) }
{}

/// It stays where it is how a negative number is written, where its value is a negative zero or no whole number, where a number is joined
/// to a text, and where the operand is a name.
pub fn other_operations_stay()
    ensures negative { OperationStays argument (applied unary.UnaryNegation one) }
    ensures signed { OperationStays argument (applied unary.UnaryPlus (literal (value.Number (negsuc 1)))) }
    ensures zero { OperationStays argument (applied unary.UnaryNegation (literal (value.Number (pos 0)))) }
    ensures fraction { OperationStays argument (operation binary.Division (value.Number (pos 1)) (value.Number (pos 2))) }
    ensures mixed { OperationStays argument (operation binary.Addition (value.Text (codes "a")) (value.Number (pos 1))) }
    ensures name { OperationStays argument (applied unary.Typeof (reads a)) }
{}
