// Small modules that the headline is tried on. Each is a contract, so that the check computes it.
ghost use Rattle.std.specs.Prelude.{◌≡◌, [], ◌∷◌, true, false, codes};
ghost use Rattle.js_syntax.specs.Class.{root};
ghost use Rattle.js_syntax.specs.declared.kind.VariableKind.TheVariants as variable;
ghost use Rattle.js_meaning.specs.Kept.{Kept, KeptBack};
ghost use Rattle.form_rules.specs.Samples.{a_module, a_script, a, binds, one, does, declares, let_, var_, function_a, block};
ghost use Rattle.json_shape.specs.Shape.{Fits};
ghost use Rattle.scope_rules.specs.Samples.{b, imports};
ghost use Rattle.headline.specs.Clean.{Clean};
ghost use Rattle.headline.specs.Headline.{Edits, Headline, loaded, root_names, ImportsAreUsed};
ghost use Rattle.headline_text.specs.Written.{written};
ghost use Rattle.min_peephole.specs.Quiet.{is_quiet};
ghost use Rattle.steps.specs.Allowed.Rows.{call_of_a, call_of_eval, exports_declaration, empty};
ghost use Rattle.test_headline.specs.Rows as row;

/// `export let g = 1;` doesn't become empty: at its end the host sees an export less.
pub fn exports_stay()
    ensures kept { Kept row.exports_one row.empty → ⊥ }
    ensures refused { Headline row.exports_one row.empty → ⊥ }
{}

/// Nor does `f(1);`: the host is called once less.
pub fn calls_stay()
    ensures kept { Kept row.calls_host row.empty → ⊥ }
    ensures refused { Headline row.calls_host row.empty → ⊥ }
{}

/// `function g() {} g();` doesn't become `g();`, which throws.
pub fn called_functions_stay()
    ensures kept { Kept row.calls_own row.calls_nothing → ⊥ }
    ensures refused { Headline row.calls_own row.calls_nothing → ⊥ }
{}

/// Nor does `import a from 'm';` become empty, though nothing uses the name: the host loads a module less.
pub fn imports_stay()
    ensures kept { Kept (a_module (imports a ∷ [])) row.empty → ⊥ }
    ensures refused { Headline (a_module (imports a ∷ [])) row.empty → ⊥ }
{}

/// `for (;;) ;` doesn't become empty. No run of it ends, so that all that its runs show is kept; but the empty program comes to an end,
/// which is what the way back refuses.
pub fn endless_loops_stay()
    ensures back { KeptBack row.never_ends row.empty → ⊥ }
    ensures refused { Headline row.never_ends row.empty → ⊥ }
{}

/// `(1 ? o.g : null)();` doesn't become `o.g();`, whose call has a receiver.
pub fn receivers_stay_away()
    ensures kept { Kept row.calls_chosen row.calls_member → ⊥ }
    ensures refused { Headline row.calls_chosen row.calls_member → ⊥ }
{}

/// What other code may use doesn't go: a variable, a function and one of two declarators beside a direct call of `eval`,
/// a function of a script, one in a block of sloppy code, and a variable and one of two declarators of a script. No run
/// tells, since the call is of a function of the host, and scripts have no runs; the list of changes does.
pub fn what_others_may_use_stays()
    ensures evaluated { Headline (a_module (declares variable.Let (binds a) one ∷ does call_of_eval ∷ [])) (a_module (does call_of_eval ∷ [])) → ⊥ }
    ensures function { Headline (a_module (function_a [] [] ∷ does call_of_eval ∷ [])) (a_module (does call_of_eval ∷ [])) → ⊥ }
    ensures declarator { Headline row.of_two_evaluated row.of_one_evaluated → ⊥ }
    ensures global { Headline (a_script (function_a [] [] ∷ [])) (a_script []) → ⊥ }
    ensures sloppy { Headline (a_script (block (function_a [] [] ∷ []) ∷ [])) (a_script (block [] ∷ [])) → ⊥ }
    ensures variable { Headline (a_script (declares variable.Let (binds a) one ∷ [])) (a_script []) → ⊥ }
    ensures shared { Headline row.of_two_in_script row.of_one_in_script → ⊥ }
{}

/// `1;` doesn't stay, nor does the conditional of `a(true ? a : b);`, of `a(a && null ? a : b);`, of `(1 ? o.g : null)();` or of `a ? b() :
/// 1;`, what stands right in `null && a();`, what of `!(a() === 1);`, of `[a(), 1];` and of `({ a: a() });` is no call, the `1` of `use((1,
/// a));` and of `(1, o.g)();`, the comparison of `a() === b();`, the negation of `use(!0);`, the `if` of `if (1) a(); else b();` and of `if
/// (null) a();`, the call of `throw 1; a();`, that of `b` in `if (null) { var a = 1; b(); } use(a);` and in `if (a && null) { b(); }`, `l:
/// { {} }`, `l: while (null) a();`, the call of `if (null) var a = b(); use(a);`, `l: { break l; a(); }`, the `try` of `try {} finally {
/// a(); }`, the block of `while (a) {}`, the `if` of `if (a) ;`, the alternate of `if (a) a(); else ;`, the name of `let x = a();`, the second
/// import of `import a from 'm'; import b from 'm';`, the import of `import a from 'm'; export { a };`, or the loop of `if (null) { while (a)
/// var a; } use(a);`.
pub fn dead_code_goes()
    ensures number { Headline row.dead row.dead → ⊥ }
    ensures conditional { Headline row.takes_branch row.takes_branch → ⊥ }
    ensures tested { Headline row.takes_behind_test row.takes_behind_test → ⊥ }
    ensures side { Headline row.never_calls row.never_calls → ⊥ }
    ensures operation { Headline row.compares_call row.compares_call → ⊥ }
    ensures list { Headline row.lists_call row.lists_call → ⊥ }
    ensures called { Headline row.calls_chosen row.calls_chosen → ⊥ }
    ensures branch { Headline row.chooses_call row.chooses_call → ⊥ }
    ensures idle { Headline row.uses_sequence row.uses_sequence → ⊥ }
    ensures behind_one { Headline row.calls_behind_one row.calls_behind_one → ⊥ }
    ensures sides { Headline row.compares_calls row.compares_calls → ⊥ }
    ensures object { Headline row.holds_call row.holds_call → ⊥ }
    ensures known { Headline row.uses_negation row.uses_negation → ⊥ }
    ensures if_holds { Headline row.runs_one_branch row.runs_one_branch → ⊥ }
    ensures if_fails { Headline row.runs_no_branch row.runs_no_branch → ⊥ }
    ensures unreached { Headline row.calls_behind_throw row.calls_behind_throw → ⊥ }
    ensures untaken { Headline row.keeps_variable row.keeps_variable → ⊥ }
    ensures acting { Headline row.never_holds row.never_holds → ⊥ }
    ensures block { Headline row.labels_nothing row.labels_nothing → ⊥ }
    ensures never_turns { Headline row.never_turns row.never_turns → ⊥ }
    ensures unrun { Headline row.gives_call row.gives_call → ⊥ }
    ensures left_at_once { Headline row.leaves_label row.leaves_label → ⊥ }
    ensures finalizer { Headline row.runs_finalizer row.runs_finalizer → ⊥ }
    ensures body { Headline row.turns_around_block row.turns_around_block → ⊥ }
    ensures test { Headline row.tests_for_nothing row.tests_for_nothing → ⊥ }
    ensures alternate { Headline row.ends_in_nothing row.ends_in_nothing → ⊥ }
    ensures value { Headline row.names_call row.names_call → ⊥ }
    ensures apart { Headline row.imports_twice row.imports_twice → ⊥ }
    ensures shown { Headline row.shows_import row.shows_import → ⊥ }
    ensures names { Headline row.keeps_loop row.keeps_loop → ⊥ }
{}

/// `1;` is dead code, and so are `{ ; }`'s empty statement, a function that nothing calls, one of two declarators, a name of an import that
/// nothing refers to: `import a from 'm';`, a conditional on a literal, on an array: `a([] ? a : b);`, or on what acts and is false all the
/// same: `a(a && null ? a : b);`, a logical expression with a literal on its left, an operation of which nobody takes the value, where one
/// operand alone acts, an array of which nobody takes the value, a conditional on a literal that is called so that what it gives has no
/// receiver: `(1 ? o.g : null)();`, a conditional of which nobody takes the value and one branch alone acts: `a ? b() : 1;`, a sequence
/// that is used for its value, of which a part before the last doesn't act: `use((1, a));`, also where the last may not stand there itself:
/// `(1, o.g)();`, a comparison of which nobody takes the value, though both sides act: `a() === b();`, an object literal of which nobody
/// takes the value, that holds a call: `({ a: a() });`, an operation on a literal, of which the value is known: `use(!0);`, an `if` on a
/// literal, whether a branch of it runs: `if (1) a(); else b();`, or none: `if (null) a();`, a statement behind a jump: `throw 1; a();`,
/// one of a branch that isn't taken and has to stay for the name that it declares: `if (null) { var a = 1; b(); } use(a);`, or for its
/// test: `if (a && null) { b(); }`, a block of nothing, or what labels one: `l: { {} }`, a loop that never turns: `l: while (null) a();`, a
/// value that is never given: `if (null) var a = b(); use(a);`, an import without names behind one of its module: `import a from 'm';
/// import 'm';`, what a jump to its label leaves at once: `l: { break l; a(); }`, a `try` around nothing: `try {} finally { a(); }`, a
/// block of nothing that is a body: `while (a) {}`, an `if` whose branches are empty: `if (a) ;`, an empty alternate: `if (a) a(); else ;`,
/// a declaration of one name that nothing refers to, though its value acts: `let x = a();`, a second import of a module of which the first
/// may take the names: `import a from 'm'; import b from 'm';`, an import of what is exported alone: `import a from 'm'; export { a };`, and a
/// statement of a branch that isn't taken, which declares a name: `if (null) { while (a) var a; } use(a);`.
pub fn dead_code_is_told()
    ensures number { Clean (a_module (does one ∷ [])) → ⊥ }
    ensures empty { Clean (a_module (block (empty ∷ []) ∷ [])) → ⊥ }
    ensures function { Clean (a_module (function_a [] [] ∷ [])) → ⊥ }
    ensures declarator { Clean row.of_two → ⊥ }
    ensures import_name { Clean (a_module (imports a ∷ [])) → ⊥ }
    ensures conditional { Clean row.takes_branch → ⊥ }
    ensures tested_object { Clean row.takes_by_object → ⊥ }
    ensures tested { Clean row.takes_behind_test → ⊥ }
    ensures side { Clean row.never_calls → ⊥ }
    ensures operation { Clean row.compares_call → ⊥ }
    ensures list { Clean row.lists_call → ⊥ }
    ensures called { Clean row.calls_chosen → ⊥ }
    ensures branch { Clean row.chooses_call → ⊥ }
    ensures idle { Clean row.uses_sequence → ⊥ }
    ensures behind_one { Clean row.calls_behind_one → ⊥ }
    ensures sides { Clean row.compares_calls → ⊥ }
    ensures object { Clean row.holds_call → ⊥ }
    ensures known { Clean row.uses_negation → ⊥ }
    ensures if_holds { Clean row.runs_one_branch → ⊥ }
    ensures if_fails { Clean row.runs_no_branch → ⊥ }
    ensures unreached { Clean row.calls_behind_throw → ⊥ }
    ensures untaken { Clean row.keeps_variable → ⊥ }
    ensures acting { Clean row.never_holds → ⊥ }
    ensures block { Clean row.labels_nothing → ⊥ }
    ensures never_turns { Clean row.never_turns → ⊥ }
    ensures unrun { Clean row.gives_call → ⊥ }
    ensures repeated { Clean row.imports_again → ⊥ }
    ensures left_at_once { Clean row.leaves_label → ⊥ }
    ensures finalizer { Clean row.runs_finalizer → ⊥ }
    ensures body { Clean row.turns_around_block → ⊥ }
    ensures test { Clean row.tests_for_nothing → ⊥ }
    ensures alternate { Clean row.ends_in_nothing → ⊥ }
    ensures value { Clean row.names_call → ⊥ }
    ensures apart { Clean row.imports_twice → ⊥ }
    ensures shown { Clean row.shows_import → ⊥ }
    ensures names { Clean row.keeps_loop → ⊥ }
{}

/// A call is none, nor a function that is exported, a variable beside a direct call of `eval`, a function of a script, a
/// sequence that is called so that what it gives has no receiver, where a zero stands in front: `(0, o.g)();`, a sum of
/// which both sides may act, as names do that nothing declares: `a + b;`, a sequence of two calls: `a(), b();`, an object literal of
/// which a call gives the prototype: `({ __proto__: a() });`, and the minus by which a negative number is written: `use(-1);`.
pub fn what_others_may_use_is_no_dead_code()
    ensures call { Clean (a_module (does call_of_a ∷ [])) }
    ensures exported { Clean (a_module (exports_declaration (function_a [] []) ∷ [])) }
    ensures evaluated { Clean (a_module (declares variable.Let (binds a) one ∷ does call_of_eval ∷ [])) }
    ensures global { Clean (a_script (function_a [] [] ∷ [])) }
    ensures receiver { Clean row.calls_without_receiver }
    ensures names { Clean row.adds_names }
    ensures sequence { Clean row.calls_both }
    ensures prototype { Clean row.sets_prototype }
    ensures minus { Clean row.uses_minus_one }
{}

/// By an export in a block, which no program of the table has, a function of the block's that nothing refers to is dead code
/// still, and the rules don't leave it. A declaration without declarators declares nothing that could be dead, and stays.
pub fn rules_take_dead_code_alone()
    ensures dead { Clean row.misplaced_export → ⊥ }
    ensures goes { is_quiet row.misplaced_export ≡ false }
    ensures fits { Fits root row.declares_nothing }
    ensures clean { Clean row.declares_nothing }
    ensures stays { is_quiet row.declares_nothing ≡ true }
{}

/// `f(1);` may take the place of `f(1); 2;`, `a();` that of `!(a() === 1);`, of `[a(), 1];`, of `({ a: a() });` and of `let x = a();`, `a(), b();` that of
/// `[a(), 1, b()];` and of `a() === b();`, `(0, o.g)();` that of `(1 ? o.g : null)();` and of `(1, o.g)();`, `a && b();` that of `a ? b() :
/// 1;`, `use(a);` that of `use((1, a));`, `use(true);` that of `use(!0);`, `export { default as a } from 'm';` that of `import a from 'm';
/// export { a };`, and `if (null) { var a; } use(a);` that of `if (null) { while (a) var a; } use(a);`.
pub fn what_is_left()
    ensures statement { Headline row.with_dead row.calls_host }
    ensures operand { Headline row.compares_call row.calls_a }
    ensures part { Headline row.lists_call row.calls_a }
    ensures parts { Headline row.lists_calls row.calls_both }
    ensures value { Headline row.calls_chosen row.calls_without_receiver }
    ensures branch { Headline row.chooses_call row.calls_behind_a }
    ensures last { Headline row.uses_sequence row.uses_a }
    ensures behind_zero { Headline row.calls_behind_one row.calls_without_receiver }
    ensures sides { Headline row.compares_calls row.calls_both }
    ensures held { Headline row.holds_call row.calls_a }
    ensures known { Headline row.uses_negation row.uses_true }
    ensures named { Headline row.names_call row.calls_a }
    ensures shown { Headline row.shows_import row.passes_default }
    ensures names { Headline row.keeps_loop row.keeps_name }
{}

/// Edits lead from `f(-4); 2;` with a literal for -4 to `f(-4);`, which is written with unary minus on 4.
pub fn what_is_written()
    ensures edits { Edits row.with_negative row.less_four }
    ensures written { written row.less_four ≡ row.with_minus }
{}

/// A module that is asked for twice is loaded once: `import a from 'm'; import b from 'm';` loads what `import a from 'm';` does, and the
/// empty program loads nothing. A script with `function a() {}` and `{ let a; var b; }` declares `a` and `b` in its own scope, and without
/// the function `b` alone. Of `import a from 'm';` the name is one to which nothing refers.
pub fn what_stays_is_told()
    ensures twice { loaded (a_module (imports a ∷ imports b ∷ [])) ≡ loaded (a_module (imports a ∷ [])) }
    ensures once { loaded (a_module (imports a ∷ [])) ≡ codes "m" ∷ [] }
    ensures never { loaded row.empty ≡ [] }
    ensures both { root_names (a_script (function_a [] [] ∷ block (let_ a ∷ var_ b ∷ []) ∷ [])) ≡ a ∷ b ∷ [] }
    ensures one { root_names (a_script (block (let_ a ∷ var_ b ∷ []) ∷ [])) ≡ b ∷ [] }
    ensures unused { ImportsAreUsed (a_module (imports a ∷ [])) → ⊥ }
{}
