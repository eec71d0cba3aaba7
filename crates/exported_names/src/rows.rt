// Small programs, by computing.
ghost use Rattle.std.specs.Prelude.{◌≡◌, [], ◌∷◌, true, false};
ghost use Rattle.js_syntax.specs.declared.node_kind.NodeKind.TheVariants.{VariableDeclaration as variable_declaration, Declarators as declarators};
ghost use Rattle.js_syntax.specs.declared.kind.VariableKind.TheVariants as variable;
ghost use Rattle.js_syntax.specs.declared.kind.FunctionKind.TheVariants as function_kind;
ghost use Rattle.form_rules.specs.Samples.{over, listed, no, a, binds, reads, one, does, declares, let_, block, function_of, function_a, class_of, exports};
ghost use Rattle.scope_rules.specs.Samples.{b, class_expression};
ghost use Rattle.steps.specs.Naming.Rows.{exports_declaration};
ghost use Rattle.exported_names.specs.Samples.{exported_by, bound_by, exports_default, declarator, pattern_b};

/// `export let a = 1, {b} = a;` and `export function a(b) { }`: each name that the declaration itself declares, and no parameter.
pub fn exported_declarations()
    ensures variables { exported_by (exports_declaration (over (variable_declaration variable.Let) (listed declarators (declarator (binds a) one ∷ declarator pattern_b (reads a) ∷ []))) ∷ []) ≡ true ∷ true ∷ [] }
    ensures function { exported_by (exports_declaration (function_a (binds b ∷ []) []) ∷ []) ≡ true ∷ false ∷ [] }
{}

/// `export default class a { }`, `export default function () { }` and `export default (function a(b) { });`: a declaration's name where it
/// has one, and not that of an expression.
pub fn default_exports()
    ensures class { exported_by (exports_default (class_of no []) ∷ []) ≡ true ∷ [] }
    ensures nameless { exported_by (exports_default (function_of function_kind.Declaration no [] []) ∷ []) ≡ [] }
    ensures expression { exported_by (exports_default (function_of function_kind.Expression (binds a) (binds b ∷ []) []) ∷ []) ≡ false ∷ false ∷ [] }
{}

/// `export let a = function b(a) { };` and `export let a = class b { };`: names of functions and classes that are expressions are not
/// exported, nor are parameters, whatever they are called.
pub fn names_further_in()
    ensures function { exported_by (exports_declaration (declares variable.Let (binds a) (function_of function_kind.Expression (binds b) (binds a ∷ []) [])) ∷ []) ≡ true ∷ false ∷ false ∷ [] }
    ensures class { exported_by (exports_declaration (declares variable.Let (binds a) (class_expression (binds b) [])) ∷ []) ≡ true ∷ false ∷ [] }
{}

/// `let a; export { a as b };`, `let a; { let a; }` and `let a; export let b;`: a name in an export list is a reference, and other
/// declarations are not exported.
pub fn other_declarations()
    ensures list { exported_by (let_ a ∷ exports a b ∷ []) ≡ false ∷ [] }
    ensures unexported { exported_by (let_ a ∷ block (let_ a ∷ []) ∷ []) ≡ false ∷ false ∷ [] }
    ensures second { exported_by (let_ a ∷ exports_declaration (let_ b) ∷ []) ≡ false ∷ true ∷ [] }
{}

/// `let a; a; b;` and `{ let a; } a;`: what a reference has is a declaration in a scope around it.
pub fn bound_names()
    ensures beside { bound_by (let_ a ∷ does (reads a) ∷ does (reads b) ∷ []) ≡ true ∷ false ∷ [] }
    ensures further_in { bound_by (block (let_ a ∷ []) ∷ does (reads a) ∷ []) ≡ false ∷ [] }
{}
