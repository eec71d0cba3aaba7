// The laws of kept names. Each is a contract, so that the check proves it.
ghost use Rattle.std.specs.Prelude.{◌≡◌, ◌≤◌, ℕ, [], ◌∷◌, true, false, Some, map};
ghost use Rattle.js_syntax.specs.Class.{statement};
ghost use Rattle.js_syntax.specs.Facts.{weight};
ghost use Rattle.js_syntax.specs.Node.{Forest, Tree, row, forest_of, total};
ghost use Rattle.js_meaning.specs.Scope.{var_names};
ghost use Rattle.form_rules.specs.Context.{Context};
ghost use Rattle.form_rules.specs.Form.{broken_in};
ghost use Rattle.form_rules.specs.Scope.{declared};
ghost use Rattle.form_rules.specs.declared.sought.Sought.{Sought};
ghost use Rattle.form_rules.specs.declared.sought.Sought.TheVariants.{Variables as variables};
ghost use Rattle.json_shape.specs.Shape.{Fits};
ghost use Rattle.scope_counts.specs.Counts.{Aims, hoisted};
ghost use Rattle.steps.specs.Allowed.Branches.{declares_none};
ghost use Rattle.steps.specs.Fit.Enclosed.{is_enclosed};
ghost use Rattle.steps.specs.VarNames.Declared.{without_vars, AsStrict};
ghost use Rattle.kept_names.specs.Kept.{kept, declarator_of, declaration_of};
ghost use Rattle.steps.specs.VarNames.Texts.{texts, names, named, is_of_catch, may_keep};

/// The names that are kept of a statement are its VarDeclaredNames, in the same order and as often.
pub fn what_is_kept_is_var_declared()
    ensures { (t : Forest) → Fits statement t → texts (kept t) ≡ var_names t }
{}

/// The declaration that `KeepVar` makes of them has the same VarDeclaredNames; where there is none, the
/// statement has none.
pub fn a_declaration_of_them_declares_the_same()
    ensures { (t : Forest) → Fits statement t → var_names (row (declaration_of (map declarator_of (kept t)) ∷ [])) ≡ var_names t }
{}

/// By the same names the rules of form and of scopes go: they are what `var` declares in the statement,
/// wherever it stands.
pub fn the_rules_of_scopes_find_the_same()
    ensures { (place : ℕ) (t : Forest) → Fits statement t → names (declared variables place t) ≡ texts (kept t) }
{}

/// The declaration that `KeepVar` makes declares in every layer of scopes what the statement does, in the same order, and each
/// name with the symbol that it is marked with, where the statement declares nothing around it but by `var`.
pub fn a_declaration_of_them_declares_in_the_same_layers()
    ensures { (t : Forest) → Fits statement t → declares_none (without_vars t) ≡ true → is_enclosed t ≡ true → (aims : ℕ → Aims) (at : ℕ) → ((i : ℕ) → (aims i).variables ≡ (aims at).variables)
        → hoisted aims at (row (declaration_of (map declarator_of (kept t)) ∷ [])) ≡ hoisted aims at t }
{}

/// It is a statement, where the statement is one of the table of node types.
pub fn a_declaration_of_them_is_a_statement()
    ensures { (t : Forest) (y : Tree) → Fits statement t → declaration_of (map declarator_of (kept t)) ≡ Some y → Fits statement (forest_of y) }
{}

/// It breaks no rule of form where the statement breaks none, in any code that is as strict, of the same source, and not in the
/// head of a loop.
pub fn a_declaration_of_them_breaks_no_rule()
    ensures { (t : Forest) → Fits statement t → (cs ds : ℕ → Context) (at bt p q : ℕ) → ((i : ℕ) → AsStrict (ds bt).strict (ds bt).source (cs i)) → broken_in cs at p t ≡ [] → (ds bt).is_head ≡ false
        → broken_in ds bt q (row (declaration_of (map declarator_of (kept t)) ∷ [])) ≡ [] }
{}

/// It weighs no more than the statement, whatever that is.
pub fn a_declaration_of_them_weighs_no_more()
    ensures { (t : Forest) → total weight (row (declaration_of (map declarator_of (kept t)) ∷ [])) ≤ total weight t }
{}

/// Whatever the rules of form seek, but the names of a handler, they find the same declared by it as by the statement, if that is no
/// declaration but by `var`: the same names in the same order, each declared in the same way.
pub fn the_rules_of_form_find_the_same()
    ensures { (x y : Tree) → may_keep x.kind ≡ true → Fits statement (forest_of x) → declaration_of (map declarator_of (kept (forest_of x))) ≡ Some y → (s : Sought) (p q : ℕ) → is_of_catch s ≡ false
        → named (declared s p (forest_of x)) ≡ named (declared s q (forest_of y)) }
{}
