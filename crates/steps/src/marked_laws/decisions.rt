// Which edits a walk may decide by its table. Each law is a contract, so that the check proves it.
ghost use Rattle.std.specs.Prelude.{◌≡◌, ℕ, ◌==◌, List, Bool, true, false, ◌&&◌, Some};
ghost use Rattle.js_syntax.specs.declared.kind.VariableKind.{VariableKind};
ghost use Rattle.js_syntax.specs.declared.node_kind.NodeKind.{NodeKind as Kind};
ghost use Rattle.js_syntax.specs.declared.node_kind.NodeKind.TheVariants.{BindingName as binding_name, EmptyStatement as empty_statement};
ghost use Rattle.js_syntax.specs.Class.{root};
ghost use Rattle.json_shape.specs.Shape.{Fits};
ghost use Rattle.scope_rules.specs.Site.{sites_of, found_in};
ghost use Rattle.scope_rules.specs.Mark.{marked, first_marks};
ghost use Rattle.scope_table.specs.Reading.{scope_at};
ghost use Rattle.scope_counts.specs.Scopes.{unmarked};
ghost use Rattle.js_syntax.specs.Node.{Forest, Note, nothing, node, alone};
ghost use Rattle.scope_rules.specs.ScopeFlags as scope_flag;
ghost use Rattle.scope_rules.specs.Table.{Scoping, scoping_of, symbols_declared};
ghost use Rattle.scope_counts.specs.Losing.{MarksWhatLeft, Prunes};
ghost use Rattle.scope_laws.specs.Place.{Around, plug};
ghost use Rattle.scope_laws.specs.Lists.{without};
ghost use Rattle.steps.specs.Allowed.Places.{a_node, in_class_at, IsItem, IsDeclarator, has_other, At};
ghost use Rattle.steps.specs.Allowed.SilentStatement.{a_statement};
ghost use Rattle.steps.specs.Allowed.UnusedFunction.{a_function};
ghost use Rattle.steps.specs.Allowed.UnusedDeclarator.{SilentDeclarator, a_declarator};
ghost use Rattle.steps.specs.Allowed.UnusedDeclaration.{SilentDeclaration, a_declaration};
ghost use Rattle.steps.specs.Allowed.Exposure.{is_script, evaluates_somewhere};
ghost use Rattle.steps.specs.Allowed.Edits.{Edit, TreeEdits};
ghost use Rattle.steps.specs.Marked.Flags.{scope_has, is_sloppy_block, declares_in, stand};
ghost use Rattle.steps.specs.Marked.Told.{KnowsExports, IsTold, IsUnused, AreBound, IsSilentAt, IsSilentValue};

/// Law: what a walk goes by stays true through edits, once what left is marked.
pub fn edits_keep_what_is_told()
    ensures { (t u : Forest) → TreeEdits t u → (s : Scoping) (before after exported : ℕ → Bool) → MarksWhatLeft before t u after → IsTold s before exported t → IsTold s after exported u }
{}

/// Law: it is true of a new table, with nothing marked, where the symbols are known that the program exports.
pub fn new_tables_tell()
    ensures { (t : Forest) → Fits root t → (exported : ℕ → Bool) →
        let f = found_in (sites_of t) in
        let now = marked (first_marks (symbols_declared f.bindings)) t in
        KnowsExports exported now → IsTold (scoping_of f) unmarked exported now }
{}

/// Law: and of a table whose lists are pruned, with nothing marked any more.
pub fn pruned_tables_tell()
    ensures { (t : Forest) (before now : Scoping) (marked exported : ℕ → Bool) → Prunes marked before now → ((n : ℕ) → (scope_at now n).flags ≡ (scope_at before n).flags) → IsTold before marked exported t → IsTold now unmarked exported t }
{}

/// Law: a function declaration of a symbol that is unused by the table may leave its list, where the flags of its scope say that no
/// other code may use it.
pub fn unused_functions_may_leave()
    ensures { (s : Scoping) (marked exported : ℕ → Bool) (a : Around) (pure : Bool) (n m : Note) (x : List ℕ) (rest : Forest) →
        let t = plug a (a_function pure n m x rest) in
        IsTold s marked exported t → IsItem a → (symbol : ℕ) → m.id ≡ Some symbol → IsUnused s marked exported symbol
        → (scope : ℕ) → (stand a (a_function pure n m x rest)).scope ≡ Some scope → is_script t && scope == 0 ≡ false → scope_has s scope scope_flag.direct_eval ≡ false → is_sloppy_block s scope ≡ false
        → Edit t (without a) }
{}

/// Law: so may a declarator leave others, and a declaration of one declarator its list, where what they compute is silent.
pub fn unused_variables_may_leave()
    ensures declarators { (s : Scoping) (marked exported : ℕ → Bool) (a : Around) (n m : Note) (x : List ℕ) (value : Forest) →
        let t = plug a (a_declarator n m x value) in
        IsTold s marked exported t → IsDeclarator a → has_other false a ≡ true → At a (a_declarator n m x value) (SilentDeclarator t (node (binding_name x) m nothing value) (in_class_at a))
        → (symbol : ℕ) → m.id ≡ Some symbol → IsUnused s marked exported symbol
        → (scope : ℕ) → (stand a (a_declarator n m x value)).declaring ≡ Some scope → is_script t && scope == 0 ≡ false → evaluates_somewhere t ≡ false
        → Edit t (without a) }
    ensures declarations { (s : Scoping) (marked exported : ℕ → Bool) (a : Around) (how : VariableKind) (n m l j : Note) (x : List ℕ) (value : Forest) →
        let t = plug a (a_declaration how n m l j x value) in
        IsTold s marked exported t → IsItem a → At a (a_declaration how n m l j x value) (SilentDeclaration t how m l (node (binding_name x) j nothing value) (in_class_at a))
        → (symbol : ℕ) → j.id ≡ Some symbol → IsUnused s marked exported symbol
        → (scope : ℕ) → declares_in (stand a (a_declaration how n m l j x value)) how ≡ Some scope → is_script t && scope == 0 ≡ false → evaluates_somewhere t ≡ false
        → Edit t (without a) }
{}

/// Law: a statement of an expression that has no effects, by what is known of names, may become empty.
pub fn silent_statements_may_become_empty()
    ensures { (s : Scoping) (marked exported : ℕ → Bool) (bound : List Bool) (a : Around) (n m l : Note) (k : Kind) (inner : Forest) →
        let t = plug a (a_statement n l k inner) in
        IsTold s marked exported t → AreBound s bound → IsSilentAt bound a (alone k l inner) → Edit t (plug a (a_node empty_statement m nothing)) }
{}

/// Law: what a declarator computes is silent where it has no effects, by what is known of names and of `this`.
pub fn silent_values_are_silent()
    ensures declarators { (s : Scoping) (marked exported : ℕ → Bool) (bound : List Bool) (a : Around) (n m : Note) (x : List ℕ) (value : Forest) →
        let t = plug a (a_declarator n m x value) in
        IsTold s marked exported t → AreBound s bound → IsSilentValue bound a value → At a (a_declarator n m x value) (SilentDeclarator t (node (binding_name x) m nothing value) (in_class_at a)) }
    ensures declarations { (s : Scoping) (marked exported : ℕ → Bool) (bound : List Bool) (a : Around) (how : VariableKind) (n m l j : Note) (x : List ℕ) (value : Forest) →
        let t = plug a (a_declaration how n m l j x value) in
        IsTold s marked exported t → AreBound s bound → IsSilentValue bound a value → At a (a_declaration how n m l j x value) (SilentDeclaration t how m l (node (binding_name x) j nothing value) (in_class_at a)) }
{}
