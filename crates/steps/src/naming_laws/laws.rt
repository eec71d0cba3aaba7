// The laws. Each is a contract, so that the check proves it.
ghost use Rattle.std.specs.Prelude.{◌≡◌, ℕ, Bool, true, false};
ghost use Rattle.js_syntax.specs.declared.node_kind.NodeKind.{NodeKind as Kind};
ghost use Rattle.js_syntax.specs.Node.{Forest, Note, nothing, node};
ghost use Rattle.js_syntax.specs.declared.kind.VariableKind.{VariableKind};
ghost use Rattle.js_syntax.specs.declared.kind.VariableKind.TheVariants as variable;
ghost use Rattle.js_syntax.specs.declared.kind.FunctionKind.TheVariants as function_kind;
ghost use Rattle.js_meaning.specs.Value.{Text};
ghost use Rattle.steps.specs.Steps.{Around, declarators, is_used};
ghost use Rattle.scope_rules.specs.Binding.{is_declared, named_in};
ghost use Rattle.scope_rules.specs.Context.{Context, body_of};
ghost use Rattle.scope_rules.specs.Site.{sites_of, bindings_among};
ghost use Rattle.steps.specs.Naming.Placed.{is_well_placed};
ghost use Rattle.steps.specs.Naming.Agreeing.{Agrees};
ghost use Rattle.steps.specs.Naming.Assigning.{NothingAssigns};
ghost use Rattle.steps.specs.KeepRuns.Assigned.{assigns};
ghost use Rattle.js_syntax.specs.declared.scalar.SourceType.{SourceType};
ghost use Rattle.steps.specs.Naming.Standing.{Stands, IsUnused};

/// The entry of each scope declares every name that a declaration of the tree has in a layer of the scope.
pub fn entries_declare_what_scopes_have()
    ensures { (t : Forest) → is_well_placed t ≡ true → Agrees (bindings_among (sites_of t)) 0 t }
{}

/// A function declaration is unused where no reference has its binding and no export is of it.
pub fn functions_without_references_are_unused()
    ensures { (t : Forest) (w : Around) (contexts : ℕ → Context) (at next : ℕ) (pure : Bool) (x : Text) (n m : Note) (a b r : Forest) → is_well_placed t ≡ true
        → Stands t w contexts at next (node (Kind.Function function_kind.Declaration pure) n (node (Kind.BindingName x) m a b) r)
        → IsUnused t w (contexts at) variable.Let x → is_used w variable.Let x ≡ false }
{}

/// So is the only declarator of a declaration.
pub fn declarations_without_references_are_unused()
    ensures { (t : Forest) (w : Around) (contexts : ℕ → Context) (at next : ℕ) (how : VariableKind) (x : Text) (n m l j : Note) (a v b r : Forest) → is_well_placed t ≡ true
        → Stands t w contexts at next (node (Kind.VariableDeclaration how) n (node Kind.Declarators m (node Kind.VariableDeclarator l (node (Kind.BindingName x) j a v) nothing) b) r)
        → IsUnused t w (contexts at) how x → is_used w how x ≡ false }
{}

/// So is one of several declarators.
pub fn declarators_without_references_are_unused()
    ensures { (t : Forest) (w : Around) (contexts : ℕ → Context) (at next : ℕ) (how : VariableKind) (x : Text) (n m : Note) (a v r : Forest) → is_well_placed t ≡ true → w.row ≡ declarators how
        → Stands t w contexts at next (node Kind.VariableDeclarator n (node (Kind.BindingName x) m a v) r)
        → IsUnused t w (contexts at) how x → is_used w how x ≡ false }
{}

/// So is a name that an import declares in the scope around it.
pub fn imported_names_without_references_are_unused()
    ensures { (t : Forest) (w : Around) (contexts : ℕ → Context) (at next : ℕ) (source x : Text) (n : Note) (a r : Forest) → is_well_placed t ≡ true
        → Stands t w contexts at next (node (Kind.ImportDeclaration source) n a r) → is_declared (bindings_among (sites_of t)) (contexts at).block x ≡ true
        → IsUnused t w (contexts at) variable.Let x → is_used w variable.Let x ≡ false }
{}

/// Nothing in a program assigns to a name of its own scope where no reference that assigns has the name's binding there.
pub fn names_without_assignments_are_only_read()
    ensures { (source : SourceType) (n : Note) (a : Forest) (x : Text) → is_well_placed (node (Kind.Program source) n a nothing) ≡ true → is_declared (bindings_among (sites_of (node (Kind.Program source) n a nothing))) (body_of 0) x ≡ true
        → NothingAssigns (node (Kind.Program source) n a nothing) (named_in x (body_of 0)) → assigns x a ≡ false }
{}
