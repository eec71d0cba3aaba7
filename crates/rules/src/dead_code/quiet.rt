// What a program has no more, of which the rules take nothing out. The law is a contract, so that the check proves it.
ghost use Rattle.std.specs.Prelude.{◌≡◌, ℕ, List, Bool, false, Some};
ghost use Rattle.js_syntax.specs.declared.node_kind.NodeKind.TheVariants.{EmptyStatement as empty_statement, ExpressionStatement as expression_statement, BindingName as binding_name};
ghost use Rattle.js_syntax.specs.declared.kind.VariableKind.TheVariants as variable;
ghost use Rattle.js_syntax.specs.Node.{Forest, Tree, Note, nothing, node};
ghost use Rattle.min_context.specs.Place.{top};
ghost use Rattle.scope_laws.specs.Place.{Around, plug};
ghost use Rattle.scope_counts.specs.Scopes.{unmarked};
ghost use Rattle.steps.specs.Allowed.EmptyBlock.{EmptyBlock};
ghost use Rattle.steps.specs.Allowed.IdleBody.{IdleBody};
ghost use Rattle.steps.specs.Allowed.Exposure.{IsOwnFunction, IsOwnDeclarator};
ghost use Rattle.steps.specs.Allowed.Free.{Free, FreeDeclarator};
ghost use Rattle.steps.specs.Allowed.Places.{a_node, in_class_at, IsItem, IsDeclarator, At};
ghost use Rattle.steps.specs.Allowed.SilentStatement.{SilentStatement};
ghost use Rattle.steps.specs.Allowed.UnusedFunction.{a_function};
ghost use Rattle.steps.specs.Allowed.UnusedDeclarator.{a_declarator, SilentDeclarator};
ghost use Rattle.steps.specs.Allowed.ValueStays.{ValueStays};
ghost use Rattle.rules.specs.DeadCode.Rules.{Facts};
ghost use Rattle.rules.specs.DeadCode.Knows.{Knows};
ghost use Rattle.rules.specs.DeadCode.Quiet.{Exactly, IsQuiet, EachNode, IsQuietAt};

/// Law: a walk sees that they take nothing out, node by node.
pub fn walks_see_what_is_quiet()
    ensures { (f : Facts) (t : Forest) → EachNode (IsQuietAt f) top t → IsQuiet f t }
{}

/// Law: a program of which the rules take nothing out has no empty statement in a list, nor a block of nothing, no silent statement
/// anywhere, none that does nothing as a branch or a body, and in lists, unless that is kept, no function declaration or declarator with a silent initialiser whose name nothing refers
/// to, no export is of and no other code may use, nor a declaration of one such name whose value may stay as a statement.
pub fn what_is_quiet_has_no_dead_code()
    ensures empty_statements { (f : Facts) (t : Forest) → Knows f unmarked t → Exactly f t → IsQuiet f t → (a : Around) → (n : Note) → t ≡ plug a (a_node empty_statement n nothing) → IsItem a → ⊥ }
    ensures empty_blocks { (f : Facts) (t : Forest) → Knows f unmarked t → Exactly f t → IsQuiet f t → (a : Around) → (x : Tree) → t ≡ plug a (Some x) → EmptyBlock a x → ⊥ }
    ensures silent_statements { (f : Facts) (t : Forest) → Knows f unmarked t → Exactly f t → IsQuiet f t → (a : Around) → (n : Note) (below : Forest) → t ≡ plug a (a_node expression_statement n below)
        → At a (a_node expression_statement n below) (SilentStatement t below (in_class_at a)) → ⊥ }
    ensures idle_bodies { (f : Facts) (t : Forest) → Knows f unmarked t → Exactly f t → IsQuiet f t → (a : Around) → (x y : Tree) → t ≡ plug a (Some x) → IdleBody a x y → ⊥ }
    ensures functions { (f : Facts) (t : Forest) → Knows f unmarked t → Exactly f t → IsQuiet f t → (a : Around) → (pure : Bool) (n m : Note) (x : List ℕ) (rest : Forest) → t ≡ plug a (a_function pure n m x rest) → f.keeps_unused ≡ false → IsItem a
        → IsOwnFunction a (a_function pure n m x rest) → At a (a_function pure n m x rest) (Free t variable.Let x) → ⊥ }
    ensures declarators { (f : Facts) (t : Forest) → Knows f unmarked t → Exactly f t → IsQuiet f t → (a : Around) → (n m : Note) (x : List ℕ) (value : Forest) → t ≡ plug a (a_declarator n m x value) → f.keeps_unused ≡ false → IsDeclarator a
        → IsOwnDeclarator a (a_declarator n m x value) → At a (a_declarator n m x value) (SilentDeclarator t (node (binding_name x) m nothing value) (in_class_at a)) → At a (a_declarator n m x value) (FreeDeclarator t x) → ⊥ }
    ensures values { (f : Facts) (t : Forest) → Knows f unmarked t → Exactly f t → IsQuiet f t → (a : Around) → (x y : Tree) → t ≡ plug a (Some x) → f.keeps_unused ≡ false → ValueStays a x y → ⊥ }
{}
