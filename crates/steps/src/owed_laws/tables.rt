// The table of scopes, symbols and references. Each law is a contract, so that the check proves it.
ghost use Rattle.std.specs.Prelude.{◌≡◌, Some, true, false};
ghost use Rattle.js_syntax.specs.declared.node_kind.NodeKind.{NodeKind as Kind};
ghost use Rattle.js_syntax.specs.Node.{Forest, Note, Tree, nothing};
ghost use Rattle.scope_rules.specs.Table.{Scoping};
ghost use Rattle.scope_laws.specs.Place.{Around, first, plug};
ghost use Rattle.scope_laws.specs.Lists.{is_listed, without};
ghost use Rattle.steps.specs.Owed.Kept.{is_program, IsKept};
ghost use Rattle.steps.specs.Owed.Unseen.{IsUnseen};

/// What declares nothing that is seen may leave a list of a program: the table stays exact, with shorter lists.
pub fn unseen_items_may_leave()
    ensures { (a : Around) (x : Tree) → IsUnseen a (Some x) → is_program (plug a (Some x)) ≡ true → is_listed false a ≡ true → (s : Scoping) → IsKept s (plug a (Some x)) → IsKept s (without a) }
{}

/// And an empty statement may stand in its place, wherever that is.
pub fn unseen_nodes_may_become_empty()
    ensures { (a : Around) (x : Tree) → IsUnseen a (Some x) → is_program (plug a (Some x)) ≡ true → ((rest : Forest) → a ≡ first rest → ⊥) → (n : Note) →
        let empty : Tree = record { kind = Kind.EmptyStatement; note = n; below = nothing } in
        (s : Scoping) → IsKept s (plug a (Some x)) → IsKept s (plug a (Some empty)) }
{}
