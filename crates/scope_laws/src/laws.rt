// The laws. Each is a contract, so that the check proves it.
ghost use Rattle.std.specs.Prelude.{◌≡◌, ℕ, ◌+◌, ◌++◌, map, length, Option, None};
ghost use Rattle.js_syntax.specs.declared.node_kind.NodeKind.{NodeKind as Kind};
ghost use Rattle.js_syntax.specs.Node.{Forest, Tree, bare, total};
ghost use Rattle.scope_rules.specs.Context.{Context};
ghost use Rattle.scope_rules.specs.Site.{sites, sites_of, bindings_among, references_among, found_in};
ghost use Rattle.scope_rules.specs.Binding.{resolved_references};
ghost use Rattle.scope_rules.specs.Mark.{Marks, marked, first_marks, own_reference, own_binding};
ghost use Rattle.scope_rules.specs.Table.{scoping_of, symbols_declared};
ghost use Rattle.scope_laws.specs.Counted.{listed_references};
ghost use Rattle.scope_laws.specs.Exact.{Exact};
ghost use Rattle.scope_laws.specs.Parents.{AreBefore};
ghost use Rattle.scope_laws.specs.Place.{Around, one_place, plug, sites_before, sites_there, sites_after};
ghost use Rattle.scope_laws.specs.Renumbered.{renumbered, found_renumbered, unmarked};

/// Marking changes the marks alone: what stands in a tree is the same, with the next numbers in order.
pub fn marking_renumbers()
    ensures sites { (m : Marks) (t : Forest) → sites_of (marked m t) ≡ renumbered m (sites_of t) }
    ensures found { (m : Marks) (t : Forest) → found_in (sites_of (marked m t)) ≡ found_renumbered m (found_in (sites_of t)) }
{}

/// A tree that is marked is the same program, with the same spans.
pub fn marking_keeps_programs()
    ensures program { (m : Marks) (t : Forest) → bare (marked m t) ≡ bare t }
    ensures spans { (m : Marks) (t : Forest) → unmarked (marked m t) ≡ unmarked t }
{}

/// The symbols' lists hold as many references as have a binding.
pub fn bound_references_are_listed()
    ensures { (t : Forest) → resolved_references t ≡ listed_references (scoping_of (found_in (sites_of t))).symbols }
{}

/// How many references have a binding doesn't depend on marks.
pub fn resolving_ignores_marks()
    ensures { (m : Marks) (t : Forest) → resolved_references (marked m t) ≡ resolved_references t }
{}

/// The table that is made of a tree is exact once the tree is marked.
pub fn tables_are_exact()
    ensures { (t : Forest) → Exact (scoping_of (found_in (sites_of t))) (marked (first_marks (symbols_declared (found_in (sites_of t)).bindings)) t) }
{}

/// In the table that is made of a tree the scope around a scope has a smaller number.
pub fn parents_come_first()
    ensures { (t : Forest) → AreBefore 0 (map (λ s. s.parent) (scoping_of (found_in (sites_of t))).scopes) }
{}

/// What stands in a tree is what stands before a place, there, and behind it.
pub fn sites_stand_around_places()
    ensures { (a : Around) (x : Option Tree) → sites_of (plug a x) ≡ sites_before a x ++ sites_there a x ++ sites_after a x }
{}

/// There are as many references and declarations as nodes that are one, whatever is around; and a
/// context has as many of each sort of node as it has with nothing at its place.
pub fn names_are_counted()
    ensures references { (contexts : ℕ → Context) (at next : ℕ) (t : Forest) → length (references_among (sites contexts at next t)) ≡ total own_reference t }
    ensures declarations { (contexts : ℕ → Context) (at next : ℕ) (t : Forest) → length (bindings_among (sites contexts at next t)) ≡ total own_binding t }
    ensures around { (counts : Kind → ℕ) (a : Around) (x : Option Tree) → total counts (plug a x) ≡ total counts (plug a None) + total counts (one_place x) }
{}
