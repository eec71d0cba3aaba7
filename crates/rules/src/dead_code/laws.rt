// Why the rules may do what they do. Each law is a contract, so that the check proves it.
ghost use Rattle.std.specs.Prelude.{◌≡◌, ◌≤◌, ◌+◌, ℕ, length, List, Bool, true, false, Some};
ghost use Rattle.js_syntax.specs.Class.{root};
ghost use Rattle.json_shape.specs.Shape.{Fits};
ghost use Rattle.scope_rules.specs.Mark.{marked, first_marks};
ghost use Rattle.scope_rules.specs.Site.{sites_of, found_in};
ghost use Rattle.scope_rules.specs.Table.{Scoping, scoping_of, symbols_declared};
ghost use Rattle.scope_table.specs.Reading.{scope_at};
ghost use Rattle.scope_counts.specs.Scopes.{unmarked};
ghost use Rattle.steps.specs.Allowed.Exposure.{is_script};
ghost use Rattle.js_syntax.specs.Facts.{weight};
ghost use Rattle.js_syntax.specs.Node.{Forest, Tree, node, forest_of, total};
ghost use Rattle.js_syntax.specs.declared.node_kind.NodeKind.TheVariants.{Statements as statements};
ghost use Rattle.js_syntax.specs.Node.{Note};
ghost use Rattle.min_context.specs.Place.{Place, place_at, goes_on};
ghost use Rattle.scope_counts.specs.Counts.{ids};
ghost use Rattle.scope_counts.specs.Edits.{Around, plug};
ghost use Rattle.scope_counts.specs.Losing.{MarksWhatLeft, Prunes};
ghost use Rattle.steps.specs.Allowed.Edits.{Edit, TreeEdits};
ghost use Rattle.min_pass.specs.Around.{outermost};
ghost use Rattle.steps.specs.Allowed.Places.{asked_at};
ghost use Rattle.steps.specs.Marked.Flags.{stand};
ghost use Rattle.rules.specs.DeadCode.Before.{before};
ghost use Rattle.min_options.specs.declared.options.CompressOptions.{CompressOptions};
ghost use Rattle.min_traverse.specs.Lawful.{Stays};
ghost use Rattle.symbol_sets.specs.Numbers.{none_below};
ghost use Rattle.min_context.specs.IsTrue.{IsTrue};
ghost use Rattle.min_context.specs.Seen.{Seen};
ghost use Rattle.rules.specs.DeadCode.Rules.{Facts, Where, where_of, trimmed, has_dead, emptied, stated};
ghost use Rattle.rules.specs.DeadCode.Knows.{TellsBound, TellsExported, Knows};

/// Law: a program is known by its own table, where it is read which references are bound and which symbols exported, whatever is kept.
pub fn new_programs_are_known()
    ensures { (t : Forest) → Fits root t → (bound exported : List Bool) (keeps_unused keeps_imports : Bool) → let f = found_in (sites_of t) in let u = marked (first_marks (symbols_declared f.bindings)) t in
        let facts : Facts = record { scoping = scoping_of f; bound = bound; exported = exported; is_script = is_script u; keeps_unused = keeps_unused; keeps_imports = keeps_imports } in
        TellsBound (scoping_of f) bound → TellsExported exported u → Knows facts unmarked u }
{}

/// Law: it still is once the marked ids are out of its table's lists, and then no id is marked.
pub fn what_is_known_stays_while_lists_are_pruned()
    ensures { (f : Facts) (marked : ℕ → Bool) (now : Scoping) (t : Forest) → Prunes marked f.scoping now → ((n : ℕ) → (scope_at now n).flags ≡ (scope_at f.scoping n).flags) → Knows f marked t
        → Knows (record f { scoping = now }) unmarked t }
{}

use min_traverse::Traverse;

/// Law: what is known of a program is known of what edits leave of it, once the ids are marked of the references that left.
pub fn what_is_known_stays()
    ensures { (f : Facts) (t u : Forest) → TreeEdits t u → (before after : ℕ → Bool) → MarksWhatLeft before t u after → Knows f before t → Knows f after u }
{}

/// Law: the scopes that the context of a walk numbers at a place are those whose flags tell what is exposed there.
pub fn places_have_the_scopes_that_flags_tell_of()
    ensures scope { (f : Facts) (marked : ℕ → Bool) (a : Around) (x : Tree) (rest : Forest) → Knows f marked (plug a (node x.kind x.note x.below rest)) → (stand (before a rest) (Some x)).scope ≡ Some (place_at a (goes_on rest)).scope }
    ensures variables { (f : Facts) (marked : ℕ → Bool) (a : Around) (x : Tree) (rest : Forest) → Knows f marked (plug a (node x.kind x.note x.below rest)) → (stand (before a rest) (Some x)).variables ≡ Some (place_at a (goes_on rest)).hoist_scope }
    ensures in_with { (a : Around) (rest : Forest) → (asked_at (outermost true) (before a rest)).in_with ≡ (where_of (place_at a (goes_on rest))).in_with }
{}

/// Law: by what is known a statement that becomes empty is silent where it stands, or does nothing as a branch or a body, so that this is
/// an edit.
pub fn silent_statements_may_become_empty()
    ensures { (f : Facts) (marked : ℕ → Bool) (a : Around) (x y : Tree) (rest : Forest) → Knows f marked (plug a (node x.kind x.note x.below rest)) → emptied f (place_at a (goes_on rest)) x ≡ Some y
        → Edit (plug a (node x.kind x.note x.below rest)) (plug a (node y.kind y.note y.below rest)) }
{}

/// Law: by what is known a declaration that becomes a statement of its value declares a name that nothing uses where it stands, so that this
/// is an edit.
pub fn values_may_stay()
    ensures { (f : Facts) (marked : ℕ → Bool) (a : Around) (x y : Tree) (rest : Forest) → Knows f marked (plug a (node x.kind x.note x.below rest)) → stated f (place_at a (goes_on rest)) x ≡ Some y
        → Edit (plug a (node x.kind x.note x.below rest)) (plug a (node y.kind y.note y.below rest)) }
{}

/// Law: what goes of a list of statements may go, one after the other: empty and silent statements, functions and declarators
/// that nothing uses, and declarations of which none of those stays.
pub fn what_goes_may_go()
    ensures { (f : Facts) (marked : ℕ → Bool) (a : Around) (n : Note) (row rest : Forest) → Knows f marked (plug a (node statements n row rest))
        → TreeEdits (plug a (node statements n row rest)) (plug a (node statements n (trimmed f (where_of (place_at a (goes_on rest))) row) rest)) }
{}

/// Law: a list is lighter where anything goes, and the same where nothing does; no reference comes in, and by the same facts
/// nothing of what is left goes.
pub fn a_trimmed_list_is_lighter()
    ensures lighter { (f : Facts) (w : Where) (row : Forest) → has_dead f w row ≡ true → total weight (trimmed f w row) + 1 ≤ total weight row }
    ensures same { (f : Facts) (w : Where) (row : Forest) → has_dead f w row ≡ false → trimmed f w row ≡ row }
    ensures references { (f : Facts) (w : Where) (row : Forest) → (r : ℕ) → ids r (trimmed f w row) ≤ ids r row }
    ensures alive { (f : Facts) (w : Where) (row : Forest) → has_dead f w (trimmed f w row) ≡ false }
{}

/// Law: so is a statement that becomes empty.
pub fn an_emptied_statement_is_lighter()
    ensures lighter { (f : Facts) (p : Place) (x y : Tree) → emptied f p x ≡ Some y → total weight (forest_of y) + 1 ≤ total weight (forest_of x) }
    ensures references { (f : Facts) (p : Place) (x y : Tree) → emptied f p x ≡ Some y → (r : ℕ) → ids r (forest_of y) ≤ ids r (forest_of x) }
{}

/// Law: and a declaration that becomes a statement of its value.
pub fn a_stated_value_is_lighter()
    ensures lighter { (f : Facts) (p : Place) (x y : Tree) → stated f p x ≡ Some y → total weight (forest_of y) + 1 ≤ total weight (forest_of x) }
    ensures references { (f : Facts) (p : Place) (x y : Tree) → stated f p x ≡ Some y → (r : ℕ) → ids r (forest_of y) ≤ ids r (forest_of x) }
{}

/// Law: what the context of a walk tells stays true of what edits leave, once exactly what left is marked.
pub fn edits_keep_the_context_true()
    ensures { Stays (λ o. Edit) }
{}

/// Law: so it is with a walker that makes some of them.
pub fn walkers_keep_the_context_true<T: Traverse>()
    ensures { ((o : CompressOptions) (t u : Forest) → T.edit o t u → Edit t u) → Stays T.edit }
{}

/// Law: of a program whose nodes a new table marked, a new context with this table tells what is true: nothing is marked, and
/// there is room for a mark of each reference.
pub fn a_new_context_is_true()
    ensures { (t : Forest) → let f = found_in (sites_of t) in
        Fits root t → (c : Seen) → c.scoping ≡ scoping_of f → c.marked ≡ none_below (length c.scoping.references) → IsTrue c (marked (first_marks (symbols_declared f.bindings)) t) }
{}
