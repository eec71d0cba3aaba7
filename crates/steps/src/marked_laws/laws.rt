// What holds of marks behind edits. Each law is a contract, so that the check proves it.
ghost use Rattle.std.specs.Prelude.{◌≡◌, ◌≤◌, ◌<◌, ℕ, Bool, Option, nat_lt};
ghost use Rattle.js_syntax.specs.Class.{root};
ghost use Rattle.js_syntax.specs.Facts.{weight};
ghost use Rattle.js_syntax.specs.Node.{Forest, Tree, total};
ghost use Rattle.json_shape.specs.Shape.{Fits};
ghost use Rattle.scope_rules.specs.Site.{sites_of, found_in};
ghost use Rattle.scope_rules.specs.Table.{Scoping, scoping_of, symbols_declared};
ghost use Rattle.scope_rules.specs.Mark.{marked, first_marks};
ghost use Rattle.scope_laws.specs.Exact.{Among, Exact};
ghost use Rattle.scope_laws.specs.Place.{Around, one_place, plug};
ghost use Rattle.scope_laws.specs.Lists.{without};
ghost use Rattle.scope_counts.specs.Counts.{Decl, ids};
ghost use Rattle.scope_counts.specs.Edits as counts;
ghost use Rattle.scope_counts.specs.Losing.{referring, declaring, left, MarksWhatLeft, Prunes};
ghost use Rattle.scope_counts.specs.Scopes.{ExactButMarks, unmarked};
ghost use Rattle.steps.specs.Allowed.Edits.{Edit, TreeEdits};

/// Law: a table that is exact but for marks stays so through edits of its tree, once the ids are marked of the references that
/// left by them, and no others.
pub fn edits_keep_what_is_true_but_for_marks()
    ensures { (t u : Forest) → TreeEdits t u → Fits root t → (s : Scoping) (before after : ℕ → Bool) → MarksWhatLeft before t u after → ExactButMarks s before t → ExactButMarks s after u }
{}

/// Law: so it does where a row is edited, and what left the row is marked.
pub fn edits_of_rows_keep_what_is_true_but_for_marks()
    ensures { (a : counts.Around) (t u : Forest) → TreeEdits (counts.plug a t) (counts.plug a u) → Fits root (counts.plug a t) → (s : Scoping) (before after : ℕ → Bool) → MarksWhatLeft before t u after
        → ExactButMarks s before (counts.plug a t) → ExactButMarks s after (counts.plug a u) }
{}

/// Law: a new table is so of its program before anything is marked.
pub fn new_tables_need_no_marks()
    ensures { (t : Forest) → let f = found_in (sites_of t) in Fits root t → ExactButMarks (scoping_of f) unmarked (marked (first_marks (symbols_declared f.bindings)) t) }
{}

/// Law: marks add up: of edits one after the other, each may mark what left by it.
pub fn marks_add_up()
    ensures { (t u v : Forest) → TreeEdits t u → TreeEdits u v → Fits root t → (before between after : ℕ → Bool) → MarksWhatLeft before t u between → MarksWhatLeft between u v after → MarksWhatLeft before t v after }
{}

/// Law: what leaves a tree by an edit at a place are the references that stood there, but for those that stand there still.
pub fn what_left_stood_at_the_place()
    ensures leaves { (a : Around) (x : Option Tree) → (r : ℕ) → left (plug a x) (without a) r ≡ nat_lt 0 (ids r (one_place x)) }
    ensures rows { (a : counts.Around) (t u : Forest) → (r : ℕ) → left (counts.plug a t) (counts.plug a u) r ≡ left t u r }
    ensures becomes { (a : Around) (x y : Option Tree) → (r : ℕ) → left (plug a x) (plug a y) r ≡ left (one_place x) (one_place y) r }
{}

/// Law: each name that is declared, or refers, in what edits leave stood there before, with its mark.
pub fn edits_bring_no_names()
    ensures declared { (t u : Forest) → TreeEdits t u → Fits root t → (d : Decl) → Among d (declaring u) → Among d (declaring t) }
    ensures referring { (t u : Forest) → TreeEdits t u → Fits root t → (d : Decl) → Among d (referring u) → Among d (referring t) }
{}

/// Law: no id of a reference stands more often in what edits leave.
pub fn edits_shed_references()
    ensures { (t u : Forest) → TreeEdits t u → Fits root t → (r : ℕ) → ids r u ≤ ids r t }
{}

/// Law: each edit leaves less of a program, by the weights of the table of node types, and edits leave no more.
pub fn edits_leave_no_more()
    ensures one { (t u : Forest) → Edit t u → Fits root t → total weight u < total weight t }
    ensures many { (t u : Forest) → TreeEdits t u → Fits root t → total weight u ≤ total weight t }
{}

/// Law: once the marked ids are out of its lists, the table of a program is exact.
pub fn marks_of_what_left_are_pruned()
    ensures counted { (t : Forest) (marked : ℕ → Bool) (before now : Scoping) → Prunes marked before now → ExactButMarks before marked t → ExactButMarks now unmarked t }
    ensures exact { (t : Forest) → Fits root t → (marked : ℕ → Bool) (before now : Scoping) → Prunes marked before now → ExactButMarks before marked t → Exact now t }
{}
