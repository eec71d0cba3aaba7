// What a table that is exact but for marks tells of uses. Each law is a contract, so that the check proves it.
ghost use Rattle.std.specs.Prelude.{◌≡◌, ◌↔◌, ◌≤◌, ℕ, Bool, true, slice_get, Some};
ghost use Rattle.js_syntax.specs.Class.{root};
ghost use Rattle.js_syntax.specs.Node.{Forest};
ghost use Rattle.json_shape.specs.Shape.{Fits};
ghost use Rattle.scope_rules.specs.Site.{BindingSite, ReferenceSite, sites_of, bindings_among, references_among};
ghost use Rattle.scope_rules.specs.Table.{Reference, Scoping};
ghost use Rattle.scope_laws.specs.Exact.{Among, Names};
ghost use Rattle.scope_counts.specs.Exact.{count, lists_of};
ghost use Rattle.scope_counts.specs.Scopes.{ExactButMarks};
ghost use Rattle.steps.specs.Owed.Unseen.{IsUnreferred};

/// Law: nothing refers to a declaration where each id that its symbol lists is marked.
pub fn what_lists_marked_ids_alone_is_unreferred()
    ensures { (t : Forest) → Fits root t → (s : Scoping) (marked : ℕ → Bool) → ExactButMarks s marked t
        → (b : BindingSite) → Among b (bindings_among (sites_of t)) → (symbol : ℕ) → b.id ≡ Some symbol → ((id : ℕ) → 1 ≤ count id (lists_of s symbol) → marked id ≡ true) → IsUnreferred t b }
{}

/// Law: the entry of a reference has a symbol exactly where the reference is bound by a declaration that is marked with it.
pub fn entries_tell_bindings()
    ensures { (t : Forest) → Fits root t → (s : Scoping) (marked : ℕ → Bool) → ExactButMarks s marked t
        → (r : ReferenceSite) → Among r (references_among (sites_of t)) → (id : ℕ) (entry : Reference) → r.id ≡ Some id → slice_get s.references id ≡ Some entry
        → (symbol : ℕ) → (entry.symbol ≡ Some symbol) ↔ Names (bindings_among (sites_of t)) r symbol }
{}
