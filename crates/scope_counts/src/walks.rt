// What is counted by walks that carry something.
ghost use Rattle.std.specs.Prelude.{◌≡◌, ◌≤◌, ℕ, Bool, true, false, nat_eq, Option};
ghost use Rattle.js_syntax.specs.declared.node_kind.NodeKind.{NodeKind as Kind};
ghost use Rattle.js_syntax.specs.declared.scalar.SourceType.{SourceType};
ghost use Rattle.js_syntax.specs.Node.{Forest, Note, node, joined};
ghost use Rattle.scope_rules.specs.Table.{Scoping};
ghost use Rattle.scope_counts.specs.Counts.{Bound, Weight, own, refs_of, symbol_with};
ghost use Rattle.scope_counts.specs.Edits.{Rooted, program_with, place_in, SameScopes, in_list};
ghost use Rattle.scope_counts.specs.Losing.{is_gone, gone_with, LosesOutward, UsersLeave, DeclaresGone, Plain};
ghost use Rattle.scope_counts.specs.Scopes.{ExactButMarks};
ghost use Rattle.scope_counts.specs.Walks.{SameEntries, to_symbol, to_gone, is_owner, owner_in, calls, calls_gone, lives_in, is_dead, living};

/// Where a node leaves a list, or a part stands in the place of a whole, and what uses something that is gone leaves with it, a
/// function's declaration refers to no symbol more often than it did.
pub fn calls_become_fewer()
    ensures leaving { (gone : ℕ → Bool) (o : Option ℕ) (z : ℕ) (p : Rooted) (k : Kind) (i : Note) (b rest : Forest) →
        let t = node k i b rest in
        DeclaresGone gone k i b → SameScopes (place_in p) t rest → in_list false (place_in p) ≡ true → UsersLeave gone (program_with p t) t rest →
        (s : Scoping) (before : ℕ → Bool) → ExactButMarks s before (program_with p t) → calls o z (program_with p rest) ≤ calls o z (program_with p t) }
    ensures parts { (gone : ℕ → Bool) (o : Option ℕ) (z : ℕ) (p : Rooted) (k l : Kind) (i j : Note) (b v w r : Forest) →
        let t = node k i (joined v (node l j b w)) r in
        let u = node l j b r in
        Plain k → LosesOutward gone false t u → SameScopes (place_in p) t u → SameEntries (is_owner o) owner_in (place_in p) t u → UsersLeave gone (program_with p t) t u →
        (s : Scoping) (before : ℕ → Bool) → ExactButMarks s before (program_with p t) → calls o z (program_with p u) ≤ calls o z (program_with p t) }
{}

/// So it is whatever the table, of a declaration that doesn't refer to what is gone.
pub fn uncalled_nodes_may_leave()
    ensures leaving { (gone : ℕ → Bool) (o : Option ℕ) (s : ℕ) (p : Rooted) (k : Kind) (i : Note) (b rest : Forest) →
        DeclaresGone gone k i b → SameScopes (place_in p) (node k i b rest) rest → in_list false (place_in p) ≡ true → calls_gone gone o (program_with p (node k i b rest)) ≡ 0 →
        calls o s (program_with p rest) ≤ calls o s (program_with p (node k i b rest)) }
    ensures parts { (gone : ℕ → Bool) (o : Option ℕ) (s : ℕ) (p : Rooted) (k l : Kind) (i j : Note) (b v w r : Forest) →
        let t = node k i (joined v (node l j b w)) r in
        let u = node l j b r in
        Plain k → LosesOutward gone false t u → SameScopes (place_in p) t u → SameEntries (is_owner o) owner_in (place_in p) t u → calls_gone gone o (program_with p t) ≡ 0 →
        calls o s (program_with p u) ≤ calls o s (program_with p t) }
    ensures one { (z : ℕ) (o : Option ℕ) (t : Forest) → calls_gone (nat_eq z) o t ≡ calls o z t }
{}

/// Where nothing is held dead all is counted.
pub fn what_lives_is_counted()
    ensures { (g : Bound) (source : SourceType) (n : Note) (below rest : Forest) →
        let t = node (Kind.Program source) n below rest in living (λ k b. false) g t ≡ refs_of g t }
{}

/// What no living function refers to, and nothing outside of functions, isn't counted where the dead are left out.
pub fn what_no_living_function_calls_is_not_counted()
    ensures symbol { (dead : ℕ → Bool) (s : ℕ) (source : SourceType) (n : Note) (below rest : Forest) →
        let t = node (Kind.Program source) n below rest in ((o : Option ℕ) → is_gone dead o ≡ false → calls o s t ≡ 0) → living (is_dead dead) (to_symbol s) t ≡ 0 }
    ensures gone { (dead gone : ℕ → Bool) (source : SourceType) (n : Note) (below rest : Forest) →
        let t = node (Kind.Program source) n below rest in ((o : Option ℕ) → is_gone dead o ≡ false → calls_gone gone o t ≡ 0) → living (is_dead dead) (to_gone gone) t ≡ 0 }
{}

/// A declaration that is held dead may leave a list: nothing counts otherwise, if nothing that lives refers to what is gone.
pub fn dead_declarations_may_leave()
    ensures { (skips : Kind → Forest → Bool) (gone : ℕ → Bool) (s : ℕ) (c : Option ℕ → ℕ) (p : Rooted) (k : Kind) (i : Note) (b rest : Forest) →
        let t = node k i b rest in
        skips k b ≡ true → ((w : Weight) → own w i k ≡ 0) → DeclaresGone gone k i b → SameScopes (place_in p) t rest → SameEntries (λ lives. lives) (lives_in skips) (place_in p) t rest →
        in_list false (place_in p) ≡ true → living skips (gone_with gone c) (program_with p t) ≡ 0 →
        living skips (symbol_with s c) (program_with p t) ≡ living skips (symbol_with s c) (program_with p rest) }
{}
