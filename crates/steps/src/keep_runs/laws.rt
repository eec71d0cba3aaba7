// That steps refine. Each law is a contract, so that the check proves it.
ghost use Rattle.std.specs.Prelude.{◌≡◌, suc, ◌+◌, true, false, Some};
ghost use Rattle.std.specs.Str.{bytes_eq};
ghost use Rattle.js_syntax.specs.declared.node_kind.NodeKind.{NodeKind as Kind};
ghost use Rattle.js_syntax.specs.Node.{Note, Forest, Tree};
ghost use Rattle.js_meaning.specs.Kept.{Kept, KeptBack, Recovered, Refined};
ghost use Rattle.js_meaning.specs.Value.{Text};
ghost use Rattle.js_meaning.specs.Scope.{default_name};
ghost use Rattle.js_meaning_near.specs.Near.{Row, fields, module_of};
ghost use Rattle.js_meaning_near.specs.Known.{Steady};
ghost use Rattle.js_meaning_near.specs.Fit.{Part, part_of, whole};
ghost use Rattle.js_meaning_near.specs.Avoid.{InPlace};
ghost use Rattle.scope_laws.specs.Place.{Around, plug};
ghost use Rattle.scope_laws.specs.Lists.{without};
ghost use Rattle.steps.specs.Allowed.SilentCall.{SilentCall, in_module};
ghost use Rattle.steps.specs.Fit.Sensible.{IsSensibleModule};
ghost use Rattle.steps.specs.Steps.{Step, outermost, all_core};
ghost use Rattle.steps.specs.KeepRuns.Formed.{holds_well, is_formed};
ghost use Rattle.steps.specs.KeepRuns.Many.{CoreSteps};
ghost use Rattle.steps.specs.KeepRuns.Once.{binds, Once};
ghost use Rattle.steps.specs.KeepRuns.Assigned.{assigns};
ghost use Rattle.steps.specs.KeepRuns.Tidy.{Tidy};

/// A module after a step refines the one before it, where the tree is formed, and a name whose
/// declaration goes is mentioned no more in its scope, or declared again there and looked up nowhere.
pub fn a_step_refines()
    ensures { (n m : Note) (a u : Forest) (s : Step outermost (module_of n m a) u) →
        is_formed (module_of n m a) ≡ true → InPlace whole fields (module_of n m a) → Tidy s → Refined (module_of n m a) u }
{}

/// So it does in a core module by what the step itself asks, where no other declaration of the name
/// stands in its scope, or one that has a cell.
pub fn a_step_of_a_core_module_refines()
    ensures { (n m : Note) (a u : Forest) (s : Step outermost (module_of n m a) u) →
        is_formed (module_of n m a) ≡ true → all_core a ≡ true → InPlace whole fields (module_of n m a) → Once s → Refined (module_of n m a) u }
{}

/// So that every run is kept, and where the new run ends or is stopped by the host, the old one was the
/// same within the same bound, unless it was uncovered.
pub fn a_step_of_a_core_module_keeps_runs()
    ensures kept { (n m : Note) (a u : Forest) (s : Step outermost (module_of n m a) u) →
        is_formed (module_of n m a) ≡ true → all_core a ≡ true → InPlace whole fields (module_of n m a) → Once s → Kept (module_of n m a) u }
    ensures back { (n m : Note) (a u : Forest) (s : Step outermost (module_of n m a) u) →
        is_formed (module_of n m a) ≡ true → all_core a ≡ true → InPlace whole fields (module_of n m a) → Once s → KeptBack (module_of n m a) u }
{}

/// So do steps one after the other.
pub fn steps_of_a_core_module_refine()
    ensures { (n m : Note) (a u : Forest) → CoreSteps (module_of n m a) u →
        is_formed (module_of n m a) ≡ true → all_core a ≡ true → InPlace whole fields (module_of n m a) → Refined (module_of n m a) u }
{}

/// A step of a formed tree leaves a formed tree.
pub fn a_step_keeps_the_form()
    ensures { (t u : Forest) → Step outermost t u → is_formed t ≡ true → is_formed u ≡ true }
{}

/// Where nothing in a row assigns to a name, and the row binds it no more, it only reads the name.
pub fn what_nothing_assigns_is_steady()
    ensures { (x : Text) (q : Part) (p : Row) (t : Forest) (above : Kind) → holds_well above t ≡ true → is_formed t ≡ true → bytes_eq default_name x ≡ false → assigns x (part_of q t) ≡ false → binds x (part_of q t) ≡ false → InPlace q p t → Steady x q p t }
{}

/// A statement of a call leaves a list of a module, whose own list declares the function, of which a call does nothing but give a value:
/// every run is kept, and what is left of a run comes back within twice its bound and one more.
pub fn a_silent_call_recovers()
    ensures kept { (n m : Note) (a : Around) (t : Tree) → SilentCall (in_module n m a) t → IsSensibleModule (module_of n m (plug a (Some t))) → Kept (module_of n m (plug a (Some t))) (module_of n m (without a)) }
    ensures recovered { (n m : Note) (a : Around) (t : Tree) → SilentCall (in_module n m a) t → IsSensibleModule (module_of n m (plug a (Some t))) →
        Recovered (λ bound. suc (bound + bound)) (module_of n m (plug a (Some t))) (module_of n m (without a)) }
{}
