// The laws of runs. Each is a contract, so that the check proves it.
ghost use Rattle.std.specs.Prelude.{◌≡◌, ℕ, ◌≤◌};
ghost use Rattle.js_syntax.specs.Node.{Forest};
ghost use Rattle.js_meaning.specs.Trace.{Script, Ending};
ghost use Rattle.js_meaning.specs.State.{State, Completion, M, bind};
ghost use Rattle.js_meaning.specs.Run.{run, run_within, seen};
ghost use Rattle.js_meaning.specs.Kept.{Prefix, Kept, KeptBack, BackWithin, Recovered, Refined};

/// Keeping runs composes.
pub fn keeping_composes()
    ensures { (t u v : Forest) → Kept t u → Kept u v → Kept t v }
{}

/// Refining composes.
pub fn refining_composes()
    ensures { (t u v : Forest) → Refined t u → Refined u v → Refined t v }
{}

/// Every tree refines itself.
pub fn refining_begins()
    ensures { (t : Forest) → Refined t t }
{}

/// A tree that refines another keeps its runs; and where its run ends or is stopped by the host, so
/// did the other's, unless that was uncovered.
pub fn refining_keeps()
    ensures kept { (t u : Forest) → Refined t u → Kept t u }
    ensures back { (t u : Forest) → Refined t u → KeptBack t u }
{}

/// So does the way back, with its bounds; a tree that refines another comes back within the same bound, and whatever recovers
/// comes back.
pub fn the_way_back_composes()
    ensures composes { (f g : ℕ → ℕ) (t u v : Forest) → Recovered f t u → Recovered g u v → Recovered (λ n. f (g n)) t v }
    ensures refined { (t u : Forest) → Refined t u → Recovered (λ n. n) t u }
    ensures back { (f : ℕ → ℕ) (t u : Forest) → Recovered f t u → BackWithin f t u }
{}

/// What goes on only adds events.
pub fn going_on_adds()
    ensures { (m : M) (k : Completion → M) (s : State) → Prefix (seen (m s)).trace (seen (bind m k s)).trace }
{}

/// How deep entries may nest isn't seen: the budget runs out first.
pub fn depth_is_not_seen()
    ensures { (d : ℕ) (t : Forest) (script : Script) (n : ℕ) → n ≤ d → run_within d t script n ≡ run t script n }
{}

/// A run that isn't out of its bound is the same within any larger one.
pub fn a_larger_bound_changes_nothing()
    ensures { (t : Forest) (script : Script) (n m : ℕ) → n ≤ m → ((run t script n).ending ≡ Ending.out → ⊥) → run t script m ≡ run t script n }
{}
