// What the rules take out is dead code. Each law is a contract, so that the check proves it.
ghost use Rattle.std.specs.Prelude.{◌↔◌, ℕ, Bool};
ghost use Rattle.js_syntax.specs.Node.{Forest};
ghost use Rattle.scope_counts.specs.Scopes.{unmarked};
ghost use Rattle.headline.specs.Clean.{CleanBut};
ghost use Rattle.rules.specs.DeadCode.Rules.{Facts};
ghost use Rattle.rules.specs.DeadCode.Knows.{Knows};
ghost use Rattle.rules.specs.DeadCode.Quiet.{Exactly, IsQuiet};
ghost use Rattle.rules.specs.Imports.Quiet.{ImportsUsed};
ghost use Rattle.rules.specs.Expressions.Settled.{IsSettled};

/// Law: of a program without dead code, but for what is kept, the rules take nothing out, of its lists and of its imports, by whatever is
/// known of it, and whichever ids are marked; and no expression of it comes to its parts, whatever is known.
pub fn rules_take_dead_code_alone()
    ensures taken { (f : Facts) (marked : ℕ → Bool) (t : Forest) → Knows f marked t → CleanBut f.keeps_unused f.keeps_imports t → IsQuiet f t }
    ensures imported { (f : Facts) (marked : ℕ → Bool) (t : Forest) → Knows f marked t → CleanBut f.keeps_unused f.keeps_imports t → ImportsUsed f t }
    ensures changed { (unused imports : Bool) (t : Forest) → CleanBut unused imports t → IsSettled t }
{}

/// Law: so they change nothing exactly where there is no dead code but what is kept, if what is known of the program is known exactly.
pub fn rules_take_all_dead_code_and_nothing_else()
    ensures { (f : Facts) (t : Forest) → Knows f unmarked t → Exactly f t → (IsQuiet f t × ImportsUsed f t × IsSettled t) ↔ CleanBut f.keeps_unused f.keeps_imports t }
{}
