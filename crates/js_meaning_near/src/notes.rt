// That runs don't see notes. Each law is a contract, so that the check proves it.
ghost use Rattle.std.specs.Prelude.{◌≡◌};
ghost use Rattle.js_syntax.specs.Node.{Note, Forest, bare};
ghost use Rattle.js_meaning.specs.Kept.{Refined};
ghost use Rattle.js_meaning_near.specs.Near.{fields, module_of};
ghost use Rattle.js_meaning_near.specs.Fit.{whole};
ghost use Rattle.js_meaning_near.specs.Avoid.{InPlace};

/// Law: without its notes a module refines what it is with them.
pub fn modules_refine_without_notes()
    ensures { (n m : Note) (a : Forest) → InPlace whole fields (module_of n m a) → Refined (module_of n m a) (bare (module_of n m a)) }
{}

/// Law: and with them it refines what it is without.
pub fn modules_refine_with_notes()
    ensures { (n m : Note) (a : Forest) → InPlace whole fields (module_of n m a) → Refined (bare (module_of n m a)) (module_of n m a) }
{}

/// Law: of two modules that are the same without their notes the second refines the first.
pub fn modules_with_other_notes_refine()
    ensures { (n m i j : Note) (a b : Forest) → InPlace whole fields (module_of n m a) → bare (module_of n m a) ≡ bare (module_of i j b) → Refined (module_of n m a) (module_of i j b) }
{}
