// What holds of the definitions themselves.
ghost use Rattle.std.specs.Prelude.{◌≡◌, None, true};
ghost use Rattle.js_syntax.specs.Node.{Forest};
ghost use Rattle.steps.specs.Fit.Sensible.{is_core_module};
ghost use Rattle.run_covered.specs.Covered.{first_outside};

/// Law: a program in which no first node outside the core is found is a core module, as the promises on shaken programs
/// have it.
pub fn covered_modules_are_core()
    ensures { (t : Forest) → first_outside t ≡ None → is_core_module t ≡ true }
{}

/// Law: and in a core module none is found.
pub fn core_modules_are_covered()
    ensures { (t : Forest) → is_core_module t ≡ true → first_outside t ≡ None }
{}
