// What stays of a program of any source type. Each law is a contract, so that the check proves it.
ghost use Rattle.std.specs.Prelude.{◌≡◌, false};
ghost use Rattle.js_syntax.specs.Class.{root};
ghost use Rattle.js_syntax.specs.Node.{Forest};
ghost use Rattle.json_shape.specs.Shape.{Fits};
ghost use Rattle.steps.specs.Allowed.Edits.{Edits};
ghost use Rattle.steps.specs.Allowed.Exposure.{is_script, evaluates_somewhere};
ghost use Rattle.headline.specs.Clean.{Clean};
ghost use Rattle.headline.specs.Lasting.{loaded, root_names, HasSharedNames, ImportsAreUsed};

/// Law: through edits a program asks for the modules that it asked for, in the same order (ECMA-262 16.2.1.3).
pub fn edits_load_the_same()
    ensures { (t u : Forest) → Edits t u → Fits root t → loaded u ≡ loaded t }
{}

/// Law: through edits the names of a program's own scope stay, each as often as it was declared, where other code may use them: those of
/// a script, and those of any program in which a direct call of `eval` is left.
pub fn edits_keep_shared_names()
    ensures { (t u : Forest) → Edits t u → Fits root t → HasSharedNames t u → root_names u ≡ root_names t }
{}

/// Law: no name of an import to which nothing refers is left in a program without dead code, if it is no script and has no direct call
/// of `eval`.
pub fn imports_are_used()
    ensures { (t : Forest) → Fits root t → is_script t ≡ false → evaluates_somewhere t ≡ false → Clean t → ImportsAreUsed t }
{}
