//! Programs with their scopes, bindings and references, told by hand, as the definitions compute them.
ghost use Rattle.scope_rules.specs.Samples.{AreRight};
ghost use Rattle.scope_rules.specs.Worked as table;

/// `let` and functions stay in a block, and `var` doesn't.
pub fn blocks()
    ensures { AreRight table.blocks }
{}

/// Parameters stand around the body, and an expression's own name around both.
pub fn functions()
    ensures { AreRight table.functions }
{}

/// A declaration's name lies around its class, an expression's in it; a field's value has a scope.
pub fn classes()
    ensures { AreRight table.classes }
{}

/// `catch`, `switch`, `for` and `with`.
pub fn statements()
    ensures { AreRight table.statements }
{}

/// A direct call of `eval` marks its scope and all around it.
pub fn calls_of_eval()
    ensures { AreRight table.calls_of_eval }
{}

/// How names are used, imported and exported.
pub fn uses_of_names()
    ensures { AreRight table.uses_of_names }
{}
