// What the names of a tree resolve to. The law is a contract, so that the check proves it.
ghost use Rattle.std.specs.Prelude.{◌≡◌};
ghost use Rattle.js_syntax.specs.Node.{Forest};
ghost use Rattle.js_scoping.specs.Build.{table_of};
ghost use Rattle.js_meaning_near.specs.Signed.{signed};

/// Law: a tree and what it is with unary minus on its magnitude in the place of each negative number have one table of
/// scopes, symbols and references, so that their names resolve alike.
pub fn signs_resolve_alike()
    ensures { (t : Forest) → table_of (signed t) ≡ table_of t }
{}
