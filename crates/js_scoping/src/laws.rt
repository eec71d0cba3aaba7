//! Laws, each the contract of a function that does nothing.
ghost use Rattle.std.specs.Prelude.{◌≡◌};
ghost use Rattle.js_syntax.specs.Node.{Forest};
ghost use Rattle.scope_rules.specs.Binding.{resolved_references};
ghost use Rattle.js_scoping.specs.Build.{table_of, numbered};

/// Law: a tree that is numbered has the table that it had, as many references of it have a binding, and to number it again
/// changes nothing.
pub fn numbering_again_changes_nothing()
    ensures table { (t : Forest) → table_of (numbered t) ≡ table_of t }
    ensures tree { (t : Forest) → numbered (numbered t) ≡ numbered t }
    ensures resolved { (t : Forest) → resolved_references (numbered t) ≡ resolved_references t }
{}
