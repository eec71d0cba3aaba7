//! More programs with their whole tables, told by hand, as the definitions compute them, and what is read of one whose scopes
//! were edited.
//!
//! The code is empty: the contract is computed. `js_scoping` is proved to answer by these definitions, so
//! these are the tables that it makes.
#![tactic(auto)]

ghost use Rattle.std.specs.Prelude.{◌≡◌, [], ◌∷◌, Some, None, codes};
ghost use Rattle.form_rules.specs.Samples.{a};
ghost use Rattle.scope_rules.specs.Samples.{b};
ghost use Rattle.scope_table.specs.Reading.{ancestors, binding_of};
ghost use Rattle.js_scoping.specs.Worked.{AreRight};
ghost use Rattle.test_scope_definitions.specs.Worked.{rows, edited};

/// The head of a `for-in` lies in its scope; a class expression's name lies in its class, a static block and
/// a field's value have scopes of their own; a call of `eval` marks its scope and all around it, and what a
/// `with` or a switch tests lies outside.
pub fn tables()
    ensures { AreRight rows }
{}

/// Of a table whose scopes stand in no order, as those do that are put in between others: the scopes around 2 are 3, 1 and 0, and
/// the names of each of them are found.
pub fn edited_tables()
    ensures ancestors { ancestors edited 2 ≡ 2 ∷ 3 ∷ 1 ∷ 0 ∷ [] }
    ensures outermost { binding_of edited 2 a ≡ Some 0 }
    ensures between { binding_of edited 2 b ≡ Some 1 }
    ensures outside { binding_of edited 1 b ≡ None }
    ensures nowhere { binding_of edited 2 (codes "c") ≡ None }
{}
