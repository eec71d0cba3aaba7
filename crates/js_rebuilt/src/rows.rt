// Expressions that are rebuilt of their parts, and some that aren't.
ghost use Rattle.std.specs.Prelude.{[], ◌∷◌};
ghost use Rattle.form_rules.specs.Samples.{a, reads, one, function_a};
ghost use Rattle.js_rebuilt.specs.Rebuilt.{Rebuilt};
ghost use Rattle.js_rebuilt.specs.Rows.{call_of_a, call_of_b, member, array, sequence, equals, and, negated, conditional};

/// What an expression has effects by stays, in its order.
pub fn parts_stay()
    ensures array { Rebuilt (array (call_of_a ∷ one ∷ call_of_b ∷ [])) (sequence (call_of_a ∷ call_of_b ∷ [])) }
    ensures comparison { Rebuilt (equals call_of_a call_of_b) (sequence (call_of_a ∷ call_of_b ∷ [])) }
    ensures conditional { Rebuilt (conditional one member one) (sequence (one ∷ member ∷ [])) }
    ensures negation { Rebuilt (negated call_of_a) call_of_a }
    ensures alternate { Rebuilt (conditional (reads a) call_of_a one) (and (reads a) call_of_a) }
    ensures sequence { Rebuilt (sequence (one ∷ call_of_a ∷ [])) call_of_a }
    ensures literal { Rebuilt (reads a) one }
{}

/// Nothing comes out of a function, no name comes in, and no call.
pub fn nothing_else_is_rebuilt()
    ensures function { Rebuilt (function_a [] (call_of_a ∷ [])) call_of_a → ⊥ }
    ensures name { Rebuilt one (reads a) → ⊥ }
{}
