// Small programs on which it is tried which calls may leave.
ghost use Rattle.std.specs.Prelude.{[], ◌∷◌, suc, ◌+◌, codes};
ghost use Rattle.js_meaning.specs.Kept.{Kept, Recovered};
ghost use Rattle.form_rules.specs.Samples.{a_module, a, binds, reads, one, does, function_a};
ghost use Rattle.steps.specs.Allowed.Rows.{call_of_a};
ghost use Rattle.steps.specs.Allowed.SilentCall.{SilentCall};
ghost use Rattle.steps.specs.Allowed.SilentCallRows.{calls_a, called_with, returns, gives_back, does_nothing, keeps_it, assigns_a, behind_it, behind_both, in_front, in_while, in_block_of_a, exported, CallStays};
ghost use Rattle.steps.specs.Fit.Sensible.{IsSensibleModule};

/// A call of a function that gives back its argument leaves, behind the function, in front of it and in a loop; so does one of a
/// function that does nothing, and one of a function that holds its argument.
pub fn silent_calls_leave()
    ensures behind { SilentCall (behind_it gives_back) (calls_a (one ∷ [])) }
    ensures in_front { SilentCall (in_front gives_back) (calls_a (one ∷ [])) }
    ensures in_loop { SilentCall (in_while gives_back) (calls_a (one ∷ [])) }
    ensures empty { SilentCall (behind_it does_nothing) (calls_a []) }
    ensures held { SilentCall (behind_it (keeps_it (codes "c"))) (calls_a (reads a ∷ [])) }
{}

/// It stays where an argument acts, where the function acts, where something assigns to its name, where a scope around declares the name
/// again, and where the function is exported.
pub fn other_calls_stay()
    ensures argument { CallStays (behind_it gives_back) (call_of_a ∷ []) }
    ensures acts { CallStays (behind_it (function_a [] (does (reads (codes "x")) ∷ []))) [] }
    ensures calls { CallStays (behind_it (function_a [] (does call_of_a ∷ []))) [] }
    ensures assigned { CallStays (behind_both gives_back assigns_a) (one ∷ []) }
    ensures hidden { CallStays (in_block_of_a gives_back) (one ∷ []) }
    ensures exported { CallStays (behind_it (exported gives_back)) (one ∷ []) }
{}

/// So `function a(b) { return b; } a(1);` runs as the function alone, and back within twice the bound and one more.
pub fn a_module_without_its_call_runs_as_it_did()
    ensures { IsSensibleModule (a_module (gives_back ∷ does (called_with (one ∷ [])) ∷ [])) →
        Kept (a_module (gives_back ∷ does (called_with (one ∷ [])) ∷ [])) (a_module (gives_back ∷ []))
        × Recovered (λ bound. suc (bound + bound)) (a_module (gives_back ∷ does (called_with (one ∷ [])) ∷ [])) (a_module (gives_back ∷ [])) }
{}
