// Small programs, by computing.
ghost use Rattle.scope_counts.specs.Scopes.{unmarked};
ghost use Rattle.headline.specs.Clean.{Clean};
ghost use Rattle.rules.specs.DeadCode.Knows.{Knows};
ghost use Rattle.rules.specs.DeadCode.Quiet.{IsQuiet};
ghost use Rattle.rules_clean.specs.Samples.{a_function_of_a_script, a_function_of_a_module, taken_for_a_module, taken_for_exported};

/// What is known has to be so. Other scripts may use a function of a script (ECMA-262 16.1.7), so it is no dead code; where the
/// script is taken for a module, the rules take it out.
pub fn what_is_not_so_takes_more()
    ensures clean { Clean a_function_of_a_script }
    ensures goes { IsQuiet taken_for_a_module a_function_of_a_script → ⊥ }
{}

/// And it has to be known exactly. Where more is taken for exported than is, all that has to be known is so, but the rules leave a
/// function that is dead code.
pub fn what_is_not_known_exactly_takes_less()
    ensures known { Knows taken_for_exported unmarked a_function_of_a_module }
    ensures stays { IsQuiet taken_for_exported a_function_of_a_module }
    ensures dead { Clean a_function_of_a_module → ⊥ }
{}
