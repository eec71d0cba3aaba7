// The laws of steps. Each is a contract, so that the check proves it.
ghost use Rattle.std.specs.Prelude.{◌≡◌, List, Bool, true, false};
ghost use Rattle.js_syntax.specs.Node.{Forest};
ghost use Rattle.js_meaning.specs.Value.{Text, Env, this_name};
ghost use Rattle.js_meaning.specs.Host.{Enter};
ghost use Rattle.js_meaning.specs.Meaning.{eval};
ghost use Rattle.js_effects.specs.declared.surroundings.Surroundings.{Surroundings};
ghost use Rattle.js_effects.specs.Silence.{may_have_effects};
ghost use Rattle.js_effects_quiet.specs.Silent.{HasBinding, HoldsOfBound, QuietRow};
ghost use Rattle.steps.specs.Names.{is_among, may_act};
ghost use Rattle.steps.specs.Steps.{Step, Around, all_core};

/// A step leaves a core tree core.
pub fn a_step_keeps_core()
    ensures { (w : Around) (t u : Forest) → Step w t u → all_core t ≡ true → all_core u ≡ true }
{}

/// What may not act where certain names are declared is quiet in every environment that binds them.
pub fn what_may_not_act_is_quiet()
    ensures { (names : List Text) (env : Env) → ((x : Text) → is_among names x ≡ true → HasBinding env x) →
        (E : Enter) (t : Forest) → may_act names t ≡ false → QuietRow env (eval E t) }
{}

/// What has no effects by its marks may not act, where these mark no other names than those that are
/// declared, and `this` is among these, but in a class.
pub fn marked_silence_may_not_act()
    ensures { (names : List Text) (bound : List Bool) (s : Surroundings) → (s.in_class ≡ false → is_among names this_name ≡ true) → (t : Forest) →
        HoldsOfBound (λ x. is_among names x ≡ true) bound t → may_have_effects bound s t ≡ false → may_act names t ≡ false }
{}
