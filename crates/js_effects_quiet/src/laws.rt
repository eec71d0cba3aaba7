// The laws of silence. Each is a contract, so that the check proves it.
ghost use Rattle.std.specs.Prelude.{◌≡◌, ◌⊎◌, List, [], Bool, true, false};
ghost use Rattle.js_syntax.specs.declared.node_kind.NodeKind.{NodeKind as Kind};
ghost use Rattle.js_syntax.specs.Node.{Forest, Note, alone};
ghost use Rattle.js_effects.specs.Answers.{Answers};
ghost use Rattle.js_effects.specs.Effects.{any_acts};
ghost use Rattle.js_effects.specs.declared.surroundings.Surroundings.{Surroundings};
ghost use Rattle.js_effects.specs.Silence.{anywhere, may_have_effects};
ghost use Rattle.js_meaning.specs.Value.{Text, Env, this_name, Value};
ghost use Rattle.js_meaning.specs.Trace.{Ending};
ghost use Rattle.js_meaning.specs.State.{State, gives, goes, stops, M};
ghost use Rattle.js_meaning.specs.Host.{Enter};
ghost use Rattle.js_meaning.specs.Node.{run};
ghost use Rattle.js_meaning.specs.Meaning.{eval};
ghost use Rattle.js_effects_quiet.specs.Quiet.{OnlyAllocates, Quietly, IsNormal, Quiet};
ghost use Rattle.js_effects_quiet.specs.Acts.{AreTold, AreTrue, marked_answers};
ghost use Rattle.js_effects_quiet.specs.Silent.{HasBinding, SilentRow, HoldsOfBound, Known, QuietNode, QuietRow, meaning};

/// What is silent in an environment is quiet there, whatever it is asked.
pub fn silent_rows_are_quiet()
    ensures { (env : Env) (E : Enter) (t : Forest) → SilentRow env t → QuietRow env (eval E t) }
{}

/// What has no effects is quiet, whatever it is asked, where the names that are marked as bound have
/// bindings, but inside of `with`, and where `this` has one, but in classes.
pub fn silence_is_quiet()
    ensures { (bound : List Bool) (s : Surroundings) (env : Env) (E : Enter) (t : Forest) → may_have_effects bound s t ≡ false →
        (s.in_with ≡ false → Known bound env t) → (s.in_class ≡ false → HasBinding env this_name) → QuietRow env (eval E t) }
{}

/// What has no effects where neither names nor `this` are known is quiet in every environment.
pub fn silence_anywhere_is_quiet()
    ensures { (bound : List Bool) (env : Env) (E : Enter) (t : Forest) → may_have_effects bound anywhere t ≡ false → QuietRow env (eval E t) }
{}

/// The same of one node: asked for its value, it is quiet.
pub fn a_silent_node_is_quiet()
    ensures { (bound : List Bool) (s : Surroundings) (env : Env) (E : Enter) (k : Kind) (n : Note) (a : Forest) → may_have_effects bound s (alone k n a) ≡ false →
        (s.in_with ≡ false → Known bound env (alone k n a)) → (s.in_class ≡ false → HasBinding env this_name) → QuietNode env (meaning E k a) }
{}

/// A statement of a silent expression completes normally, and that is all.
pub fn a_silent_statement_is_quiet()
    ensures { (bound : List Bool) (s : Surroundings) (env : Env) (E : Enter) (a : Forest) (ls : List Text) → may_have_effects bound s a ≡ false →
        (s.in_with ≡ false → Known bound env a) → (s.in_class ≡ false → HasBinding env this_name) → Quietly IsNormal (meaning E Kind.ExpressionStatement a (run ls) env) }
{}

/// What has no effects by the answers of a context, names, `this` and options included, is quiet, whatever
/// it is asked, where these answers are true; a statement of it completes normally. Nothing is asked of
/// the types and values that the context tells.
pub fn what_does_not_act_is_quiet()
    ensures row { (A : Answers) (env : Env) (E : Enter) → AreTrue A env → (t : Forest) → any_acts A t ≡ false → AreTold A env t → QuietRow env (eval E t) }
    ensures statement { (A : Answers) (env : Env) (E : Enter) → AreTrue A env → (a : Forest) (ls : List Text) →
        any_acts A a ≡ false → AreTold A env a → Quietly IsNormal (meaning E Kind.ExpressionStatement a (run ls) env) }
{}

/// What the remover takes out as silent has no effects by the answers of a context that knows of names
/// whether they have bindings and of `this` whether a class stands around, and of no types.
pub fn what_is_taken_does_not_act()
    ensures { (bound : List Bool) (s : Surroundings) (t : Forest) → may_have_effects bound s t ≡ false → any_acts (marked_answers bound s) t ≡ false }
{}

/// What quiet says: from every state the computation gives a value without an event, by allocation
/// only, or meets an uncovered act without an event.
pub fn quiet_only_allocates()
    ensures { (m : M) → Quiet m → (s : State) →
        (m s ≡ stops [] Ending.uncovered) ⊎ ((v r : Value) × (z : State) × (m s ≡ goes [] z (gives v r)) × OnlyAllocates s z) }
{}

/// In an environment that binds all names that a scope is said to declare, the marks are true where
/// they mark no other names.
pub fn declared_names_are_known()
    ensures { (declares : Text → Bool) (bound : List Bool) (env : Env) → ((x : Text) → declares x ≡ true → HasBinding env x) →
        (t : Forest) → HoldsOfBound (λ x. declares x ≡ true) bound t → Known bound env t }
{}
