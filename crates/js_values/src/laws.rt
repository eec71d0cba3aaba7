// The laws of values. Each is a contract, so that the check proves it.
ghost use Rattle.std.specs.Prelude.{◌≡◌, List, Bool, Option, Some};
ghost use Rattle.js_syntax.specs.declared.node_kind.NodeKind.{NodeKind as Kind};
ghost use Rattle.js_syntax.specs.Node.{Forest, Note, alone};
ghost use Rattle.js_effects.specs.declared.value.ConstantValue.{ConstantValue};
ghost use Rattle.js_effects.specs.Answers.{Answers, bare_answers};
ghost use Rattle.js_effects.specs.Kinds.{type_of};
ghost use Rattle.js_effects.specs.Values.{value_of, truth_of};
ghost use Rattle.js_meaning.specs.Value.{Env, Value};
ghost use Rattle.js_meaning.specs.Trace.{Event};
ghost use Rattle.js_meaning.specs.State.{State, gives, goes};
ghost use Rattle.js_meaning.specs.Operator.{truthy};
ghost use Rattle.js_meaning.specs.Host.{Enter};
ghost use Rattle.js_meaning.specs.Node.{now};
ghost use Rattle.js_values.specs.Told.{as_value, HasType, meaning, ToldRow, NamesAreTrue, TellsNoConstant};

/// Whatever the expressions of a row are asked for, the values that they give are as is told of them, where
/// no name is told to have a constant, and one that is called the global `undefined` has no binding.
pub fn what_is_told_is_so()
    ensures { (A : Answers) (env : Env) (E : Enter) → TellsNoConstant A → (t : Forest) → NamesAreTrue A env t → ToldRow A env E t }
{}

/// By forms alone, where nothing is known of names, so it is in every environment.
pub fn what_forms_tell_is_so()
    ensures { (env : Env) (E : Enter) (t : Forest) → ToldRow bare_answers env E t }
{}

/// So where a run of an expression goes on with a value: it is of the type that is told of the expression,
/// the value that is told, and true in a test where that is told.
pub fn a_value_is_as_told()
    ensures has_type { (A : Answers) (env : Env) (E : Enter) → TellsNoConstant A → (k : Kind) (n : Note) (a : Forest) → NamesAreTrue A env (alone k n a) →
        (s z : State) (es : List Event) (v r : Value) → meaning E k a now env s ≡ goes es z (gives v r) → HasType (type_of A (alone k n a)) v }
    ensures has_value { (A : Answers) (env : Env) (E : Enter) → TellsNoConstant A → (k : Kind) (n : Note) (a : Forest) → NamesAreTrue A env (alone k n a) →
        (s z : State) (es : List Event) (v r : Value) → meaning E k a now env s ≡ goes es z (gives v r) →
        (c : ConstantValue) → value_of A (alone k n a) ≡ Some c → v ≡ as_value c }
    ensures has_truth { (A : Answers) (env : Env) (E : Enter) → TellsNoConstant A → (k : Kind) (n : Note) (a : Forest) → NamesAreTrue A env (alone k n a) →
        (s z : State) (es : List Event) (v r : Value) → meaning E k a now env s ≡ goes es z (gives v r) →
        (b : Bool) → truth_of A (alone k n a) ≡ Some b → truthy v ≡ b }
{}
