//! Names, as contexts answer of them, and options.
ghost use Rattle.std.specs.Prelude.{◌≡◌, pos, true, false, codes};
ghost use Rattle.js_syntax.specs.declared.operator.UnaryOperator.TheVariants.{Typeof};
ghost use Rattle.js_syntax.specs.declared.operator.BinaryOperator.TheVariants as binary;
ghost use Rattle.js_syntax.specs.Node.{nothing};
ghost use Rattle.js_effects.specs.Answers.{bare_answers};
ghost use Rattle.js_effects.specs.declared.value.ValueType.TheVariants as type;
ghost use Rattle.js_effects.specs.declared.value.ConstantValue.TheVariants as constant;
ghost use Rattle.test_effects_definitions.specs.Expressions.{told, num, txt, name, numbered, unary, binary_of, a_call, member, assigned, silent, acting, a_number, a_text, valued, some_answers, lenient_answers, strange_answers};

/// Names with a binding, global ones and constants.
pub fn names()
    ensures bound { told some_answers (name (codes "x") nothing) ≡ silent type.Undetermined }
    ensures global { told some_answers (name (codes "g") nothing) ≡ acting type.Undetermined }
    ensures undefined { told some_answers (name (codes "undefined") nothing) ≡ valued type.Undefined constant.Undefined false }
    ensures bound_undefined { told bare_answers (name (codes "undefined") nothing) ≡ silent type.Undetermined }
    ensures typeof_global { told some_answers (unary Typeof (name (codes "g")) nothing) ≡ silent type.String }
    ensures constant { told some_answers (numbered 0 nothing) ≡ a_number (pos 5) true }
    ensures typeof_constant { told some_answers (unary Typeof (numbered 0) nothing) ≡ a_text (codes "number") true }
    ensures sum { told some_answers (binary_of binary.Addition (numbered 0) (num 1) nothing) ≡ a_number (pos 6) true }
    ensures no_literal { told some_answers (binary_of binary.Addition (numbered 1) (txt (codes "b")) nothing) ≡ silent type.String }
{}

/// Inside of `with` nothing is known of names.
pub fn inside_with()
    ensures bound { told strange_answers (name (codes "x") nothing) ≡ acting type.Undetermined }
    ensures undefined { told strange_answers (name (codes "undefined") nothing) ≡ acting type.Undetermined }
    ensures constant { told strange_answers (numbered 0 nothing) ≡ acting type.Undetermined }
    ensures typeof_name { told strange_answers (unary Typeof (name (codes "x")) nothing) ≡ acting type.String }
{}

/// What options allow.
pub fn options()
    ensures global { told lenient_answers (name (codes "g") nothing) ≡ silent type.Undetermined }
    ensures read { told lenient_answers (member (name (codes "x")) (codes "a") nothing) ≡ silent type.Undetermined }
    ensures write { told lenient_answers (assigned (member (name (codes "x")) (codes "a")) (num 1) nothing) ≡ silent type.Number }
    ensures write_refused { told some_answers (assigned (member (name (codes "x")) (codes "a")) (num 1) nothing) ≡ acting type.Number }
    ensures unsafe_key { told lenient_answers (assigned (member (name (codes "x")) (codes "__proto__")) (num 1) nothing) ≡ acting type.Number }
    ensures foreign_object { told lenient_answers (assigned (member (name (codes "g")) (codes "a")) (num 1) nothing) ≡ acting type.Number }
    ensures acting_value { told lenient_answers (assigned (member (name (codes "x")) (codes "a")) a_call nothing) ≡ acting type.Undetermined }
{}
