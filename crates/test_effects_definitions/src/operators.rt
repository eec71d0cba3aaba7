//! Texts, tests and equality.
ghost use Rattle.std.specs.Prelude.{◌≡◌, pos, true, false, Some, None, codes};
ghost use Rattle.js_syntax.specs.declared.operator.UnaryOperator.TheVariants.{LogicalNot, Typeof, Void, Delete, UnaryNegation};
ghost use Rattle.js_syntax.specs.declared.operator.BinaryOperator.TheVariants as binary;
ghost use Rattle.js_syntax.specs.declared.operator.LogicalOperator.TheVariants as logical;
ghost use Rattle.js_syntax.specs.Node.{nothing};
ghost use Rattle.js_effects.specs.Answers.{bare_answers};
ghost use Rattle.js_effects.specs.declared.value.ValueType.TheVariants as type;
ghost use Rattle.js_effects.specs.declared.value.ConstantValue.TheVariants as constant;
ghost use Rattle.test_effects_definitions.specs.Expressions.{told, num, txt, a_null, name, unary, binary_of, logical_of, a_call, object, array, sequence, conditional, silent, acting, a_number, a_text, a_truth, valued};

/// Texts: `+` joins two literals, and no texts that only come out.
pub fn texts()
    ensures joined { told bare_answers (binary_of binary.Addition (txt (codes "a")) (txt (codes "b")) nothing) ≡ a_text (codes "ab") true }
    ensures empty { told bare_answers (binary_of binary.Addition (txt (codes "")) (txt (codes "")) nothing) ≡ a_text (codes "") false }
    ensures with_a_number { told bare_answers (binary_of binary.Addition (txt (codes "a")) (num 1) nothing) ≡ silent type.String }
    ensures three { told bare_answers (binary_of binary.Addition (binary_of binary.Addition (txt (codes "a")) (txt (codes "b"))) (txt (codes "c")) nothing) ≡ silent type.String }
    ensures compared { told bare_answers (binary_of binary.StrictEquality (binary_of binary.Addition (txt (codes "a")) (txt (codes "b"))) (txt (codes "ab")) nothing) ≡ a_truth true }
{}

/// `typeof`, `void`, `!` and `-`.
pub fn one_operand()
    ensures typeof_number { told bare_answers (unary Typeof (num 0) nothing) ≡ a_text (codes "number") true }
    ensures typeof_object { told bare_answers (unary Typeof (object nothing) nothing) ≡ silent type.String }
    ensures typeof_null { told bare_answers (unary Typeof a_null nothing) ≡ silent type.String }
    ensures typeof_void { told bare_answers (unary Typeof (unary Void (num 0)) nothing) ≡ a_text (codes "undefined") true }
    ensures void_of_a_call { told bare_answers (unary Void a_call nothing) ≡ record { of_type = type.Undefined; has_value = Some constant.Undefined; is_true = Some false; has_effects = true } }
    ensures not_an_object { told bare_answers (unary LogicalNot (object nothing) nothing) ≡ a_truth false }
    ensures minus_a_name { told bare_answers (unary UnaryNegation (name (codes "x")) nothing) ≡ acting type.Undetermined }
    ensures deleted { told bare_answers (unary Delete (num 0) nothing) ≡ acting type.Undetermined }
{}

/// `&&`, `||`, `??` and `?:`.
pub fn choices()
    ensures coalesced { told bare_answers (logical_of logical.Coalesce (txt (codes "")) a_call nothing) ≡ record { of_type = type.Undetermined; has_value = Some (constant.Text (codes "")); is_true = Some false; has_effects = true } }
    ensures nullish { told bare_answers (logical_of logical.Coalesce a_null (num 1) nothing) ≡ valued type.Undetermined (constant.Number (pos 1)) true }
    ensures behind_an_object { told bare_answers (logical_of logical.And (array nothing) (num 0) nothing) ≡ valued type.Undetermined (constant.Number (pos 0)) false }
    ensures never { told bare_answers (logical_of logical.And a_call (num 0) nothing) ≡ record { of_type = type.Undetermined; has_value = None; is_true = Some false; has_effects = true } }
    ensures always { told bare_answers (logical_of logical.Or a_call (array nothing) nothing) ≡ record { of_type = type.Undetermined; has_value = None; is_true = Some true; has_effects = true } }
    ensures chosen { told bare_answers (conditional (num 1) (txt (codes "a")) (num 2) nothing) ≡ valued type.Undetermined (constant.Text (codes "a")) true }
    ensures unchosen { told bare_answers (conditional (name (codes "x")) (num 1) (num 2) nothing) ≡ silent type.Number }
    ensures sequence { told bare_answers (sequence a_call (num 1) nothing) ≡ record { of_type = type.Number; has_value = Some (constant.Number (pos 1)); is_true = Some true; has_effects = true } }
{}

/// Equality.
pub fn equality()
    ensures null_and_undefined { told bare_answers (binary_of binary.Equality a_null (unary Void (num 0)) nothing) ≡ a_truth true }
    ensures null_and_number { told bare_answers (binary_of binary.Equality a_null (num 0) nothing) ≡ silent type.Boolean }
    ensures strictly { told bare_answers (binary_of binary.StrictEquality a_null (num 0) nothing) ≡ a_truth false }
    ensures strictly_not { told bare_answers (binary_of binary.StrictInequality (num 1) (num 1) nothing) ≡ a_truth false }
    ensures of_names { told bare_answers (binary_of binary.StrictEquality (name (codes "x")) (name (codes "y")) nothing) ≡ silent type.Boolean }
    ensures asked_of_an_object { told bare_answers (binary_of binary.In (name (codes "x")) (name (codes "y")) nothing) ≡ acting type.Boolean }
{}
