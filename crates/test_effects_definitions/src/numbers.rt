//! Numbers: what has no whole value within 2^53 - 1, or is a negative zero, has none here.
ghost use Rattle.std.specs.Prelude.{◌≡◌, pos, negsuc, true, false};
ghost use Rattle.js_syntax.specs.declared.operator.UnaryOperator.TheVariants.{UnaryNegation, UnaryPlus, BitwiseNot};
ghost use Rattle.js_syntax.specs.declared.operator.BinaryOperator.TheVariants as binary;
ghost use Rattle.js_syntax.specs.Node.{nothing};
ghost use Rattle.js_effects.specs.Answers.{bare_answers};
ghost use Rattle.js_effects.specs.declared.value.ValueType.TheVariants as type;
ghost use Rattle.test_effects_definitions.specs.Expressions.{told, num, unary, binary_of, silent, a_number, a_truth};

/// Sums and differences.
pub fn sums()
    ensures difference { told bare_answers (binary_of binary.Subtraction (num 1) (num 3) nothing) ≡ a_number (negsuc 1) true }
    ensures zero { told bare_answers (binary_of binary.Subtraction (num 3) (num 3) nothing) ≡ a_number (pos 0) false }
    ensures past_the_largest { told bare_answers (binary_of binary.Addition (num 9007199254740991) (num 1) nothing) ≡ silent type.Number }
    ensures largest { told bare_answers (binary_of binary.Addition (num 9007199254740990) (num 1) nothing) ≡ a_number (pos 9007199254740991) true }
{}

/// Products.
pub fn products()
    ensures past_the_largest { told bare_answers (binary_of binary.Multiplication (num 9007199254740991) (num 9007199254740991) nothing) ≡ silent type.Number }
    ensures negative_zero { told bare_answers (binary_of binary.Multiplication (num 0) (unary UnaryNegation (num 1)) nothing) ≡ silent type.Number }
    ensures negative { told bare_answers (binary_of binary.Multiplication (num 2) (unary UnaryNegation (num 1)) nothing) ≡ a_number (negsuc 1) true }
    ensures power { told bare_answers (binary_of binary.Exponential (num 2) (num 3) nothing) ≡ silent type.Number }
{}

/// Quotients and remainders.
pub fn quotients()
    ensures half { told bare_answers (binary_of binary.Division (num 1) (num 2) nothing) ≡ silent type.Number }
    ensures whole { told bare_answers (binary_of binary.Division (num 6) (num 3) nothing) ≡ a_number (pos 2) true }
    ensures by_zero { told bare_answers (binary_of binary.Division (num 5) (num 0) nothing) ≡ silent type.Number }
    ensures negative_zero { told bare_answers (binary_of binary.Division (num 0) (unary UnaryNegation (num 1)) nothing) ≡ silent type.Number }
    ensures rest { told bare_answers (binary_of binary.Remainder (num 7) (unary UnaryNegation (num 2)) nothing) ≡ a_number (pos 1) true }
    ensures negative_rest { told bare_answers (binary_of binary.Remainder (unary UnaryNegation (num 7)) (num 2) nothing) ≡ a_number (negsuc 0) true }
    ensures negative_zero_rest { told bare_answers (binary_of binary.Remainder (unary UnaryNegation (num 7)) (num 7) nothing) ≡ silent type.Number }
    ensures rest_of_zero { told bare_answers (binary_of binary.Remainder (num 5) (num 0) nothing) ≡ silent type.Number }
{}

/// Signs, and operators on bits.
pub fn signs()
    ensures negative_zero { told bare_answers (unary UnaryNegation (num 0) nothing) ≡ silent type.Number }
    ensures positive { told bare_answers (unary UnaryPlus (num 2) nothing) ≡ a_number (pos 2) true }
    ensures bits { told bare_answers (unary BitwiseNot (num 2) nothing) ≡ silent type.Number }
    ensures shift { told bare_answers (binary_of binary.ShiftLeft (num 2) (num 1) nothing) ≡ silent type.Number }
{}

/// Comparisons.
pub fn comparisons()
    ensures less { told bare_answers (binary_of binary.LessThan (unary UnaryNegation (num 1)) (num 0) nothing) ≡ a_truth true }
    ensures not_less { told bare_answers (binary_of binary.LessThan (num 1) (num 1) nothing) ≡ a_truth false }
    ensures at_most { told bare_answers (binary_of binary.LessEqualThan (num 1) (num 1) nothing) ≡ a_truth true }
    ensures greater { told bare_answers (binary_of binary.GreaterThan (num 2) (num 1) nothing) ≡ a_truth true }
    ensures at_least { told bare_answers (binary_of binary.GreaterEqualThan (num 0) (num 1) nothing) ≡ a_truth false }
{}
