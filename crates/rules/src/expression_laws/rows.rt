// Small programs, by computing.
ghost use Rattle.std.specs.Prelude.{◌≡◌, codes, [], ◌∷◌, true};
ghost use Rattle.js_syntax.specs.declared.operator.BinaryOperator.TheVariants as binary_operator;
ghost use Rattle.js_syntax.specs.declared.operator.LogicalOperator.TheVariants as logical_operator;
ghost use Rattle.js_syntax.specs.declared.operator.UnaryOperator.TheVariants as unary_operator;
ghost use Rattle.form_rules.specs.Samples.{a_module, a, no, reads, one, does, calls, let_, var_, block};
ghost use Rattle.scope_rules.specs.Samples.{b};
ghost use Rattle.steps.specs.Allowed.Rows.{null, conditional, either_way, empty, with_a, template as template_of};
ghost use Rattle.rules.specs.Expressions.Samples.{left, left_of, doing, uses, member, logical, binary, unary, parenthesized, array, spread, sequence, indirect, empty_text, a_function, object, keyed, computed, computed_method, number, word, truth, endless, template};

/// A conditional on a test that is known becomes the branch that is taken, at any depth. A test that acts is left, and the branch behind
/// it.
pub fn branches_left()
    ensures consequent { left_of (uses (conditional one (reads a) (reads b))) ≡ doing (uses (reads a)) }
    ensures alternate { left_of (uses (conditional null (reads a) (reads b))) ≡ doing (uses (reads b)) }
    ensures empty { left_of (uses (conditional empty_text (reads a) (reads b))) ≡ doing (uses (reads b)) }
    ensures nested { left_of (uses (conditional one (conditional null (reads a) member) (reads b))) ≡ doing (uses member) }
    ensures object { left_of (uses (conditional (array []) (reads a) (reads b))) ≡ doing (uses (reads a)) }
    ensures voided { left_of (uses (conditional (unary unary_operator.Void one) (reads a) (reads b))) ≡ doing (uses (reads b)) }
    ensures unknown { left_of (uses (conditional (reads a) one null)) ≡ doing (uses (conditional (reads a) one null)) }
    ensures acting { left_of (uses (conditional (array (calls (reads a) ∷ [])) one null)) ≡ doing (uses (sequence (array (calls (reads a) ∷ []) ∷ one ∷ []))) }
{}

/// The part that counts follows a test that acts, and a left side, whatever it is and wherever that stands; nothing follows where the test
/// doesn't tell, and a left side that decides stays.
pub fn parts_left_behind_tests()
    ensures called { left_of (calls (conditional (logical logical_operator.And (reads a) null) one member)) ≡ doing (calls (sequence (logical logical_operator.And (reads a) null ∷ member ∷ []))) }
    ensures function { left_of (uses (conditional (array (calls (reads a) ∷ [])) a_function null)) ≡ doing (uses (sequence (array (calls (reads a) ∷ []) ∷ a_function ∷ []))) }
    ensures and_right { left_of (uses (logical logical_operator.And (array (calls (reads a) ∷ [])) (reads b))) ≡ doing (uses (sequence (array (calls (reads a) ∷ []) ∷ reads b ∷ []))) }
    ensures or_right { left_of (uses (logical logical_operator.Or (logical logical_operator.And (reads a) null) (reads b))) ≡ doing (uses (sequence (logical logical_operator.And (reads a) null ∷ reads b ∷ []))) }
    ensures or_left { left_of (uses (logical logical_operator.Or (array (calls (reads a) ∷ [])) (reads b))) ≡ doing (uses (logical logical_operator.Or (array (calls (reads a) ∷ [])) (reads b))) }
    ensures coalesce_left { left_of (uses (logical logical_operator.Coalesce (array (calls (reads a) ∷ [])) (reads b))) ≡ doing (uses (logical logical_operator.Coalesce (array (calls (reads a) ∷ [])) (reads b))) }
    ensures unknown { left_of (uses (logical logical_operator.And (calls (reads a)) (reads b))) ≡ doing (uses (logical logical_operator.And (calls (reads a)) (reads b))) }
{}

/// A logical expression of which the left side is known becomes the side that counts. A function doesn't come out of it.
pub fn sides_left()
    ensures and_right { left_of (uses (logical logical_operator.And one (reads b))) ≡ doing (uses (reads b)) }
    ensures and_left { left_of (uses (logical logical_operator.And null (reads b))) ≡ doing (uses null) }
    ensures or_right { left_of (uses (logical logical_operator.Or empty_text (reads b))) ≡ doing (uses (reads b)) }
    ensures or_left { left_of (uses (logical logical_operator.Or one (reads b))) ≡ doing (uses one) }
    ensures coalesce_right { left_of (uses (logical logical_operator.Coalesce null (reads b))) ≡ doing (uses (reads b)) }
    ensures coalesce_left { left_of (uses (logical logical_operator.Coalesce empty_text (reads b))) ≡ doing (uses empty_text) }
    ensures object { left_of (uses (logical logical_operator.Coalesce (array []) (reads b))) ≡ doing (uses (array [])) }
    ensures voided { left_of (uses (logical logical_operator.Coalesce (unary unary_operator.Void one) (reads b))) ≡ doing (uses (reads b)) }
    ensures function_left { left_of (uses (logical logical_operator.Or a_function (reads b))) ≡ doing (uses (logical logical_operator.Or a_function (reads b))) }
    ensures behind_function { left_of (uses (logical logical_operator.And a_function (reads b))) ≡ doing (uses (reads b)) }
{}

/// A member is not called where the value of a conditional is, also in parentheses (ECMA-262 13.3.6.2), so it stays behind a zero;
/// another value is called.
pub fn callees_left()
    ensures member { left_of (calls (conditional one member null)) ≡ doing (calls (indirect member)) }
    ensures parenthesized { left_of (calls (parenthesized (conditional one member null))) ≡ doing (calls (parenthesized (indirect member))) }
    ensures alternate { left_of (calls (conditional null one member)) ≡ doing (calls (indirect member)) }
    ensures inside { left_of (calls (conditional one (parenthesized member) null)) ≡ doing (calls (indirect (parenthesized member))) }
    ensures logical { left_of (calls (logical logical_operator.And one member)) ≡ doing (calls (indirect member)) }
    ensures or_member { left_of (calls (logical logical_operator.Or null member)) ≡ doing (calls (indirect member)) }
    ensures left_side { left_of (calls (logical logical_operator.And null member)) ≡ doing (calls null) }
    ensures unknown { left_of (calls (conditional (reads a) member null)) ≡ doing (calls (conditional (reads a) member null)) }
    ensures direct_eval { left_of (calls (conditional one (reads (codes "eval")) null)) ≡ doing (calls (indirect (reads (codes "eval")))) }
    ensures name { left_of (calls (conditional one (reads b) null)) ≡ doing (calls (reads b)) }
    ensures name_in_with { left (with_a (does (calls (conditional one (reads b) null)))) ≡ with_a (does (calls (indirect (reads b)))) }
    ensures argument { left_of (uses (conditional one member null)) ≡ doing (uses member) }
{}

/// `typeof` takes a name that nothing declares, and `delete` what a member refers to (13.5.3, 13.5.1), so these stay behind a zero as
/// operands.
pub fn operands_left()
    ensures typeof_name { left_of (uses (unary unary_operator.Typeof (conditional one (reads b) null))) ≡ doing (uses (unary unary_operator.Typeof (indirect (reads b)))) }
    ensures typeof_member { left_of (uses (unary unary_operator.Typeof (conditional one member null))) ≡ doing (uses (unary unary_operator.Typeof member)) }
    ensures delete_member { left_of (uses (unary unary_operator.Delete (conditional one member null))) ≡ doing (uses (unary unary_operator.Delete (indirect member))) }
    ensures not_member { left_of (uses (unary unary_operator.LogicalNot (conditional one member null))) ≡ doing (uses (unary unary_operator.LogicalNot member)) }
{}

/// A function stays where it might take a name (8.4).
pub fn functions_left()
    ensures { left_of (uses (conditional one a_function null)) ≡ doing (uses (conditional one a_function null)) }
{}

/// Where nobody takes the value of an operation the operand is left that acts, whatever operations it lies in.
pub fn operations_left()
    ensures compared { left_of (unary unary_operator.LogicalNot (binary binary_operator.StrictEquality (calls (reads a)) one)) ≡ doing (calls (reads a)) }
    ensures negated { left_of (unary unary_operator.LogicalNot (unary unary_operator.LogicalNot (unary unary_operator.LogicalNot (calls (reads a))))) ≡ doing (calls (reads a)) }
    ensures typeof_call { left_of (unary unary_operator.Typeof (calls (reads a))) ≡ doing (calls (reads a)) }
    ensures sign { left_of (unary unary_operator.UnaryNegation (unary unary_operator.LogicalNot (calls (reads a)))) ≡ doing (calls (reads a)) }
    ensures primitive_side { left_of (binary binary_operator.Multiplication (unary unary_operator.LogicalNot (calls (reads a))) one) ≡ doing (calls (reads a)) }
    ensures left_side { left_of (logical logical_operator.And (calls (reads a)) one) ≡ doing (calls (reads a)) }
    ensures condition { left_of (conditional (calls (reads a)) one null) ≡ doing (calls (reads a)) }
    ensures right_side { left_of (binary binary_operator.StrictEquality one (calls (reads a))) ≡ doing (calls (reads a)) }
    ensures in_parentheses { left_of (parenthesized (unary unary_operator.LogicalNot (calls (reads a)))) ≡ doing (parenthesized (calls (reads a))) }
    ensures in_branch { left_of (logical logical_operator.And (reads a) (unary unary_operator.LogicalNot (calls (reads b)))) ≡ doing (logical logical_operator.And (reads a) (calls (reads b))) }
    ensures first_part { left_of (uses (sequence (unary unary_operator.LogicalNot (calls (reads a)) ∷ reads b ∷ []))) ≡ doing (uses (sequence (calls (reads a) ∷ reads b ∷ []))) }
    ensures first_list { left_of (uses (sequence (array (calls (reads a) ∷ one ∷ []) ∷ reads b ∷ []))) ≡ doing (uses (sequence (calls (reads a) ∷ reads b ∷ []))) }
    ensures middle_part { left_of (uses (sequence (calls (reads a) ∷ unary unary_operator.LogicalNot (calls (reads b)) ∷ reads a ∷ []))) ≡ doing (uses (sequence (calls (reads a) ∷ calls (reads b) ∷ reads a ∷ []))) }
    ensures in_middle_part { left_of (uses (sequence (calls (reads a) ∷ logical logical_operator.And (reads a) (array (calls (reads b) ∷ one ∷ [])) ∷ reads a ∷ []))) ≡ doing (uses (sequence (calls (reads a) ∷ logical logical_operator.And (reads a) (calls (reads b)) ∷ reads a ∷ []))) }
    ensures last_part { left_of (uses (sequence (calls (reads a) ∷ unary unary_operator.LogicalNot (reads b) ∷ []))) ≡ doing (uses (sequence (calls (reads a) ∷ unary unary_operator.LogicalNot (reads b) ∷ []))) }
    ensures substitution { left_of (uses (template (unary unary_operator.LogicalNot (calls (reads a))))) ≡ doing (uses (template (unary unary_operator.LogicalNot (calls (reads a))))) }
{}

/// It stays where its value is used, where it may act itself, and where a name is the operand of `typeof`, which takes one that nothing
/// declares (13.5.3).
pub fn operations_that_stay()
    ensures used { left_of (uses (unary unary_operator.LogicalNot (calls (reads a)))) ≡ doing (uses (unary unary_operator.LogicalNot (calls (reads a)))) }
    ensures sum { left_of (binary binary_operator.Addition (calls (reads a)) one) ≡ doing (binary binary_operator.Addition (calls (reads a)) one) }
    ensures name { left_of (unary unary_operator.Typeof (reads a)) ≡ doing (unary unary_operator.Typeof (reads a)) }
{}

/// Where nobody takes the value of an array or a sequence its parts are left that act, and one of them alone; in an array where one of
/// them is spread.
pub fn lists_left()
    ensures of_array { left_of (array (calls (reads a) ∷ one ∷ calls (reads b) ∷ [])) ≡ doing (sequence (calls (reads a) ∷ calls (reads b) ∷ [])) }
    ensures one_of_array { left_of (array (calls (reads a) ∷ one ∷ [])) ≡ doing (calls (reads a)) }
    ensures beside_a_spread { left_of (array (calls (reads a) ∷ one ∷ spread (reads b) ∷ [])) ≡ doing (array (calls (reads a) ∷ spread (reads b) ∷ [])) }
    ensures silent_spread { left_of (array (spread (array []) ∷ calls (reads a) ∷ [])) ≡ doing (calls (reads a)) }
    ensures of_sequence { left_of (sequence (calls (reads a) ∷ one ∷ calls (reads b) ∷ [])) ≡ doing (sequence (calls (reads a) ∷ calls (reads b) ∷ [])) }
    ensures one_of_sequence { left_of (sequence (one ∷ calls (reads a) ∷ [])) ≡ doing (calls (reads a)) }
    ensures in_branch { left_of (logical logical_operator.And (reads a) (array (calls (reads b) ∷ []))) ≡ doing (logical logical_operator.And (reads a) (calls (reads b))) }
{}

/// What is spread asks for its iterator (13.2.4), so the array stays where all else acts, as one does whose value is used; and so does
/// a sequence all of whose parts act.
pub fn lists_that_stay()
    ensures spread { left_of (array (spread (calls (reads a)) ∷ [])) ≡ doing (array (spread (calls (reads a)) ∷ [])) }
    ensures used { left_of (uses (array (calls (reads a) ∷ []))) ≡ doing (uses (array (calls (reads a) ∷ []))) }
    ensures all_act { left_of (sequence (calls (reads a) ∷ calls (reads b) ∷ [])) ≡ doing (sequence (calls (reads a) ∷ calls (reads b) ∷ [])) }
{}

/// Where nobody takes the value of a conditional, and one branch alone acts, it becomes `&&` or `||`.
pub fn one_branch_left()
    ensures consequent { left_of (conditional (reads a) (calls (reads b)) one) ≡ doing (logical logical_operator.And (reads a) (calls (reads b))) }
    ensures alternate { left_of (conditional (reads a) one (calls (reads b))) ≡ doing (logical logical_operator.Or (reads a) (calls (reads b))) }
    ensures both { left_of (conditional (reads a) (calls (reads a)) (calls (reads b))) ≡ doing (conditional (reads a) (calls (reads a)) (calls (reads b))) }
    ensures used { left_of (uses (conditional (reads a) (calls (reads b)) one)) ≡ doing (uses (conditional (reads a) (calls (reads b)) one)) }
{}

/// Of a sequence whose value is used the parts leave that don't act, but the last, and that stands there itself where it is left alone.
/// A member that is called keeps one zero before it (13.3.6.2), and so does a function, which might take a name (8.4).
pub fn sequences_left()
    ensures last { left_of (uses (sequence (one ∷ reads a ∷ []))) ≡ doing (uses (reads a)) }
    ensures several { left_of (uses (sequence (calls (reads a) ∷ one ∷ reads a ∷ []))) ≡ doing (uses (sequence (calls (reads a) ∷ reads a ∷ []))) }
    ensures literal_last { left_of (uses (sequence (calls (reads a) ∷ one ∷ []))) ≡ doing (uses (sequence (calls (reads a) ∷ one ∷ []))) }
    ensures member { left_of (calls (sequence (one ∷ member ∷ []))) ≡ doing (calls (indirect member)) }
    ensures members { left_of (calls (sequence (one ∷ null ∷ member ∷ []))) ≡ doing (calls (indirect member)) }
    ensures zero { left_of (calls (indirect member)) ≡ doing (calls (indirect member)) }
    ensures parenthesized { left_of (calls (sequence (parenthesized one ∷ member ∷ []))) ≡ doing (calls (indirect member)) }
    ensures acts { left_of (calls (sequence (one ∷ calls (reads a) ∷ member ∷ []))) ≡ doing (calls (sequence (calls (reads a) ∷ member ∷ []))) }
    ensures name { left_of (calls (sequence (one ∷ reads b ∷ []))) ≡ doing (calls (reads b)) }
    ensures function { left_of (uses (sequence (one ∷ a_function ∷ []))) ≡ doing (uses (indirect a_function)) }
{}

/// Where nobody takes the value of an operation that does nothing itself, and both sides act, it becomes a sequence of these. No name is
/// known.
pub fn both_sides_left()
    ensures calls { left_of (binary binary_operator.StrictEquality (calls (reads a)) (calls (reads b))) ≡ doing (sequence (calls (reads a) ∷ calls (reads b) ∷ [])) }
    ensures names { left_of (binary binary_operator.LessThan (reads a) (reads b)) ≡ doing (sequence (reads a ∷ reads b ∷ [])) }
    ensures primitive { left_of (binary binary_operator.Subtraction (unary unary_operator.LogicalNot (calls (reads a))) (unary unary_operator.Typeof (calls (reads b)))) ≡ doing (sequence (unary unary_operator.LogicalNot (calls (reads a)) ∷ unary unary_operator.Typeof (calls (reads b)) ∷ [])) }
    ensures in_branch { left_of (logical logical_operator.And (reads a) (binary binary_operator.Inequality (calls (reads a)) (calls (reads b)))) ≡ doing (logical logical_operator.And (reads a) (sequence (calls (reads a) ∷ calls (reads b) ∷ []))) }
    ensures sum { left_of (binary binary_operator.Addition (calls (reads a)) (calls (reads b))) ≡ doing (binary binary_operator.Addition (calls (reads a)) (calls (reads b))) }
    ensures used { left_of (uses (binary binary_operator.StrictEquality (calls (reads a)) (calls (reads b)))) ≡ doing (uses (binary binary_operator.StrictEquality (calls (reads a)) (calls (reads b)))) }
{}

/// Where nobody takes the value of a sum of a text and what acts, the text becomes the empty one, and so does what does nothing but give
/// one. So do the texts of a template that may convert an object.
pub fn texts_left()
    ensures before { left_of (binary binary_operator.Addition (word (codes "a")) (calls (reads a))) ≡ doing (binary binary_operator.Addition empty_text (calls (reads a))) }
    ensures behind { left_of (binary binary_operator.Addition (calls (reads a)) (word (codes "a"))) ≡ doing (binary binary_operator.Addition (calls (reads a)) empty_text) }
    ensures within { left_of (binary binary_operator.Addition (binary binary_operator.Addition (word (codes "a")) (calls (reads a))) (word (codes "b"))) ≡ doing (binary binary_operator.Addition (binary binary_operator.Addition (word (codes "a")) (calls (reads a))) empty_text) }
    ensures used { left_of (uses (binary binary_operator.Addition (word (codes "a")) (calls (reads a)))) ≡ doing (uses (binary binary_operator.Addition (word (codes "a")) (calls (reads a)))) }
    ensures silent { left_of (binary binary_operator.Addition (binary binary_operator.Addition (word (codes "a")) (number 1)) (calls (reads a))) ≡ doing (binary binary_operator.Addition empty_text (calls (reads a))) }
    ensures silent_behind { left_of (binary binary_operator.Addition (calls (reads a)) (binary binary_operator.Addition (number 1) (word (codes "a")))) ≡ doing (binary binary_operator.Addition (calls (reads a)) empty_text) }
    ensures silent_number { left_of (binary binary_operator.Addition (number 1) (calls (reads a))) ≡ doing (binary binary_operator.Addition (number 1) (calls (reads a))) }
    ensures template { left_of (template_of (codes "a") (calls (reads a))) ≡ doing (template_of [] (calls (reads a))) }
    ensures used_template { left_of (uses (template_of (codes "a") (calls (reads a)))) ≡ doing (uses (template_of (codes "a") (calls (reads a)))) }
    ensures primitive { left_of (template_of (codes "a") (unary unary_operator.LogicalNot (calls (reads a)))) ≡ doing (unary unary_operator.LogicalNot (calls (reads a))) }
{}

/// Where nobody takes the value of an object literal the values are left that act, and one of them alone. A function doesn't act.
pub fn values_left()
    ensures several { left_of (object (keyed a (calls (reads a)) ∷ keyed b (calls (reads b)) ∷ [])) ≡ doing (sequence (calls (reads a) ∷ calls (reads b) ∷ [])) }
    ensures one_value { left_of (object (keyed a (calls (reads a)) ∷ keyed b one ∷ [])) ≡ doing (calls (reads a)) }
    ensures function { left_of (object (keyed a a_function ∷ keyed b (calls (reads b)) ∷ [])) ≡ doing (calls (reads b)) }
    ensures in_branch { left_of (logical logical_operator.And (reads a) (object (keyed a (calls (reads b)) ∷ []))) ≡ doing (logical logical_operator.And (reads a) (calls (reads b))) }
{}

/// Before each value its key is left, if that is an expression that acts, where that is known to give a primitive value.
pub fn keys_left()
    ensures both { left_of (object (computed (unary unary_operator.LogicalNot (calls (reads a))) (calls (reads b)) ∷ [])) ≡ doing (sequence (unary unary_operator.LogicalNot (calls (reads a)) ∷ calls (reads b) ∷ [])) }
    ensures one_key { left_of (object (computed (unary unary_operator.LogicalNot (calls (reads a))) one ∷ keyed b one ∷ [])) ≡ doing (unary unary_operator.LogicalNot (calls (reads a))) }
    ensures one_value { left_of (object (computed (word (codes "__proto__")) (calls (reads a)) ∷ computed_method (number 1) ∷ [])) ≡ doing (calls (reads a)) }
{}

/// It stays where its value is used, and where a key may be an object, that of a method acts, a property is spread, or one sets the
/// prototype (13.2.5.5, B.3.1).
pub fn objects_that_stay()
    ensures used { left_of (uses (object (keyed a (calls (reads a)) ∷ []))) ≡ doing (uses (object (keyed a (calls (reads a)) ∷ []))) }
    ensures computed { left_of (object (computed (reads a) (calls (reads a)) ∷ [])) ≡ doing (object (computed (reads a) (calls (reads a)) ∷ [])) }
    ensures method { left_of (object (computed_method (unary unary_operator.LogicalNot (calls (reads a))) ∷ [])) ≡ doing (object (computed_method (unary unary_operator.LogicalNot (calls (reads a))) ∷ [])) }
    ensures spread { left_of (object (spread (reads a) ∷ keyed a (calls (reads a)) ∷ [])) ≡ doing (object (spread (reads a) ∷ keyed a (calls (reads a)) ∷ [])) }
    ensures prototype { left_of (object (keyed (codes "__proto__") (calls (reads a)) ∷ [])) ≡ doing (object (keyed (codes "__proto__") (calls (reads a)) ∷ [])) }
{}

/// An operation becomes a literal of its value, and what it stands in becomes what it does on that literal, by one walk.
pub fn known_values_left()
    ensures negated { left_of (uses (unary unary_operator.LogicalNot (number 0))) ≡ doing (uses (truth true)) }
    ensures type_name { left_of (uses (unary unary_operator.Typeof (number 1))) ≡ doing (uses (word (codes "number"))) }
    ensures sum { left_of (uses (binary binary_operator.Addition (number 1) (number 2))) ≡ doing (uses (number 3)) }
    ensures texts { left_of (uses (binary binary_operator.Addition (word (codes "x")) (word (codes "y")))) ≡ doing (uses (word (codes "xy"))) }
    ensures less { left_of (uses (binary binary_operator.LessThan (number 1) (number 2))) ≡ doing (uses (truth true)) }
    ensures in_operation { left_of (uses (unary unary_operator.LogicalNot (binary binary_operator.StrictEquality (number 1) (number 2)))) ≡ doing (uses (truth true)) }
    ensures in_condition { left_of (uses (conditional (binary binary_operator.StrictEquality (word a) (word b)) (reads a) (reads b))) ≡ doing (uses (reads b)) }
{}

/// It stays where it is the sign of a negative number, and where no literal has its value, as `undefined` is a name. It stays where the
/// value isn't known, as a fraction, and where a number is joined to a text.
pub fn operations_without_a_literal()
    ensures negative { left_of (uses (unary unary_operator.UnaryNegation (number 1))) ≡ doing (uses (unary unary_operator.UnaryNegation (number 1))) }
    ensures mixed { left_of (uses (binary binary_operator.Addition (word a) (number 1))) ≡ doing (uses (binary binary_operator.Addition (word a) (number 1))) }
    ensures fraction { left_of (uses (binary binary_operator.Division (number 1) (number 2))) ≡ doing (uses (binary binary_operator.Division (number 1) (number 2))) }
    ensures undefined { left_of (uses (unary unary_operator.Void (number 0))) ≡ doing (uses (unary unary_operator.Void (number 0))) }
{}

/// A statement `if` on a test that is known becomes the branch that runs, at any depth, or empty where none does. It stays where the
/// other branch declares a name around it, as `var` does in a block and `let` doesn't, where a loop would come out of it, and where its
/// test acts or isn't known.
pub fn ifs_left()
    ensures holds { left (a_module (either_way one (does (reads a)) (does (reads b)) ∷ [])) ≡ doing (reads a) }
    ensures fails { left (a_module (either_way null (does (reads a)) (does (reads b)) ∷ [])) ≡ doing (reads b) }
    ensures nothing { left (a_module (either_way null (does (reads a)) no ∷ [])) ≡ a_module (empty ∷ []) }
    ensures block { left (a_module (either_way (array []) (block (does (reads a) ∷ [])) no ∷ [])) ≡ a_module (block (does (reads a) ∷ []) ∷ []) }
    ensures negated { left (a_module (either_way (unary unary_operator.LogicalNot one) (does (reads a)) no ∷ [])) ≡ a_module (empty ∷ []) }
    ensures nested { left (a_module (either_way one (either_way null (does (reads a)) (does (reads b))) no ∷ [])) ≡ doing (reads b) }
    ensures inside { left (a_module (either_way null (block (let_ a ∷ [])) no ∷ [])) ≡ a_module (empty ∷ []) }
    ensures declares { left (a_module (either_way null (block (var_ a ∷ [])) no ∷ [])) ≡ a_module (either_way null (block (var_ a ∷ [])) no ∷ []) }
    ensures endless { left (a_module (either_way one (endless (does (reads a))) no ∷ [])) ≡ a_module (either_way one (endless (does (reads a))) no ∷ []) }
    ensures unknown { left (a_module (either_way (reads b) (does (reads a)) no ∷ [])) ≡ a_module (either_way (reads b) (does (reads a)) no ∷ []) }
    ensures acting { left (a_module (either_way (array (calls (reads b) ∷ [])) (does (reads a)) no ∷ [])) ≡ a_module (either_way (array (calls (reads b) ∷ [])) (does (reads a)) no ∷ []) }
{}
