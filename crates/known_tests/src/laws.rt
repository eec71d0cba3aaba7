// The laws of tests that are known. Each is a contract, so that the check proves it.
ghost use Rattle.std.specs.Prelude.{◌≡◌, Bool, true, false, Some, []};
ghost use Rattle.js_syntax.specs.declared.node_kind.NodeKind.{NodeKind as Kind};
ghost use Rattle.js_syntax.specs.declared.operator.LogicalOperator.{LogicalOperator};
ghost use Rattle.js_syntax.specs.Node.{Forest, Note, nothing, node, absent, alone};
ghost use Rattle.js_effects.specs.Answers.{bare_answers};
ghost use Rattle.js_effects.specs.Silence.{anywhere, may_have_effects};
ghost use Rattle.js_effects.specs.Values.{truth_of};
ghost use Rattle.js_meaning.specs.Operator.{truthy, goes_right};
ghost use Rattle.js_meaning_near.specs.Names.{Names};
ghost use Rattle.js_meaning_near.specs.Near.{is_calm, ComesTo, DoesNothing};
ghost use Rattle.js_meaning_near.specs.Local.{IsField};
ghost use Rattle.js_meaning_near.specs.Purpose.{Purpose, asked};
ghost use Rattle.js_meaning_near.specs.Bare.{stands_bare};
ghost use Rattle.known_tests.specs.Tells.{Tells, GivesOnly, GivesAlone, way_known};

/// An expression tells that has no effects where no name is known and of which js_effects tells by its form
/// whether it is true in a test, or whether a logical expression goes on to its right side. Of one that has effects
/// each value that it gives is so.
pub fn forms_tell()
    ensures truth { (k : Kind) (n : Note) (a : Forest) (b : Bool) → may_have_effects [] anywhere (alone k n a) ≡ false → truth_of bare_answers (alone k n a) ≡ Some b → Tells (λ v. truthy v ≡ b) k a }
    ensures given { (k : Kind) (n : Note) (a : Forest) (b : Bool) → truth_of bare_answers (alone k n a) ≡ Some b → GivesOnly (λ v. truthy v ≡ b) k a }
    ensures way_given { (o : LogicalOperator) (k : Kind) (n : Note) (a : Forest) (b : Bool) → way_known o (alone k n a) ≡ Some b → GivesOnly (λ v. goes_right o v ≡ b) k a }
    ensures way { (o : LogicalOperator) (k : Kind) (n : Note) (a : Forest) (b : Bool) → may_have_effects [] anywhere (alone k n a) ≡ false → way_known o (alone k n a) ≡ Some b → Tells (λ v. goes_right o v ≡ b) k a }
{}

/// And it gives its value without a receiver, where it is asked for the value alone.
pub fn no_receiver_is_given()
    ensures { (k : Kind) (n : Note) (a : Forest) → may_have_effects [] anywhere (alone k n a) ≡ false → GivesAlone k a }
{}

/// A conditional on a test that is true comes to its first branch, wherever that stands bare, and on one that
/// is false to its second.
pub fn a_branch_is_taken()
    ensures holds { (u : Purpose) (st : Names) (t : Kind) (n i j : Note) (a : Forest) (k l : Kind) (b c : Forest) → Tells (λ v. truthy v ≡ true) t a → stands_bare (asked u) k b ≡ true →
        ComesTo u st Kind.ConditionalExpression (node t n a (node k i b (node l j c nothing))) k b }
    ensures fails { (u : Purpose) (st : Names) (t : Kind) (n i j : Note) (a : Forest) (k l : Kind) (b c : Forest) → Tells (λ v. truthy v ≡ false) t a → stands_bare (asked u) l c ≡ true →
        ComesTo u st Kind.ConditionalExpression (node t n a (node k i b (node l j c nothing))) l c }
{}

/// A logical expression comes to its right side where the left one lets it be evaluated, and to the left one
/// where it doesn't and gives its value without a receiver.
pub fn a_side_is_taken()
    ensures right { (u : Purpose) (st : Names) (o : LogicalOperator) (t : Kind) (n i : Note) (a : Forest) (k : Kind) (b : Forest) → Tells (λ v. goes_right o v ≡ true) t a → stands_bare (asked u) k b ≡ true →
        ComesTo u st (Kind.LogicalExpression o) (node t n a (node k i b nothing)) k b }
    ensures left { (u : Purpose) (st : Names) (o : LogicalOperator) (t : Kind) (n i : Note) (a : Forest) (k : Kind) (b : Forest) → Tells (λ v. goes_right o v ≡ false) t a → GivesAlone t a → stands_bare (asked u) t a ≡ true →
        ComesTo u st (Kind.LogicalExpression o) (node t n a (node k i b nothing)) t a }
{}

/// Whatever a test does of which each value is so, a conditional on it comes to the sequence of the test and the branch that is taken,
/// and a logical expression of which the right side counts to the sequence of both sides. No part of it stands bare.
pub fn a_part_comes_behind_its_test()
    ensures holds { (u : Purpose) (st : Names) (t : Kind) (n i j m : Note) (a : Forest) (k l : Kind) (b c : Forest) → GivesOnly (λ v. truthy v ≡ true) t a →
        ComesTo u st Kind.ConditionalExpression (node t n a (node k i b (node l j c nothing))) Kind.SequenceExpression (node Kind.Expressions m (node t n a (node k i b nothing)) nothing) }
    ensures fails { (u : Purpose) (st : Names) (t : Kind) (n i j m : Note) (a : Forest) (k l : Kind) (b c : Forest) → GivesOnly (λ v. truthy v ≡ false) t a →
        ComesTo u st Kind.ConditionalExpression (node t n a (node k i b (node l j c nothing))) Kind.SequenceExpression (node Kind.Expressions m (node t n a (node l j c nothing)) nothing) }
    ensures right { (u : Purpose) (st : Names) (o : LogicalOperator) (t : Kind) (n i m : Note) (a : Forest) (k : Kind) (b : Forest) → GivesOnly (λ v. goes_right o v ≡ true) t a →
        ComesTo u st (Kind.LogicalExpression o) (node t n a (node k i b nothing)) Kind.SequenceExpression (node Kind.Expressions m (node t n a (node k i b nothing)) nothing) }
{}

/// A statement `if` comes to the branch that is taken, whether it has another one or not, and to an empty statement where there is
/// none to take.
pub fn a_statement_is_taken()
    ensures holds { (u : Purpose) (st : Names) (t : Kind) (n i : Note) (a : Forest) (k : Kind) (b r : Forest) → Tells (λ v. truthy v ≡ true) t a → is_calm k ≡ true → IsField r →
        ComesTo u st Kind.IfStatement (node t n a (node k i b r)) k b }
    ensures fails { (u : Purpose) (st : Names) (t : Kind) (n i j : Note) (a : Forest) (k l : Kind) (b c : Forest) → Tells (λ v. truthy v ≡ false) t a → is_calm l ≡ true →
        ComesTo u st Kind.IfStatement (node t n a (node k i b (node l j c nothing))) l c }
    ensures nothing_to_take { (u : Purpose) (st : Names) (t : Kind) (n i : Note) (a : Forest) (k : Kind) (b : Forest) → Tells (λ v. truthy v ≡ false) t a →
        ComesTo u st Kind.IfStatement (node t n a (node k i b (absent nothing))) Kind.EmptyStatement nothing }
{}

/// Of a branch that isn't taken it doesn't matter what lies below it, whatever the test does.
pub fn a_branch_that_is_not_taken_may_change()
    ensures consequent { (u : Purpose) (st : Names) (t : Kind) (n i : Note) (a : Forest) (k : Kind) (b c r : Forest) → GivesOnly (λ v. truthy v ≡ false) t a → IsField r →
        ComesTo u st Kind.IfStatement (node t n a (node k i b r)) Kind.IfStatement (node t n a (node k i c r)) }
    ensures alternate { (u : Purpose) (st : Names) (t : Kind) (n i j : Note) (a : Forest) (k l : Kind) (b c d : Forest) → GivesOnly (λ v. truthy v ≡ true) t a →
        ComesTo u st Kind.IfStatement (node t n a (node k i b (node l j c nothing))) Kind.IfStatement (node t n a (node k i b (node l j d nothing))) }
{}

/// A loop of which the test is false from the start does nothing, whatever it would run.
pub fn a_loop_that_never_turns_does_nothing()
    ensures while_loop { (t : Kind) (n : Note) (a r : Forest) → Tells (λ v. truthy v ≡ false) t a → DoesNothing Kind.WhileStatement (node t n a r) }
    ensures for_loop { (t : Kind) (n : Note) (a r : Forest) → Tells (λ v. truthy v ≡ false) t a → DoesNothing Kind.ForStatement (absent (node t n a r)) }
{}
