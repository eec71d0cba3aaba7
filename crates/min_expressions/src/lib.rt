//! What becomes of an expression behind which a walk is?
//!
//! `PeepholeOptimizations` has a call for each rule of rules/Expressions, and one for all of them, in the order in which they are tried.
//! Each does exactly what its rule says (`Does`): a conditional on a test that is known becomes the branch that is taken, and a logical
//! expression with a known left side the side that counts, unless it matters where it stands that this stands there itself, which
//! `should_keep_indirect_access` answers of a name, a member or a chain. Known is what does nothing but give a value of which its form
//! tells whether it is true, or nullish. An operation of which nobody takes the value becomes the operand that acts, if one alone does, and
//! that again (`remove_unused_expression`); an array, a sequence or a template of which nobody takes the value becomes its parts that act,
//! one alone or several in a sequence, or in an array where one is spread (`remove_unused_list`). Where it matters that the part that
//! counts doesn't stand there itself, it becomes that part behind a zero, as `(0, o.f)()` (`put_behind_zero`), and where the test acts, or
//! the left side, that part behind it, as `(f(), 1), g()` (`put_behind_test`). A conditional of which nobody takes the value and one branch
//! alone acts becomes `test && consequent` or `test || alternate` (`fold_one_sided_choice`), and of any sequence the parts leave that don't
//! act, but the last, which comes to stand behind a zero where it matters that it doesn't stand there itself
//! (`remove_sequence_expression`). An operation of which nobody takes the value and both sides act becomes a sequence of these, and in a
//! sum and a template texts become empty (`fold_two_sides`); of an object literal of which nobody takes the value the keys and values stay
//! that act (`remove_unused_object`). An operation that doesn't act becomes a literal of its value, or unary minus on one, as far as that
//! is known (`fold_known_operation`).
//!
//! What comes out is moved to where the whole stood, a sequence is made of the vectors that are there, and the context is told of all that
//! leaves, and of nothing else. Only a new zero, the row of a new list and a value that is worked out take memory, before anything is
//! touched. `preserve_indirect_access` puts an expression behind a zero, and `fold_arguments_into_needed_expressions` leaves of arguments
//! those that act. Three calls answer what rules ask: whether an expression, or the object of a member that is assigned, may refer to
//! something else when it is evaluated again, and what two checks make of a pair, either way round.
#![tactic(auto)]

mod bare;
mod behind_test;
mod fold;
mod indirect;
mod kept;
mod known;
mod list;
mod may_change;
mod object;
mod one_sided;
mod operation;
mod pair;
mod parts;
mod preserve;
mod sequence;
mod template;
mod texts;
mod two_sides;
mod unused;
mod uses;

pub use bare::may_take_name;
pub use fold::PeepholeOptimizations;
pub use kept::keep_child;
pub use known::{truth_given, truth_known};
pub use list::has_spread;
pub use uses::has_with;
