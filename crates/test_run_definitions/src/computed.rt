// Rows of the table that the definitions compute. Each is a contract, so that the check computes it.
ghost use Rattle.js_meaning.specs.Examples.{Holds};
ghost use Rattle.test_run_definitions.specs.Worked as row;

/// A `continue` that names an outer loop passes through `finally`, turn by turn.
pub fn continue_through_finally()
    ensures { Holds row.continue_through_finally }
{}

/// A `break` of `finally` stands in the place of a `return`.
pub fn break_over_return()
    ensures { Holds row.break_over_return }
{}

/// A logical assignment that doesn't evaluate its right side writes no constant.
pub fn constant_not_written()
    ensures { Holds row.constant_not_written }
{}

/// A compound assignment reads before it evaluates its right side.
pub fn old_value_first()
    ensures { Holds row.old_value_first }
{}

/// A function expression's own name can't be written.
pub fn own_name_written()
    ensures { Holds row.own_name_written }
{}

/// An import is read as the host sets it, each time.
pub fn import_changes()
    ensures { Holds row.import_changes }
{}

/// The host answers `in` and `instanceof`.
pub fn host_asked()
    ensures { Holds row.host_asked }
{}

/// An answer to `in` that is no truth value stops the run.
pub fn no_truth_value()
    ensures { Holds row.no_truth_value }
{}

/// What a call throws that the host made is shown to the host.
pub fn call_back_throws()
    ensures { Holds row.call_back_throws }
{}

/// A global that wasn't there when its assignment began isn't written.
pub fn global_comes_too_late()
    ensures { Holds row.global_comes_too_late }
{}

/// A closure in the head of a `for` keeps the cells from before the first turn.
pub fn cells_of_the_head()
    ensures { Holds row.cells_of_the_head }
{}

/// Another primitive value of the host is passed on, tested, and `typeof` tells its kind.
pub fn passed_on()
    ensures { Holds row.passed_on }
{}

/// Another primitive value of the host decides `&&`, `||` and `!` by its truth, and `??` as no null.
pub fn logic_on_others()
    ensures { Holds row.logic_on_others }
{}

/// A property of another primitive value of the host is the host's to give.
pub fn others_have_properties()
    ensures { Holds row.others_have_properties }
{}

/// Calling another primitive value of the host throws a TypeError.
pub fn others_are_not_called()
    ensures { Holds row.others_are_not_called }
{}

/// Another primitive value of the host may be thrown.
pub fn others_are_thrown()
    ensures { Holds row.others_are_thrown }
{}

/// Nothing is said of what operators, `switch`, `new` and keys do with another primitive value of the host.
pub fn others_are_uncovered()
    ensures added { Holds row.added }
    ensures compared { Holds row.compared }
    ensures compared_with_null { Holds row.compared_with_null }
    ensures put_in_order { Holds row.put_in_order }
    ensures made_a_text { Holds row.made_a_text }
    ensures asked_for { Holds row.asked_for }
    ensures negated { Holds row.negated }
    ensures constructed { Holds row.constructed }
    ensures taken_as_a_key { Holds row.taken_as_a_key }
    ensures switched_on { Holds row.switched_on }
{}
