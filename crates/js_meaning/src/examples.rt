// Programs with the runs that ECMA-262 gives them. Each is a contract, so that the check computes it.
ghost use Rattle.js_meaning.specs.Examples.{Holds};
ghost use Rattle.js_meaning.specs.Examples as example;

/// The member of a member call is read before the arguments, and its object is the receiver.
pub fn member_call()
    ensures { Holds example.member_call }
{}

/// A call of a sequence has no receiver.
pub fn indirect_call()
    ensures { Holds example.indirect_call }
{}

/// An abrupt end of `finally` stands in the place of the one before it.
pub fn finally_wins()
    ensures { Holds example.finally_wins }
{}

/// The default comes after all tests failed, and falls through from where it stands.
pub fn default_in_the_middle()
    ensures { Holds example.default_in_the_middle }
{}

/// A case behind the default is found first.
pub fn default_is_last()
    ensures { Holds example.default_is_last }
{}

/// Each turn of a `for` has cells of its own.
pub fn cells_of_a_loop()
    ensures { Holds example.cells_of_a_loop }
{}

/// A name that is read before its declaration ran is uncovered.
pub fn read_too_early()
    ensures { Holds example.read_too_early }
{}

/// Writing a constant throws a TypeError.
pub fn constant_written()
    ensures { Holds example.constant_written }
{}

/// `typeof` of a name that is nowhere is "undefined".
pub fn typeof_of_nothing()
    ensures { Holds example.typeof_of_nothing }
{}

/// A call costs an entry.
pub fn no_room()
    ensures { Holds example.no_room }
{}

/// Exports are shown with each event as they are then.
pub fn exports_are_live()
    ensures { Holds example.exports_are_live }
{}

/// While an outcome is awaited the host may call.
pub fn called_back()
    ensures { Holds example.called_back }
{}

/// A key that comes again keeps its place and takes the new value.
pub fn keys_once()
    ensures { Holds example.keys_once }
{}
