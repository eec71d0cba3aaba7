// The laws of frames that stand one above the other. Each is a contract, so that the check proves it.
ghost use Rattle.run_plan.specs.Law.{Pushes, Pops, Stops, GoesOn, GoesOnUnder};

/// Frames that are put onto others follow first.
pub fn pushing_frames()
    ensures { Pushes }
{}

/// The nearest frame takes the completion that is there.
pub fn popping_a_frame()
    ensures { Pops }
{}

/// A run that stops is not resumed.
pub fn stopping()
    ensures { Stops }
{}

/// What does the same in two worlds does the same there whatever follows.
pub fn going_on()
    ensures bound { GoesOn }
    ensures under { GoesOnUnder }
{}
