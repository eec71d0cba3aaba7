// Small trees that the definitions of names are tried on.
ghost use Rattle.steps.specs.Rows.{Act, Refer};

/// A name does nothing where it is declared, and a literal nowhere; a call may act.
pub fn what_acts()
    ensures { Act }
{}

/// What a function reads is referred to, and what is assigned; what nothing reads is not, and a name that is declared
/// again is another one.
pub fn what_is_referred_to()
    ensures { Refer }
{}
