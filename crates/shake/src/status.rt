// How a run of the program ends.
ghost use Rattle.std.specs.Prelude.{◌≡◌};
ghost use Rattle.shake.specs.Code.{code_of};

/// How a run of the program ended. Each answer but `Ok` says why on standard error, in one line.
#[derive(Clone, Copy, Debug, PartialEq, Eq)]
pub enum Status {
    /// The input was read to its end, and all of the output was written.
    Ok,
    /// The words of the command line aren't accepted.
    Usage,
    /// The input could not be read.
    ReadFault,
    /// The input has more than 2^28 bytes.
    InputTooLong,
    /// The input is no JSON.
    Syntax,
    /// The input is the JSON of no tree.
    Tree,
    /// The tree has more than 2^24 nodes, or more than 1,000 levels of them.
    TooLarge,
    /// The tree breaks a rule of form.
    IllFormed,
    /// The output could not be written.
    WriteFault,
    OutOfMemory,
    /// The script of a run, or what stands beside it, is missing or isn't as it must be.
    BadScript,
    /// The program of a run is no module of the core of the language.
    NotCore,
}

impl Status {
    /// The exit status of the program.
    pub fn code(self) -> u8
        ensures { result ≡ code_of self }
    {
        match self {
            Status::Ok => 0,
            Status::Usage => 1,
            Status::ReadFault => 2,
            Status::InputTooLong => 3,
            Status::Syntax => 4,
            Status::Tree => 5,
            Status::TooLarge => 6,
            Status::IllFormed => 7,
            Status::WriteFault => 8,
            Status::OutOfMemory => 9,
            Status::BadScript => 15,
            Status::NotCore => 16,
        }
    }
}
