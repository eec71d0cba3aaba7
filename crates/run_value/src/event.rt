// Events and endings.
use crate::shown::Shown;

/// An export as the host sees it: its value, or none before it has one; or which import it passes on.
pub enum ShownExport {
    Value {
        name: String,
        shown: Shown,
    },
    Uninitialised(String),
    Import {
        name: String,
        source: String,
        imported: String,
    },
}

impl Drop for ShownExport {
    fn drop(self) {
        match self {
            ShownExport::Value { name: _, shown: _ } => {}
            ShownExport::Uninitialised(_) => {}
            ShownExport::Import {
                name: _,
                source: _,
                imported: _,
            } => {}
        }
    }
}

/// The exports in the order of their names' bytes, and the sources of `export *` in the tree's order.
pub struct ShownExports {
    pub names: Vec<ShownExport>,
    pub stars: Vec<String>,
}

impl Drop for ShownExports {
    fn drop(self) {
        let ShownExports { names: _, stars: _ } = self;
    }
}

/// What happens where the host can see it.
pub enum Act {
    /// A module is asked for.
    Load {
        source: String,
    },
    /// A property is read.
    Get {
        object: Shown,
        key: Shown,
    },
    /// A property is written.
    Set {
        object: Shown,
        key: Shown,
        value: Shown,
    },
    In {
        left: Shown,
        right: Shown,
    },
    Instanceof {
        left: Shown,
        right: Shown,
    },
    /// `new`.
    Construct {
        callee: Shown,
        arguments: Vec<Shown>,
    },
    /// A call of an object of the host.
    Call {
        callee: Shown,
        this: Shown,
        arguments: Vec<Shown>,
    },
    /// A global is written.
    Write {
        name: String,
        value: Shown,
    },
    /// How a call ended that the host made.
    Returned {
        value: Shown,
    },
    Threw {
        value: Shown,
    },
    /// How the module's own run ended.
    Finished,
    Failed {
        thrown: Shown,
    },
}

impl Drop for Act {
    fn drop(self) {
        match self {
            Act::Load { source: _ } => {}
            Act::Get { object: _, key: _ } => {}
            Act::Set {
                object: _,
                key: _,
                value: _,
            } => {}
            Act::In { left: _, right: _ } => {}
            Act::Instanceof { left: _, right: _ } => {}
            Act::Construct {
                callee: _,
                arguments: _,
            } => {}
            Act::Call {
                callee: _,
                this: _,
                arguments: _,
            } => {}
            Act::Write { name: _, value: _ } => {}
            Act::Returned { value: _ } => {}
            Act::Threw { value: _ } => {}
            Act::Finished => {}
            Act::Failed { thrown: _ } => {}
        }
    }
}

/// What happened, and the exports at that moment.
pub struct Event {
    pub act: Act,
    pub exports: ShownExports,
}

impl Drop for Event {
    fn drop(self) {
        let Event { act: _, exports: _ } = self;
    }
}

/// How a run ends: with the exports of that moment; because no move was left or one can't be made;
/// because an entry passed the bound; at an act of which nothing is said.
pub enum Ending {
    Ended(ShownExports),
    HostStopped,
    Out,
    Uncovered,
}

impl Drop for Ending {
    fn drop(self) {
        match self {
            Ending::Ended(_) => {}
            Ending::HostStopped => {}
            Ending::Out => {}
            Ending::Uncovered => {}
        }
    }
}

/// Events in the order in which they happened.
pub struct Events {
    pub all: Vec<Event>,
}

impl Drop for Events {
    fn drop(self) {
        let Events { all: _ } = self;
    }
}

/// What a run gave: its events, and how it ended.
pub struct Trace {
    pub events: Events,
    pub ending: Ending,
}

impl Drop for Trace {
    fn drop(self) {
        let Trace {
            events: _,
            ending: _,
        } = self;
    }
}
