// The state of a run.
ghost use Rattle.std.specs.Prelude.{◌≡◌};

use js_syntax::FunctionKind;
use js_tree::Node;
use run_value::{Ending, Env, Event, Given, Plain, Slot, Value};
use std::rc::Rc;

/// Where a name's value stands: whether it is constant, and the value once it is initialised.
pub struct Cell<'a> {
    pub constant: bool,
    pub value: Option<Value<'a>>,
}

impl<'a> Drop for Cell<'a> {
    fn drop(self) {
        let Cell {
            constant: _,
            value: _,
        } = self;
    }
}

impl<'a> Cell<'a> {
    // The value alone.
    pub(crate) fn into_value(self) -> Option<Value<'a>>
        ensures { result ≡ self.entry.value }
    {
        let Cell { constant: _, value } = self;
        value
    }
}

/// A cell and its number.
pub struct Stored<'a> {
    pub(crate) number: usize,
    pub(crate) cell: Cell<'a>,
}

impl<'a> Drop for Stored<'a> {
    fn drop(self) {
        let Stored { number: _, cell: _ } = self;
    }
}

/// A global, or that there is none of this name.
pub struct Named<'a> {
    pub(crate) name: Rc<String>,
    pub(crate) value: Option<Value<'a>>,
}

impl<'a> Drop for Named<'a> {
    fn drop(self) {
        let Named { name: _, value: _ } = self;
    }
}

/// What a module exports under a name, or that it is not initialised.
pub struct Foreign<'a> {
    pub(crate) source: Rc<String>,
    pub(crate) name: Rc<String>,
    pub(crate) value: Option<Value<'a>>,
}

impl<'a> Drop for Foreign<'a> {
    fn drop(self) {
        let Foreign {
            source: _,
            name: _,
            value: _,
        } = self;
    }
}

/// What the module exports under a name.
#[derive(Clone, Copy, Drop)]
pub struct Export<'a> {
    pub name: &'a str,
    pub slot: Slot<'a>,
}

/// What the host does.
pub enum Move {
    /// Calls an own object, by the number under which it was shown.
    CallOwn {
        callee: usize,
        this: Given,
        arguments: Vec<Given>,
    },
    SetGlobal {
        name: Rc<String>,
        value: Given,
    },
    RemoveGlobal {
        name: Rc<String>,
    },
    /// Sets what a source exports under a name, or makes it uninitialised where there is no value.
    SetImport {
        source: Rc<String>,
        name: Rc<String>,
        value: Option<Given>,
    },
    Answer {
        value: Given,
    },
    /// Throws.
    Refuse {
        value: Given,
    },
}

impl Drop for Move {
    fn drop(self) {
        match self {
            Move::CallOwn {
                callee: _,
                this: _,
                arguments: _,
            } => {}
            Move::SetGlobal { name: _, value: _ } => {}
            Move::RemoveGlobal { name: _ } => {}
            Move::SetImport {
                source: _,
                name: _,
                value: _,
            } => {}
            Move::Answer { value: _ } => {}
            Move::Refuse { value: _ } => {}
        }
    }
}

/// What is read or written.
pub enum Place<'a> {
    Slot(Slot<'a>),
    /// A global, and whether it was there.
    Global(&'a str, bool),
    /// A property: object and key.
    Member(Value<'a>, Value<'a>),
}

impl<'a> Drop for Place<'a> {
    fn drop(self) {
        match self {
            Place::Slot(_) => {}
            Place::Global(_, _) => {}
            Place::Member(_, _) => {}
        }
    }
}

/// How a node completes. An expression gives its value, and the receiver for a call of it.
#[derive(Drop)]
pub enum Completion<'a> {
    Normal,
    Gives(Value<'a>, Value<'a>),
    GivesAll(Vec<Value<'a>>),
    Refers(Place<'a>),
    Breaks(Option<&'a str>),
    Continues(Option<&'a str>),
    Returns(Value<'a>),
    Throws(Value<'a>),
}

/// A call of a function of the program: what the function is, what lies below its node and the names
/// around it; the receiver and the arguments.
#[derive(Drop)]
pub struct Call<'a> {
    pub kind: FunctionKind,
    pub below: &'a [Option<Node>],
    pub env: Env<'a>,
    pub this: Value<'a>,
    pub arguments: Vec<Value<'a>>,
}

/// How it goes on where the host may have called: with a reply, or with a call that the host makes, after
/// which an answer may be owed still.
#[derive(Drop)]
pub enum Next<'a> {
    Replies(Reply<'a>),
    CallsBack(bool, Call<'a>),
}

/// The globals at the start of a run: names and values. Of a name that comes twice the first counts.
pub struct Globals {
    pub pairs: Vec<(Rc<String>, Plain)>,
}

impl Drop for Globals {
    fn drop(self) {
        let Globals { pairs: _ } = self;
    }
}

/// What the host does, in order.
pub struct Moves {
    pub all: Vec<Move>,
}

impl Drop for Moves {
    fn drop(self) {
        let Moves { all: _ } = self;
    }
}

/// What a run is given: the globals at its start, and what the host does.
pub struct Script {
    pub globals: Globals,
    pub moves: Moves,
}

impl Drop for Script {
    fn drop(self) {
        let Script {
            globals: _,
            moves: _,
        } = self;
    }
}

/// How an act went on: it completed, or the run stops.
#[derive(Drop)]
pub enum Reply<'a> {
    Completes(Completion<'a>),
    Stops(Ending),
}

/// The state of a run, and the events so far. Of the cells, globals and imports the latest stand first.
pub struct World<'a> {
    pub(crate) budget: u64,
    pub(crate) fresh: usize,
    pub(crate) cells: Vec<Stored<'a>>,
    pub(crate) globals: Vec<Named<'a>>,
    pub(crate) imports: Vec<Foreign<'a>>,
    pub(crate) seen: Vec<Value<'a>>,
    pub(crate) moves: &'a [Move],
    pub(crate) exports: Vec<Export<'a>>,
    pub(crate) stars: Vec<&'a str>,
    pub(crate) trace: Vec<Event>,
}

impl<'a> Drop for World<'a> {
    fn drop(self) {
        let World {
            budget: _,
            fresh: _,
            cells: _,
            globals: _,
            imports: _,
            seen: _,
            moves: _,
            exports: _,
            stars: _,
            trace: _,
        } = self;
    }
}

impl<'a> World<'a> {
    // The events alone.
    pub(crate) fn into_events(self) -> Vec<Event>
        ensures { result ≡ self.entry.trace }
    {
        let World {
            budget: _,
            fresh: _,
            cells: _,
            globals: _,
            imports: _,
            seen: _,
            moves: _,
            exports: _,
            stars: _,
            trace,
        } = self;
        trace
    }
}
