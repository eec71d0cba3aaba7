// What is computed now, and what follows.
ghost use Rattle.std.specs.Prelude.{◌≡◌};

use crate::ask::Ask;
use crate::frame::Frame;
use crate::held::{Labels, NodeRef, Nodes};
use run_value::Env;
use run_world::{Call, Reply};

/// The loops that a turn may be of.
#[derive(Clone, Copy)]
pub enum Loop {
    While,
    DoWhile,
    For,
}

/// What costs an entry.
#[derive(Drop)]
pub enum Task<'a> {
    /// A call of a function of the program.
    Body(Call<'a>),
    /// A turn of a loop, by what lies below its node.
    Turn(Loop, Nodes<'a>, Labels<'a>, Env<'a>),
    /// A call that the host makes; an answer may be owed still.
    CalledBack(bool, Call<'a>),
}

/// What is computed now.
#[derive(Drop)]
pub enum Control<'a> {
    /// What a node does that is asked this.
    Node(NodeRef<'a>, Ask<'a>, Env<'a>),
    /// An entry.
    Enter(Task<'a>),
    /// It completed, or the run stops.
    Reply(Reply<'a>),
}

/// What is computed next, and the frames that follow it, the nearest last. What is computed next stands behind a pointer: each step of
/// a proof looks through all that a function owns by value, and so many functions own a plan.
pub struct Plan<'a> {
    pub control: Box<Control<'a>>,
    pub then: Vec<Frame<'a>>,
}

impl<'a> Drop for Plan<'a> {
    fn drop(self) {
        let Plan {
            control: _,
            then: _,
        } = self;
    }
}

impl<'a> Plan<'a> {
    /// What is computed next, and the frames that follow it.
    pub fn into_parts(self) -> (Box<Control<'a>>, Vec<Frame<'a>>)
        ensures control { result.0 ≡ self.entry.control }
        ensures then { result.1 ≡ self.entry.then }
    {
        let Plan { control, then } = self;
        (control, then)
    }
}
