// The state in which a run begins, and what it gave at its end.
ghost use Rattle.std.specs.Prelude.{◌≡◌, [], IfOk};
ghost use Rattle.js_meaning.specs.Value as meant;
ghost use Rattle.js_meaning.specs.Run.{as_value, first_state};
ghost use Rattle.run_value.specs.Plain.{plain_of};
ghost use Rattle.run_value.specs.Trace.{ending_of, run_held};
ghost use Rattle.run_world.specs.World.{state_of, trace_of, named_in};
ghost use Rattle.run_world.specs.Script.{plain_in, script_of};

use crate::acts::put_first;
use crate::world::{Named, Script, World};
use run_value::{Ending, Events, Plain, Trace, Value};
use std::alloc::{AllocError, Global};
use std::rc::Rc;

fn named_from<'a>(
    alloc: Global,
    globals: &[(Rc<String>, Plain)],
) -> Result<Vec<Named<'a>>, AllocError>
    ensures { IfOk result (λ v. named_in v.items ≡ (λ x. as_value (plain_in globals.now x))) }
{
    match globals {
        [first, others @ ..] => {
            let mut named = named_from(alloc, others)?;
            let name = first.0.clone()?;
            let value = first.1.copy()?;
            let value = Some(Value::Plain(value));
            put_first(&mut named, Named { name, value })?;
            Ok(named)
        }
        [] => Ok(Vec::new(alloc)),
    }
}

impl<'a> World<'a> {
    /// The state in which a run with a script and a bound begins.
    pub fn new(alloc: Global, script: &'a Script, bound: u64) -> Result<World<'a>, AllocError>
        ensures state { IfOk result (λ w. state_of w ≡ first_state (script_of script.now) bound) }
        ensures trace { IfOk result (λ w. trace_of w ≡ []) }
    {
        let globals = named_from(alloc, script.globals.pairs.as_slice())?;
        Ok(World {
            budget: bound,
            fresh: 0,
            cells: Vec::new(alloc),
            globals,
            imports: Vec::new(alloc),
            seen: Vec::new(alloc),
            moves: script.moves.all.as_slice(),
            exports: Vec::new(alloc),
            stars: Vec::new(alloc),
            trace: Vec::new(alloc),
        })
    }

    /// What a run gave that ends in this state.
    pub fn into_trace(self, ending: Ending) -> Trace
        ensures { run_held result ≡ record { trace = trace_of self.entry; ending = ending_of ending } }
    {
        let events = Events {
            all: self.into_events(),
        };
        Trace { events, ending }
    }
}
