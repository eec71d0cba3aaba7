// The run of a program.
ghost use Rattle.std.specs.Prelude.{◌≡◌, IfOk};
ghost use Rattle.js_syntax.specs.Node.{forest_of};
ghost use Rattle.js_meaning.specs.Run.{run};
ghost use Rattle.run_value.specs.Trace.{run_held};
ghost use Rattle.run_world.specs.Script.{script_of};

use crate::enter_program;
use crate::machine::go_on;
use js_tree::Program;
use run_value::Trace;
use run_world::{Script, World};
use std::alloc::{AllocError, Global};

/// The run of a program with a script and a bound on entries: its events, and how it ends.
pub fn run(
    alloc: Global,
    program: &Program,
    script: &Script,
    bound: u32,
) -> Result<Trace, AllocError>
    ensures exact { IfOk result (λ t. run_held t ≡ run (forest_of program.now) (script_of script.now) bound) }
{
    let mut world = World::new(alloc, script, bound as u64)?;
    let plan = enter_program(&mut world, alloc, program)?;
    let ending = go_on(&mut world, alloc, plan)?;
    Ok(world.into_trace(ending))
}
