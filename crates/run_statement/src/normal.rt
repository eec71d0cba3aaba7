// What follows a statement that completes normally.
ghost use Rattle.std.specs.Prelude.{◌≡◌, IfOk};
ghost use Rattle.js_syntax.specs.Node.{row};
ghost use Rattle.js_meaning.specs.Host.{Enter};
ghost use Rattle.run_world.specs.World.{at};
ghost use Rattle.run_plan.specs.Frame.{plans, start_body, after_normal_of};

use js_tree::Node;
use run_plan::{
    AfterNormal, Ask, Labels, Plan, asks, asks_first, declare_each, first_ask, give_each, run_each,
    uncovered,
};
use run_value::Env;
use run_world::World;
use std::alloc::{AllocError, Global};

// The body of a function, once its parameters have their values: its functions, then what it does.
fn start_body<'a>(
    world: &mut World<'a>,
    alloc: Global,
    nodes: &'a [Option<Node>],
    env: Env<'a>,
) -> Result<Plan<'a>, AllocError>
    ensures does { IfOk result (λ p. (E : Enter) → at world.old (start_body E (row nodes.now) env.entry) ≡ at world.new (plans E p)) }
{
    if world.start(nodes, &env)? {
        let ask = first_ask(nodes);
        asks_first(alloc, nodes, ask, env)
    } else {
        uncovered(alloc)
    }
}

/// What follows a statement that completes normally.
pub fn resume_normal<'a>(
    world: &mut World<'a>,
    alloc: Global,
    frame: AfterNormal<'a>,
) -> Result<Plan<'a>, AllocError>
    ensures does { IfOk result (λ p. (E : Enter) → at world.old (after_normal_of E frame.entry) ≡ at world.new (plans E p)) }
{
    match frame {
        AfterNormal::Each(labels, rest, env) => run_each(alloc, labels, rest.nodes(), env),
        AfterNormal::Declare(how, rest, env) => declare_each(alloc, how, rest.nodes(), env),
        AfterNormal::Run(node, env) => { asks(alloc, node.node(), Ask::Run(Labels::none()), env) }
        AfterNormal::TakeEach(rest, values, env) => give_each(alloc, rest.nodes(), values, env),
        AfterNormal::Body(nodes, env) => start_body(world, alloc, nodes.nodes(), env),
    }
}
