// Loops (ECMA-262 14.7).
ghost use Rattle.std.specs.Prelude.{◌≡◌, IfOk};
ghost use Rattle.js_syntax.specs.Node.{row};
ghost use Rattle.js_syntax.specs.declared.node_kind.NodeKind.{NodeKind as Kind};
ghost use Rattle.js_meaning.specs.State.{bind};
ghost use Rattle.js_meaning.specs.Scope.{copy, lexical, first_of};
ghost use Rattle.js_meaning.specs.Node.{run, may, ask_maybe, first_ask};
ghost use Rattle.js_meaning.specs.Statement.{test_then, after_init};
ghost use Rattle.js_meaning.specs.Meaning.{does, eval};
ghost use Rattle.js_meaning.specs.Host.{Enter, for_loop};
ghost use Rattle.run_world.specs.World.{at};
ghost use Rattle.run_plan.specs.Frame.{maybe_meaning, plans};

use js_tree::Node;
use run_plan::{
    AfterCompletion, Front, Labels, Loop, NodeRef, Nodes, Plan, Task, asks_maybe, enters,
    first_ask, first_field, then_completion, uncovered,
};
use run_scope::declare_loop_names;
use run_value::Env;
use run_world::World;
use std::alloc::{AllocError, Global};

/// `do` (14.7.2): its first turn comes before its test.
pub(crate) fn enter_do<'a>(
    alloc: Global,
    nodes: &'a [Option<Node>],
    labels: Labels<'a>,
    env: Env<'a>,
) -> Result<Plan<'a>, AllocError>
    ensures { IfOk result (λ p. (E : Enter) → plans E p ≡ does E Kind.DoWhileStatement (row nodes.now) (eval E (row nodes.now)) (run labels.entry) env.entry) }
{
    let turn = Task::Turn(Loop::DoWhile, Nodes::new(nodes), labels, env);
    enters(alloc, turn)
}

// What stands first in the head of a `for`, and what follows it.
fn init_plan<'a>(
    alloc: Global,
    init: Option<NodeRef<'a>>,
    nodes: &'a [Option<Node>],
    labels: Labels<'a>,
    env: Env<'a>,
) -> Result<Plan<'a>, AllocError>
    ensures { IfOk result (λ p. (E : Enter) → plans E p ≡ bind (ask_maybe (maybe_meaning E init.entry) (first_ask (row nodes.now)) env.entry) (after_init (copy (lexical (first_of (row nodes.now))) env.entry (test_then E for_loop (row nodes.now) (eval E (row nodes.now)) labels.entry)))) }
{
    let around = env.copy()?;
    let plan = asks_maybe(alloc, init, first_ask(nodes), around)?;
    then_completion(
        alloc,
        plan,
        AfterCompletion::Init(Nodes::new(nodes), labels, env),
    )
}

// The first of these fields stands first in the head of a `for`.
#[tactic(auto, unfolding(js_meaning::specs::Node::may, js_meaning::specs::Meaning::eval))]
fn init_for<'a>(
    alloc: Global,
    fields: &'a [Option<Node>],
    nodes: &'a [Option<Node>],
    labels: Labels<'a>,
    env: Env<'a>,
) -> Result<Plan<'a>, AllocError>
    ensures { IfOk result (λ p. (E : Enter) → plans E p ≡ may (eval E (row fields.now)) (λ i r. bind (ask_maybe i (first_ask (row nodes.now)) env.entry) (after_init (copy (lexical (first_of (row nodes.now))) env.entry (test_then E for_loop (row nodes.now) (eval E (row nodes.now)) labels.entry))))) }
{
    match first_field(fields) {
        Front::Node(init, _) => init_plan(alloc, Some(NodeRef::new(init)), nodes, labels, env),
        Front::Absent(_) => init_plan(alloc, None, nodes, labels, env),
        Front::End => uncovered(alloc),
    }
}

/// `for` (14.7.4).
pub(crate) fn enter_for<'a>(
    world: &mut World<'a>,
    alloc: Global,
    nodes: &'a [Option<Node>],
    labels: Labels<'a>,
    env: Env<'a>,
) -> Result<Plan<'a>, AllocError>
    ensures does { IfOk result (λ p. (E : Enter) → at world.old (does E Kind.ForStatement (row nodes.now) (eval E (row nodes.now)) (run labels.entry) env.entry) ≡ at world.new (plans E p)) }
{
    let env = declare_loop_names(world, alloc, nodes, env)?;
    init_for(alloc, nodes, nodes, labels, env)
}
