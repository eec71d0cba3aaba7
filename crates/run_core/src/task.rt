// What costs one entry (ECMA-262 10.2.1, 14.7).
ghost use Rattle.std.specs.Prelude.{◌≡◌, [], IfOk};
ghost use Rattle.js_syntax.specs.Node.{row};
ghost use Rattle.js_meaning.specs.State.{bind, seq, spend};
ghost use Rattle.js_meaning.specs.Scope.{behind, declare, function_decls, start};
ghost use Rattle.js_meaning.specs.Node.{run, take_all, need, may, first_ask};
ghost use Rattle.js_meaning.specs.Statement.{after_turn, turn_does};
ghost use Rattle.js_meaning.specs.Meaning.{eval, take_this, run_code, enter_body, task_does};
ghost use Rattle.js_meaning.specs.Host.{Enter, while_loop, for_loop, host_moves, report};
ghost use Rattle.run_value.specs.View.{value_of};
ghost use Rattle.run_world.specs.World.{at, values_of};
ghost use Rattle.run_plan.specs.Ask.{loop_of, task_of};
ghost use Rattle.run_plan.specs.Frame.{again, meaning, plans, start_body};

use js_tree::Node;
use run_plan::{
    AfterCompletion, AfterNormal, Ask, Front, Labels, Loop, Nodes, Plan, Task, asks, first_field,
    replies, then_completion, then_normal, uncovered,
};
use run_scope::enter_function;
use run_value::{Ending, Env, Value};
use run_world::{Call, Reply, World};
use std::alloc::{AllocError, Global};

// The parameters take the arguments, and then the functions of the body are there, and it runs.
fn body_plan<'a>(
    alloc: Global,
    parameters: &'a Node,
    body: &'a [Option<Node>],
    arguments: Vec<Value<'a>>,
    env: Env<'a>,
) -> Result<Plan<'a>, AllocError>
    ensures { IfOk result (λ p. (E : Enter) → plans E p ≡ seq (meaning E parameters.now (take_all (values_of arguments.entry.items)) env.entry) (start_body E (row body.now) env.entry)) }
{
    let around = env.copy()?;
    let plan = asks(alloc, parameters, Ask::TakeAll(arguments), around)?;
    then_normal(alloc, plan, AfterNormal::Body(Nodes::new(body), env))
}

#[tactic(auto, unfolding(js_meaning::specs::Node::need, js_meaning::specs::Meaning::eval))]
fn run_behind_parameters<'a>(
    alloc: Global,
    parameters: &'a Node,
    body: &'a [Option<Node>],
    arguments: Vec<Value<'a>>,
    env: Env<'a>,
) -> Result<Plan<'a>, AllocError>
    ensures { IfOk result (λ p. (E : Enter) → plans E p ≡ need (eval E (row body.now)) (λ b r. seq (meaning E parameters.now (take_all (values_of arguments.entry.items)) env.entry) (start (row body.now) env.entry (b (first_ask (row body.now)) env.entry)))) }
{
    match first_field(body) {
        Front::Node(_, _) => body_plan(alloc, parameters, body, arguments, env),
        Front::Absent(_) => uncovered(alloc),
        Front::End => uncovered(alloc),
    }
}

// The code of a function, by what stands behind its name.
#[tactic(auto, unfolding(js_meaning::specs::Node::need, js_meaning::specs::Meaning::eval))]
fn run_behind_name<'a>(
    alloc: Global,
    fields: &'a [Option<Node>],
    arguments: Vec<Value<'a>>,
    env: Env<'a>,
) -> Result<Plan<'a>, AllocError>
    ensures { IfOk result (λ p. (E : Enter) → plans E p ≡ need (eval E (row fields.now)) (λ ps r. need r (λ b r. seq (ps (take_all (values_of arguments.entry.items)) env.entry) (start (behind (row fields.now)) env.entry (b (first_ask (behind (row fields.now))) env.entry))))) }
{
    match first_field(fields) {
        Front::Node(parameters, body) => {
            run_behind_parameters(alloc, parameters, body, arguments, env)
        }
        Front::Absent(_) => uncovered(alloc),
        Front::End => uncovered(alloc),
    }
}

#[tactic(auto, unfolding(js_meaning::specs::Node::may, js_meaning::specs::Meaning::eval))]
fn run_code<'a>(
    alloc: Global,
    nodes: &'a [Option<Node>],
    arguments: Vec<Value<'a>>,
    env: Env<'a>,
) -> Result<Plan<'a>, AllocError>
    ensures { IfOk result (λ p. (E : Enter) → plans E p ≡ run_code (row nodes.now) (eval E (row nodes.now)) (values_of arguments.entry.items) env.entry) }
{
    match first_field(nodes) {
        Front::Node(_, fields) => run_behind_name(alloc, fields, arguments, env),
        Front::Absent(fields) => run_behind_name(alloc, fields, arguments, env),
        Front::End => uncovered(alloc),
    }
}

// The code of a function with its names, as far as it completes in any way.
fn enter_code<'a>(
    world: &mut World<'a>,
    alloc: Global,
    call: Call<'a>,
) -> Result<Plan<'a>, AllocError>
    ensures does { IfOk result (λ p. (E : Enter) → at world.old (declare (function_decls call.entry.kind (row call.entry.below.now)) call.entry.env (λ env. take_this call.entry.kind (value_of call.entry.this) env (run_code (row call.entry.below.now) (eval E (row call.entry.below.now)) (values_of call.entry.arguments.items) env))) ≡ at world.new (plans E p)) }
{
    let Call {
        kind,
        below,
        env,
        this,
        arguments,
    } = call;
    let env = enter_function(world, alloc, kind, below, env, this)?;
    match env {
        Some(env) => run_code(alloc, below, arguments, env),
        None => uncovered(alloc),
    }
}

fn enter_call<'a>(
    world: &mut World<'a>,
    alloc: Global,
    call: Call<'a>,
) -> Result<Plan<'a>, AllocError>
    ensures does { IfOk result (λ p. (E : Enter) → at world.old (enter_body E call.entry.kind (row call.entry.below.now) call.entry.env (value_of call.entry.this) (values_of call.entry.arguments.items)) ≡ at world.new (plans E p)) }
{
    let plan = enter_code(world, alloc, call)?;
    then_completion(alloc, plan, AfterCompletion::Call)
}

// A call that the host makes: it sees how that ended, and then it goes on.
fn enter_called_back<'a>(
    world: &mut World<'a>,
    alloc: Global,
    awaited: bool,
    call: Call<'a>,
) -> Result<Plan<'a>, AllocError>
    ensures does { IfOk result (λ p. (E : Enter) → at world.old (bind (enter_body E call.entry.kind (row call.entry.below.now) call.entry.env (value_of call.entry.this) (values_of call.entry.arguments.items)) (report (host_moves E awaited))) ≡ at world.new (plans E p)) }
{
    let plan = enter_call(world, alloc, call)?;
    then_completion(alloc, plan, AfterCompletion::Report(awaited))
}

// The body of a loop, and what follows a turn.
fn turn<'a>(
    alloc: Global,
    kind: Loop,
    body: &'a Node,
    nodes: &'a [Option<Node>],
    labels: Labels<'a>,
    env: Env<'a>,
) -> Result<Plan<'a>, AllocError>
    ensures { IfOk result (λ p. (E : Enter) → plans E p ≡ bind (meaning E body.now (run []) env.entry) (after_turn labels.entry (again E (loop_of kind) (row nodes.now) (eval E (row nodes.now)) labels.entry env.entry))) }
{
    let around = env.copy()?;
    let plan = asks(alloc, body, Ask::Run(Labels::none()), around)?;
    then_completion(
        alloc,
        plan,
        AfterCompletion::Turn(kind, Nodes::new(nodes), labels, env),
    )
}

// The body stands first in these fields.
#[tactic(auto, unfolding(js_meaning::specs::Node::need, js_meaning::specs::Meaning::eval))]
fn turn_first<'a>(
    alloc: Global,
    kind: Loop,
    fields: &'a [Option<Node>],
    nodes: &'a [Option<Node>],
    labels: Labels<'a>,
    env: Env<'a>,
) -> Result<Plan<'a>, AllocError>
    ensures { IfOk result (λ p. (E : Enter) → plans E p ≡ need (eval E (row fields.now)) (λ b r. bind (b (run []) env.entry) (after_turn labels.entry (again E (loop_of kind) (row nodes.now) (eval E (row nodes.now)) labels.entry env.entry)))) }
{
    match first_field(fields) {
        Front::Node(body, _) => turn(alloc, kind, body, nodes, labels, env),
        Front::Absent(_) => uncovered(alloc),
        Front::End => uncovered(alloc),
    }
}

// The test of a `while` stands in front of its body.
#[tactic(auto, unfolding(js_meaning::specs::Node::need, js_meaning::specs::Meaning::eval))]
fn turn_second<'a>(
    alloc: Global,
    fields: &'a [Option<Node>],
    nodes: &'a [Option<Node>],
    labels: Labels<'a>,
    env: Env<'a>,
) -> Result<Plan<'a>, AllocError>
    ensures { IfOk result (λ p. (E : Enter) → plans E p ≡ need (eval E (row fields.now)) (λ t r. need r (λ b r. bind (b (run []) env.entry) (after_turn labels.entry (again E while_loop (row nodes.now) (eval E (row nodes.now)) labels.entry env.entry))))) }
{
    match first_field(fields) {
        Front::Node(_, rest) => turn_first(alloc, Loop::While, rest, nodes, labels, env),
        Front::Absent(_) => uncovered(alloc),
        Front::End => uncovered(alloc),
    }
}

// The update of a `for` stands in front of its body.
#[tactic(auto, unfolding(js_meaning::specs::Node::may, js_meaning::specs::Meaning::eval))]
fn turn_behind_test<'a>(
    alloc: Global,
    fields: &'a [Option<Node>],
    nodes: &'a [Option<Node>],
    labels: Labels<'a>,
    env: Env<'a>,
) -> Result<Plan<'a>, AllocError>
    ensures { IfOk result (λ p. (E : Enter) → plans E p ≡ may (eval E (row fields.now)) (λ u r. need r (λ b r. bind (b (run []) env.entry) (after_turn labels.entry (again E for_loop (row nodes.now) (eval E (row nodes.now)) labels.entry env.entry))))) }
{
    match first_field(fields) {
        Front::Node(_, rest) => turn_first(alloc, Loop::For, rest, nodes, labels, env),
        Front::Absent(rest) => turn_first(alloc, Loop::For, rest, nodes, labels, env),
        Front::End => uncovered(alloc),
    }
}

#[tactic(auto, unfolding(js_meaning::specs::Node::may, js_meaning::specs::Meaning::eval))]
fn turn_behind_init<'a>(
    alloc: Global,
    fields: &'a [Option<Node>],
    nodes: &'a [Option<Node>],
    labels: Labels<'a>,
    env: Env<'a>,
) -> Result<Plan<'a>, AllocError>
    ensures { IfOk result (λ p. (E : Enter) → plans E p ≡ may (eval E (row fields.now)) (λ t r. may r (λ u r. need r (λ b r. bind (b (run []) env.entry) (after_turn labels.entry (again E for_loop (row nodes.now) (eval E (row nodes.now)) labels.entry env.entry)))))) }
{
    match first_field(fields) {
        Front::Node(_, rest) => turn_behind_test(alloc, rest, nodes, labels, env),
        Front::Absent(rest) => turn_behind_test(alloc, rest, nodes, labels, env),
        Front::End => uncovered(alloc),
    }
}

#[tactic(auto, unfolding(js_meaning::specs::Node::may, js_meaning::specs::Meaning::eval))]
fn turn_for<'a>(
    alloc: Global,
    fields: &'a [Option<Node>],
    nodes: &'a [Option<Node>],
    labels: Labels<'a>,
    env: Env<'a>,
) -> Result<Plan<'a>, AllocError>
    ensures { IfOk result (λ p. (E : Enter) → plans E p ≡ may (eval E (row fields.now)) (λ i r. may r (λ t r. may r (λ u r. need r (λ b r. bind (b (run []) env.entry) (after_turn labels.entry (again E for_loop (row nodes.now) (eval E (row nodes.now)) labels.entry env.entry))))))) }
{
    match first_field(fields) {
        Front::Node(_, rest) => turn_behind_init(alloc, rest, nodes, labels, env),
        Front::Absent(rest) => turn_behind_init(alloc, rest, nodes, labels, env),
        Front::End => uncovered(alloc),
    }
}

fn enter_turn<'a>(
    alloc: Global,
    kind: Loop,
    nodes: &'a [Option<Node>],
    labels: Labels<'a>,
    env: Env<'a>,
) -> Result<Plan<'a>, AllocError>
    ensures { IfOk result (λ p. (E : Enter) → plans E p ≡ turn_does E (loop_of kind) (row nodes.now) (eval E (row nodes.now)) labels.entry env.entry) }
{
    match kind {
        Loop::While => turn_second(alloc, nodes, nodes, labels, env),
        Loop::DoWhile => turn_first(alloc, Loop::DoWhile, nodes, nodes, labels, env),
        Loop::For => turn_for(alloc, nodes, nodes, labels, env),
    }
}

#[tactic(auto, unfolding(js_meaning::specs::Meaning::task_does))]
fn do_task<'a>(world: &mut World<'a>, alloc: Global, task: Task<'a>) -> Result<Plan<'a>, AllocError>
    ensures does { IfOk result (λ p. (E : Enter) → at world.old (task_does E (task_of task.entry)) ≡ at world.new (plans E p)) }
{
    match task {
        Task::Body(call) => enter_call(world, alloc, call),
        Task::Turn(kind, nodes, labels, env) => {
            enter_turn(alloc, kind, nodes.nodes(), labels, env)
        }
        Task::CalledBack(awaited, call) => enter_called_back(world, alloc, awaited, call),
    }
}

// Lets an entry go.
fn discard<'a>(task: Task<'a>) {}

/// An entry: it costs one, and the run stops where none is left.
pub fn enter_task<'a>(
    world: &mut World<'a>,
    alloc: Global,
    task: Task<'a>,
) -> Result<Plan<'a>, AllocError>
    ensures does { IfOk result (λ p. (E : Enter) → at world.old (spend (task_does E (task_of task.entry))) ≡ at world.new (plans E p)) }
{
    if world.spend() {
        do_task(world, alloc, task)
    } else {
        discard(task);
        replies(alloc, Reply::Stops(Ending::Out))
    }
}
