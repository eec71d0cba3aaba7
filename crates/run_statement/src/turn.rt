// The turns of loops (ECMA-262 14.7), and labels.
ghost use Rattle.std.specs.Prelude.{◌≡◌, IfOk};
ghost use Rattle.js_syntax.specs.Node.{row as row_of};
ghost use Rattle.js_meaning.specs.State.{M, with_value};
ghost use Rattle.js_meaning.specs.Scope.{copy, lexical, first_of};
ghost use Rattle.js_meaning.specs.Host.{for_loop, Enter};
ghost use Rattle.js_meaning.specs.Node.{now, may, value_or_undefined};
ghost use Rattle.js_meaning.specs.Statement.{after_label, after_turn, after_init, after_switch, test_then};
ghost use Rattle.js_meaning.specs.Meaning.{eval};
ghost use Rattle.run_world.specs.World.{at, completion_of, replies};
ghost use Rattle.run_plan.specs.Ask.{loop_of};
ghost use Rattle.run_plan.specs.Frame.{meaning, plans, again};
ghost use Rattle.run_statement.specs.Otherwise.{otherwise};

use js_tree::Node;
use run_plan::{
    AfterStatement, Ask, Front, Labels, Loop, Nodes, Plan, Wanted, asks, first_field, replies,
    test_loop, then_statement, uncovered,
};
use run_scope::copy_loop_names;
use run_value::Env;
use run_world::{Completion, Reply, World, unknown};
use std::alloc::{AllocError, Global};

/// A `break` to this label ends there.
#[tactic(auto, unfolding(js_meaning::specs::State::choose))]
pub(crate) fn after_label<'a>(label: &str, completion: Completion<'a>) -> Reply<'a>
    ensures { replies result ≡ after_label label.now (completion_of completion.entry) }
{
    match completion {
        Completion::Breaks(Some(target)) => {
            if label == target {
                Reply::Completes(Completion::Normal)
            } else {
                Reply::Completes(Completion::Breaks(Some(target)))
            }
        }
        other => Reply::Completes(other),
    }
}

/// A `break` with no label ends a switch.
pub(crate) fn after_switch<'a>(completion: Completion<'a>) -> Reply<'a>
    ensures { replies result ≡ after_switch (completion_of completion.entry) }
{
    match completion {
        Completion::Breaks(None) => Reply::Completes(Completion::Normal),
        other => Reply::Completes(other),
    }
}

// How a loop ends after a turn, or `None` where it goes on (LoopContinues, 14.7.1.1).
#[tactic(auto, unfolding(js_meaning::specs::State::choose))]
fn after_turn<'a>(labels: &Labels<'a>, completion: Completion<'a>) -> Option<Reply<'a>>
    ensures { (m : M) → after_turn labels.now m (completion_of completion.entry) ≡ otherwise result m }
{
    match completion {
        Completion::Normal => None,
        Completion::Continues(None) => None,
        Completion::Continues(Some(label)) => {
            if labels.contains(label) {
                None
            } else {
                Some(Reply::Completes(Completion::Continues(Some(label))))
            }
        }
        Completion::Breaks(None) => Some(Reply::Completes(Completion::Normal)),
        Completion::Breaks(Some(label)) => {
            Some(Reply::Completes(Completion::Breaks(Some(label))))
        }
        Completion::Returns(value) => Some(Reply::Completes(Completion::Returns(value))),
        Completion::Throws(value) => Some(Reply::Completes(Completion::Throws(value))),
        _ => Some(unknown()),
    }
}

// How a `for` ends after what stands first in its head, or `None` where it goes on.
fn after_init<'a>(completion: Completion<'a>) -> Option<Reply<'a>>
    ensures { (m : M) → after_init m (completion_of completion.entry) ≡ otherwise result m }
{
    match completion {
        Completion::Normal => None,
        Completion::Gives(..) => None,
        Completion::Throws(value) => Some(Reply::Completes(Completion::Throws(value))),
        _ => Some(unknown()),
    }
}

// The update of a `for`, in the cells of the next turn, and its test.
fn update<'a>(
    world: &mut World<'a>,
    alloc: Global,
    node: &'a Node,
    nodes: &'a [Option<Node>],
    labels: Labels<'a>,
    env: Env<'a>,
) -> Result<Plan<'a>, AllocError>
    ensures does { IfOk result (λ p. (E : Enter) → at world.old (copy (lexical (first_of (row_of nodes.now))) env.entry (λ env. with_value (meaning E node.now now env) (λ v. test_then E for_loop (row_of nodes.now) (eval E (row_of nodes.now)) labels.entry env))) ≡ at world.new (plans E p)) }
{
    let env = copy_loop_names(world, alloc, nodes, env)?;
    let around = env.copy()?;
    let plan = asks(alloc, node, Ask::Value(Wanted::Itself), around)?;
    then_statement(
        alloc,
        plan,
        AfterStatement::Update(Nodes::new(nodes), labels, env),
    )
}

fn first_turn<'a>(
    world: &mut World<'a>,
    alloc: Global,
    nodes: &'a [Option<Node>],
    labels: Labels<'a>,
    env: Env<'a>,
) -> Result<Plan<'a>, AllocError>
    ensures does { IfOk result (λ p. (E : Enter) → at world.old (copy (lexical (first_of (row_of nodes.now))) env.entry (test_then E for_loop (row_of nodes.now) (eval E (row_of nodes.now)) labels.entry)) ≡ at world.new (plans E p)) }
{
    let env = copy_loop_names(world, alloc, nodes, env)?;
    test_loop(alloc, Loop::For, nodes, labels, env)
}

// The first field of a row is the update, which may be left out.
#[tactic(auto, unfolding(js_meaning::specs::Node::may, js_meaning::specs::Meaning::eval))]
fn update_maybe<'a>(
    world: &mut World<'a>,
    alloc: Global,
    row: &'a [Option<Node>],
    nodes: &'a [Option<Node>],
    labels: Labels<'a>,
    env: Env<'a>,
) -> Result<Plan<'a>, AllocError>
    ensures does { IfOk result (λ p. (E : Enter) → at world.old (may (eval E (row_of row.now)) (λ u r. copy (lexical (first_of (row_of nodes.now))) env.entry (λ env. value_or_undefined u env (λ v. test_then E for_loop (row_of nodes.now) (eval E (row_of nodes.now)) labels.entry env)))) ≡ at world.new (plans E p)) }
{
    match first_field(row) {
        Front::Node(node, _) => update(world, alloc, node, nodes, labels, env),
        Front::Absent(_) => first_turn(world, alloc, nodes, labels, env),
        Front::End => uncovered(alloc),
    }
}

// The first field of a row is the test, and the update stands behind it.
#[tactic(auto, unfolding(js_meaning::specs::Node::may, js_meaning::specs::Meaning::eval))]
fn update_behind<'a>(
    world: &mut World<'a>,
    alloc: Global,
    row: &'a [Option<Node>],
    nodes: &'a [Option<Node>],
    labels: Labels<'a>,
    env: Env<'a>,
) -> Result<Plan<'a>, AllocError>
    ensures does { IfOk result (λ p. (E : Enter) → at world.old (may (eval E (row_of row.now)) (λ t r. may r (λ u r. copy (lexical (first_of (row_of nodes.now))) env.entry (λ env. value_or_undefined u env (λ v. test_then E for_loop (row_of nodes.now) (eval E (row_of nodes.now)) labels.entry env))))) ≡ at world.new (plans E p)) }
{
    match first_field(row) {
        Front::Node(_, others) => update_maybe(world, alloc, others, nodes, labels, env),
        Front::Absent(others) => update_maybe(world, alloc, others, nodes, labels, env),
        Front::End => uncovered(alloc),
    }
}

// A `for` has cells of its own in each turn.
#[tactic(auto, unfolding(js_meaning::specs::Node::may, js_meaning::specs::Meaning::eval))]
fn again_for<'a>(
    world: &mut World<'a>,
    alloc: Global,
    nodes: &'a [Option<Node>],
    labels: Labels<'a>,
    env: Env<'a>,
) -> Result<Plan<'a>, AllocError>
    ensures does { IfOk result (λ p. (E : Enter) → at world.old (again E for_loop (row_of nodes.now) (eval E (row_of nodes.now)) labels.entry env.entry) ≡ at world.new (plans E p)) }
{
    match first_field(nodes) {
        Front::Node(_, others) => update_behind(world, alloc, others, nodes, labels, env),
        Front::Absent(others) => update_behind(world, alloc, others, nodes, labels, env),
        Front::End => uncovered(alloc),
    }
}

fn again<'a>(
    world: &mut World<'a>,
    alloc: Global,
    kind: Loop,
    nodes: &Nodes<'a>,
    labels: Labels<'a>,
    env: Env<'a>,
) -> Result<Plan<'a>, AllocError>
    ensures does { IfOk result (λ p. (E : Enter) → at world.old (again E (loop_of kind) nodes.now (eval E nodes.now) labels.entry env.entry) ≡ at world.new (plans E p)) }
{
    match kind {
        Loop::While => test_loop(alloc, Loop::While, nodes.nodes(), labels, env),
        Loop::DoWhile => test_loop(alloc, Loop::DoWhile, nodes.nodes(), labels, env),
        Loop::For => again_for(world, alloc, nodes.nodes(), labels, env),
    }
}

/// What follows a turn of a loop.
pub(crate) fn end_turn<'a>(
    world: &mut World<'a>,
    alloc: Global,
    kind: Loop,
    nodes: &Nodes<'a>,
    labels: Labels<'a>,
    env: Env<'a>,
    completion: Completion<'a>,
) -> Result<Plan<'a>, AllocError>
    ensures does { IfOk result (λ p. (E : Enter) → at world.old (after_turn labels.entry (again E (loop_of kind) nodes.now (eval E nodes.now) labels.entry env.entry) (completion_of completion.entry)) ≡ at world.new (plans E p)) }
{
    match after_turn(&labels, completion) {
        Some(reply) => replies(alloc, reply),
        None => again(world, alloc, kind, nodes, labels, env),
    }
}

/// What follows what stands first in the head of a `for`.
pub(crate) fn end_init<'a>(
    world: &mut World<'a>,
    alloc: Global,
    nodes: &Nodes<'a>,
    labels: Labels<'a>,
    env: Env<'a>,
    completion: Completion<'a>,
) -> Result<Plan<'a>, AllocError>
    ensures does { IfOk result (λ p. (E : Enter) → at world.old (after_init (copy (lexical (first_of nodes.now)) env.entry (test_then E for_loop nodes.now (eval E nodes.now) labels.entry)) (completion_of completion.entry)) ≡ at world.new (plans E p)) }
{
    match after_init(completion) {
        Some(reply) => replies(alloc, reply),
        None => first_turn(world, alloc, nodes.nodes(), labels, env),
    }
}
