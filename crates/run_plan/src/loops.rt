// The tests of loops.
ghost use Rattle.std.specs.Prelude.{◌≡◌, IfOk};
ghost use Rattle.js_syntax.specs.Node.{row as row_of};
ghost use Rattle.js_meaning.specs.Host as host;
ghost use Rattle.js_meaning.specs.Host.{do_loop, for_loop, Enter};
ghost use Rattle.js_meaning.specs.State.{with_value};
ghost use Rattle.js_meaning.specs.Node.{now, need, may};
ghost use Rattle.js_meaning.specs.Statement.{enter_if, test_for, test_then};
ghost use Rattle.js_meaning.specs.Meaning.{eval};
ghost use Rattle.run_plan.specs.Ask.{loop_of};
ghost use Rattle.run_plan.specs.Frame.{meaning, plans};

use crate::first::{Front, first_field};
use crate::{
    AfterStatement, Ask, Labels, Loop, Nodes, Plan, Task, Wanted, asks, enters, then_statement,
    uncovered,
};
use js_tree::Node;
use run_value::Env;
use std::alloc::{AllocError, Global};

// The value of a loop's test, and another turn where it holds.
fn test<'a>(
    alloc: Global,
    kind: Loop,
    test: &'a Node,
    nodes: &'a [Option<Node>],
    labels: Labels<'a>,
    env: Env<'a>,
) -> Result<Plan<'a>, AllocError>
    ensures { IfOk result (λ p. (E : Enter) → plans E p ≡ with_value (meaning E test.now now env.entry) (enter_if E (loop_of kind) (row_of nodes.now) labels.entry env.entry)) }
{
    let around = env.copy()?;
    let plan = asks(alloc, test, Ask::Value(Wanted::Itself), around)?;
    then_statement(
        alloc,
        plan,
        AfterStatement::Test(kind, Nodes::new(nodes), labels, env),
    )
}

// The first node of a row is the test.
#[tactic(auto, unfolding(js_meaning::specs::Node::need, js_meaning::specs::Meaning::eval))]
fn test_first<'a>(
    alloc: Global,
    kind: Loop,
    row: &'a [Option<Node>],
    nodes: &'a [Option<Node>],
    labels: Labels<'a>,
    env: Env<'a>,
) -> Result<Plan<'a>, AllocError>
    ensures { IfOk result (λ p. (E : Enter) → plans E p ≡ need (eval E (row_of row.now)) (λ t r. with_value (t now env.entry) (enter_if E (loop_of kind) (row_of nodes.now) labels.entry env.entry))) }
{
    match first_field(row) {
        Front::Node(node, _) => test(alloc, kind, node, nodes, labels, env),
        Front::Absent(_) => uncovered(alloc),
        Front::End => uncovered(alloc),
    }
}

fn turn<'a>(
    alloc: Global,
    nodes: &'a [Option<Node>],
    labels: Labels<'a>,
    env: Env<'a>,
) -> Result<Plan<'a>, AllocError>
    ensures { IfOk result (λ p. (E : Enter) → plans E p ≡ E (host.turn for_loop (row_of nodes.now) labels.entry env.entry)) }
{
    enters(alloc, Task::Turn(Loop::For, Nodes::new(nodes), labels, env))
}

// The first field of a row is the test, which may be left out: then there is another turn.
#[tactic(auto, unfolding(js_meaning::specs::Node::may, js_meaning::specs::State::choose, js_meaning::specs::Meaning::eval))]
fn test_maybe<'a>(
    alloc: Global,
    row: &'a [Option<Node>],
    nodes: &'a [Option<Node>],
    labels: Labels<'a>,
    env: Env<'a>,
) -> Result<Plan<'a>, AllocError>
    ensures { IfOk result (λ p. (E : Enter) → plans E p ≡ may (eval E (row_of row.now)) (λ t r. test_for t env.entry (enter_if E for_loop (row_of nodes.now) labels.entry env.entry))) }
{
    match first_field(row) {
        Front::Node(node, _) => test(alloc, Loop::For, node, nodes, labels, env),
        Front::Absent(_) => turn(alloc, nodes, labels, env),
        Front::End => uncovered(alloc),
    }
}

#[tactic(auto, unfolding(js_meaning::specs::Node::need, js_meaning::specs::Meaning::eval))]
fn test_do<'a>(
    alloc: Global,
    nodes: &'a [Option<Node>],
    labels: Labels<'a>,
    env: Env<'a>,
) -> Result<Plan<'a>, AllocError>
    ensures { IfOk result (λ p. (E : Enter) → plans E p ≡ test_then E do_loop (row_of nodes.now) (eval E (row_of nodes.now)) labels.entry env.entry) }
{
    match first_field(nodes) {
        Front::Node(_, others) => test_first(alloc, Loop::DoWhile, others, nodes, labels, env),
        Front::Absent(_) => uncovered(alloc),
        Front::End => uncovered(alloc),
    }
}

#[tactic(auto, unfolding(js_meaning::specs::Node::may, js_meaning::specs::Meaning::eval))]
fn test_for<'a>(
    alloc: Global,
    nodes: &'a [Option<Node>],
    labels: Labels<'a>,
    env: Env<'a>,
) -> Result<Plan<'a>, AllocError>
    ensures { IfOk result (λ p. (E : Enter) → plans E p ≡ test_then E for_loop (row_of nodes.now) (eval E (row_of nodes.now)) labels.entry env.entry) }
{
    match first_field(nodes) {
        Front::Node(_, others) => test_maybe(alloc, others, nodes, labels, env),
        Front::Absent(others) => test_maybe(alloc, others, nodes, labels, env),
        Front::End => uncovered(alloc),
    }
}

/// The test of a loop with this below its node, and another turn where it holds.
pub fn test_loop<'a>(
    alloc: Global,
    kind: Loop,
    nodes: &'a [Option<Node>],
    labels: Labels<'a>,
    env: Env<'a>,
) -> Result<Plan<'a>, AllocError>
    ensures { IfOk result (λ p. (E : Enter) → plans E p ≡ test_then E (loop_of kind) (row_of nodes.now) (eval E (row_of nodes.now)) labels.entry env.entry) }
{
    match kind {
        Loop::While => test_first(alloc, Loop::While, nodes, nodes, labels, env),
        Loop::DoWhile => test_do(alloc, nodes, labels, env),
        Loop::For => test_for(alloc, nodes, labels, env),
    }
}
