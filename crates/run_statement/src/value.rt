// What statements do with a value (ECMA-262 14).
ghost use Rattle.std.specs.Prelude.{◌≡◌, IfOk};
ghost use Rattle.js_syntax.specs.declared.operator.BinaryOperator.TheVariants as binary;
ghost use Rattle.js_meaning.specs.State.{M, bind, choose, done, normal};
ghost use Rattle.js_meaning.specs.Host.{Enter};
ghost use Rattle.js_meaning.specs.Operator.{truthy, binary_of};
ghost use Rattle.js_meaning.specs.Scope.{fill, look, default_name};
ghost use Rattle.js_meaning.specs.Node.{run, matches, ask_maybe};
ghost use Rattle.js_meaning.specs.Statement.{enter_if, case_is, after_switch};
ghost use Rattle.run_value.specs.View.{value_of};
ghost use Rattle.run_world.specs.World.{at};
ghost use Rattle.run_plan.specs.Ask.{loop_of};
ghost use Rattle.run_plan.specs.Frame.{meaning, maybe_meaning, plans, default_from, case_found, after_statement_of};
ghost use Rattle.run_statement.specs.Truth.{by_truth};

use crate::run::load_all;
use js_syntax::BinaryOperator;
use run_names::behind;
use run_operations::given;
use run_plan::{
    AfterCompletion, AfterStatement, Ask, Labels, Loop, NodeRef, Nodes, Plan, Task, asks,
    asks_maybe, completes, enters, find_case, run_each, test_loop, then_completion, uncovered,
};
use run_value::{Env, Plain, Value, binary_of, truthy};
use run_world::{Completion, World};
use std::alloc::{AllocError, Global};

#[tactic(auto, unfolding(js_meaning::specs::State::choose))]
fn branch<'a>(
    alloc: Global,
    value: &Value<'a>,
    taken: &NodeRef<'a>,
    other: Option<NodeRef<'a>>,
    labels: Labels<'a>,
    env: Env<'a>,
) -> Result<Plan<'a>, AllocError>
    ensures { IfOk result (λ p. (E : Enter) → plans E p ≡ choose (truthy (value_of value.now)) (meaning E taken.now (run labels.entry) env.entry) (ask_maybe (maybe_meaning E other.entry) (run labels.entry) env.entry)) }
{
    if truthy(value) {
        asks(alloc, taken.node(), Ask::Run(labels), env)
    } else {
        asks_maybe(alloc, other, Ask::Run(labels), env)
    }
}

#[tactic(auto, unfolding(js_meaning::specs::State::choose))]
fn enter_if<'a>(
    alloc: Global,
    kind: Loop,
    nodes: Nodes<'a>,
    labels: Labels<'a>,
    env: Env<'a>,
    value: &Value<'a>,
) -> Result<Plan<'a>, AllocError>
    ensures { IfOk result (λ p. (E : Enter) → plans E p ≡ enter_if E (loop_of kind) nodes.entry labels.entry env.entry (value_of value.now)) }
{
    if truthy(value) {
        enters(alloc, Task::Turn(kind, nodes, labels, env))
    } else {
        completes(alloc, Completion::Normal)
    }
}

fn run_cases<'a>(
    alloc: Global,
    cases: &NodeRef<'a>,
    value: Value<'a>,
    env: Env<'a>,
) -> Result<Plan<'a>, AllocError>
    ensures { IfOk result (λ p. (E : Enter) → plans E p ≡ bind (meaning E cases.now (matches (value_of value.entry)) env.entry) after_switch) }
{
    let plan = asks(alloc, cases.node(), Ask::Matches(value), env)?;
    then_completion(alloc, plan, AfterCompletion::Cases)
}

// The truth value that a value is, if it is one.
fn truth_in(value: &Value) -> Option<bool>
    ensures { (here on otherwise : M) → case_is (value_of value.now) here on otherwise ≡ by_truth result here on otherwise }
{
    match value {
        Value::Plain(Plain::Boolean(true)) => Some(true),
        Value::Plain(Plain::Boolean(false)) => Some(false),
        _ => None,
    }
}

// The test of the first of these cases gave this.
fn case_found<'a>(
    alloc: Global,
    here: Nodes<'a>,
    sought: Value<'a>,
    default: Option<Nodes<'a>>,
    env: Env<'a>,
    found: &Value<'a>,
) -> Result<Plan<'a>, AllocError>
    ensures { IfOk result (λ p. (E : Enter) → plans E p ≡ case_found E here.entry (value_of sought.entry) env.entry (default_from E default.entry env.entry) (value_of found.now)) }
{
    match truth_in(found) {
        Some(true) => run_each(alloc, Labels::none(), here.nodes(), env),
        Some(false) => find_case(alloc, behind(here.nodes()), sought, default, env),
        None => {
            let others = behind(here.nodes());
            find_case(alloc, others, sought, Some(here), env)
        }
    }
}

fn test_value<'a>(
    alloc: Global,
    sought: &Value<'a>,
    value: &Value<'a>,
) -> Result<Plan<'a>, AllocError>
    ensures { IfOk result (λ p. (E : Enter) → plans E p ≡ binary_of binary.StrictEquality (value_of sought.now) (value_of value.now)) }
{
    let found = binary_of(alloc, BinaryOperator::StrictEquality, sought, value)?;
    given(alloc, found)
}

fn keep_default<'a>(
    world: &mut World<'a>,
    alloc: Global,
    value: Value<'a>,
    env: &Env<'a>,
) -> Result<Plan<'a>, AllocError>
    ensures does { IfOk result (λ p. (E : Enter) → at world.old (fill (look env.now default_name) (value_of value.entry) (done normal)) ≡ at world.new (plans E p)) }
{
    if world.fill(env.look("*default*"), value)? {
        completes(alloc, Completion::Normal)
    } else {
        uncovered(alloc)
    }
}

/// What a statement does with a value.
pub fn resume_statement<'a>(
    world: &mut World<'a>,
    alloc: Global,
    frame: AfterStatement<'a>,
    value: Value<'a>,
) -> Result<Plan<'a>, AllocError>
    ensures does { IfOk result (λ p. (E : Enter) → at world.old (after_statement_of E frame.entry (value_of value.entry)) ≡ at world.new (plans E p)) }
{
    match frame {
        AfterStatement::Discard => completes(alloc, Completion::Normal),
        AfterStatement::If(taken, other, labels, env) => {
            branch(alloc, &value, &taken, other, labels, env)
        }
        AfterStatement::Return => completes(alloc, Completion::Returns(value)),
        AfterStatement::Throw => completes(alloc, Completion::Throws(value)),
        AfterStatement::Test(kind, nodes, labels, env) => {
            enter_if(alloc, kind, nodes, labels, env, &value)
        }
        AfterStatement::Update(nodes, labels, env) => {
            test_loop(alloc, Loop::For, nodes.nodes(), labels, env)
        }
        AfterStatement::Switch(cases, env) => run_cases(alloc, &cases, value, env),
        AfterStatement::Case(here, sought, default, env) => {
            case_found(alloc, here, sought, default, env, &value)
        }
        AfterStatement::CaseTest(sought) => test_value(alloc, &sought, &value),
        AfterStatement::Initial(name, env) => asks(alloc, name.node(), Ask::Take(value), env),
        AfterStatement::Default(env) => keep_default(world, alloc, value, &env),
        AfterStatement::Load(sources) => load_all(world, alloc, sources),
    }
}
