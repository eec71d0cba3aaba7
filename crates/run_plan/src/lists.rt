// The nodes of a row, one after another.
ghost use Rattle.std.specs.Prelude.{◌≡◌, [], ◌∷◌, ◌++◌, Some, IfOk, drop};
ghost use Rattle.js_syntax.specs.Node.{row};
ghost use Rattle.js_meaning.specs.State.{done, gives_all, with_value};
ghost use Rattle.js_meaning.specs.Host.{Enter};
ghost use Rattle.js_meaning.specs.Node.{run, now, declares, each, values};
ghost use Rattle.js_meaning.specs.Expression.{in_turn};
ghost use Rattle.js_meaning.specs.Statement.{choose_case};
ghost use Rattle.js_meaning.specs.Meaning.{eval, take_each};
ghost use Rattle.run_value.specs.View.{value_of};
ghost use Rattle.run_world.specs.World.{values_of};
ghost use Rattle.run_plan.specs.Ask.{ask_of};
ghost use Rattle.run_plan.specs.First.{first_or_undefined};
ghost use Rattle.run_plan.specs.Frame.{meaning, plans, entry_or_now, default_from};

use crate::first::{Front, first_field};
use crate::{
    AfterNormal, AfterOperand, AfterStatement, Ask, Labels, Nodes, Plan, Wanted, asks, completes,
    then_normal, then_operand, then_statement, uncovered,
};
use js_syntax::VariableKind;
use js_tree::Node;
use run_value::{Env, Plain, Value};
use run_world::Completion;
use std::alloc::{AllocError, Global};

/// Statements, under these labels.
#[tactic(auto, unfolding(js_meaning::specs::Node::each, js_meaning::specs::Meaning::eval))]
pub fn run_each<'a>(
    alloc: Global,
    labels: Labels<'a>,
    nodes: &'a [Option<Node>],
    env: Env<'a>,
) -> Result<Plan<'a>, AllocError>
    ensures { IfOk result (λ p. (E : Enter) → plans E p ≡ each (run labels.entry) (eval E (row nodes.now)) env.entry) }
{
    match first_field(nodes) {
        Front::Node(node, others) => {
            let under = labels.copy()?;
            let around = env.copy()?;
            let plan = asks(alloc, node, Ask::Run(under), around)?;
            then_normal(
                alloc,
                plan,
                AfterNormal::Each(labels, Nodes::new(others), env),
            )
        }
        Front::Absent(_) => uncovered(alloc),
        Front::End => completes(alloc, Completion::Normal),
    }
}

/// Declarators, each of which declares in this way.
#[tactic(auto, unfolding(js_meaning::specs::Node::each, js_meaning::specs::Meaning::eval))]
pub fn declare_each<'a>(
    alloc: Global,
    how: VariableKind,
    nodes: &'a [Option<Node>],
    env: Env<'a>,
) -> Result<Plan<'a>, AllocError>
    ensures { IfOk result (λ p. (E : Enter) → plans E p ≡ each (declares how) (eval E (row nodes.now)) env.entry) }
{
    match first_field(nodes) {
        Front::Node(node, others) => {
            let around = env.copy()?;
            let plan = asks(alloc, node, Ask::Declares(how), around)?;
            then_normal(
                alloc,
                plan,
                AfterNormal::Declare(how, Nodes::new(others), env),
            )
        }
        Front::Absent(_) => uncovered(alloc),
        Front::End => completes(alloc, Completion::Normal),
    }
}

fn asked<'a>(entries: bool) -> Ask<'a>
    ensures { ask_of result ≡ entry_or_now entries }
{
    if entries {
        Ask::Entry
    } else {
        Ask::Value(Wanted::Itself)
    }
}

fn collect_first<'a>(
    alloc: Global,
    entries: bool,
    node: &'a Node,
    others: &'a [Option<Node>],
    env: Env<'a>,
    before: Vec<Value<'a>>,
) -> Result<Plan<'a>, AllocError>
    ensures { IfOk result (λ p. (E : Enter) → plans E p ≡ with_value (meaning E node.now (entry_or_now entries) env.entry) (λ v. values (entry_or_now entries) (eval E (row others.now)) env.entry (λ vs. done (gives_all (values_of before.entry.items ++ (v ∷ vs)))))) }
{
    let around = env.copy()?;
    let plan = asks(alloc, node, asked(entries), around)?;
    then_operand(
        alloc,
        plan,
        AfterOperand::Collect(entries, Nodes::new(others), env, before),
    )
}

// None but those that are there already.
fn collected<'a>(alloc: Global, before: Vec<Value<'a>>) -> Result<Plan<'a>, AllocError>
    ensures { IfOk result (λ p. (E : Enter) → plans E p ≡ done (gives_all (values_of before.entry.items ++ []))) }
{
    completes(alloc, Completion::GivesAll(before))
}

/// Values of the properties of an object, or of expressions, behind those that are there already.
#[tactic(auto, unfolding(js_meaning::specs::Node::values, js_meaning::specs::Meaning::eval))]
pub fn collect_values<'a>(
    alloc: Global,
    entries: bool,
    nodes: &'a [Option<Node>],
    env: Env<'a>,
    before: Vec<Value<'a>>,
) -> Result<Plan<'a>, AllocError>
    ensures { IfOk result (λ p. (E : Enter) → plans E p ≡ values (entry_or_now entries) (eval E (row nodes.now)) env.entry (λ vs. done (gives_all (values_of before.entry.items ++ vs)))) }
{
    match first_field(nodes) {
        Front::Node(node, others) => collect_first(alloc, entries, node, others, env, before),
        Front::Absent(_) => uncovered(alloc),
        Front::End => collected(alloc, before),
    }
}

#[tactic(auto, unfolding(js_meaning::specs::Expression::in_turn, js_meaning::specs::Meaning::eval))]
fn run_first<'a>(
    alloc: Global,
    node: &'a Node,
    others: &'a [Option<Node>],
    env: Env<'a>,
) -> Result<Plan<'a>, AllocError>
    ensures { IfOk result (λ p. (E : Enter) → plans E p ≡ in_turn (Some (meaning E node.now) ∷ eval E (row others.now)) env.entry) }
{
    match first_field(others) {
        Front::Node(_, _) => run_before(alloc, node, others, env),
        Front::Absent(_) => run_before(alloc, node, others, env),
        Front::End => asks(alloc, node, Ask::Value(Wanted::Itself), env),
    }
}

fn run_before<'a>(
    alloc: Global,
    node: &'a Node,
    others: &'a [Option<Node>],
    env: Env<'a>,
) -> Result<Plan<'a>, AllocError>
    ensures { IfOk result (λ p. (E : Enter) → plans E p ≡ with_value (meaning E node.now now env.entry) (λ v. in_turn (eval E (row others.now)) env.entry)) }
{
    let around = env.copy()?;
    let plan = asks(alloc, node, Ask::Value(Wanted::Itself), around)?;
    then_operand(alloc, plan, AfterOperand::InTurn(Nodes::new(others), env))
}

/// Expressions, of which the last counts.
#[tactic(auto, unfolding(js_meaning::specs::Expression::in_turn, js_meaning::specs::Meaning::eval))]
pub fn run_in_turn<'a>(
    alloc: Global,
    nodes: &'a [Option<Node>],
    env: Env<'a>,
) -> Result<Plan<'a>, AllocError>
    ensures { IfOk result (λ p. (E : Enter) → plans E p ≡ in_turn (eval E (row nodes.now)) env.entry) }
{
    match first_field(nodes) {
        Front::Node(node, others) => run_first(alloc, node, others, env),
        Front::Absent(_) => uncovered(alloc),
        Front::End => uncovered(alloc),
    }
}

// The default of a switch and the cases behind it, where there is one.
fn run_default<'a>(
    alloc: Global,
    default: Option<Nodes<'a>>,
    env: Env<'a>,
) -> Result<Plan<'a>, AllocError>
    ensures { IfOk result (λ p. (E : Enter) → plans E p ≡ default_from E default.entry env.entry) }
{
    match default {
        Some(nodes) => run_each(alloc, Labels::none(), nodes.nodes(), env),
        None => completes(alloc, Completion::Normal),
    }
}

/// The cases of a switch: on from the first that gives this value, else from the default.
#[tactic(auto, unfolding(js_meaning::specs::Statement::choose_case, js_meaning::specs::Meaning::eval))]
pub fn find_case<'a>(
    alloc: Global,
    nodes: &'a [Option<Node>],
    value: Value<'a>,
    default: Option<Nodes<'a>>,
    env: Env<'a>,
) -> Result<Plan<'a>, AllocError>
    ensures { IfOk result (λ p. (E : Enter) → plans E p ≡ choose_case (eval E (row nodes.now)) (value_of value.entry) env.entry (default_from E default.entry env.entry)) }
{
    match first_field(nodes) {
        Front::Node(node, _) => {
            let sought = value.copy()?;
            let around = env.copy()?;
            let plan = asks(alloc, node, Ask::Matches(sought), around)?;
            then_statement(
                alloc,
                plan,
                AfterStatement::Case(Nodes::new(nodes), value, default, env),
            )
        }
        Front::Absent(_) => uncovered(alloc),
        Front::End => run_default(alloc, default, env),
    }
}

// The first of these values, or undefined, and the others.
fn first_value<'a>(
    alloc: Global,
    values: Vec<Value<'a>>,
) -> Result<(Value<'a>, Vec<Value<'a>>), AllocError>
    ensures { IfOk result (λ p. (value_of p.0 ≡ first_or_undefined (values_of values.entry.items)) × (values_of p.1.items ≡ drop 1 (values_of values.entry.items))) }
{
    let mut others = values;
    if others.is_empty() {
        Ok((Value::Plain(Plain::Undefined), Vec::new(alloc)))
    } else {
        let first = others.remove(0);
        Ok((first, others))
    }
}

fn give_first<'a>(
    alloc: Global,
    node: &'a Node,
    others: &'a [Option<Node>],
    values: Vec<Value<'a>>,
    env: Env<'a>,
) -> Result<Plan<'a>, AllocError>
    ensures { IfOk result (λ p. (E : Enter) → plans E p ≡ take_each (Some (meaning E node.now) ∷ eval E (row others.now)) (values_of values.entry.items) env.entry) }
{
    let (first, values) = first_value(alloc, values)?;
    let around = env.copy()?;
    let plan = asks(alloc, node, Ask::Take(first), around)?;
    then_normal(
        alloc,
        plan,
        AfterNormal::TakeEach(Nodes::new(others), values, env),
    )
}

/// Parameters, which take these values in order; those that are missing are undefined.
#[tactic(auto, unfolding(js_meaning::specs::Meaning::take_each, js_meaning::specs::Meaning::eval))]
pub fn give_each<'a>(
    alloc: Global,
    nodes: &'a [Option<Node>],
    values: Vec<Value<'a>>,
    env: Env<'a>,
) -> Result<Plan<'a>, AllocError>
    ensures { IfOk result (λ p. (E : Enter) → plans E p ≡ take_each (eval E (row nodes.now)) (values_of values.entry.items) env.entry) }
{
    match first_field(nodes) {
        Front::Node(node, others) => give_first(alloc, node, others, values, env),
        Front::Absent(_) => uncovered(alloc),
        Front::End => completes(alloc, Completion::Normal),
    }
}
