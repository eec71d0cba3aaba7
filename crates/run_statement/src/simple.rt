// Statements that hand on what one expression gives, or that end there.
ghost use Rattle.std.specs.Prelude.{◌≡◌, ◌∷◌, IfOk};
ghost use Rattle.js_syntax.specs.Node.{row, forest_of};
ghost use Rattle.js_syntax.specs.declared.node_kind.NodeKind.{NodeKind as Kind};
ghost use Rattle.js_meaning.specs.State.{normal, done, bind, with_value, breaks, continues};
ghost use Rattle.js_meaning.specs.Scope.{fill, look, default_name};
ghost use Rattle.js_meaning.specs.Statement.{after_label};
ghost use Rattle.js_meaning.specs.Node.{run, now};
ghost use Rattle.js_meaning.specs.Meaning.{does, eval, default_does};
ghost use Rattle.js_meaning.specs.Host.{Enter};
ghost use Rattle.run_world.specs.World.{label_of};
ghost use Rattle.run_plan.specs.Frame.{meaning, plans};
ghost use Rattle.run_statement.specs.Default.{is_function, default_by};

use js_syntax::{FunctionKind, NodeKind};
use js_tree::{Ident, Node};
use run_plan::{
    AfterCompletion, AfterStatement, Ask, Front, Labels, Plan, Wanted, asks, completes,
    first_field, then_completion, then_statement, uncovered,
};
use run_value::{Env, Plain, Value};
use run_world::Completion;
use std::alloc::{AllocError, Global};

/// An expression statement (14.5).
#[tactic(auto, unfolding(js_meaning::specs::Node::need, js_meaning::specs::Meaning::eval))]
pub(crate) fn enter_expression_statement<'a>(
    alloc: Global,
    nodes: &'a [Option<Node>],
    labels: Labels<'a>,
    env: Env<'a>,
) -> Result<Plan<'a>, AllocError>
    ensures { IfOk result (λ p. (E : Enter) → plans E p ≡ does E Kind.ExpressionStatement (row nodes.now) (eval E (row nodes.now)) (run labels.entry) env.entry) }
{
    match first_field(nodes) {
        Front::Node(node, _) => {
            let plan = asks(alloc, node, Ask::Value(Wanted::Itself), env)?;
            then_statement(alloc, plan, AfterStatement::Discard)
        }
        Front::Absent(_) => uncovered(alloc),
        Front::End => uncovered(alloc),
    }
}

/// `return` (14.10).
#[tactic(auto, unfolding(js_meaning::specs::Node::may, js_meaning::specs::Meaning::eval))]
pub(crate) fn enter_return<'a>(
    alloc: Global,
    nodes: &'a [Option<Node>],
    labels: Labels<'a>,
    env: Env<'a>,
) -> Result<Plan<'a>, AllocError>
    ensures { IfOk result (λ p. (E : Enter) → plans E p ≡ does E Kind.ReturnStatement (row nodes.now) (eval E (row nodes.now)) (run labels.entry) env.entry) }
{
    match first_field(nodes) {
        Front::Node(node, _) => {
            let plan = asks(alloc, node, Ask::Value(Wanted::Itself), env)?;
            then_statement(alloc, plan, AfterStatement::Return)
        }
        Front::Absent(_) => {
            let value = Value::Plain(Plain::Undefined);
            completes(alloc, Completion::Returns(value))
        }
        Front::End => uncovered(alloc),
    }
}

/// `throw` (14.14).
#[tactic(auto, unfolding(js_meaning::specs::Node::need, js_meaning::specs::Meaning::eval))]
pub(crate) fn enter_throw<'a>(
    alloc: Global,
    nodes: &'a [Option<Node>],
    labels: Labels<'a>,
    env: Env<'a>,
) -> Result<Plan<'a>, AllocError>
    ensures { IfOk result (λ p. (E : Enter) → plans E p ≡ does E Kind.ThrowStatement (row nodes.now) (eval E (row nodes.now)) (run labels.entry) env.entry) }
{
    match first_field(nodes) {
        Front::Node(node, _) => {
            let plan = asks(alloc, node, Ask::Value(Wanted::Itself), env)?;
            then_statement(alloc, plan, AfterStatement::Throw)
        }
        Front::Absent(_) => uncovered(alloc),
        Front::End => uncovered(alloc),
    }
}

fn labeled_plan<'a>(
    alloc: Global,
    label: &'a Ident,
    node: &'a Node,
    labels: Labels<'a>,
    env: Env<'a>,
) -> Result<Plan<'a>, AllocError>
    ensures { IfOk result (λ p. (E : Enter) → plans E p ≡ bind (meaning E node.now (run (label.now ∷ labels.entry)) env.entry) (after_label label.now)) }
{
    let text = label.as_str();
    let under = labels.with(alloc, text)?;
    let plan = asks(alloc, node, Ask::Run(under), env)?;
    then_completion(alloc, plan, AfterCompletion::Label(text))
}

/// A statement with a label (14.13).
#[tactic(auto, unfolding(js_meaning::specs::Node::need, js_meaning::specs::Meaning::eval))]
pub(crate) fn enter_labeled<'a>(
    alloc: Global,
    label: &'a Ident,
    nodes: &'a [Option<Node>],
    labels: Labels<'a>,
    env: Env<'a>,
) -> Result<Plan<'a>, AllocError>
    ensures { IfOk result (λ p. (E : Enter) → plans E p ≡ does E (Kind.LabeledStatement label.now) (row nodes.now) (eval E (row nodes.now)) (run labels.entry) env.entry) }
{
    match first_field(nodes) {
        Front::Node(node, _) => labeled_plan(alloc, label, node, labels, env),
        Front::Absent(_) => uncovered(alloc),
        Front::End => uncovered(alloc),
    }
}

fn label_text(label: &Option<Ident>) -> Option<&str>
    ensures { label_of result ≡ label.now }
{
    match label {
        Some(label) => Some(label.as_str()),
        None => None,
    }
}

/// `break` (14.9).
pub(crate) fn breaks<'a>(alloc: Global, label: &'a Option<Ident>) -> Result<Plan<'a>, AllocError>
    ensures { IfOk result (λ p. (E : Enter) → plans E p ≡ done (breaks label.now)) }
{
    completes(alloc, Completion::Breaks(label_text(label)))
}

/// `continue` (14.8).
pub(crate) fn continues<'a>(alloc: Global, label: &'a Option<Ident>) -> Result<Plan<'a>, AllocError>
    ensures { IfOk result (λ p. (E : Enter) → plans E p ≡ done (continues label.now)) }
{
    completes(alloc, Completion::Continues(label_text(label)))
}

// The value of an expression is kept.
fn kept_plan<'a>(alloc: Global, node: &'a Node, env: Env<'a>) -> Result<Plan<'a>, AllocError>
    ensures { IfOk result (λ p. (E : Enter) → plans E p ≡ with_value (meaning E node.now now env.entry) (λ v. fill (look env.entry default_name) v (done normal))) }
{
    let around = env.copy()?;
    let plan = asks(alloc, node, Ask::Value(Wanted::Itself), around)?;
    then_statement(alloc, plan, AfterStatement::Default(env))
}

fn is_function(node: &Node) -> bool
    ensures { result ≡ is_function node.now.kind }
{
    match node.kind() {
        NodeKind::Function {
            kind: FunctionKind::Declaration,
            ..
        } => true,
        _ => false,
    }
}

fn default_by<'a>(
    alloc: Global,
    function: bool,
    node: &'a Node,
    env: Env<'a>,
) -> Result<Plan<'a>, AllocError>
    ensures { IfOk result (λ p. (E : Enter) → plans E p ≡ default_by function (meaning E node.now) env.entry) }
{
    if function {
        completes(alloc, Completion::Normal)
    } else {
        kept_plan(alloc, node, env)
    }
}

fn default_plan<'a>(alloc: Global, node: &'a Node, env: Env<'a>) -> Result<Plan<'a>, AllocError>
    ensures { IfOk result (λ p. (E : Enter) → plans E p ≡ default_does (forest_of node.now) (meaning E node.now) env.entry) }
{
    let function = is_function(node);
    default_by(alloc, function, node, env)
}

/// `export default` (16.2.3.7): a declaration has nothing to do, the value of an expression is kept.
#[tactic(auto, unfolding(js_meaning::specs::Node::need, js_meaning::specs::Meaning::eval))]
pub(crate) fn enter_default<'a>(
    alloc: Global,
    nodes: &'a [Option<Node>],
    labels: Labels<'a>,
    env: Env<'a>,
) -> Result<Plan<'a>, AllocError>
    ensures { IfOk result (λ p. (E : Enter) → plans E p ≡ does E Kind.ExportDefaultDeclaration (row nodes.now) (eval E (row nodes.now)) (run labels.entry) env.entry) }
{
    match first_field(nodes) {
        Front::Node(node, _) => default_plan(alloc, node, env),
        Front::Absent(_) => uncovered(alloc),
        Front::End => uncovered(alloc),
    }
}
