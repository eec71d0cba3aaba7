// A node that is asked for its value (ECMA-262 13).
ghost use Rattle.std.specs.Prelude.{◌≡◌, IfOk};
ghost use Rattle.js_syntax.specs.Node.{row};
ghost use Rattle.js_syntax.specs.declared.node_kind.NodeKind.{NodeKind as Kind};
ghost use Rattle.js_meaning.specs.Value.{literal_value};
ghost use Rattle.js_meaning.specs.State.{give};
ghost use Rattle.js_meaning.specs.Expression.{function_value};
ghost use Rattle.js_meaning.specs.Node.{value};
ghost use Rattle.js_meaning.specs.Meaning.{does, eval};
ghost use Rattle.js_meaning.specs.Host.{Enter};
ghost use Rattle.run_world.specs.World.{at};
ghost use Rattle.run_plan.specs.Ask.{wanted_of};
ghost use Rattle.run_plan.specs.Frame.{plans};

use crate::literal::{enter_array, enter_object};
use crate::member::enter_member;
use crate::operator::{
    enter_assignment, enter_binary, enter_call, enter_conditional, enter_logical, enter_new,
    enter_unary, enter_update,
};
use js_syntax::{FunctionKind, LiteralValue, NodeKind};
use js_tree::{Ident, Node};
use run_plan::{Ask, Plan, Wanted, asks_first, replies, run_in_turn, uncovered};
use run_scope::make_function;
use run_value::{Env, literal_value};
use run_world::{World, gives};
use std::alloc::{AllocError, Global};

// A name (13.1.3): `typeof` asks in its own way.
fn enter_name<'a>(
    world: &mut World<'a>,
    alloc: Global,
    name: &Ident,
    nodes: &'a [Option<Node>],
    wanted: Wanted,
    env: Env<'a>,
) -> Result<Plan<'a>, AllocError>
    ensures does { IfOk result (λ p. (E : Enter) → at world.old (does E (Kind.ReferenceName name.now) (row nodes.now) (eval E (row nodes.now)) (value (wanted_of wanted)) env.entry) ≡ at world.new (plans E p)) }
{
    let slot = env.look(name.as_str());
    match wanted {
        Wanted::ForTypeof => {
            let reply = world.typeof_name(slot, name.as_str())?;
            replies(alloc, reply)
        }
        _ => {
            let reply = world.name_value(slot, name.as_str())?;
            replies(alloc, reply)
        }
    }
}

// `this` is bound as a name that no program can declare.
fn enter_this<'a>(
    world: &mut World<'a>,
    alloc: Global,
    nodes: &'a [Option<Node>],
    wanted: Wanted,
    env: Env<'a>,
) -> Result<Plan<'a>, AllocError>
    ensures does { IfOk result (λ p. (E : Enter) → at world.old (does E Kind.ThisExpression (row nodes.now) (eval E (row nodes.now)) (value (wanted_of wanted)) env.entry) ≡ at world.new (plans E p)) }
{
    let slot = env.look("this");
    let reply = world.name_value(slot, "this")?;
    replies(alloc, reply)
}

fn enter_literal<'a>(alloc: Global, literal: &LiteralValue) -> Result<Plan<'a>, AllocError>
    ensures { IfOk result (λ p. (E : Enter) → plans E p ≡ give (literal_value literal.now)) }
{
    let value = literal_value(alloc, literal)?;
    replies(alloc, gives(value))
}

// A function expression (15.2.5) or an arrow (15.3.4).
fn enter_function<'a>(
    world: &mut World<'a>,
    alloc: Global,
    kind: FunctionKind,
    nodes: &'a [Option<Node>],
    env: Env<'a>,
) -> Result<Plan<'a>, AllocError>
    ensures does { IfOk result (λ p. (E : Enter) → at world.old (function_value kind (row nodes.now) env.entry) ≡ at world.new (plans E p)) }
{
    let reply = make_function(world, alloc, kind, nodes, env)?;
    replies(alloc, reply)
}

/// The first step of a node that is asked for its value.
pub fn enter_value<'a>(
    world: &mut World<'a>,
    alloc: Global,
    node: &'a Node,
    wanted: Wanted,
    env: Env<'a>,
) -> Result<Plan<'a>, AllocError>
    ensures does { IfOk result (λ p. (E : Enter) → at world.old (does E node.now.kind node.now.below (eval E node.now.below) (value (wanted_of wanted)) env.entry) ≡ at world.new (plans E p)) }
{
    let nodes = node.children();
    match node.kind() {
        NodeKind::ThisExpression => enter_this(world, alloc, nodes, wanted, env),
        NodeKind::ReferenceName(name) => enter_name(world, alloc, name, nodes, wanted, env),
        NodeKind::Literal(literal) => enter_literal(alloc, literal),
        NodeKind::Function {
            kind: FunctionKind::Expression,
            ..
        } => enter_function(world, alloc, FunctionKind::Expression, nodes, env),
        NodeKind::Function {
            kind: FunctionKind::Arrow,
            ..
        } => enter_function(world, alloc, FunctionKind::Arrow, nodes, env),
        NodeKind::ArrayExpression => enter_array(alloc, nodes, wanted, env),
        NodeKind::ObjectExpression => enter_object(alloc, nodes, wanted, env),
        NodeKind::ParenthesizedExpression => asks_first(alloc, nodes, Ask::Value(wanted), env),
        NodeKind::SequenceExpression => {
            asks_first(alloc, nodes, Ask::Value(Wanted::Itself), env)
        }
        NodeKind::Expressions => run_in_turn(alloc, nodes, env),
        NodeKind::UnaryExpression(operator) => enter_unary(alloc, *operator, nodes, wanted, env),
        NodeKind::UpdateExpression { operator, prefix } => {
            enter_update(alloc, *operator, *prefix, nodes, wanted, env)
        }
        NodeKind::BinaryExpression(operator) => enter_binary(alloc, *operator, nodes, wanted, env),
        NodeKind::LogicalExpression(operator) => {
            enter_logical(alloc, *operator, nodes, wanted, env)
        }
        NodeKind::AssignmentExpression(operator) => {
            enter_assignment(alloc, *operator, nodes, wanted, env)
        }
        NodeKind::ConditionalExpression => enter_conditional(alloc, nodes, wanted, env),
        NodeKind::CallExpression {
            optional: false,
            pure,
        } => enter_call(alloc, *pure, nodes, wanted, env),
        NodeKind::NewExpression(pure) => enter_new(alloc, *pure, nodes, wanted, env),
        NodeKind::MemberExpression {
            key,
            optional: false,
        } => enter_member(alloc, key, nodes, wanted, env),
        _ => uncovered(alloc),
    }
}
