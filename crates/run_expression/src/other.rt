// Nodes that are asked for what they refer to, for the values of a list, or for the value of a property.
ghost use Rattle.std.specs.Prelude.{◌≡◌, IfOk};
ghost use Rattle.js_syntax.specs.Node.{row};
ghost use Rattle.js_meaning.specs.Node.{place, collect, entry, now, need, may};
ghost use Rattle.js_meaning.specs.Meaning.{does, eval};
ghost use Rattle.js_meaning.specs.Host.{Enter};
ghost use Rattle.run_world.specs.World.{at};
ghost use Rattle.run_plan.specs.Frame.{plans};

use crate::member::enter_member_place;
use js_syntax::NodeKind;
use js_tree::Node;
use run_plan::{
    Ask, Front, Plan, Wanted, asks_first, collect_values, first_field, replies, uncovered,
};
use run_value::Env;
use run_world::World;
use std::alloc::{AllocError, Global};

/// The first step of a node that is asked for what it refers to.
pub fn enter_place<'a>(
    world: &mut World<'a>,
    alloc: Global,
    node: &'a Node,
    env: Env<'a>,
) -> Result<Plan<'a>, AllocError>
    ensures does { IfOk result (λ p. (E : Enter) → at world.old (does E node.now.kind node.now.below (eval E node.now.below) place env.entry) ≡ at world.new (plans E p)) }
{
    let nodes = node.children();
    match node.kind() {
        NodeKind::TargetName(name) => {
            let slot = env.look(name.as_str());
            let reply = world.name_place(slot, name.as_str())?;
            replies(alloc, reply)
        }
        NodeKind::ParenthesizedExpression => asks_first(alloc, nodes, Ask::Place, env),
        NodeKind::MemberExpression {
            key,
            optional: false,
        } => enter_member_place(alloc, key, nodes, env),
        _ => uncovered(alloc),
    }
}

/// The first step of a node that is asked for the values of a list.
pub fn enter_collection<'a>(
    alloc: Global,
    node: &'a Node,
    env: Env<'a>,
) -> Result<Plan<'a>, AllocError>
    ensures { IfOk result (λ p. (E : Enter) → plans E p ≡ does E node.now.kind node.now.below (eval E node.now.below) collect env.entry) }
{
    let nodes = node.children();
    match node.kind() {
        NodeKind::Elements | NodeKind::Arguments => {
            collect_values(alloc, false, nodes, env, Vec::new(alloc))
        }
        NodeKind::Properties => collect_values(alloc, true, nodes, env, Vec::new(alloc)),
        _ => uncovered(alloc),
    }
}

#[tactic(auto, unfolding(js_meaning::specs::Node::may, js_meaning::specs::Meaning::eval))]
fn property_value<'a>(
    alloc: Global,
    nodes: &'a [Option<Node>],
    env: Env<'a>,
) -> Result<Plan<'a>, AllocError>
    ensures { IfOk result (λ p. (E : Enter) → plans E p ≡ may (eval E (row nodes.now)) (λ k r. need r (λ m r. m now env.entry))) }
{
    match first_field(nodes) {
        Front::Node(_, others) => asks_first(alloc, others, Ask::Value(Wanted::Itself), env),
        Front::Absent(others) => asks_first(alloc, others, Ask::Value(Wanted::Itself), env),
        Front::End => uncovered(alloc),
    }
}

/// The first step of a property that is asked for its value.
pub fn enter_entry<'a>(alloc: Global, node: &'a Node, env: Env<'a>) -> Result<Plan<'a>, AllocError>
    ensures { IfOk result (λ p. (E : Enter) → plans E p ≡ does E node.now.kind node.now.below (eval E node.now.below) entry env.entry) }
{
    match node.kind() {
        NodeKind::Property { .. } => property_value(alloc, node.children(), env),
        _ => uncovered(alloc),
    }
}
