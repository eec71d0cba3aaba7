// Array and object literals, sequences and parentheses (ECMA-262 13.2, 13.16).
ghost use Rattle.std.specs.Prelude.{◌≡◌, IfOk};
ghost use Rattle.js_syntax.specs.Node.{row};
ghost use Rattle.js_syntax.specs.declared.node_kind.NodeKind.{NodeKind as Kind};
ghost use Rattle.js_meaning.specs.Value.{object, no_content};
ghost use Rattle.js_meaning.specs.State.{give, identity, with_all};
ghost use Rattle.js_meaning.specs.Expression.{object_content};
ghost use Rattle.js_meaning.specs.Node.{value, collect};
ghost use Rattle.js_meaning.specs.Meaning.{does, eval};
ghost use Rattle.js_meaning.specs.Host.{Enter};
ghost use Rattle.run_plan.specs.Ask.{wanted_of};
ghost use Rattle.run_plan.specs.Frame.{meaning, plans};

use js_tree::Node;
use run_plan::{
    AfterValues, Ask, Front, Nodes, Plan, Wanted, asks, first_field, then_values, uncovered,
};
use run_value::Env;
use std::alloc::{AllocError, Global};

/// An array literal (13.2.4).
#[tactic(auto, unfolding(js_meaning::specs::Node::need, js_meaning::specs::Meaning::eval))]
pub(crate) fn enter_array<'a>(
    alloc: Global,
    nodes: &'a [Option<Node>],
    wanted: Wanted,
    env: Env<'a>,
) -> Result<Plan<'a>, AllocError>
    ensures { IfOk result (λ p. (E : Enter) → plans E p ≡ does E Kind.ArrayExpression (row nodes.now) (eval E (row nodes.now)) (value (wanted_of wanted)) env.entry) }
{
    match first_field(nodes) {
        Front::Node(elements, _) => {
            let plan = asks(alloc, elements, Ask::Collect, env)?;
            then_values(alloc, plan, AfterValues::Array)
        }
        Front::Absent(_) => uncovered(alloc),
        Front::End => uncovered(alloc),
    }
}

fn object_plan<'a>(
    alloc: Global,
    properties: &'a Node,
    env: Env<'a>,
) -> Result<Plan<'a>, AllocError>
    ensures { IfOk result (λ p. (E : Enter) → plans E p ≡ with_all (meaning E properties.now collect env.entry) (λ vs. identity (λ i. give (object i (object_content properties.now.below vs no_content))))) }
{
    let below = Nodes::new(properties.children());
    let plan = asks(alloc, properties, Ask::Collect, env)?;
    then_values(alloc, plan, AfterValues::Object(below))
}

/// An object literal (13.2.5).
#[tactic(auto, unfolding(js_meaning::specs::Node::need, js_meaning::specs::Meaning::eval))]
pub(crate) fn enter_object<'a>(
    alloc: Global,
    nodes: &'a [Option<Node>],
    wanted: Wanted,
    env: Env<'a>,
) -> Result<Plan<'a>, AllocError>
    ensures { IfOk result (λ p. (E : Enter) → plans E p ≡ does E Kind.ObjectExpression (row nodes.now) (eval E (row nodes.now)) (value (wanted_of wanted)) env.entry) }
{
    match first_field(nodes) {
        Front::Node(properties, _) => object_plan(alloc, properties, env),
        Front::Absent(_) => uncovered(alloc),
        Front::End => uncovered(alloc),
    }
}
