// Properties of objects (ECMA-262 13.3.2, 13.3.3).
ghost use Rattle.std.specs.Prelude.{◌≡◌, false, IfOk};
ghost use Rattle.js_syntax.specs.Node.{row};
ghost use Rattle.js_syntax.specs.declared.node_kind.NodeKind.{NodeKind as Kind};
ghost use Rattle.js_meaning.specs.State.{with_value};
ghost use Rattle.js_meaning.specs.Expression.{member_key, member_place};
ghost use Rattle.js_meaning.specs.Node.{value, place, now};
ghost use Rattle.js_meaning.specs.Meaning.{does, eval};
ghost use Rattle.js_meaning.specs.Host.{Enter};
ghost use Rattle.run_plan.specs.Ask.{wanted_of};
ghost use Rattle.run_plan.specs.Frame.{meaning, plans, used};

use js_syntax::{Ident, Key, Text};
use js_tree::Node;
use run_plan::{
    AfterOperand, Ask, Front, Nodes, Plan, Use, Wanted, asks, first_field, then_operand, uncovered,
};
use run_value::Env;
use std::alloc::{AllocError, Global};

fn copy_key(alloc: Global, key: &Key) -> Result<Key, AllocError>
    ensures { IfOk result (λ k. k ≡ key.now) }
{
    match key {
        Key::Name(name) => {
            let name = String::from_str(alloc, name.as_str())?;
            Ok(Key::Name(Ident::new(name)))
        }
        Key::Text(text) => {
            let text = String::from_str(alloc, text.as_str())?;
            Ok(Key::Text(Text::new(text)))
        }
        Key::Number(number) => Ok(Key::Number(*number)),
        Key::Below => Ok(Key::Below),
    }
}

// The object comes first, then a computed key, and then the property is used.
fn used_plan<'a>(
    alloc: Global,
    key: &Key,
    object: &'a Node,
    rest: &'a [Option<Node>],
    aim: Use,
    env: Env<'a>,
) -> Result<Plan<'a>, AllocError>
    ensures { IfOk result (λ p. (E : Enter) → plans E p ≡ with_value (meaning E object.now now env.entry) (λ v. member_key key.now (eval E (row rest.now)) env.entry (used E aim v))) }
{
    let key = copy_key(alloc, key)?;
    let around = env.copy()?;
    let plan = asks(alloc, object, Ask::Value(Wanted::Itself), around)?;
    then_operand(
        alloc,
        plan,
        AfterOperand::MemberOf(key, Nodes::new(rest), env, aim),
    )
}

#[tactic(auto, unfolding(js_meaning::specs::Node::need, js_meaning::specs::Meaning::eval))]
fn enter_used<'a>(
    alloc: Global,
    key: &Key,
    nodes: &'a [Option<Node>],
    aim: Use,
    env: Env<'a>,
) -> Result<Plan<'a>, AllocError>
    ensures { IfOk result (λ p. (E : Enter) → plans E p ≡ member_place key.now (eval E (row nodes.now)) env.entry (used E aim)) }
{
    match first_field(nodes) {
        Front::Node(object, rest) => used_plan(alloc, key, object, rest, aim, env),
        Front::Absent(_) => uncovered(alloc),
        Front::End => uncovered(alloc),
    }
}

/// The value of a property.
pub(crate) fn enter_member<'a>(
    alloc: Global,
    key: &Key,
    nodes: &'a [Option<Node>],
    wanted: Wanted,
    env: Env<'a>,
) -> Result<Plan<'a>, AllocError>
    ensures { IfOk result (λ p. (E : Enter) → plans E p ≡ does E (Kind.MemberExpression key.now false) (row nodes.now) (eval E (row nodes.now)) (value (wanted_of wanted)) env.entry) }
{
    enter_used(alloc, key, nodes, Use::Read(wanted), env)
}

/// A property that is assigned to.
pub(crate) fn enter_member_place<'a>(
    alloc: Global,
    key: &Key,
    nodes: &'a [Option<Node>],
    env: Env<'a>,
) -> Result<Plan<'a>, AllocError>
    ensures { IfOk result (λ p. (E : Enter) → plans E p ≡ does E (Kind.MemberExpression key.now false) (row nodes.now) (eval E (row nodes.now)) place env.entry) }
{
    enter_used(alloc, key, nodes, Use::Refer, env)
}
