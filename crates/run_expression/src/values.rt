// Array and object literals, calls (ECMA-262 13.2.4, 13.2.5, 13.3.5, 13.3.6).
ghost use Rattle.std.specs.Prelude.{◌≡◌, IfOk, string_bytes};
ghost use Rattle.js_syntax.specs.Node.{row};
ghost use Rattle.js_meaning.specs.Value.{array, object, no_content};
ghost use Rattle.js_meaning.specs.State.{give, identity};
ghost use Rattle.js_meaning.specs.Host.{Enter};
ghost use Rattle.js_meaning.specs.Expression.{static_key, add_property, object_content, array_content};
ghost use Rattle.run_value.specs.View.{value_of};
ghost use Rattle.run_world.specs.World.{at, values_of};
ghost use Rattle.run_plan.specs.Frame.{plans, after_values_of};

use js_syntax::{Key, NodeKind};
use js_tree::Node;
use run_operations::{call_value, construct_value};
use run_plan::{AfterValues, Front, Plan, first_field, replies};
use run_value::{Content, Properties, Value};
use run_world::{World, gives};
use std::alloc::{AllocError, Global};
use std::rc::Rc;

/// The text of a key that isn't computed.
pub(crate) fn static_key(alloc: Global, key: &Key) -> Result<String, AllocError>
    ensures { IfOk result (λ s. string_bytes s ≡ static_key key.now) }
{
    match key {
        Key::Name(name) => {
            let text = String::from_str(alloc, name.as_str())?;
            Ok(text)
        }
        Key::Text(text) => {
            let text = String::from_str(alloc, text.as_str())?;
            Ok(text)
        }
        Key::Number(number) => {
            let text = format!(in alloc; "{number}")?;
            Ok(text)
        }
        Key::Below => Ok(String::new(alloc)),
    }
}

fn add_property<'a>(
    alloc: Global,
    kind: &NodeKind,
    value: Value<'a>,
    properties: Properties<'a>,
) -> Result<Properties<'a>, AllocError>
    ensures { IfOk result (λ p. p ≡ add_property kind.now (value_of value.entry) properties.entry) }
{
    match kind {
        NodeKind::Property { key, .. } => {
            let key = static_key(alloc, key)?;
            let key = Rc::new(alloc, key)?;
            properties.with(key, value)
        }
        _ => Ok(properties),
    }
}

fn object_content<'a>(
    alloc: Global,
    nodes: &[Option<Node>],
    values: &[Value<'a>],
    properties: Properties<'a>,
) -> Result<Properties<'a>, AllocError>
    ensures { IfOk result (λ p. p ≡ object_content (row nodes.now) (values_of values.now) properties.entry) }
{
    match first_field(nodes) {
        Front::Node(node, others) => match values {
            [value, rest @ ..] => {
                let value = value.copy()?;
                let properties = add_property(alloc, node.kind(), value, properties)?;
                object_content(alloc, others, rest, properties)
            }
            [] => Ok(properties),
        },
        Front::Absent(_) => Ok(properties),
        Front::End => Ok(properties),
    }
}

fn make_array<'a>(
    world: &mut World<'a>,
    alloc: Global,
    values: Vec<Value<'a>>,
) -> Result<Plan<'a>, AllocError>
    ensures does { IfOk result (λ p. (E : Enter) → at world.old (identity (λ i. give (array i (array_content (values_of values.entry.items))))) ≡ at world.new (plans E p)) }
{
    let number = world.identity()?;
    let content = Rc::new(alloc, Content::array(alloc, values))?;
    replies(alloc, gives(Value::Array(number, content)))
}

fn make_object<'a>(
    world: &mut World<'a>,
    alloc: Global,
    nodes: &[Option<Node>],
    values: &[Value<'a>],
) -> Result<Plan<'a>, AllocError>
    ensures does { IfOk result (λ p. (E : Enter) → at world.old (identity (λ i. give (object i (object_content (row nodes.now) (values_of values.now) no_content)))) ≡ at world.new (plans E p)) }
{
    let number = world.identity()?;
    let properties = object_content(alloc, nodes, values, Properties::new(alloc))?;
    let content = Rc::new(alloc, properties.into_content())?;
    replies(alloc, gives(Value::Object(number, content)))
}

/// What an expression does with a list of values.
pub fn resume_values<'a>(
    world: &mut World<'a>,
    alloc: Global,
    frame: AfterValues<'a>,
    values: Vec<Value<'a>>,
) -> Result<Plan<'a>, AllocError>
    ensures does { IfOk result (λ p. (E : Enter) → at world.old (after_values_of E frame.entry (values_of values.entry.items)) ≡ at world.new (plans E p)) }
{
    match frame {
        AfterValues::Array => make_array(world, alloc, values),
        AfterValues::Object(nodes) => make_object(world, alloc, nodes.nodes(), values.as_slice()),
        AfterValues::Call(callee, this) => call_value(world, alloc, &callee, this, values),
        AfterValues::New(callee) => construct_value(world, alloc, &callee, values.as_slice()),
    }
}
