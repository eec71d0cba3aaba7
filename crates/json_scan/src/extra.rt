// What every node has, whatever its type.
ghost use Rattle.std.specs.Prelude.{◌≡◌, false, Some};
ghost use Rattle.serde_json.specs.Find.{get};
ghost use Rattle.json_value.specs.View.{view};
ghost use Rattle.json_text.specs.Answer.{Gives};
ghost use Rattle.json_text.specs.Fault.{fault_of};
ghost use Rattle.json_text.specs.Plain as reading;
ghost use Rattle.json_scan.specs.Scalar.{extra_view};
ghost use Rattle.json_scan.specs.Extra.{is_extra, has_extra, HasNoExtra};

use js_syntax::NodeType;
use json_text::TreeError;
use json_value::Value;

// How a field may say more of a node than the table has.
#[derive(Clone, Copy)]
enum Extra {
    TrueIsRefused,
    FullIsRefused,
    ValueIsRefused,
}

// Whether the node has this field, and it says something.
#[tactic(auto, unfolding(json_text::specs::Plain::check_extra))]
fn check_extra(
    node: &Value<'_>,
    kind: NodeType,
    field: &'static str,
    extra: Extra,
) -> Result<(), TreeError>
    ensures { Gives (λ u. u) result
        (reading.check_extra (extra_view extra) (fault_of kind field.now) (get field.now (view node.now))) }
{
    match node.get(field) {
        Some(value) if !says_nothing(value, extra) => Err(TreeError::BadField {
            kind: kind.name(),
            field,
        }),
        _ => Ok(()),
    }
}

fn says_nothing(value: &Value<'_>, extra: Extra) -> bool
    ensures { result ≡ reading.says_nothing (extra_view extra) (Some (view value.now)) }
{
    match extra {
        Extra::TrueIsRefused => !matches!(value, Value::Bool(true)),
        Extra::FullIsRefused => match value {
            Value::Null => true,
            Value::String(text) => text.is_empty(),
            Value::Array(items) => items.is_empty(),
            Value::Object(members) => members.is_empty(),
            _ => false,
        },
        Extra::ValueIsRefused => value.is_null(),
    }
}

fn is_extra(key: &str) -> bool
    ensures { result ≡ is_extra key.now }
{
    matches!(
        key,
        "async"
            | "generator"
            | "await"
            | "decorators"
            | "attributes"
            | "assertions"
            | "options"
            | "phase"
    )
}

// Whether there is such a field, so that most nodes are looked through once.
fn has_extra(members: &[(&str, Value<'_>)]) -> bool
    ensures { result ≡ has_extra members.now }
{
    'members: for member in members {
        if is_extra(member.0) {
            return true;
        }
    }
    false
}

fn may_have_extra(node: &Value<'_>) -> bool
    ensures { result ≡ false → HasNoExtra (view node.now) }
{
    match node {
        Value::Object(members) => has_extra(members.as_slice()),
        _ => false,
    }
}

/// Every node has none of the fields that say more than the table has.
#[tactic(auto, unfolding(json_text::specs::Plain::check_extras), using(crate::proofs::Steps::fails_bind))]
pub fn check_extras(node: &Value<'_>, kind: NodeType) -> Result<(), TreeError>
    ensures { Gives (λ u. u) result (reading.check_extras kind (view node.now)) }
{
    if !may_have_extra(node) {
        return Ok(());
    }
    check_extra(node, kind, "async", Extra::TrueIsRefused)?;
    check_extra(node, kind, "generator", Extra::TrueIsRefused)?;
    check_extra(node, kind, "await", Extra::TrueIsRefused)?;
    check_extra(node, kind, "decorators", Extra::FullIsRefused)?;
    check_extra(node, kind, "attributes", Extra::FullIsRefused)?;
    check_extra(node, kind, "assertions", Extra::FullIsRefused)?;
    check_extra(node, kind, "options", Extra::FullIsRefused)?;
    check_extra(node, kind, "phase", Extra::ValueIsRefused)
}
