// Where a node stood.
ghost use Rattle.std.specs.Prelude.{◌≡◌};
ghost use Rattle.serde_json.specs.Find.{get};
ghost use Rattle.json_value.specs.View.{view};
ghost use Rattle.json_text.specs.Reading as reading;

use js_syntax::{SPAN, Span};
use json_value::Value;

// A whole number of 32 bits.
fn offset(node: &Value<'_>, field: &str) -> Option<u32>
    ensures { result ≡ reading.offset_at (get field.now (view node.now)) }
{
    let Some(Value::Number(number)) = node.get(field) else {
        return None;
    };
    match number.as_u64() {
        Some(n) if n < 4_294_967_296 => Some(n as u32),
        _ => None,
    }
}

/// Where the node stood.
#[tactic(auto, unfolding(json_text::specs::Reading::span_of))]
pub fn span_of(node: &Value<'_>) -> Span
    ensures { result ≡ reading.span_of (view node.now) }
{
    match (offset(node, "start"), offset(node, "end")) {
        (Some(start), Some(end)) => Span { start, end },
        _ => SPAN,
    }
}
