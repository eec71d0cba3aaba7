// Where a rule is broken.
ghost use Rattle.std.specs.Prelude.{◌≡◌};
ghost use Rattle.form_rules.specs.Break.{comes_before, merged};

/// A broken rule: the number of nodes before the node that breaks it, in order of places, and the rule's
/// number.
#[derive(Clone, Copy, Debug, PartialEq, Eq)]
pub struct Break {
    pub place: u32,
    pub rule: u8,
}

fn comes_before(one: Break, other: Break) -> bool
    ensures { result ≡ comes_before one other }
{
    one.place < other.place || (one.place == other.place && one.rule < other.rule)
}

/// The first of two breaks, by place and then by rule, where there is one.
pub fn first_of(one: Option<Break>, other: Option<Break>) -> Option<Break>
    ensures first { result ≡ merged one other }
{
    match (one, other) {
        (Some(a), Some(b)) => Some(if comes_before(b, a) { b } else { a }),
        (Some(a), None) => Some(a),
        (None, b) => b,
    }
}
