// The first of places that break a rule.
ghost use Rattle.std.specs.Prelude.{◌≡◌};
ghost use Rattle.form_rules.specs.Break.{least, merged, unless};
ghost use Rattle.form_rules.specs.Rules.{each_breaks};

use form_rules::{Break, first_of};

/// The first break of a rule that these places break.
pub fn first_break(rule: u8, places: &[u32]) -> Option<Break>
    ensures first { result ≡ least (each_breaks rule places.now) }
{
    let mut first = None;
    for place in places {
        first = first_of(
            first,
            Some(Break {
                place: *place,
                rule,
            }),
        );
    }
    first
}

/// The first of a break and of one of this rule at a place, unless the rule holds there.
pub(crate) fn first_unless(first: Option<Break>, holds: bool, place: u32, rule: u8) -> Option<Break>
    ensures { result ≡ merged first (least (unless holds place rule)) }
{
    if holds {
        return first;
    }
    first_of(first, Some(Break { place, rule }))
}
