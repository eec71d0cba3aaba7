//! Texts that are numbers as they are written, and the numbers that have a value.
ghost use Rattle.std.specs.Prelude.{◌≡◌, pos, negsuc, true, false, Some, None, codes};
ghost use Rattle.js_effects.specs.Number.{equivalent_number, is_in_range};

/// Texts: "0", and an optional minus and digits without a leading 0.
pub fn texts()
    ensures empty { equivalent_number (codes "") ≡ None }
    ensures zero_alone { equivalent_number (codes "0") ≡ Some (pos 0) }
    ensures leading_zero { equivalent_number (codes "01") ≡ None }
    ensures negative_zero { equivalent_number (codes "-0") ≡ None }
    ensures negative { equivalent_number (codes "-5") ≡ Some (negsuc 4) }
    ensures minus { equivalent_number (codes "-") ≡ None }
    ensures largest { equivalent_number (codes "2147483647") ≡ Some (pos 2147483647) }
    ensures past_the_largest { equivalent_number (codes "2147483648") ≡ None }
    ensures least { equivalent_number (codes "-2147483648") ≡ Some (negsuc 2147483647) }
    ensures past_the_least { equivalent_number (codes "-2147483649") ≡ None }
    ensures fraction { equivalent_number (codes "1.5") ≡ None }
    ensures long { equivalent_number (codes "99999999999999999999") ≡ None }
{}

/// Numbers within 2^53 - 1.
pub fn range()
    ensures largest { is_in_range (pos 9007199254740991) ≡ true }
    ensures past_the_largest { is_in_range (pos 9007199254740992) ≡ false }
    ensures least { is_in_range (negsuc 9007199254740990) ≡ true }
    ensures past_the_least { is_in_range (negsuc 9007199254740991) ≡ false }
{}
