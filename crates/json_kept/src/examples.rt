// Small modules with what is written of them. Each is a contract, so that the check computes it.
ghost use Rattle.std.specs.Prelude.{◌≡◌, codes, Ok, negsuc};
ghost use Rattle.serde_json.specs.Data.{negative as negative_number, depth};
ghost use Rattle.js_syntax.specs.Node.{total};
ghost use Rattle.js_syntax.specs.declared.value.Key.TheVariants.{Name as key_name, Text as key_text};
ghost use Rattle.json_text.specs.Reading.{read_program};
ghost use Rattle.json_text.specs.Text.{data_of};
ghost use Rattle.js_meaning_near.specs.Signed.{signed};
ghost use Rattle.json_kept.specs.Respelled.{negative, misnamed};
ghost use Rattle.json_kept.specs.Samples as sample;

/// `throw -4;` with the literal -4, which no parser gives, is written with unary minus on 4, and read as that: no more than
/// its sign is another, and its text nests one level deeper than what it was read from.
pub fn a_negative_literal()
    ensures read { read_program (sample.throws_data (sample.number_data (negative_number (negsuc 3)))) ≡ Ok (sample.throws sample.less_four) }
    ensures counted { total negative (sample.throws sample.less_four) ≡ 1 }
    ensures back { read_program (data_of (sample.throws sample.less_four)) ≡ Ok (sample.throws sample.minus_on_four) }
    ensures signed { signed (sample.throws sample.less_four) ≡ sample.throws sample.minus_on_four }
    ensures source { depth (sample.throws_data (sample.number_data (negative_number (negsuc 3)))) ≡ 4 }
    ensures text { depth (data_of (sample.throws sample.less_four)) ≡ 5 }
{}

/// So is `throw -4;` as parsers give it, which is written as deep as it was read.
pub fn a_minus()
    ensures counted { total negative (sample.throws sample.minus_on_four) ≡ 0 }
    ensures back { read_program (data_of (sample.throws sample.minus_on_four)) ≡ Ok (sample.throws sample.minus_on_four) }
    ensures text { depth (data_of (sample.throws sample.minus_on_four)) ≡ 5 }
{}

/// `throw { "a b": 1 };` with an Identifier of the name `a b`, which no parser gives, is written with a text for a key, and read
/// as another tree.
pub fn a_name_that_is_none()
    ensures read { read_program (sample.throws_data (sample.object_data (codes "a b"))) ≡ Ok (sample.throws (sample.an_object (key_name (codes "a b")))) }
    ensures counted { total misnamed (sample.throws (sample.an_object (key_name (codes "a b")))) ≡ 1 }
    ensures back { read_program (data_of (sample.throws (sample.an_object (key_name (codes "a b"))))) ≡ Ok (sample.throws (sample.an_object (key_text (codes "a b")))) }
{}

/// `throw { ab: 1 };` is written with an Identifier, and read as itself.
pub fn a_name_that_is_one()
    ensures counted { total misnamed (sample.throws (sample.an_object (key_name (codes "ab")))) ≡ 0 }
    ensures back { read_program (data_of (sample.throws (sample.an_object (key_name (codes "ab"))))) ≡ Ok (sample.throws (sample.an_object (key_name (codes "ab")))) }
{}
