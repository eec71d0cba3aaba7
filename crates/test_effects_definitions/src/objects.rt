//! Objects, arrays, templates and classes.
ghost use Rattle.std.specs.Prelude.{◌≡◌, true, false, codes};
ghost use Rattle.js_syntax.specs.declared.node_kind.NodeKind.TheVariants.{ThisExpression, NewTarget, ImportMeta, EmptyStatement};
ghost use Rattle.js_syntax.specs.Node.{nothing, absent};
ghost use Rattle.js_effects.specs.Answers.{bare_answers};
ghost use Rattle.js_effects.specs.declared.value.ValueType.TheVariants as type;
ghost use Rattle.test_effects_definitions.specs.Expressions.{told, over, num, txt, name, a_call, object, array, spread, computed, sequence, template, arrow, a_class, field, static_block, member, silent, acting, an_object, an_acting_object, strange_answers};

/// Arrays and objects.
pub fn literals()
    ensures spread_array { told bare_answers (array (spread (array (num 1 nothing)) nothing) nothing) ≡ an_object }
    ensures spread_name { told bare_answers (array (spread (name (codes "x")) nothing) nothing) ≡ an_acting_object }
    ensures spread_in_an_object { told bare_answers (object (spread (array nothing) nothing) nothing) ≡ an_acting_object }
    ensures primitive_key { told bare_answers (object (computed (txt (codes "a")) nothing) nothing) ≡ an_object }
    ensures object_as_a_key { told bare_answers (object (computed (object nothing) nothing) nothing) ≡ an_acting_object }
    ensures acting_element { told bare_answers (array (a_call nothing) nothing) ≡ an_acting_object }
    ensures arrow { told bare_answers (arrow nothing) ≡ an_object }
{}

/// Templates.
pub fn templates()
    ensures of_a_number { told bare_answers (template (num 1) nothing) ≡ silent type.String }
    ensures of_an_object { told bare_answers (template (object nothing) nothing) ≡ acting type.String }
    ensures of_a_name { told bare_answers (template (name (codes "x")) nothing) ≡ acting type.String }
{}

/// Classes.
pub fn classes()
    ensures empty { told bare_answers (a_class absent nothing nothing) ≡ an_object }
    ensures of_an_arrow { told bare_answers (a_class arrow nothing nothing) ≡ an_acting_object }
    ensures of_a_sequence { told bare_answers (a_class (sequence (num 1) arrow) nothing nothing) ≡ an_acting_object }
    ensures of_a_call { told bare_answers (a_class a_call nothing nothing) ≡ an_acting_object }
    ensures field { told bare_answers (a_class absent (field false (a_call nothing)) nothing) ≡ an_object }
    ensures static_field { told bare_answers (a_class absent (field true (num 1 nothing)) nothing) ≡ an_acting_object }
    ensures static_field_without_value { told bare_answers (a_class absent (field true (absent nothing)) nothing) ≡ an_object }
    ensures empty_block { told bare_answers (a_class absent (static_block nothing) nothing) ≡ an_object }
    ensures block { told bare_answers (a_class absent (static_block (over EmptyStatement nothing nothing)) nothing) ≡ an_acting_object }
{}

/// What has no parts.
pub fn words()
    ensures this { told bare_answers (over ThisExpression nothing nothing) ≡ silent type.Undetermined }
    ensures this_too_early { told strange_answers (over ThisExpression nothing nothing) ≡ acting type.Undetermined }
    ensures new_target { told bare_answers (over NewTarget nothing nothing) ≡ silent type.Undetermined }
    ensures import_meta { told bare_answers (over ImportMeta nothing nothing) ≡ acting type.Undetermined }
    ensures member { told bare_answers (member (name (codes "x")) (codes "a") nothing) ≡ acting type.Undetermined }
{}
