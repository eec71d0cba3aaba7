// A node that becomes a part of itself, or is rebuilt of its parts.
ghost use Rattle.std.specs.Prelude.{◌≡◌, true, Some};
ghost use Rattle.js_syntax.specs.Class.{expression};
ghost use Rattle.js_syntax.specs.Node.{Forest, Tree};
ghost use Rattle.json_shape.specs.Shape.{Fits};
ghost use Rattle.scope_rules.specs.Table.{Scoping};
ghost use Rattle.scope_laws.specs.Place.{Around, plug};
ghost use Rattle.steps.specs.Owed.Kept.{is_program, IsKept};
ghost use Rattle.steps.specs.Owed.Owed.{ByParts, Becoming};
ghost use Rattle.steps.specs.Owed.Part.{DeclaresNothing, IsPart};

/// Law: the table of a program stays exact, with shorter lists, where a part of a node stands in its place.
pub fn parts_keep_the_table()
    ensures { (a : Around) (x y : Tree) → IsPart x y → is_program (plug a (Some x)) ≡ true → (s : Scoping) → IsKept s (plug a (Some x)) → IsKept s (plug a (Some y)) }
{}

/// Law: an expression that fits the table of node types declares no name around it.
pub fn expressions_declare_nothing()
    ensures { (t : Forest) → Fits expression t → DeclaresNothing t }
{}

/// Law: what an expression owes that is rebuilt of its parts is all that a node owes which becomes another.
pub fn expressions_may_be_rebuilt()
    ensures { (a : Around) (x y : Tree) → ByParts a x y → Becoming a x y }
{}
