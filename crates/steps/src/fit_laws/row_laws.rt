// The laws. Each is a contract, so that the check proves it.
ghost use Rattle.std.specs.Prelude.{◌≡◌, true};
ghost use Rattle.js_syntax.specs.Class.{root};
ghost use Rattle.js_syntax.specs.Node.{Forest};
ghost use Rattle.json_shape.specs.Shape.{Fits};
ghost use Rattle.steps.specs.Steps.{all_core};
ghost use Rattle.steps.specs.Naming.Placed.{is_well_placed};
ghost use Rattle.steps.specs.Fit.Hoisted.{has_variables_in_place};
ghost use Rattle.steps.specs.Fit.Plain.{has_plain_statements};

/// Law: in a tree that fits the table of node types, `var` is declared where statements stand. Static blocks of classes are left out:
/// below a class's body one declares what no scope seeks there (`proofs/Fit/Exception.antt`). The core has none, and a program whose
/// declarations stand where they may has none.
pub fn without_static_blocks_variables_are_in_place()
    ensures core { (t : Forest) → Fits root t → all_core t ≡ true → has_variables_in_place t ≡ true }
    ensures placed { (t : Forest) → Fits root t → is_well_placed t ≡ true → has_variables_in_place t ≡ true }
{}

/// Law: in a core tree that fits the table, statements of expressions declare no names.
pub fn what_fits_has_plain_statements()
    ensures { (t : Forest) → Fits root t → all_core t ≡ true → has_plain_statements t ≡ true }
{}
