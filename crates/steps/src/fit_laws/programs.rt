// What programs of the table that break no rule of form are. Each law is a contract, so that the check proves it.
ghost use Rattle.std.specs.Prelude.{◌≡◌, true};
ghost use Rattle.js_syntax.specs.Class.{root};
ghost use Rattle.js_syntax.specs.Node.{Forest};
ghost use Rattle.json_shape.specs.Shape.{Fits};
ghost use Rattle.form_rules.specs.Form.{IsWellFormed};
ghost use Rattle.steps.specs.Fit.Sensible.{is_core_module, IsSensible, IsSensibleModule};

/// Law: a program that fits the table of node types and breaks no rule of form is sensible, whatever its source type.
pub fn what_fits_is_sensible()
    ensures { (t : Forest) → Fits root t → IsWellFormed t → IsSensible t }
{}

/// Law: so a core module is a sensible module: it has what the laws on steps and runs ask besides.
pub fn core_modules_are_sensible()
    ensures { (t : Forest) → is_core_module t ≡ true → Fits root t → IsWellFormed t → IsSensibleModule t }
{}
