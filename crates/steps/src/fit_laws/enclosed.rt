// The laws. Each is a contract, so that the check proves it.
ghost use Rattle.std.specs.Prelude.{◌≡◌, true};
ghost use Rattle.js_syntax.specs.Class.{root};
ghost use Rattle.js_syntax.specs.Node.{Forest};
ghost use Rattle.json_shape.specs.Shape.{Fits};
ghost use Rattle.steps.specs.Fit.Enclosed.{is_enclosed};

/// Law: a tree that fits the table of node types declares names where the table lets them be declared: what lies in a function or a
/// class declares nothing around it, but for its own name, and nothing lies below a value or a name that is read.
pub fn what_fits_is_enclosed()
    ensures { (t : Forest) → Fits root t → is_enclosed t ≡ true }
{}
