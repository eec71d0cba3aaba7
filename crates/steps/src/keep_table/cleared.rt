// What holds of a program without the empty statements of its lists.
ghost use Rattle.js_syntax.specs.Class.{root};
ghost use Rattle.js_syntax.specs.Node.{Forest};
ghost use Rattle.min_pass.specs.Pass.{cleared};
ghost use Rattle.json_shape.specs.Shape.{Fits};
ghost use Rattle.json_shape.specs.Exact.{IsExact};

/// Law: a program without the empty statements of its lists fits the table, where the program fits it.
pub fn cleared_trees_fit()
    ensures { (t : Forest) → Fits root t → Fits root (cleared t) }
{}

/// Law: the values of what is left are exact if those of the program are.
pub fn cleared_trees_are_exact()
    ensures { (t : Forest) → IsExact t → IsExact (cleared t) }
{}
